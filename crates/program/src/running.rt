//! The program's commands, from its words to its exit status.
ghost use Rattle.std.specs.Prelude.{◌≡◌, ◌<◌, ℕ, List, length, Option};
ghost use Rattle.program.specs.Exits.{status_of};
ghost use Rattle.command_line.specs.Orders.{said_by};
ghost use Rattle.command_line.specs.Words.{words_bytes, IsWhy, AskForHelp, AreNoCommand};
ghost use Rattle.program.specs.Inputs.{LeavesInput, LeavesInputFor, LeavesInputAt};
ghost use Rattle.program.specs.Outcomes.{stream, error_stream, Does, ReportsVersion, RefusesWords, environment, Leaves, Runs, RunsOver, ReportsEnd};
ghost use Rattle.program.specs.declared.exits.Exit.{Exit};

use crate::carrying::read_and_carry;
use crate::checking::check;
use crate::copying::{compact, copy_one};
use crate::environment::{Clock, Connections, Files};
use crate::errors::note;
use crate::exits::Exit;
use crate::operating::{carry_out, read_and_add, say_why};
use crate::reasons::Cause;
use crate::removing::remove_copied;
use crate::replays::replay_frames;
use crate::replies::{print_version, refuse};
use crate::starting::serve_with_door;
use crate::streams::ErrorStream;
use command_line::{Order, Unasked, read_words};
use machine::Keep;
use std::alloc::Global;
use std::io::{Read, Write};

/// The line for a stream that did not take everything.
const UNPRINTED: &str =
    "custody: not everything could be printed to standard output or standard error\n";

fn say_version<O: Write>(output: &mut O, schema: u64) -> Exit
    ensures { ReportsVersion schema result (stream (O.contents output.old) (O.contents output.new)) }
{
    match print_version(output, schema) {
        Ok(()) => Exit::Done,
        Err(_) => Exit::Unprinted,
    }
}

fn run_order<K: Keep, F: Files<K>, N: Connections, C: Clock, I: Read, O: Write, E: ErrorStream>(
    alloc: Global,
    files: &mut F,
    network: &mut N,
    clock: &mut C,
    order: Order<'_>,
    input: &mut I,
    output: &mut O,
    errors: &mut E,
) -> Exit
    ensures does { Does F.newest (said_by order.entry) (I.remaining input.old) result (stream (O.contents output.old) (O.contents output.new)) (error_stream (E.reported errors.old) (E.reported errors.new)) }
    ensures leaves { Leaves K.Keep F.Files N.Connections C.Clock N.Reader.Inlet N.Writer.Outlet (said_by order.entry) (I.remaining input.old) (environment files.old network.old clock.old) (environment files.new network.new clock.new) result (stream (O.contents output.old) (O.contents output.new)) (error_stream (E.reported errors.old) (E.reported errors.new)) }
    ensures input { LeavesInput (said_by order.entry) (I.remaining input.old) (I.remaining input.new) result (stream (O.contents output.old) (O.contents output.new)) (error_stream (E.reported errors.old) (E.reported errors.new)) }
{
    match order {
        Order::Carry { db, command } => carry_out(alloc, files, db, &command, output, errors),
        Order::AddToken { db, token } => {
            read_and_add(alloc, files, db, token, input, output, errors)
        }
        Order::Check { db } => check(alloc, files, db, output, errors),
        Order::Copy { from, to, org } => { copy_one(alloc, files, from, to, &org, output, errors) }
        Order::RemoveCopied {
            db,
            copy,
            org,
            is_forced,
        } => remove_copied(alloc, files, db, copy, &org, is_forced, output, errors),
        Order::Compact { from, to } => compact(alloc, files, from, to, output, errors),
        Order::Serve {
            db,
            address,
            count,
            timeouts,
            logs,
            checks,
            operates,
        } => serve_with_door(
            alloc, files, network, clock, db, address, count, timeouts, logs, checks, operates,
            input, output, errors,
        ),
        Order::CarryAll { db } => read_and_carry(alloc, files, db, input, output, errors),
        Order::Replay => { replay_frames::<K, F, I, O, E>(alloc, files, input, output, errors) }
        Order::Version => say_version(output, files.newest_schema()),
    }
}

fn report_help<E: ErrorStream>(errors: &mut E, help: &str) -> Exit
    ensures { (words : List (List ℕ)) (output : Option (List ℕ)) → AskForHelp words → 0 < length help.now → RefusesWords words result (stream output output) (error_stream (E.reported errors.old) (E.reported errors.new)) }
{
    match note(errors, help) {
        Ok(()) => Exit::Done,
        Err(_) => Exit::Unprinted,
    }
}

fn refuse_error<O: Write, E: ErrorStream>(output: &mut O, errors: &mut E, text: &str) -> Exit
    ensures { (words : List (List ℕ)) → AreNoCommand words → 0 < length text.now → RefusesWords words result (stream (O.contents output.old) (O.contents output.new)) (error_stream (E.reported errors.old) (E.reported errors.new)) }
{
    say_why(output, errors, Exit::Usage, text)
}

fn refuse_words<O: Write, E: ErrorStream>(output: &mut O, errors: &mut E, why: Unasked) -> Exit
    ensures { (words : List (List ℕ)) → IsWhy words why → RefusesWords words result (stream (O.contents output.old) (O.contents output.new)) (error_stream (E.reported errors.old) (E.reported errors.new)) }
{
    match why {
        Unasked::Help(help) => report_help(errors, help.as_str()),
        Unasked::Words(text) => refuse_error(output, errors, text.as_str()),
        Unasked::Value(argument) => say_why(output, errors, Exit::Usage, argument.line()),
        Unasked::Down => refuse(output, errors, Cause::NoMemory),
    }
}

fn run<K: Keep, F: Files<K>, N: Connections, C: Clock, I: Read, O: Write, E: ErrorStream>(
    alloc: Global,
    files: &mut F,
    network: &mut N,
    clock: &mut C,
    words: &[String],
    input: &mut I,
    output: &mut O,
    errors: &mut E,
) -> Exit
    ensures runs { RunsOver K.Keep F.Files N.Connections C.Clock N.Reader.Inlet N.Writer.Outlet (words_bytes words.now) (I.remaining input.old) (environment files.old network.old clock.old) (environment files.new network.new clock.new) result (stream (O.contents output.old) (O.contents output.new)) (error_stream (E.reported errors.old) (E.reported errors.new)) }
    ensures input { LeavesInputFor (words_bytes words.now) (I.remaining input.old) (I.remaining input.new) result (stream (O.contents output.old) (O.contents output.new)) (error_stream (E.reported errors.old) (E.reported errors.new)) }
{
    match read_words(alloc, words) {
        Ok(order) => run_order(alloc, files, network, clock, order, input, output, errors),
        Err(why) => refuse_words(output, errors, why),
    }
}

// If a stream did not take everything, reports that on the error stream.
fn report_end<E: ErrorStream>(errors: &mut E, exit: Exit)
    ensures { ReportsEnd exit (error_stream (E.reported errors.old) (E.reported errors.new)) }
{
    if exit == Exit::Unprinted {
        let _ = note(errors, UNPRINTED);
    }
}

/// Runs the command that the words ask for. They come without the program's name. Returns the exit status.
pub fn run_words<K: Keep, F: Files<K>, N: Connections, C: Clock, I: Read, O: Write, E: ErrorStream>(
    alloc: Global,
    files: &mut F,
    network: &mut N,
    clock: &mut C,
    words: &[String],
    input: &mut I,
    output: &mut O,
    errors: &mut E,
) -> u8
    ensures runs { (exit : Exit) × (result ≡ status_of exit) × Runs K.Keep F.Files N.Connections C.Clock N.Reader.Inlet N.Writer.Outlet (words_bytes words.now) (I.remaining input.old) (environment files.old network.old clock.old) (environment files.new network.new clock.new) exit (stream (O.contents output.old) (O.contents output.new)) (error_stream (E.reported errors.old) (E.reported errors.new)) }
    ensures input { LeavesInputAt (words_bytes words.now) result (I.remaining input.old) (I.remaining input.new) (stream (O.contents output.old) (O.contents output.new)) (error_stream (E.reported errors.old) (E.reported errors.new)) }
{
    let exit = run(alloc, files, network, clock, words, input, output, errors);
    report_end(errors, exit);
    exit.status()
}
