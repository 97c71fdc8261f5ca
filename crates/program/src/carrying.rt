//! The command `admin`: a file is opened once, and the operator's commands on standard input are carried out on it.
ghost use Rattle.std.specs.Prelude.{◌≡◌, ◌⊎◌, IfOk, OnOk, IfSome, option_copied};
ghost use Rattle.std.specs.Io.KnownBytes.{IsAtEnd};
ghost use Rattle.program.specs.Batches.{AreLines, first_command};
ghost use Rattle.program.specs.Inputs.{ReadsAll};
ghost use Rattle.program.specs.Outcomes.{stream, error_stream, EndsBatch, AnswersBatch, CarriesLine, CarriesEach, CarriesLines, CarriesAll, CarriesAllAt, RefusesToOpen, opening_of};

use crate::batches::{Batch, BatchLine, read_batch};
use crate::environment::Files;
use crate::errors::{report_at, report_bad_line};
use crate::exits::Exit;
use crate::openings::{close_after, open_one};
use crate::operating::{opening_of, operate_on};
use crate::reasons::Cause;
use crate::replays::read_all;
use crate::replies::{refuse, say};
use crate::streams::ErrorStream;
use basis::Down;
use machine::Keep;
use serve::{Admin, Service};
use std::alloc::Global;
use std::io::{Read, Write};

// The beginning of the line about the command after which no further one is carried out.
const STOPPED: &str = "custody: stopped at line ";

// Carries out the command of a line, if it has one.
fn carry_line<K: Keep, F: Files<K>, O: Write, E: ErrorStream>(
    alloc: Global,
    files: &F,
    service: &mut Service<K>,
    line: &BatchLine,
    output: &mut O,
    errors: &mut E,
) -> Exit
    ensures ends { EndsBatch result }
    ensures carries { CarriesLine K.Keep F.Files line.now service.old.keep service.new.keep result (O.contents output.old) (O.contents output.new) (E.reported errors.old) (E.reported errors.new) }
{
    match line {
        BatchLine::Skipped => Exit::Done,
        BatchLine::Command(command) => {
            operate_on(alloc, files, service, command, output, errors)
        }
    }
}

// Carries out the commands of lines in order, up to the first that does not end with status 0.
fn carry_each<K: Keep, F: Files<K>, O: Write, E: ErrorStream>(
    alloc: Global,
    files: &F,
    service: &mut Service<K>,
    lines: &[BatchLine],
    output: &mut O,
    errors: &mut E,
) -> Exit
    ensures ends { EndsBatch result }
    ensures each { CarriesEach K.Keep F.Files lines.now 1 service.old.keep service.new.keep result (O.contents output.old) (O.contents output.new) (E.reported errors.old) (E.reported errors.new) }
{
    for (line_index, line) in lines.iter().enumerate() {
        let exit = carry_line(alloc, files, service, line, output, errors);
        if exit != Exit::Done {
            report_at(errors, STOPPED, line_index + 1);
            return exit;
        }
    }
    Exit::Done
}

// Carries out the commands of lines on the store at a path, which is opened once.
fn carry_lines<K: Keep, F: Files<K>, O: Write, E: ErrorStream>(
    alloc: Global,
    files: &mut F,
    db: &str,
    first: &Admin,
    lines: &[BatchLine],
    output: &mut O,
    errors: &mut E,
) -> Exit
    ensures ends { EndsBatch result }
    ensures carries { CarriesLines K.Keep F.Files db.now first.now lines.now files.old files.new result (stream (O.contents output.old) (O.contents output.new)) (error_stream (E.reported errors.old) (E.reported errors.new))
        ⊎ RefusesToOpen K.Keep F.Files db.now (opening_of first.now) files.old files.new result (stream (O.contents output.old) (O.contents output.new)) (error_stream (E.reported errors.old) (E.reported errors.new)) }
{
    let store = match open_one(files, db, opening_of(first), output, errors) {
        Ok(store) => store,
        Err(exit) => return exit,
    };
    let mut service = Service::new(store);
    let exit = carry_each(alloc, files, &mut service, lines, output, errors);
    close_after(files, db, service.into_keep(), errors);
    exit
}

// The first command among lines.
fn first_command(lines: &[BatchLine]) -> Option<&Admin>
    ensures { option_copied result ≡ first_command lines.now }
{
    for line in lines {
        match line {
            BatchLine::Skipped => {}
            BatchLine::Command(command) => return Some(command),
        }
    }
    None
}

fn carry_all<K: Keep, F: Files<K>, O: Write, E: ErrorStream>(
    alloc: Global,
    files: &mut F,
    db: &str,
    lines: &[BatchLine],
    output: &mut O,
    errors: &mut E,
) -> Exit
    ensures ends { EndsBatch result }
    ensures carries { CarriesAll K.Keep F.Files db.now lines.now files.old files.new result (stream (O.contents output.old) (O.contents output.new)) (error_stream (E.reported errors.old) (E.reported errors.new)) }
{
    match first_command(lines) {
        None => Exit::Done,
        Some(first) => carry_lines(alloc, files, db, first, lines, output, errors),
    }
}

// Reads the lines of the input.
fn input_batch<I: Read>(alloc: Global, input: &mut I) -> Result<Batch, Down>
    ensures lines { IfOk result (λ batch. IfSome (I.remaining input.old) (λ bytes. AreLines bytes batch.lines.items batch.fault)) }
    ensures end { OnOk result (IsAtEnd (I.remaining input.new)) }
{
    let bytes = read_all(alloc, input)?;
    read_batch(alloc, bytes.as_slice())
}

/// Reads commands from standard input, one per line, and carries them out on the store at a path. Skips empty lines and lines that
/// begin with `#`. If another line is not a command, it carries out none.
pub fn read_and_carry<K: Keep, F: Files<K>, I: Read, O: Write, E: ErrorStream>(
    alloc: Global,
    files: &mut F,
    db: &str,
    input: &mut I,
    output: &mut O,
    errors: &mut E,
) -> Exit
    ensures line { AnswersBatch (I.remaining input.old) result (stream (O.contents output.old) (O.contents output.new)) (error_stream (E.reported errors.old) (E.reported errors.new)) }
    ensures carries { CarriesAllAt K.Keep F.Files db.now (I.remaining input.old) files.old files.new result (stream (O.contents output.old) (O.contents output.new)) (error_stream (E.reported errors.old) (E.reported errors.new)) }
    ensures input { ReadsAll (I.remaining input.new) result (stream (O.contents output.old) (O.contents output.new)) (error_stream (E.reported errors.old) (E.reported errors.new)) }
{
    let Ok(batch) = input_batch(alloc, input) else {
        return refuse(output, errors, Cause::Input);
    };
    if let Some(fault) = batch.fault {
        report_bad_line(errors, batch.lines.len() + 1, fault);
        return say(output, Exit::Usage);
    }
    carry_all(alloc, files, db, batch.lines.as_slice(), output, errors)
}
