//! The program over the files, the sockets and the clock of the system.
ghost use Rattle.std.specs.Prelude.{◌≡◌};
ghost use Rattle.program.specs.Exits.{status_of};
ghost use Rattle.statements.specs.declared.making.TheConstants.{SCHEMA_VERSION};
ghost use Rattle.program.specs.Inputs.{LeavesInputAt};
ghost use Rattle.program.specs.Outcomes.{stream, error_stream, Prints};
ghost use Rattle.command_line.specs.Words.{words_bytes};
ghost use Rattle.program.specs.declared.exits.Exit.{Exit};

use crate::clock::SystemClock;
use crate::files::DiskFiles;
use crate::sockets::TcpSockets;
use machine::Keep;
use program::environment::Files;
use program::running::run_words;
use program::streams::ErrorStream;
use sqlite_disk::{Start, Unknown};
use std::io::{Read, Write};
use std::rt::HostRuntime;

// Over the sockets and the clock of the system, and any files.
fn run_over<K: Keep, F: Files<K>, I: Read, O: Write, E: ErrorStream>(
    rt: &HostRuntime,
    files: &mut F,
    words: &[String],
    input: &mut I,
    output: &mut O,
    errors: &mut E,
) -> u8
    ensures prints { (exit : Exit) × (result ≡ status_of exit) × Prints F.newest (words_bytes words.now) (I.remaining input.old) exit (stream (O.contents output.old) (O.contents output.new)) (error_stream (E.reported errors.old) (E.reported errors.new)) }
    ensures input { LeavesInputAt (words_bytes words.now) result (I.remaining input.old) (I.remaining input.new) (stream (O.contents output.old) (O.contents output.new)) (error_stream (E.reported errors.old) (E.reported errors.new)) }
{
    let mut network = TcpSockets::new(rt);
    let mut clock = SystemClock::new(rt);
    run_words(
        rt.alloc(),
        files,
        &mut network,
        &mut clock,
        words,
        input,
        output,
        errors,
    )
}

fn run_from<S: Start, I: Read, O: Write, E: ErrorStream>(
    rt: &HostRuntime,
    start: S,
    other: S,
    words: &[String],
    input: &mut I,
    output: &mut O,
    errors: &mut E,
) -> u8
    ensures prints { (exit : Exit) × (result ≡ status_of exit) × Prints SCHEMA_VERSION (words_bytes words.now) (I.remaining input.old) exit (stream (O.contents output.old) (O.contents output.new)) (error_stream (E.reported errors.old) (E.reported errors.new)) }
    ensures input { LeavesInputAt (words_bytes words.now) result (I.remaining input.old) (I.remaining input.new) (stream (O.contents output.old) (O.contents output.new)) (error_stream (E.reported errors.old) (E.reported errors.new)) }
{
    let mut files = DiskFiles::new(rt, start, other);
    run_over(rt, &mut files, words, input, output, errors)
}

/// As `run_words`, over the files, the sockets and the clock of the system.
pub fn run_here<I: Read, O: Write, E: ErrorStream>(
    rt: &HostRuntime,
    words: &[String],
    input: &mut I,
    output: &mut O,
    errors: &mut E,
) -> u8
    ensures prints { (exit : Exit) × (result ≡ status_of exit) × Prints SCHEMA_VERSION (words_bytes words.now) (I.remaining input.old) exit (stream (O.contents output.old) (O.contents output.new)) (error_stream (E.reported errors.old) (E.reported errors.new)) }
    ensures input { LeavesInputAt (words_bytes words.now) result (I.remaining input.old) (I.remaining input.new) (stream (O.contents output.old) (O.contents output.new)) (error_stream (E.reported errors.old) (E.reported errors.new)) }
{
    run_from(rt, Unknown, Unknown, words, input, output, errors)
}
