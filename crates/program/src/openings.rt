//! Files that are opened and closed, and the lines that report on them.
ghost use Rattle.std.specs.Prelude.{◌≡◌, IfOk, IfErr};
ghost use Rattle.program.specs.Errors.{other_line, memory_line};
ghost use Rattle.program.specs.Streams.{Reports};
ghost use Rattle.program.specs.Outcomes.{stream, error_stream, IsSaid, ReportsOfNew, ReportsOfReaders, ReportsOfFile, RefusesToOpen, Opens, Closes, ClosesBoth, seen_at};

use crate::environment::{Files, Opening};
use crate::errors::{note, report_memory, report_other};
use crate::exits::Exit;
use crate::reasons::{Cause, OpenFault, OtherSchema};
use crate::replies::{refuse, say};
use crate::streams::ErrorStream;
use machine::Keep;
use std::io::Write;

/// The line for a WAL that stays beside its file.
const LOG_STAYS: &str =
    "custody: the WAL could not be copied into the file: keep the file and its -wal together\n";

/// The line for a file or WAL that other users may read.
const OTHERS_READ: &str =
    "custody: users other than its owner may read the file or its -wal: chmod 600 ends that\n";

/// The line for a file that was created.
const NEW_FILE: &str = "custody: there was no file at the path; a new one was created\n";

fn report_of_readers<E: ErrorStream>(errors: &mut E, others_may_read: bool)
    ensures { ReportsOfReaders others_may_read (error_stream (E.reported errors.old) (E.reported errors.new)) }
{
    if others_may_read {
        let _ = note(errors, OTHERS_READ);
    }
}

fn report_of_new<E: ErrorStream>(errors: &mut E, is_new: bool)
    ensures { ReportsOfNew is_new (error_stream (E.reported errors.old) (E.reported errors.new)) }
{
    if is_new {
        let _ = note(errors, NEW_FILE);
    }
}

fn report_of_file<E: ErrorStream>(errors: &mut E, is_new: bool, others_may_read: bool)
    ensures { ReportsOfFile is_new others_may_read (error_stream (E.reported errors.old) (E.reported errors.new)) }
{
    report_of_new(errors, is_new);
    report_of_readers(errors, others_may_read);
}

/// The cause, with `NoFolder` as `NoTargetFolder` if the path came with `--to`.
fn seen_at(opening: Opening, cause: Cause) -> Cause
    ensures { result ≡ seen_at opening cause }
{
    match (opening, cause) {
        (Opening::Target, Cause::NoFolder) => Cause::NoTargetFolder,
        _ => cause,
    }
}

fn refuse_other<O: Write, E: ErrorStream>(
    output: &mut O,
    errors: &mut E,
    other: OtherSchema,
) -> Exit
    ensures schema { IsSaid Exit.Schema result (O.contents output.old) (O.contents output.new) }
    ensures why { Reports (E.reported errors.old) (E.reported errors.new) (other_line other) }
{
    report_other(errors, other);
    say(output, Exit::Schema)
}

fn refuse_memory<O: Write, E: ErrorStream>(output: &mut O, errors: &mut E, bytes: u64) -> Exit
    ensures said { IsSaid Exit.Down result (O.contents output.old) (O.contents output.new) }
    ensures why { Reports (E.reported errors.old) (E.reported errors.new) (memory_line bytes) }
{
    report_memory(errors, bytes);
    say(output, Exit::Down)
}

/// Opens the store at a path and reports on its file, or reports why it was not opened.
pub fn open_one<K: Keep, F: Files<K>, O: Write, E: ErrorStream>(
    files: &mut F,
    path: &str,
    opening: Opening,
    output: &mut O,
    errors: &mut E,
) -> Result<K, Exit>
    ensures opened { IfOk result (λ store. Opens K.Keep F.Files path.now opening files.old files.new store (error_stream (E.reported errors.old) (E.reported errors.new)) × (O.contents output.new ≡ O.contents output.old)) }
    ensures refused { IfErr result (λ exit. RefusesToOpen K.Keep F.Files path.now opening files.old files.new exit (stream (O.contents output.old) (O.contents output.new)) (error_stream (E.reported errors.old) (E.reported errors.new))) }
{
    let is_new = files.is_absent(path);
    let others_may_read = files.others_may_read(path);
    match files.open(path, opening) {
        Ok(store) => {
            report_of_file(errors, is_new, others_may_read);
            Ok(store)
        }
        Err(OpenFault::Schema(other)) => Err(refuse_other(output, errors, other)),
        Err(OpenFault::Down(cause)) => Err(refuse(output, errors, seen_at(opening, cause))),
        Err(OpenFault::Memory(bytes)) => Err(refuse_memory(output, errors, bytes)),
    }
}

/// Closes the store at a path, and reports a WAL that stays beside its file.
pub fn close_after<K: Keep, F: Files<K>, E: ErrorStream>(
    files: &mut F,
    path: &str,
    store: K,
    errors: &mut E,
)
    ensures { Closes K.Keep F.Files path.now files.old files.new store (error_stream (E.reported errors.old) (E.reported errors.new)) }
{
    if files.close(path, store).is_err() {
        let _ = note(errors, LOG_STAYS);
    }
}

/// Closes the stores at two paths, the second one first.
pub fn close_both<K: Keep, F: Files<K>, E: ErrorStream>(
    files: &mut F,
    from: &str,
    source: K,
    to: &str,
    target: K,
    errors: &mut E,
)
    ensures { ClosesBoth K.Keep F.Files from.now to.now files.old files.new source target (error_stream (E.reported errors.old) (E.reported errors.new)) }
{
    close_after(files, to, target, errors);
    close_after(files, from, source, errors);
}
