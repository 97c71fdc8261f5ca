//! Texts of the error stream.
ghost use Rattle.std.specs.Prelude.{◌++◌, ◌∷◌, [], List, ℕ, codes, decimal};
ghost use Rattle.program.specs.Batches.{bad_text};
ghost use Rattle.program.specs.Errors.{connection_line, cause_line, memory_line, other_line, version_line};
ghost use Rattle.program.specs.Replies.{bad_frame_text, fault_lines};
ghost use Rattle.program.specs.Streams.{Reported, Reports, ReportsBy};

use crate::line_faults::LineFault;
use crate::reasons::{Cause, OtherSchema};
use crate::streams::ErrorStream;
use basis::Text;
use itoa::Buffer;
use std::io;

/// Writes a text. Stops at the first call that fails.
fn write_text<E: ErrorStream>(errors: &mut E, text: &[u8]) -> io::Result<()>
    ensures { ReportsBy (E.reported errors.old) (E.reported errors.new) text.now result }
{
    let mut rest = text;
    'writing: while !rest.is_empty() {
        let count = errors.write(rest)?;
        rest = rest.split_at(count).1;
    }
    Ok(())
}

/// Flushes the stream if every write succeeded.
pub fn send_on<E: ErrorStream>(errors: &mut E, written: io::Result<()>) -> io::Result<()>
    ensures { (before : Reported) (text : List ℕ) → ReportsBy before (E.reported errors.old) text written → ReportsBy before (E.reported errors.new) text result }
{
    written?;
    errors.flush()
}

fn write_ended<E: ErrorStream>(errors: &mut E, text: &str) -> io::Result<()>
    ensures { ReportsBy (E.reported errors.old) (E.reported errors.new) (text.now ++ 10 ∷ []) result }
{
    write_text(errors, text.as_bytes())?;
    write_text(errors, b"\n")
}

fn write_message<E: ErrorStream>(errors: &mut E, text: &str) -> io::Result<()>
    ensures { ReportsBy (E.reported errors.old) (E.reported errors.new) (codes ": " ++ text.now ++ 10 ∷ []) result }
{
    write_text(errors, b": ")?;
    write_ended(errors, text)
}

fn write_numbered<E: ErrorStream>(errors: &mut E, connection: u64, text: &str) -> io::Result<()>
    ensures { ReportsBy (E.reported errors.old) (E.reported errors.new) (decimal connection ++ codes ": " ++ text.now ++ 10 ∷ []) result }
{
    let mut buffer = Buffer::new();
    let digits = buffer.format(connection);
    write_text(errors, digits.as_bytes())?;
    write_message(errors, text)
}

/// Writes a line about the connection with this number.
pub fn write_line<E: ErrorStream>(errors: &mut E, connection: u64, text: &str) -> io::Result<()>
    ensures { ReportsBy (E.reported errors.old) (E.reported errors.new) (connection_line connection text.now) result }
{
    write_text(errors, b"custody: connection ")?;
    write_numbered(errors, connection, text)
}

/// Writes a text and flushes it. Stops at the first call that fails.
pub fn note<E: ErrorStream>(errors: &mut E, text: &str) -> io::Result<()>
    ensures by { ReportsBy (E.reported errors.old) (E.reported errors.new) text.now result }
    ensures reported { Reports (E.reported errors.old) (E.reported errors.new) text.now }
{
    let written = write_text(errors, text.as_bytes());
    send_on(errors, written)
}

/// Reports why an allocation, the store, the input or the network failed.
pub fn report_cause<E: ErrorStream>(errors: &mut E, cause: Cause)
    ensures { Reports (E.reported errors.old) (E.reported errors.new) (cause_line cause) }
{
    let _ = note(errors, cause.line());
}

fn write_faults<E: ErrorStream>(errors: &mut E, faults: &[Text]) -> io::Result<()>
    ensures { ReportsBy (E.reported errors.old) (E.reported errors.new) (fault_lines faults.now) result }
{
    for fault in faults {
        write_ended(errors, fault.as_str())?;
    }
    Ok(())
}

fn note_faults<E: ErrorStream>(errors: &mut E, cause: Cause, faults: &[Text]) -> io::Result<()>
    ensures { ReportsBy (E.reported errors.old) (E.reported errors.new) (cause_line cause ++ fault_lines faults.now) result }
{
    write_text(errors, cause.line().as_bytes())?;
    write_faults(errors, faults)
}

/// Reports what the command did not do because the file's tables have faults, then one line per fault.
pub fn report_faults<E: ErrorStream>(errors: &mut E, cause: Cause, faults: &[Text])
    ensures { Reports (E.reported errors.old) (E.reported errors.new) (cause_line cause ++ fault_lines faults.now) }
{
    let written = note_faults(errors, cause, faults);
    let _ = send_on(errors, written);
}

fn write_frame<E: ErrorStream>(errors: &mut E, frame: usize) -> io::Result<()>
    ensures { ReportsBy (E.reported errors.old) (E.reported errors.new) (decimal frame ++ 10 ∷ []) result }
{
    let mut buffer = Buffer::new();
    let digits = buffer.format(frame);
    write_ended(errors, digits)
}

/// Reports the frame that does not parse, by its number (from 1).
pub fn note_bad_frame<E: ErrorStream>(errors: &mut E, frame: usize) -> io::Result<()>
    ensures { ReportsBy (E.reported errors.old) (E.reported errors.new) (bad_frame_text frame) result }
{
    write_text(errors, b"custody: bad frame ")?;
    write_frame(errors, frame)
}

fn note_at<E: ErrorStream>(errors: &mut E, mark: &str, line: usize) -> io::Result<()>
    ensures { ReportsBy (E.reported errors.old) (E.reported errors.new) (mark.now ++ (decimal line ++ 10 ∷ [])) result }
{
    write_text(errors, mark.as_bytes())?;
    write_frame(errors, line)
}

/// Writes a text and the number of a line of the input.
pub fn report_at<E: ErrorStream>(errors: &mut E, mark: &str, line: usize)
    ensures { Reports (E.reported errors.old) (E.reported errors.new) (mark.now ++ (decimal line ++ 10 ∷ [])) }
{
    let written = note_at(errors, mark, line);
    let _ = send_on(errors, written);
}

/// The beginning of the line about a line that is neither skipped nor a command.
const BAD_LINE: &str = "custody: bad line ";

fn note_bad_line<E: ErrorStream>(errors: &mut E, line: usize, fault: LineFault) -> io::Result<()>
    ensures { ReportsBy (E.reported errors.old) (E.reported errors.new) (bad_text line fault) result }
{
    note_at(errors, BAD_LINE, line)?;
    write_text(errors, fault.line().as_bytes())
}

/// Reports a line of the input that is neither skipped nor a command, by its number (from 1), and what is at fault in it.
pub fn report_bad_line<E: ErrorStream>(errors: &mut E, line: usize, fault: LineFault)
    ensures { Reports (E.reported errors.old) (E.reported errors.new) (bad_text line fault) }
{
    let written = note_bad_line(errors, line, fault);
    let _ = send_on(errors, written);
}

fn note_memory<E: ErrorStream>(errors: &mut E, bytes: u64) -> io::Result<()>
    ensures { ReportsBy (E.reported errors.old) (E.reported errors.new) (memory_line bytes) result }
{
    write_text(errors, b"custody: out of memory while opening the file of ")?;
    write_bytes(errors, bytes)
}

fn write_bytes<E: ErrorStream>(errors: &mut E, bytes: u64) -> io::Result<()>
    ensures { ReportsBy (E.reported errors.old) (E.reported errors.new) (decimal bytes ++ codes " bytes\n") result }
{
    let mut buffer = Buffer::new();
    let digits = buffer.format(bytes);
    write_text(errors, digits.as_bytes())?;
    write_text(errors, b" bytes\n")
}

/// Reports that there was not enough memory to open a file of this many bytes.
pub fn report_memory<E: ErrorStream>(errors: &mut E, bytes: u64)
    ensures { Reports (E.reported errors.old) (E.reported errors.new) (memory_line bytes) }
{
    let written = note_memory(errors, bytes);
    let _ = send_on(errors, written);
}

/// The line for a file whose tables have our names but no schema version.
const UNTOLD: &str =
    "custody: the file has tables with this schema's names, but no schema version\n";

/// The end of the line for a file whose version is unknown, or whose tables are different.
const UNKNOWN_END: &str =
    " of the schema, which this program does not know, or its tables are different\n";

/// The end of the line for a file of an older version that would only be read.
const OLDER_END: &str = " of the schema, an older one: serve or admin raises it\n";

fn write_version<E: ErrorStream>(errors: &mut E, version: u64, end: &str) -> io::Result<()>
    ensures { ReportsBy (E.reported errors.old) (E.reported errors.new) (decimal version ++ end.now) result }
{
    let mut buffer = Buffer::new();
    let digits = buffer.format(version);
    write_text(errors, digits.as_bytes())?;
    write_text(errors, end.as_bytes())
}

fn note_version<E: ErrorStream>(errors: &mut E, version: u64, end: &str) -> io::Result<()>
    ensures { ReportsBy (E.reported errors.old) (E.reported errors.new) (version_line version end.now) result }
{
    write_text(errors, b"custody: the file has version ")?;
    write_version(errors, version, end)
}

fn report_version<E: ErrorStream>(errors: &mut E, version: u64, end: &str)
    ensures { Reports (E.reported errors.old) (E.reported errors.new) (version_line version end.now) }
{
    let written = note_version(errors, version, end);
    let _ = send_on(errors, written);
}

/// Reports what a file of another schema contains.
pub fn report_other<E: ErrorStream>(errors: &mut E, other: OtherSchema)
    ensures { Reports (E.reported errors.old) (E.reported errors.new) (other_line other) }
{
    match other {
        OtherSchema::Older(version) => report_version(errors, version, OLDER_END),
        OtherSchema::Version(version) => report_version(errors, version, UNKNOWN_END),
        OtherSchema::Unversioned => report_unversioned(errors),
    }
}

fn report_unversioned<E: ErrorStream>(errors: &mut E)
    ensures { Reports (E.reported errors.old) (E.reported errors.new) (other_line OtherSchema.Unversioned) }
{
    let _ = note(errors, UNTOLD);
}
