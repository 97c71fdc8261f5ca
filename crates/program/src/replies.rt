//! What the program prints.
ghost use Rattle.std.specs.Prelude.{OnOk};
ghost use Rattle.std.specs.Io.KnownBytes.{Appends};
ghost use Rattle.program.specs.Errors.{cause_line};
ghost use Rattle.program.specs.Replies.{reply_frame, printed, answer_line, fault_lines};
ghost use Rattle.program.specs.Streams.{Reports};
ghost use Rattle.program.specs.Totals.{sound_text, version_text};
ghost use Rattle.program.specs.Outcomes.{stream, IsSaid, AnswersLine, ReportsWord};
ghost use Rattle.serve.specs.Service.{org_lines, token_lines};

use crate::errors::report_cause;
use crate::exits::Exit;
use crate::reasons::Cause;
use crate::streams::ErrorStream;
use crate::totals::{Totals, print_totals};
use basis::{Bytes, Text};
use command_line::VERSION;
use machine::{AdminAnswer, OrgRow, TokenRow};
use serve::{write_org_lines, write_token_lines};
use std::io;
use std::io::Write;

fn print_reply<W: Write>(output: &mut W, reply: &[u8]) -> io::Result<()>
    ensures { OnOk result (Appends (W.contents output.old) (W.contents output.new) (reply_frame reply.now)) }
{
    writeln!(output, "reply {}", reply.len())?;
    output.write_all(reply)?;
    output.write_all(b"\n")
}

/// Prints the replies in order, each after a line with its length.
pub fn print_replies<W: Write>(output: &mut W, replies: &[Bytes]) -> io::Result<()>
    ensures { OnOk result (Appends (W.contents output.old) (W.contents output.new) (printed replies.now)) }
{
    for reply in replies {
        print_reply(output, reply.as_slice())?;
    }
    Ok(())
}

/// Prints an answer of one line and flushes it.
pub fn print_answer<W: Write>(output: &mut W, answer: &str) -> io::Result<()>
    ensures { OnOk result (Appends (W.contents output.old) (W.contents output.new) (answer_line answer.now)) }
{
    output.write_all(answer.as_bytes())?;
    output.write_all(b"\n")?;
    output.flush()
}

fn print_fault<O: Write>(output: &mut O, fault: &str) -> io::Result<()>
    ensures { OnOk result (Appends (O.contents output.old) (O.contents output.new) (answer_line fault.now)) }
{
    output.write_all(fault.as_bytes())?;
    output.write_all(b"\n")
}

/// Prints one line per fault and flushes them.
pub fn print_faults<O: Write>(output: &mut O, faults: &[Text]) -> io::Result<()>
    ensures { OnOk result (Appends (O.contents output.old) (O.contents output.new) (fault_lines faults.now)) }
{
    for fault in faults {
        print_fault(output, fault.as_str())?;
    }
    output.flush()
}

fn print_lines<O: Write>(output: &mut O, totals: &Totals) -> io::Result<()>
    ensures { OnOk result (Appends (O.contents output.old) (O.contents output.new) (sound_text totals.now)) }
{
    output.write_all(b"ok\n")?;
    print_totals(output, totals)
}

/// Prints `ok` and the numbers of rows, and flushes them.
pub fn print_sound<O: Write>(output: &mut O, totals: &Totals) -> io::Result<()>
    ensures { OnOk result (Appends (O.contents output.old) (O.contents output.new) (sound_text totals.now)) }
{
    print_lines(output, totals)?;
    output.flush()
}

/// Prints the name and the version of the program, and the newest version of the schema.
pub fn print_version<O: Write>(output: &mut O, schema: u64) -> io::Result<()>
    ensures { OnOk result (Appends (O.contents output.old) (O.contents output.new) (version_text schema)) }
{
    writeln!(output, "custody {VERSION} (schema {schema})")?;
    output.flush()
}

/// Prints the line of an ending, and returns how the program then ends.
pub fn say<O: Write>(output: &mut O, exit: Exit) -> Exit
    ensures { IsSaid exit result (O.contents output.old) (O.contents output.new) }
{
    match print_answer(output, exit.line()) {
        Ok(()) => exit,
        Err(_) => Exit::Unprinted,
    }
}

/// Prints the cause to the error stream and `refused down` to standard output.
pub fn refuse<O: Write, E: ErrorStream>(output: &mut O, errors: &mut E, cause: Cause) -> Exit
    ensures said { IsSaid Exit.Down result (O.contents output.old) (O.contents output.new) }
    ensures why { Reports (E.reported errors.old) (E.reported errors.new) (cause_line cause) }
{
    report_cause(errors, cause);
    say(output, Exit::Down)
}

/// Prints the cause to the error stream and `refused usage` to standard output.
pub fn refuse_usage<O: Write, E: ErrorStream>(output: &mut O, errors: &mut E, cause: Cause) -> Exit
    ensures said { IsSaid Exit.Usage result (O.contents output.old) (O.contents output.new) }
    ensures why { Reports (E.reported errors.old) (E.reported errors.new) (cause_line cause) }
{
    report_cause(errors, cause);
    say(output, Exit::Usage)
}

/// Prints all organizations, one line `ORG WORKSPACES LIMIT` each.
pub fn print_organizations<O: Write>(output: &mut O, rows: &[OrgRow]) -> io::Result<()>
    ensures { OnOk result (Appends (O.contents output.old) (O.contents output.new) (org_lines rows.now)) }
{
    write_org_lines(output, rows)?;
    output.flush()
}

/// Prints an organization's tokens, one line `NAME ROLE UNTIL PREFIX` each.
pub fn print_tokens<O: Write>(output: &mut O, rows: &[TokenRow]) -> io::Result<()>
    ensures { OnOk result (Appends (O.contents output.old) (O.contents output.new) (token_lines rows.now)) }
{
    write_token_lines(output, rows)?;
    output.flush()
}

/// Prints the word of an answer, and returns how the program then ends. A list has no word.
pub fn say_word<O: Write>(output: &mut O, answer: &AdminAnswer) -> Exit
    ensures line { AnswersLine result (stream (O.contents output.old) (O.contents output.new)) }
    ensures reports { ReportsWord answer.now result (stream (O.contents output.old) (O.contents output.new)) }
{
    match answer {
        AdminAnswer::Done => say(output, Exit::Done),
        AdminAnswer::Exists => say(output, Exit::Exists),
        AdminAnswer::Absent => say(output, Exit::Absent),
        AdminAnswer::InUse => say(output, Exit::InUse),
        AdminAnswer::Organizations(_) => say(output, Exit::Down),
        AdminAnswer::Tokens(_) => say(output, Exit::Down),
    }
}
