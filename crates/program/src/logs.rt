//! The log: a line on standard output for each exchange, if it is on.
ghost use Rattle.std.specs.Prelude.{◌≡◌, OnOk};
ghost use Rattle.std.specs.Io.KnownBytes.{Appends};
ghost use Rattle.docs.specs.Logs.{log_line};
ghost use Rattle.wire.specs.Links.{Writes};
ghost use Rattle.program.specs.Logs.{end_word, row_text, names_act, Logs};
ghost use Rattle.serve.specs.Logs.{is_stop, names_stop};
ghost use Rattle.program.specs.Streams.{GetsFront};

use basis::Down;
use docs::{LogAct, LogRow, OperatorAct, write_log_line};
use serve::LinkFault;
use std::alloc::Global;
use std::io;
use std::io::{ErrorKind, Write};

/// The log's word for how an exchange ended.
fn end_word(ended: Result<(), LinkFault>) -> &'static str
    ensures { result.now ≡ end_word ended }
{
    match ended {
        Ok(()) => "ok",
        Err(LinkFault::Ended) => "ended",
        Err(LinkFault::Read) => "read",
        Err(LinkFault::Continue) => "continue",
        Err(LinkFault::Write) => "write",
    }
}

/// Whether an exchange's line names an act.
pub fn names_act(row: &Option<LogRow>) -> bool
    ensures { result ≡ names_act row.now }
{
    match row {
        Some(row) => row.act.is_some(),
        None => false,
    }
}

fn is_stop(act: &Option<LogAct>) -> bool
    ensures { result ≡ is_stop act.now }
{
    match act {
        Some(LogAct::OfOperator(OperatorAct::Stop)) => true,
        _ => false,
    }
}

/// Whether an exchange's line is that of a `stop` that was answered `ok`.
pub fn names_stop(row: &Option<LogRow>) -> bool
    ensures { result ≡ names_stop row.now }
{
    match row {
        Some(row) => is_stop(&row.act) && row.refusal.is_none(),
        None => false,
    }
}

// Writes bytes, as far as the output takes them.
fn write_bytes<O: Write>(output: &mut O, bytes: &[u8]) -> io::Result<()>
    ensures { Writes (O.contents output.old) (O.contents output.new) bytes.now result }
{
    let mut rest = bytes;
    'writing: while !rest.is_empty() {
        match output.write(rest) {
            Ok(0) => return Err(io::Error::from(ErrorKind::WriteZero)),
            Ok(count) => rest = rest.split_at(count).1,
            Err(error) => return Err(error),
        }
    }
    Ok(())
}

// The same, and sends them on.
fn send<O: Write>(output: &mut O, bytes: &[u8]) -> io::Result<()>
    ensures whole { OnOk result (Appends (O.contents output.old) (O.contents output.new) bytes.now) }
    ensures front { GetsFront (O.contents output.old) (O.contents output.new) bytes.now }
{
    write_bytes(output, bytes)?;
    output.flush()
}

fn send_line<O: Write>(output: &mut O, line: &[u8]) -> Result<(), Down>
    ensures whole { OnOk result (Appends (O.contents output.old) (O.contents output.new) line.now) }
    ensures front { GetsFront (O.contents output.old) (O.contents output.new) line.now }
{
    match send(output, line) {
        Ok(()) => Ok(()),
        Err(_) => Err(Down),
    }
}

fn write_line<O: Write>(
    alloc: Global,
    output: &mut O,
    connection: u64,
    end: &str,
    row: &LogRow,
) -> Result<(), Down>
    ensures whole { OnOk result (Appends (O.contents output.old) (O.contents output.new) (log_line connection end.now row.now)) }
    ensures front { GetsFront (O.contents output.old) (O.contents output.new) (log_line connection end.now row.now) }
{
    let line = write_log_line(alloc, connection, end, row)?;
    send_line(output, line.as_slice())
}

/// Writes the line of an exchange, if it has one, and flushes it. Fails if an allocation fails or the stream does not take the
/// complete line.
fn write_row<O: Write>(
    alloc: Global,
    output: &mut O,
    connection: u64,
    ended: Result<(), LinkFault>,
    row: &Option<LogRow>,
) -> Result<(), Down>
    ensures whole { OnOk result (Appends (O.contents output.old) (O.contents output.new) (row_text connection ended row.now)) }
    ensures front { GetsFront (O.contents output.old) (O.contents output.new) (row_text connection ended row.now) }
{
    match row {
        Some(row) => write_line(alloc, output, connection, end_word(ended), row),
        None => Ok(()),
    }
}

/// Writes the line of an exchange if the log is on (`logs`). Returns whether the stream took it; true if the log is off.
pub fn log_row<O: Write>(
    alloc: Global,
    output: &mut O,
    logs: bool,
    connection: u64,
    ended: Result<(), LinkFault>,
    row: &Option<LogRow>,
) -> bool
    ensures { Logs logs result (row_text connection ended row.now) (O.contents output.old) (O.contents output.new) }
{
    if !logs {
        return true;
    }
    match write_row(alloc, output, connection, ended, row) {
        Ok(()) => true,
        Err(_) => false,
    }
}
