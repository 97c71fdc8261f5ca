//! A message read and shown.
use crate::devices::{ALL, Giver, Taker};
use crate::failures::Failure;
use crate::reports::shown;
use basis::{Bytes, Text};
use std::alloc::{AllocError, Global};
use wire::{FromRead, Message, ToWrite, WireFault, read_message};

// A line with a name and bytes, after a line feed if lines come before it.
fn add_line(alloc: Global, lines: &mut String, name: &str, bytes: &[u8]) -> Result<(), AllocError> {
    if !lines.is_empty() {
        lines.push('\n')?;
    }
    lines.push_str(name)?;
    lines.push(' ')?;
    lines.push_str(shown(alloc, bytes, true)?.as_str())
}

fn add_text(
    alloc: Global,
    lines: &mut String,
    name: &str,
    text: &Option<Text>,
) -> Result<(), AllocError> {
    match text {
        Some(text) => add_line(alloc, lines, name, text.as_str().as_bytes()),
        None => Ok(()),
    }
}

fn add_field(
    alloc: Global,
    lines: &mut String,
    name: &str,
    field: &Option<Bytes>,
) -> Result<(), AllocError> {
    match field {
        Some(field) => add_line(alloc, lines, name, field.as_slice()),
        None => Ok(()),
    }
}

fn add_message(alloc: Global, lines: &mut String, message: &Message) -> Result<(), AllocError> {
    add_line(alloc, lines, "method", message.method.as_str().as_bytes())?;
    add_line(alloc, lines, "path", message.path.as_str().as_bytes())?;
    add_text(alloc, lines, "query", &message.query)?;
    add_field(alloc, lines, "authorization", &message.authorization)?;
    add_field(alloc, lines, "content-md5", &message.content_md5)?;
    if message.body.as_slice().is_empty() {
        return Ok(());
    }
    add_line(alloc, lines, "body", message.body.as_slice())
}

/// What is written before the body is read, if the client waits for it.
pub const CONTINUE: &[u8] = b"HTTP/1.1 100 Continue\r\n\r\n";

// A line about what was written.
fn add_continue(lines: &mut String, written: &[u8]) -> Result<(), AllocError> {
    if written.is_empty() {
        Ok(())
    } else if written == CONTINUE {
        lines.push_str("\ncontinue")
    } else {
        lines.push_str("\nsomething else was written than the line 100 Continue")
    }
}

fn message_lines(alloc: Global, message: &Message, written: &[u8]) -> Result<String, AllocError> {
    let mut lines = String::new(alloc);
    add_message(alloc, &mut lines, message)?;
    add_continue(&mut lines, written)?;
    Ok(lines)
}

fn fault_line(alloc: Global, fault: WireFault) -> Result<String, Failure> {
    let (front, word, end) = match fault {
        WireFault::Ended => ("unfinished", "", ""),
        WireFault::Refused(refusal, false) => ("refused ", refusal.word(), ""),
        WireFault::Refused(refusal, true) => ("refused ", refusal.word(), ", HEAD"),
        WireFault::Read | WireFault::Continue | WireFault::Down => {
            return Err(Failure::refused(0, "memory was refused"));
        }
    };
    Ok(format!(in alloc; "{front}{word}{end}")?)
}

// The lines of what was read, before which this was written.
fn lines_of(
    alloc: Global,
    read: &Result<Message, WireFault>,
    written: &[u8],
) -> Result<String, Failure> {
    match read {
        Ok(message) => Ok(message_lines(alloc, message, written)?),
        Err(fault) => fault_line(alloc, *fault),
    }
}

// The lines of a message, each read giving at most so many bytes.
fn lines_by(alloc: Global, bytes: &[u8], most: usize) -> Result<String, Failure> {
    let mut inlet = FromRead::new(Giver::new(bytes, most));
    let mut outlet = ToWrite::new(Taker::new(alloc));
    let read = read_message(alloc, &mut inlet, &mut outlet);
    let taker = outlet.into_inner();
    lines_of(alloc, &read, taker.taken.as_slice())
}

/// How many bytes readers give at a time, beside all of them.
const READERS: &[usize] = &[1, 7, 4_096];

/// The lines of a message, which are the same by whatever pieces it is read.
pub fn show_message(alloc: Global, bytes: &[u8]) -> Result<String, Failure> {
    let whole = lines_by(alloc, bytes, ALL)?;
    for most in READERS {
        let lines = lines_by(alloc, bytes, *most)?;
        if lines.as_str() != whole.as_str() {
            return Ok(lines);
        }
    }
    Ok(whole)
}
