//! Writes the pieces of a step as bytes.

use crate::definitions::Unread;
use crate::lines::{Piece, write_escaped};
use basis::numbers::whole_number;
use std::alloc::{AllocError, Global};

/// The most times that a piece is written.
const MAX_TIMES: u64 = 20_000_000;

fn write(bytes: &mut Vec<u8>, more: &[u8]) -> Result<(), Unread> {
    bytes.extend_from_slice(more)?;
    Ok(())
}

// Writes a text, and CR LF.
pub(crate) fn write_row(bytes: &mut Vec<u8>, text: &str) -> Result<(), Unread> {
    write(bytes, text.as_bytes())?;
    write(bytes, b"\r\n")
}

// Writes a piece, after a line feed if it follows a row.
pub(crate) fn write_behind(
    alloc: Global,
    bytes: &mut Vec<u8>,
    is_behind_row: bool,
    line: usize,
    piece: Piece,
    text: &str,
) -> Result<(), Unread> {
    if is_behind_row {
        write(bytes, b"\n")?;
    }
    write_piece(alloc, bytes, line, piece, text)
}

fn write_piece(
    alloc: Global,
    bytes: &mut Vec<u8>,
    line: usize,
    piece: Piece,
    text: &str,
) -> Result<(), Unread> {
    match piece {
        Piece::Row => write(bytes, text.as_bytes()),
        Piece::Field => write_row(bytes, text),
        Piece::Escaped => write_times(alloc, bytes, line, 1, text),
        Piece::Repeated => write_repeated(alloc, bytes, line, text),
    }
}

fn write_repeated(
    alloc: Global,
    bytes: &mut Vec<u8>,
    line: usize,
    text: &str,
) -> Result<(), Unread> {
    let why = "a number of times and a text stand behind `*`";
    let Some((times, text)) = text.split_once(' ') else {
        return Err(Unread { line, why });
    };
    match whole_number(times) {
        Some(times) if times <= MAX_TIMES => write_times(alloc, bytes, line, times, text),
        _ => Err(Unread { line, why }),
    }
}

fn write_times(
    alloc: Global,
    bytes: &mut Vec<u8>,
    line: usize,
    times: u64,
    text: &str,
) -> Result<(), Unread> {
    let mut once = Vec::new(alloc);
    if !write_escaped(&mut once, text)? {
        return Err(Unread {
            line,
            why: "the escapes are \\r \\n \\t \\\\ and \\xHH",
        });
    }
    repeat(alloc, bytes, &mut once, times)?;
    Ok(())
}

fn double(alloc: Global, bytes: &mut Vec<u8>) -> Result<(), AllocError> {
    let again = Vec::from_slice(alloc, bytes.as_slice())?;
    bytes.extend_from_slice(again.as_slice())
}

// Writes a piece so many times: each power of two of it that the number has. The piece grows to the largest of them.
fn repeat(
    alloc: Global,
    bytes: &mut Vec<u8>,
    power: &mut Vec<u8>,
    times: u64,
) -> Result<(), AllocError> {
    let mut left = times;
    for _ in 0..u64::BITS {
        if left % 2 == 1 {
            bytes.extend_from_slice(power.as_slice())?;
        }
        left /= 2;
        if left == 0 {
            return Ok(());
        }
        double(alloc, power)?;
    }
    Ok(())
}
