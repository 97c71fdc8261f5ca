//! Operator's commands, one per line.
ghost use Rattle.std.specs.Prelude.{◌≡◌, ◌<◌, length, Some, None, IfSome, IfOk, IfErr, IsErrOf, option_map};
ghost use Rattle.program.specs.Batches.{line_and_rest, is_skipped, command_of_line, line_of, AreLines};
ghost use Rattle.program.specs.Inner.Batches.{IsUnread};

use crate::line_faults::{LineFault, has_return, line_fault};
use basis::{Down, Unfit};
use serve::Admin;
use serve::lines::{MAX_LINE, line_end, part_at};
use serve::words::read_command_line;
use std::alloc::Global;

/// What is done for a line of a batch.
#[derive(Drop)]
pub enum BatchLine {
    /// Nothing: the line is empty or begins with `#`.
    Skipped,
    Command(Admin),
}

/// Why a line is not read.
#[derive(Clone, Copy)]
pub enum LineUnread {
    /// It is neither skipped nor a command.
    Fault(LineFault),
    Down,
}

/// The lines before the first line that is neither skipped nor a command.
#[derive(Drop)]
pub struct Batch {
    pub lines: Vec<BatchLine>,
    /// What is at fault in that line, if there is one.
    pub fault: Option<LineFault>,
}

/// The first line, with or without its line feed, and everything after it; none if there are no bytes.
pub fn split_first(bytes: &[u8]) -> Option<(&[u8], &[u8])>
    ensures parts { option_map (λ found. (found.0.now, found.1.now)) result ≡ line_and_rest bytes.now }
    ensures shorter { IfSome result (λ found. length found.1.now < length bytes.now) }
{
    if bytes.is_empty() {
        return None;
    }
    match line_end(bytes) {
        Some(end) => Some(part_at(bytes, end)),
        None => Some((bytes, &[])),
    }
}

fn is_skipped(line: &[u8]) -> bool
    ensures { result ≡ is_skipped line.now }
{
    match line {
        [] => true,
        [first, ..] => *first == b'#',
    }
}

fn command_of_line(alloc: Global, line: &[u8]) -> Result<Admin, Unfit>
    ensures ok { IfOk result (λ command. command_of_line line.now ≡ Some command) }
    ensures syntax { IsErrOf result Unfit.Syntax → command_of_line line.now ≡ None }
{
    if line.len() > MAX_LINE {
        return Err(Unfit::Syntax);
    }
    read_command_line(alloc, line)
}

fn line_of(alloc: Global, line: &[u8]) -> Result<BatchLine, Unfit>
    ensures ok { IfOk result (λ it. line_of line.now ≡ Some it) }
    ensures syntax { IsErrOf result Unfit.Syntax → line_of line.now ≡ None }
{
    if has_return(line) {
        return Err(Unfit::Syntax);
    }
    if is_skipped(line) {
        return Ok(BatchLine::Skipped);
    }
    let command = command_of_line(alloc, line)?;
    Ok(BatchLine::Command(command))
}

fn fault_of(alloc: Global, line: &[u8]) -> LineUnread
    ensures { line_of line.now ≡ None → IsUnread line.now result }
{
    match line_fault(alloc, line) {
        Ok(fault) => LineUnread::Fault(fault),
        Err(_) => LineUnread::Down,
    }
}

fn read_line(alloc: Global, line: &[u8]) -> Result<BatchLine, LineUnread>
    ensures ok { IfOk result (λ it. line_of line.now ≡ Some it) }
    ensures why { IfErr result (IsUnread line.now) }
{
    match line_of(alloc, line) {
        Ok(it) => Ok(it),
        Err(Unfit::Syntax) => Err(fault_of(alloc, line)),
        Err(Unfit::Down) => Err(LineUnread::Down),
    }
}

/// Reads lines up to the first that is neither skipped nor a command. That line's number, from 1, is `lines.len() + 1`.
pub fn read_batch(alloc: Global, bytes: &[u8]) -> Result<Batch, Down>
    ensures { IfOk result (λ batch. AreLines bytes.now batch.lines.items batch.fault) }
{
    let mut lines = Vec::new(alloc);
    let mut rest = bytes;
    'lines: while let Some((line, left)) = split_first(rest) {
        match read_line(alloc, line) {
            Ok(it) => {
                lines.push(it)?;
                rest = left;
            }
            Err(LineUnread::Fault(fault)) => {
                return Ok(Batch {
                    lines,
                    fault: Some(fault),
                });
            }
            Err(LineUnread::Down) => return Err(Down),
        }
    }
    Ok(Batch { lines, fault: None })
}
