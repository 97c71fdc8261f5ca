//! Laws of the definitions, each the contract of a call that does nothing.
ghost use Rattle.wire.specs.Laws.{OneReading, StaysRead, StaysAwaited, OneText};
ghost use Rattle.wire.specs.Messages.{Reading, Reads};
ghost use Rattle.wire.specs.Retargeting.{RetargetedReads};

use crate::framing::some_verdict;
use crate::heads::{HeadPosition, MAX_HEAD, end_in};

/// Each string has a reading, which the parser's answer shows.
pub fn some_reading(bytes: &[u8])
    ensures { (reading : Reading) × Reads bytes.now reading }
{
    let mut position = HeadPosition::Blank;
    let Some(len) = end_in(&mut position, bytes) else {
        return;
    };
    if len > MAX_HEAD {
        return;
    }
    some_verdict(bytes.split_at(len).0);
}

/// Each string has at most one reading.
pub fn one_reading()
    ensures { OneReading }
{}

/// Once a string is read, bytes that follow change nothing.
pub fn stays_read()
    ensures { StaysRead }
{}

/// Where a `100 Continue` is awaited, it is awaited whatever follows.
pub fn stays_awaited()
    ensures { StaysAwaited }
{}

/// An answer has at most one text at a moment.
pub fn one_text()
    ensures { OneText }
{}

/// One request with two targets, where the first is a message: the second is the same message with the
/// path and the query of the other target.
pub fn retargeted_reads()
    ensures { RetargetedReads }
{}
