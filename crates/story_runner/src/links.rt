//! One request over links that break: cut after each byte, each read failing, each write failing.
use crate::devices::{Giver, Stop, Taker};
use crate::failures::{Failure, compare_bytes};
use crate::messages::CONTINUE;
use crate::modes::{Counts, Modes};
use crate::plays::Due;
use crate::stopping::is_repeat;
use crate::taking::{Came, exchange_over};
use basis::Moment;
use machine::Keep;
use serve::{Door, LinkFault, Service};
use std::alloc::Global;

/// A request, and what is due to it.
#[derive(Clone, Copy)]
pub struct Asked<'s> {
    pub line: usize,
    pub at: Moment,
    pub bytes: &'s [u8],
    pub due: &'s [u8],
    pub door: &'s Door,
}

impl<'s> Asked<'s> {
    pub fn new(at: Moment, bytes: &'s [u8], due: &'s Due, door: &'s Door) -> Asked<'s> {
        Asked {
            line: due.line,
            at,
            bytes,
            due: due.bytes.as_slice(),
            door,
        }
    }
}

/// One exchange of this request over this reader and this writer.
pub fn ask<K: Keep>(
    alloc: Global,
    service: &mut Service<K>,
    asked: &Asked<'_>,
    giver: Giver<'_>,
    taker: Taker,
) -> Came {
    exchange_over(alloc, service, asked.door, asked.at, giver, taker)
}

/// How a link breaks under a request.
#[derive(Clone, Copy)]
pub enum Break {
    /// The request is cut, and its reads fail, by a reader that gives so many bytes at a time. It takes no step then.
    Reads(usize, Modes),
    /// The reply stops at one of its bytes.
    Write(WriteStop),
    /// Nothing breaks: the request arrives completely, by a reader that gives so many bytes at a time.
    Nothing(usize),
    /// The same of a request that was taken before.
    Again(usize),
}

/// At which byte a reply stops, how, and by a reader that gives how many bytes at a time.
#[derive(Clone, Copy)]
pub struct WriteStop {
    pub most: usize,
    pub at: usize,
    pub stop: Stop,
}

/// How many bytes are due before the reply: those of the line that says to go on, or none.
pub fn line_in(due: &[u8]) -> usize {
    if due.starts_with(CONTINUE) {
        CONTINUE.len()
    } else {
        0
    }
}

// Whether a front of a request has its whole head.
fn has_head(front: &[u8]) -> bool {
    for at in 0..front.len() {
        if let Some(rest) = front.get(at..) {
            if rest.starts_with(b"\r\n\r\n") {
                return true;
            }
        }
    }
    false
}

// What is written once so many bytes of a request have come.
fn due_after<'s>(asked: &Asked<'s>, count: usize) -> &'s [u8] {
    let is_due = match asked.bytes.get(..count) {
        Some(front) => has_head(front),
        None => true,
    };
    let length = if is_due { line_in(asked.due) } else { 0 };
    asked.due.get(..length).unwrap_or(b"")
}

const REFUSED_BY_THE_HEAD: &[&str] = &[
    "HTTP/1.1 400",
    "HTTP/1.1 411",
    "HTTP/1.1 413",
    "HTTP/1.1 431",
];

// Whether a request may be refused once its head is read.
fn may_end_early(due: &[u8]) -> bool {
    for front in REFUSED_BY_THE_HEAD {
        if due.starts_with(front.as_bytes()) {
            return true;
        }
    }
    false
}

// How many bytes of a request are read: all of them, unless its head is refused.
fn length_of<K: Keep>(alloc: Global, service: &mut Service<K>, asked: &Asked<'_>) -> usize {
    let all = asked.bytes.len();
    if !may_end_early(asked.due) {
        return all;
    }
    let giver = Giver::new(asked.bytes, 1);
    let came = ask(alloc, service, asked, giver, Taker::new(alloc));
    came.reads.min(all)
}

fn is_cut<K: Keep>(
    alloc: Global,
    service: &mut Service<K>,
    asked: &Asked<'_>,
    most: usize,
    count: usize,
) -> bool {
    let Some(front) = asked.bytes.get(..count) else {
        return false;
    };
    let giver = Giver::new(front, most);
    let came = ask(alloc, service, asked, giver, Taker::new(alloc));
    came.ended == Err(LinkFault::Ended) && came.written.as_slice() == due_after(asked, count)
}

// Cut after each byte but the last: the request is unfinished, and only the line that is due is written.
fn cut_each<K: Keep>(
    alloc: Global,
    service: &mut Service<K>,
    asked: &Asked<'_>,
    most: usize,
    length: usize,
) -> Result<usize, Failure> {
    for count in 1..length {
        if !is_cut(alloc, service, asked, most, count) {
            return Err(Failure::broken(
                asked.line,
                "something else came where it is cut behind byte",
                count,
            ));
        }
    }
    Ok(length.saturating_sub(1))
}

fn is_failed_read<K: Keep>(
    alloc: Global,
    service: &mut Service<K>,
    asked: &Asked<'_>,
    most: usize,
    read: usize,
) -> bool {
    let given = read.saturating_sub(1).saturating_mul(most);
    let giver = Giver::failing(asked.bytes, most, read);
    let came = ask(alloc, service, asked, giver, Taker::new(alloc));
    came.ended == Err(LinkFault::Read)
        && came.reads == read
        && came.written.as_slice() == due_after(asked, given)
}

// How many reads give so many bytes.
fn reads_of(length: usize, most: usize) -> usize {
    if most == 0 { 0 } else { length.div_ceil(most) }
}

// Each read fails in turn, and is reported.
fn fail_reads<K: Keep>(
    alloc: Global,
    service: &mut Service<K>,
    asked: &Asked<'_>,
    most: usize,
    length: usize,
) -> Result<usize, Failure> {
    let reads = reads_of(length, most);
    for read in 1..=reads {
        if !is_failed_read(alloc, service, asked, most, read) {
            return Err(Failure::broken(
                asked.line,
                "something else came where reading fails at read",
                read,
            ));
        }
    }
    Ok(reads)
}

// A request cut after each byte, and with each read failing.
fn break_reads<K: Keep>(
    alloc: Global,
    service: &mut Service<K>,
    asked: &Asked<'_>,
    most: usize,
    modes: Modes,
    counts: &mut Counts,
) -> Result<(), Failure> {
    let length = length_of(alloc, service, asked);
    if modes.cut {
        let cut = cut_each(alloc, service, asked, most, length)?;
        counts.cut = counts.cut.saturating_add(cut);
    }
    if modes.reads {
        let reads = fail_reads(alloc, service, asked, most, length)?;
        counts.reads = counts.reads.saturating_add(reads);
    }
    Ok(())
}

// A request that arrives completely: there is no read after its end.
fn take_whole<K: Keep>(
    alloc: Global,
    service: &mut Service<K>,
    asked: &Asked<'_>,
    most: usize,
) -> Result<(), Failure> {
    let giver = Giver::new(asked.bytes, most);
    let came = ask(alloc, service, asked, giver, Taker::new(alloc));
    compare_bytes(alloc, asked.line, asked.due, came.written.as_slice())?;
    let reads = reads_of(asked.bytes.len(), most);
    if came.ended == Ok(()) && came.reads > reads {
        return Err(Failure::broken(
            asked.line,
            "a read behind the request's end was made, read",
            came.reads,
        ));
    }
    if came.ended == Ok(()) && came.reads < reads && !may_end_early(asked.due) {
        return Err(Failure::broken(
            asked.line,
            "the request wasn't read to its end, but by reads",
            came.reads,
        ));
    }
    Ok(())
}

// Checks that a prefix of what is due was written, up to the write that stopped, and which part was being written.
fn is_stopped(came: &Came, due: &[u8], stops_at: usize) -> bool {
    let fault = if stops_at <= line_in(due) {
        LinkFault::Continue
    } else {
        LinkFault::Write
    };
    let front = match due.get(..stops_at.saturating_sub(1)) {
        Some(front) => front,
        None => due,
    };
    came.ended == Err(fault) && came.writes == stops_at && came.written.as_slice() == front
}

/// A request whose reply stops at one of its bytes.
pub fn stop_write<K: Keep>(
    alloc: Global,
    service: &mut Service<K>,
    asked: &Asked<'_>,
    due: &[u8],
    stops: WriteStop,
) -> Result<(), Failure> {
    let giver = Giver::new(asked.bytes, stops.most);
    let taker = Taker::stopping(alloc, stops.at, stops.stop);
    let came = ask(alloc, service, asked, giver, taker);
    if is_stopped(&came, due, stops.at) {
        Ok(())
    } else {
        Err(Failure::broken(
            asked.line,
            "something else came where writing stops at byte",
            stops.at,
        ))
    }
}

/// Whether a request that is sent again creates something more: a run without a key.
pub fn makes_more(bytes: &[u8]) -> bool {
    let Ok(text) = str::from_utf8(bytes) else {
        return false;
    };
    let Some((line, rest)) = text.split_once("\r\n") else {
        return false;
    };
    line.starts_with("POST ")
        && line.split_once("/runs/").is_some()
        && line.split_once("/actions/").is_none()
        && rest.split_once("\"key\"").is_none()
}

// A request that was taken is sent again, completely.
fn take_again<K: Keep>(
    alloc: Global,
    service: &mut Service<K>,
    asked: &Asked<'_>,
    most: usize,
) -> Result<(), Failure> {
    let giver = Giver::new(asked.bytes, most);
    let came = ask(alloc, service, asked, giver, Taker::new(alloc));
    if came.ended == Ok(()) && is_repeat(asked.due, came.written.as_slice()) {
        return Ok(());
    }
    compare_bytes(alloc, asked.line, asked.due, came.written.as_slice())?;
    Err(Failure::refused(asked.line, "the link broke where the request came again"))
}

/// A request over a link that breaks so.
pub fn break_link<K: Keep>(
    alloc: Global,
    service: &mut Service<K>,
    asked: &Asked<'_>,
    how: Break,
    counts: &mut Counts,
) -> Result<(), Failure> {
    match how {
        Break::Reads(most, modes) => break_reads(alloc, service, asked, most, modes, counts),
        Break::Write(stops) => stop_write(alloc, service, asked, asked.due, stops),
        Break::Nothing(most) => take_whole(alloc, service, asked, most),
        Break::Again(most) => take_again(alloc, service, asked, most),
    }
}
