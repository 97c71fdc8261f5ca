//! A story of requests, sent to a store that refuses each change: a 503 is due then, and nothing changes.
use crate::devices::{ALL, Giver, Stop, Taker};
use crate::failures::{Failure, compare_bytes};
use crate::links::{Asked, WriteStop, ask, line_in, stop_write};
use crate::messages::CONTINUE;
use crate::modes::Counts;
use crate::plays::Play;
use crate::refusing::Refusing;
use crate::taking::{Way, taken_to};
use machine::{Keep, PlainKeep};
use serve::{Service, Step};
use std::alloc::{AllocError, Global};

/// The name of this way.
pub const WAY: &str = "a store that refuses changes";

const HEAD: &[u8] = b"HTTP/1.1 503 Service Unavailable\r\nDate: ";

const REST: &[u8] =
    b"\r\nConnection: close\r\nCache-Control: private, no-store\r\nContent-Type: application/json\r\nContent-Length: 16\r\n\r\n{\"error\":\"down\"}";

// The date of a reply.
fn date_in(due: &[u8]) -> &str {
    let Ok(text) = str::from_utf8(due) else {
        return "";
    };
    match text.split_once("Date: ") {
        Some((_, rest)) => match rest.split_once("\r\n") {
            Some((date, _)) => date,
            None => "",
        },
        None => "",
    }
}

/// What is written if the store is down, in place of what is due.
pub fn down_for(alloc: Global, due: &[u8]) -> Result<Vec<u8>, AllocError> {
    let mut bytes = Vec::new(alloc);
    if line_in(due) > 0 {
        bytes.extend_from_slice(CONTINUE)?;
    }
    bytes.extend_from_slice(HEAD)?;
    bytes.extend_from_slice(date_in(due).as_bytes())?;
    bytes.extend_from_slice(REST)?;
    Ok(bytes)
}

// Each byte of the 503 in turn is not taken.
fn stop_each<K: Keep>(
    alloc: Global,
    service: &mut Service<K>,
    asked: &Asked<'_>,
    down: &[u8],
) -> Result<(), Failure> {
    for at in 1..=down.len() {
        let stops = WriteStop {
            most: ALL,
            at,
            stop: Stop::Fails,
        };
        stop_write(alloc, service, asked, down, stops)?;
    }
    Ok(())
}

// What needs no change is answered as ever; what needs one by a 503.
fn refuse<K: Keep>(
    alloc: Global,
    service: &mut Service<K>,
    asked: &Asked<'_>,
    counts: &mut Counts,
) -> Result<(), Failure> {
    let giver = Giver::new(asked.bytes, ALL);
    let came = ask(alloc, service, asked, giver, Taker::new(alloc));
    if came.written.as_slice() == asked.due {
        return Ok(());
    }
    let down = down_for(alloc, asked.due)?;
    compare_bytes(alloc, asked.line, down.as_slice(), came.written.as_slice())?;
    counts.refused = counts.refused.saturating_add(1);
    stop_each(alloc, service, asked, down.as_slice())
}

// A request over a store that refuses changes. The store is given back.
fn refused(
    alloc: Global,
    keep: PlainKeep,
    asked: &Asked<'_>,
    counts: &mut Counts,
) -> Result<PlainKeep, Failure> {
    let mut service = Service::new(Refusing { keep });
    let reported = refuse(alloc, &mut service, asked, counts);
    let Refusing { keep } = service.into_keep();
    match reported {
        Ok(()) => Ok(keep),
        Err(failure) => Err(failure),
    }
}

// A step over a store that refuses changes, and then as the story has it.
fn refuse_at(
    alloc: Global,
    keep: PlainKeep,
    play: &Play,
    index: usize,
    counts: &mut Counts,
) -> Result<PlainKeep, Failure> {
    let keep = match (play.steps.get(index), play.due.get(index)) {
        (Some(Step::Request { at, bytes }), Some(due)) => {
            let asked = Asked::new(*at, bytes.as_slice(), due, &play.door);
            refused(alloc, keep, &asked, counts)?
        }
        _ => keep,
    };
    taken_to(
        alloc,
        keep,
        Way::Replay,
        play,
        index,
        index.saturating_add(1),
    )
}

/// Tells a story's own requests to a store that refuses each change, before each of them is taken.
pub fn run_refused(alloc: Global, play: &Play, counts: &mut Counts) -> Result<(), Failure> {
    let mut keep = taken_to(alloc, PlainKeep::new(alloc), Way::Replay, play, 0, play.own)?;
    for index in play.own..play.steps.len() {
        keep = refuse_at(alloc, keep, play, index, counts)?;
    }
    drop(keep);
    Ok(())
}
