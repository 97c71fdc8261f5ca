//! Steps taken by a service: in turn, or exchange by exchange.
use crate::devices::{ALL, Giver, Taker};
use crate::failures::{Failure, compare_bytes};
use crate::plays::{Due, Play};
use basis::{Bytes, Down, Moment};
use machine::{AdminAnswer, Keep};
use serve::{Door, LinkFault, Service, Step, write_org_lines, write_token_lines};
use std::alloc::Global;
use std::io;
use std::io::Write;
use wire::{FromRead, ToWrite};

/// How steps are taken.
#[derive(Clone, Copy)]
pub enum Way {
    /// In turn, by `replay`, which takes all of them; with an open door, which no replay has, exchange by exchange.
    Replay,
    /// Exchange by exchange, each read giving at most so many bytes.
    Exchange(usize),
}

/// A request of more bytes is read by large pieces.
const LARGE: usize = 100_000;

/// The least that a read of a large request gives.
const LARGE_PIECE: usize = 4_096;

// The most that a read of a request of this length gives.
fn piece_of(most: usize, length: usize) -> usize {
    if length > LARGE {
        most.max(LARGE_PIECE)
    } else {
        most
    }
}

/// How an exchange ended, what it wrote, and how many reads and writes it made.
#[derive(Drop)]
pub struct Came {
    pub ended: Result<(), LinkFault>,
    pub written: Vec<u8>,
    pub reads: usize,
    pub writes: usize,
}

/// One exchange over this reader and this writer.
pub fn exchange_over<K: Keep>(
    alloc: Global,
    service: &mut Service<K>,
    door: &Door,
    at: Moment,
    giver: Giver<'_>,
    taker: Taker,
) -> Came {
    let mut inlet = FromRead::new(giver);
    let mut outlet = ToWrite::new(taker);
    let ended = match door {
        Door::Closed => service.exchange(alloc, at, &mut inlet, &mut outlet),
        Door::Open { .. } => service.exchange_with(alloc, door, at, &mut inlet, &mut outlet),
    };
    let giver = inlet.into_inner();
    let taker = outlet.into_inner();
    Came {
        ended,
        written: taker.taken,
        reads: giver.reads,
        writes: taker.writes,
    }
}

// What an exchange writes; nothing if the input ended inside the message.
fn exchanged<K: Keep>(
    alloc: Global,
    service: &mut Service<K>,
    door: &Door,
    most: usize,
    at: Moment,
    bytes: &[u8],
) -> Result<Bytes, Down> {
    let giver = Giver::new(bytes, piece_of(most, bytes.len()));
    let came = exchange_over(alloc, service, door, at, giver, Taker::new(alloc));
    match came.ended {
        Ok(()) | Err(LinkFault::Ended) => Ok(Bytes::new(came.written)),
        Err(_) => Err(Down),
    }
}

// An operator's answer, a line each.
fn write_answer<O: Write>(output: &mut O, answer: &AdminAnswer) -> io::Result<()> {
    match answer {
        AdminAnswer::Done => output.write_all(b"ok\n"),
        AdminAnswer::Exists => output.write_all(b"refused exists\n"),
        AdminAnswer::Absent => output.write_all(b"refused absent\n"),
        AdminAnswer::InUse => output.write_all(b"refused in-use\n"),
        AdminAnswer::Organizations(rows) => write_org_lines(output, rows.as_slice()),
        AdminAnswer::Tokens(rows) => write_token_lines(output, rows.as_slice()),
    }
}

fn answer_lines(alloc: Global, answer: &AdminAnswer) -> Result<Vec<u8>, Down> {
    let mut lines = Vec::new(alloc);
    match write_answer(&mut lines, answer) {
        Ok(()) => Ok(lines),
        Err(_) => Err(Down),
    }
}

/// The reply to one step.
pub fn answered<K: Keep>(
    alloc: Global,
    service: &mut Service<K>,
    door: &Door,
    most: usize,
    step: &Step,
) -> Result<Bytes, Down> {
    match step {
        Step::Request { at, bytes } => {
            exchanged(alloc, service, door, most, *at, bytes.as_slice())
        }
        Step::Command { at, command } => {
            let answer = service.admin(alloc, *at, command)?;
            Ok(Bytes::new(answer_lines(alloc, &answer)?))
        }
    }
}

fn answered_each<K: Keep>(
    alloc: Global,
    service: &mut Service<K>,
    door: &Door,
    most: usize,
    steps: &[Step],
) -> Result<Vec<Bytes>, Down> {
    let mut replies = Vec::new(alloc);
    for step in steps {
        let reply = answered(alloc, service, door, most, step)?;
        replies.push(reply)?;
    }
    Ok(replies)
}

// The replies of a replay; or, if it gave up after so many steps, those to the steps that it left, which are sent again.
#[derive(Drop)]
struct Replies {
    gave_up: Option<usize>,
    all: Vec<Bytes>,
}

fn resumed<K: Keep>(
    alloc: Global,
    service: &mut Service<K>,
    steps: &[Step],
) -> Result<Replies, Down> {
    if let Ok(all) = service.replay(alloc, steps) {
        return Ok(Replies { gave_up: None, all });
    }
    let taken = service.taken() as usize;
    let Some(left) = steps.get(taken..) else {
        return Err(Down);
    };
    let all = service.replay(alloc, left)?;
    Ok(Replies {
        gave_up: Some(taken),
        all,
    })
}

fn replies_to<K: Keep>(
    alloc: Global,
    service: &mut Service<K>,
    door: &Door,
    way: Way,
    steps: &[Step],
) -> Result<Vec<Bytes>, Down> {
    match (way, door) {
        (Way::Replay, Door::Closed) => service.replay(alloc, steps),
        (Way::Replay, Door::Open { .. }) => answered_each(alloc, service, door, ALL, steps),
        (Way::Exchange(most), _) => answered_each(alloc, service, door, most, steps),
    }
}

// That the reply at a place is the one that is due there.
fn compare_at(alloc: Global, due: &[Due], replies: &[Bytes], index: usize) -> Result<(), Failure> {
    match (due.get(index), replies.get(index)) {
        (Some(due), Some(reply)) => {
            compare_bytes(alloc, due.line, due.bytes.as_slice(), reply.as_slice())
        }
        _ => Err(Failure::refused(0, "not one reply to each step")),
    }
}

// Replies compared with those that are due.
fn compare(alloc: Global, due: &[Due], replies: &[Bytes]) -> Result<(), Failure> {
    for index in 0..due.len().max(replies.len()) {
        compare_at(alloc, due, replies, index)?;
    }
    Ok(())
}

fn compare_left(alloc: Global, due: &[Due], replies: &Replies) -> Result<Option<usize>, Failure> {
    let Some(left) = due.get(replies.gave_up.unwrap_or(0)..) else {
        return Err(Failure::refused(0, "more steps were taken than there are"));
    };
    compare(alloc, left, replies.all.as_slice())?;
    Ok(replies.gave_up)
}

/// Takes a story's own steps by `replay`. If it gives up, another one takes the steps that it left; reports after how many
/// steps it gave up. Gives the store back.
pub fn resume_over<K: Keep>(
    alloc: Global,
    keep: K,
    play: &Play,
) -> (K, Result<Option<usize>, Failure>) {
    let (steps, due) = play.between(play.own, play.steps.len());
    let mut service = Service::new(keep);
    let replies = resumed(alloc, &mut service, steps);
    let keep = service.into_keep();
    let compared = match replies {
        Ok(replies) => compare_left(alloc, due, &replies),
        Err(_) => Err(Failure::refused(0, "memory or the store refused")),
    };
    (keep, compared)
}

// Behind how many steps a replay of a story's own steps gives up, if it does.
fn replay_own<K: Keep>(
    alloc: Global,
    service: &mut Service<K>,
    play: &Play,
) -> Result<Option<usize>, Failure> {
    let (steps, due) = play.between(play.own, play.steps.len());
    match service.replay(alloc, steps) {
        Ok(replies) => {
            compare(alloc, due, replies.as_slice())?;
            Ok(None)
        }
        Err(_) => Ok(Some(service.taken() as usize)),
    }
}

/// Takes a story's own steps by `replay`, and reports after how many it gave up. Gives the store back.
pub fn replay_over<K: Keep>(
    alloc: Global,
    keep: K,
    play: &Play,
) -> (K, Result<Option<usize>, Failure>) {
    let mut service = Service::new(keep);
    let gave_up = replay_own(alloc, &mut service, play);
    (service.into_keep(), gave_up)
}

/// Takes the steps from a place to another over a store, and compares the replies with those that are due. The store is given back.
pub fn take_over<K: Keep>(
    alloc: Global,
    keep: K,
    way: Way,
    play: &Play,
    from: usize,
    to: usize,
) -> (K, Result<(), Failure>) {
    let (steps, due) = play.between(from, to);
    let mut service = Service::new(keep);
    let replies = replies_to(alloc, &mut service, &play.door, way, steps);
    let keep = service.into_keep();
    let compared = match replies {
        Ok(replies) => compare(alloc, due, replies.as_slice()),
        Err(_) => Err(Failure::refused(0, "memory or the store refused")),
    };
    (keep, compared)
}

/// Takes the steps up to a place, and gives the store back.
pub fn taken_to<K: Keep + Drop>(
    alloc: Global,
    keep: K,
    way: Way,
    play: &Play,
    from: usize,
    to: usize,
) -> Result<K, Failure> {
    let (keep, taken) = take_over(alloc, keep, way, play, from, to);
    match taken {
        Ok(()) => Ok(keep),
        Err(failure) => Err(failure),
    }
}
