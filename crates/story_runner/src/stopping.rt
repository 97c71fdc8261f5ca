//! Steps that are taken up to one for which the store is down, and that one sent again.
use crate::devices::ALL;
use crate::failures::{Failure, compare_bytes};
use crate::plays::{Due, Play};
use crate::refusals::down_for;
use crate::taking::answered;
use basis::{Bytes, Down};
use machine::Keep;
use serve::{Service, Step};
use std::alloc::Global;

/// Where the power was cut.
#[derive(Clone, Copy)]
pub struct Cut {
    /// The place of the step that is due next.
    pub index: usize,
    /// Whether it was in that step, and not as the files were opened or closed.
    pub is_in_step: bool,
    pub line: usize,
}

impl Cut {
    pub fn new(play: &Play, index: usize, is_in_step: bool) -> Cut {
        Cut {
            index,
            is_in_step,
            line: line_at(play, index),
        }
    }

    /// The position of the step after it.
    pub fn next(&self) -> usize {
        if self.is_in_step {
            self.index.saturating_add(1)
        } else {
            self.index
        }
    }
}

/// The line of a step in the text.
pub fn line_at(play: &Play, index: usize) -> usize {
    match play.due.get(index) {
        Some(due) => due.line,
        None => 0,
    }
}

fn is_due(due: &Due, came: &Result<Bytes, Down>) -> bool {
    match came {
        Ok(reply) => reply.as_slice() == due.bytes.as_slice(),
        Err(_) => false,
    }
}

// Checks that a step which was not answered as due was answered that the store is down.
fn check_down(
    alloc: Global,
    step: &Step,
    due: &Due,
    came: Result<Bytes, Down>,
) -> Result<(), Failure> {
    match (step, came) {
        (Step::Request { .. }, Ok(reply)) => {
            let down = down_for(alloc, due.bytes.as_slice())?;
            compare_bytes(alloc, due.line, down.as_slice(), reply.as_slice())
        }
        (Step::Command { .. }, Ok(reply)) => {
            compare_bytes(alloc, due.line, due.bytes.as_slice(), reply.as_slice())
        }
        (Step::Command { .. }, Err(_)) => Ok(()),
        (Step::Request { .. }, Err(_)) => Err(Failure::refused(due.line, "the link broke")),
    }
}

// Takes the step of a place. The answer says whether it was answered as is due; else the store is down.
fn take_at<K: Keep>(
    alloc: Global,
    service: &mut Service<K>,
    play: &Play,
    index: usize,
) -> Result<bool, Failure> {
    let (Some(step), Some(due)) = (play.steps.get(index), play.due.get(index)) else {
        return Err(Failure::refused(0, "there is no such step"));
    };
    let came = answered(alloc, service, &play.door, ALL, step);
    if is_due(due, &came) {
        return Ok(true);
    }
    check_down(alloc, step, due, came)?;
    Ok(false)
}

// Takes the steps from a place to another, up to one for which the store is down: its place.
fn take_between<K: Keep>(
    alloc: Global,
    service: &mut Service<K>,
    play: &Play,
    from: usize,
    to: usize,
) -> Result<Option<usize>, Failure> {
    for index in from..to {
        if !take_at(alloc, service, play, index)? {
            return Ok(Some(index));
        }
    }
    Ok(None)
}

/// Takes the steps from a place to another, up to one for which the store is down: its place. The store is given back.
pub fn taken_up_to<K: Keep>(
    alloc: Global,
    keep: K,
    play: &Play,
    from: usize,
    to: usize,
) -> (K, Result<Option<usize>, Failure>) {
    let mut service = Service::new(keep);
    let stopped = take_between(alloc, &mut service, play, from, to);
    (service.into_keep(), stopped)
}

/// Whether a step that was applied may be answered so when it is sent again: as before, or that what it made exists, or
/// that what it removed is absent.
pub fn is_repeat(due: &[u8], reply: &[u8]) -> bool {
    reply == due
        || reply == b"refused exists\n".as_slice()
        || reply == b"refused absent\n".as_slice()
        || reply.ends_with(b"\r\n\r\nrefused exists\n")
        || reply.starts_with(b"HTTP/1.1 404 ")
}

fn is_repeated(due: &Due, came: &Result<Bytes, Down>) -> bool {
    match came {
        Ok(reply) => is_repeat(due.bytes.as_slice(), reply.as_slice()),
        Err(_) => false,
    }
}

/// The step in which the power was cut is sent again: it is done then, and once.
pub fn sent_again<K: Keep + Drop>(
    alloc: Global,
    keep: K,
    play: &Play,
    index: usize,
    is_applied: bool,
) -> Result<K, Failure> {
    let (Some(step), Some(due)) = (play.steps.get(index), play.due.get(index)) else {
        return Err(Failure::refused(0, "there is no such step"));
    };
    let mut service = Service::new(keep);
    let came = answered(alloc, &mut service, &play.door, ALL, step);
    let keep = service.into_keep();
    let is_right = if is_applied {
        is_repeated(due, &came)
    } else {
        is_due(due, &came)
    };
    if is_right {
        Ok(keep)
    } else {
        Err(Failure::refused(
            due.line,
            "the step that was sent again is answered otherwise",
        ))
    }
}

/// Whether the step was applied: the tables have the contents from before it, or those from after it.
pub fn is_applied(
    alloc: Global,
    line: usize,
    before: &[u8],
    after: &[u8],
    found: &[u8],
) -> Result<bool, Failure> {
    if found == before {
        return Ok(false);
    }
    compare_bytes(alloc, line, after, found)?;
    Ok(true)
}
