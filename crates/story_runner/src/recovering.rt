//! What is done over files whose power is cut: a story's steps up to the stop, and how the story goes on from there, over
//! tables whose rows are inspected between the steps.
use crate::devices::ALL;
use crate::failures::Failure;
use crate::plays::Play;
use crate::stopping::{Cut, is_applied, sent_again, taken_up_to};
use crate::stores::{Inspects, checked, played_over, record_at, records_of};
use crate::taking::{Way, taken_to};
use machine::Keep;
use std::alloc::Global;

/// How steps are taken.
const EACH: Way = Way::Exchange(ALL);

/// What is done over the tables of files.
#[derive(Clone, Copy)]
pub enum Work<'s> {
    /// Inspects all contents of tables of an earlier schema version. The store is not opened.
    QueryEarlier,
    /// Takes the steps before the story's own.
    Begin,
    /// Takes the story's own steps, up to one for which the store is down.
    TakeOwn,
    /// The same, with all contents of the tables before each of them and after the last.
    Record,
    /// Sends the step again in which the power was cut, and continues the story to its end; has the contents of the tables
    /// before each own step and after the last.
    GoOn(Cut, &'s [Vec<u8>]),
    /// Takes all steps, and asks the tables what the story asks.
    Report,
}

/// How work over files ended.
#[derive(Clone, Copy, PartialEq, Eq)]
pub enum Ended {
    /// The store is down when it is opened.
    Unopened,
    /// The store is down for the step at this position.
    Stopped(usize),
    /// The files cannot be closed.
    Unclosed,
    /// All was done.
    Completed,
}

/// What was done.
#[derive(Drop)]
pub struct Done {
    pub ended: Ended,
    /// The contents of the tables, if asked for.
    pub records: Vec<Vec<u8>>,
}

impl Done {
    /// Nothing was asked.
    pub fn new(alloc: Global, ended: Ended) -> Done {
        Done {
            ended,
            records: Vec::new(alloc),
        }
    }
}

// Checks that the tables have the contents from before the step or after it, and sends the step again.
fn taken_up<K: Keep + Drop, L: Inspects<K>>(
    alloc: Global,
    inspects: &L,
    keep: K,
    play: &Play,
    cut: Cut,
    records: &[Vec<u8>],
) -> Result<K, Failure> {
    let before = record_at(records, play, cut.index);
    let after = record_at(records, play, cut.next());
    let (keep, found) = inspects.recorded(alloc, keep, cut.line, true)?;
    let is_applied = is_applied(alloc, cut.line, before, after, found.as_slice())?;
    if cut.is_in_step {
        sent_again(alloc, keep, play, cut.index, is_applied)
    } else {
        Ok(keep)
    }
}

// Sends the step again in which the power was cut, and continues the story to its end.
fn gone_on<K: Keep + Drop, L: Inspects<K>>(
    alloc: Global,
    inspects: &L,
    keep: K,
    play: &Play,
    cut: Cut,
    records: &[Vec<u8>],
) -> Result<K, Failure> {
    let (next, end) = (cut.next(), play.steps.len());
    let keep = taken_up(alloc, inspects, keep, play, cut, records)?;
    let keep = checked(
        alloc,
        inspects,
        keep,
        cut.line,
        record_at(records, play, next),
        true,
    )?;
    let keep = taken_to(alloc, keep, EACH, play, next, end)?;
    checked(
        alloc,
        inspects,
        keep,
        cut.line,
        record_at(records, play, end),
        true,
    )
}

// Where no more is asked than that steps are taken.
fn worked<K: Keep + Drop, L: Inspects<K>>(
    alloc: Global,
    inspects: &L,
    keep: K,
    play: &Play,
    work: Work<'_>,
) -> Result<K, Failure> {
    match work {
        Work::Begin => taken_to(alloc, keep, EACH, play, 0, play.own),
        Work::GoOn(cut, records) => gone_on(alloc, inspects, keep, play, cut, records),
        _ => played_over(alloc, inspects, keep, play, play.keyed, EACH),
    }
}

fn recorded<K: Keep + Drop, L: Inspects<K>>(
    alloc: Global,
    inspects: &L,
    keep: K,
    play: &Play,
) -> Result<(K, Done), Failure> {
    let (keep, records) = records_of(alloc, inspects, keep, play, EACH, true)?;
    let ended = Ended::Completed;
    Ok((keep, Done { ended, records }))
}

fn taken_own<K: Keep + Drop>(alloc: Global, keep: K, play: &Play) -> Result<(K, Done), Failure> {
    let (keep, stopped) = taken_up_to(alloc, keep, play, play.own, play.steps.len());
    match stopped {
        Ok(Some(index)) => Ok((keep, Done::new(alloc, Ended::Stopped(index)))),
        Ok(None) => Ok((keep, Done::new(alloc, Ended::Completed))),
        Err(failure) => Err(failure),
    }
}

/// Works over tables, which are given back.
pub fn work_over<K: Keep + Drop, L: Inspects<K>>(
    alloc: Global,
    inspects: &L,
    keep: K,
    play: &Play,
    work: Work<'_>,
) -> Result<(K, Done), Failure> {
    match work {
        Work::TakeOwn => taken_own(alloc, keep, play),
        Work::Record => recorded(alloc, inspects, keep, play),
        _ => {
            let keep = worked(alloc, inspects, keep, play, work)?;
            Ok((keep, Done::new(alloc, Ended::Completed)))
        }
    }
}
