//! A story that is replayed while allocations may fail: the steps that a replay left are sent again. The contents of the
//! tables when it gave up, and at the end, are those of a replay without failures.
use crate::keys::FirstByte;
use crate::ways::{Sql, TablesBy};
use machine::{Keep, PlainKeep};
use pages::{PageKey, ShaKey};
use std::alloc::Global;
use std::io;
use std::io::Write;
use story_runner::devices::ALL;
use story_runner::failures::Failure;
use story_runner::plays::Play;
use story_runner::stopping::line_at;
use story_runner::stores::{Inspects, Makes, checked, record_at, records_of};
use story_runner::taking::{Way, replay_over, resume_over, taken_to};

/// The name of tables that are inspected when a replay gave up.
const LOOKED: &str = "tables by first bytes that are looked at";

// The lines on the error stream: that the story's own steps come next over this store, and then after how many of them
// the replay gave up, if it did.
fn say_next(rt: &HostRuntime, name: &str) -> io::Result<()> {
    writeln!(rt.stderr(), "replay over {name}")
}

fn say_taken(rt: &HostRuntime, gave_up: Option<usize>, steps: usize) -> io::Result<()> {
    match gave_up {
        Some(taken) => writeln!(rt.stderr(), "gave up behind {taken} of {steps} steps"),
        None => writeln!(rt.stderr(), "replayed"),
    }
}

fn said(written: io::Result<()>) -> Result<(), Failure> {
    match written {
        Ok(()) => Ok(()),
        Err(_) => Err(Failure::refused(0, "the error stream failed")),
    }
}

fn said_taken(rt: &HostRuntime, play: &Play, gave_up: Option<usize>) -> Result<(), Failure> {
    let steps = play.steps.len().saturating_sub(play.own);
    said(say_taken(rt, gave_up, steps))
}

// Replays the story's own steps, and sends those again that the replay left. The store is given back.
fn resume<K: Keep + Drop>(
    rt: &HostRuntime,
    name: &'static str,
    keep: K,
    play: &Play,
) -> Result<K, Failure> {
    let keep = taken_to(rt.alloc(), keep, Way::Replay, play, 0, play.own)?;
    said(say_next(rt, name))?;
    let (keep, resumed) = resume_over(rt.alloc(), keep, play);
    match resumed {
        Ok(gave_up) => {
            said_taken(rt, play, gave_up)?;
            Ok(keep)
        }
        Err(failure) => Err(failure.on(name)),
    }
}

// The same, with the tables inspected after the step at which the replay gave up: they have what they had before the
// step that it left.
fn resume_inspected<K: Keep + Drop, L: Inspects<K>>(
    rt: &HostRuntime,
    inspects: &L,
    name: &'static str,
    keep: K,
    play: &Play,
    records: &[Vec<u8>],
) -> Result<K, Failure> {
    let keep = taken_to(rt.alloc(), keep, Way::Replay, play, 0, play.own)?;
    said(say_next(rt, name))?;
    let (keep, replayed) = replay_over(rt.alloc(), keep, play);
    let gave_up = replayed?;
    said_taken(rt, play, gave_up)?;
    let end = play.steps.len();
    let index = match gave_up {
        Some(taken) => play.own.saturating_add(taken),
        None => end,
    };
    let line = line_at(play, index);
    let due = record_at(records, play, index);
    let keep = checked(rt.alloc(), inspects, keep, line, due, true)?;
    taken_to(rt.alloc(), keep, Way::Replay, play, index, end)
}

// At the end the tables have what they have after a replay without failures.
fn check_end<K: Keep + Drop, L: Inspects<K>>(
    alloc: Global,
    inspects: &L,
    keep: K,
    play: &Play,
    records: &[Vec<u8>],
) -> Result<(), Failure> {
    let end = play.steps.len();
    let due = record_at(records, play, end);
    checked(alloc, inspects, keep, line_at(play, play.own), due, true)?;
    Ok(())
}

// The contents of the tables before each own step and after the last.
fn records_over<K: Keep + Drop, T: Makes<K> + Inspects<K>>(
    alloc: Global,
    tables: &T,
    play: &Play,
) -> Result<Vec<Vec<u8>>, Failure> {
    let keep: K = tables.made(alloc)?;
    let keep = taken_to(alloc, keep, Way::Replay, play, 0, play.own)?;
    let (_keep, records) = records_of(alloc, tables, keep, play, Way::Exchange(ALL), true)?;
    Ok(records)
}

fn records_by<K: PageKey>(alloc: Global, play: &Play) -> Result<Vec<Vec<u8>>, Failure> {
    records_over::<TablesBy<K>, Sql>(alloc, &Sql, play)
}

// Whether the tables are inspected where the replay gave up, too.
fn resume_over_tables<K: Keep + Drop, T: Makes<K> + Inspects<K>>(
    rt: &HostRuntime,
    tables: &T,
    name: &'static str,
    play: &Play,
    records: &[Vec<u8>],
    is_inspected: bool,
) -> Result<(), Failure> {
    let keep: K = tables.made(rt.alloc())?;
    let resumed = if is_inspected {
        resume_inspected(rt, tables, name, keep, play, records)
    } else {
        resume(rt, name, keep, play)
    };
    match resumed {
        Ok(keep) => check_end(rt.alloc(), tables, keep, play, records),
        Err(failure) => Err(failure),
    }
}

fn resume_by<K: PageKey>(
    rt: &HostRuntime,
    name: &'static str,
    play: &Play,
    records: &[Vec<u8>],
    is_inspected: bool,
) -> Result<(), Failure> {
    match resume_over_tables::<TablesBy<K>, Sql>(rt, &Sql, name, play, records, is_inspected) {
        Ok(()) => Ok(()),
        Err(failure) => Err(failure.on(name)),
    }
}

/// Replays a story's own steps over values, and over tables by either key of their pages. Where a replay gives up, the steps
/// that it left are sent again, and all rows are compared with those of a run to which no memory is refused.
pub fn run_resumed(rt: &HostRuntime, play: &Play) -> Result<(), Failure> {
    let alloc = rt.alloc();
    let by_sha = records_by::<ShaKey>(alloc, play)?;
    let by_first = records_by::<FirstByte>(alloc, play)?;
    resume(rt, "values", PlainKeep::new(alloc), play)?;
    resume_by::<ShaKey>(rt, "tables", play, by_sha.as_slice(), false)?;
    resume_by::<FirstByte>(
        rt,
        "tables by first bytes",
        play,
        by_first.as_slice(),
        false,
    )?;
    resume_by::<FirstByte>(rt, LOOKED, play, by_first.as_slice(), true)
}
