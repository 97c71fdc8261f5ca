//! A story of requests over links that break, over tables: after each break the tables must have what the story says.
use crate::devices::{ALL, Stop};
use crate::failures::Failure;
use crate::links::{Asked, Break, WriteStop, break_link, line_in, makes_more};
use crate::modes::{Counts, Modes};
use crate::plays::Play;
use crate::stores::{Inspects, Makes, checked, record_at, records_of};
use crate::taking::{Way, taken_to};
use machine::Keep;
use serve::{Service, Step};
use std::alloc::Global;

/// The name of this way.
pub const WAY: &str = "links that break";

/// The most bytes that readers give at a time.
const READERS: &[usize] = &[1, 7, ALL];

/// The last of them, alone.
const LAST_READER: &[usize] = &[ALL];

/// How writing stops.
const STOPS: &[Stop] = &[Stop::Fails, Stop::TakesNone];

/// What breaks under each of a story's own requests.
#[derive(Clone, Copy)]
enum Breaks<'s> {
    /// Each read, by a reader that gives so many bytes at a time.
    Reads(usize, Modes),
    /// The reply, at one of its bytes; whether a request that was taken is sent again; the contents of the tables before each own
    /// step and after the last.
    Writes(WriteStop, bool, &'s [Vec<u8>]),
}

// The tables before the story's own first step.
fn begun<K: Keep + Drop, M: Makes<K>>(alloc: Global, makes: &M, play: &Play) -> Result<K, Failure> {
    let keep = makes.made(alloc)?;
    taken_to(alloc, keep, Way::Replay, play, 0, play.own)
}

// The request at a position, and what is due to it; none for an operator's command.
fn asked_at(play: &Play, index: usize) -> Option<Asked<'_>> {
    let step = play.steps.get(index)?;
    let due = play.due.get(index)?;
    match step {
        Step::Request { at, bytes } => Some(Asked::new(*at, bytes.as_slice(), due, &play.door)),
        Step::Command { .. } => None,
    }
}

// The request over a link that breaks. The store is given back.
fn over_link<K: Keep + Drop>(
    alloc: Global,
    keep: K,
    asked: &Asked<'_>,
    how: Break,
    counts: &mut Counts,
) -> Result<K, Failure> {
    let mut service = Service::new(keep);
    let broken = break_link(alloc, &mut service, asked, how, counts);
    let keep = service.into_keep();
    match broken {
        Ok(()) => Ok(keep),
        Err(failure) => Err(failure),
    }
}

// The request is cut, and its reads fail; and then it comes whole.
fn read_one<K: Keep + Drop, L: Inspects<K>>(
    alloc: Global,
    inspects: &L,
    keep: K,
    asked: &Asked<'_>,
    most: usize,
    modes: Modes,
    counts: &mut Counts,
) -> Result<K, Failure> {
    let (keep, before) = inspects.recorded(alloc, keep, asked.line, false)?;
    let keep = over_link(alloc, keep, asked, Break::Reads(most, modes), counts)?;
    let keep = checked(alloc, inspects, keep, asked.line, before.as_slice(), false)?;
    over_link(alloc, keep, asked, Break::Nothing(most), counts)
}

// If `100 Continue` is not written, no step is taken, and the request is then sent completely. Otherwise the step is taken, and
// if requests are sent again, it leaves the tables as they are; one that creates something more is not sent again. A
// request whose reply has fewer bytes is sent completely.
fn write_one<K: Keep + Drop, L: Inspects<K>>(
    alloc: Global,
    inspects: &L,
    keep: K,
    asked: &Asked<'_>,
    around: (&[u8], &[u8]),
    stops: WriteStop,
    again: bool,
    counts: &mut Counts,
) -> Result<K, Failure> {
    let whole = Break::Nothing(stops.most);
    if asked.due.len() < stops.at {
        return over_link(alloc, keep, asked, whole, counts);
    }
    let is_taken = stops.at > line_in(asked.due);
    let due = if is_taken { around.1 } else { around.0 };
    let keep = over_link(alloc, keep, asked, Break::Write(stops), counts)?;
    let keep = checked(alloc, inspects, keep, asked.line, due, false)?;
    if !is_taken {
        return over_link(alloc, keep, asked, whole, counts);
    }
    if !again || makes_more(asked.bytes) {
        return Ok(keep);
    }
    let keep = over_link(alloc, keep, asked, Break::Again(stops.most), counts)?;
    checked(alloc, inspects, keep, asked.line, due, false)
}

// The step of a place: a request over links that break, or an operator's command.
fn break_at<K: Keep + Drop, L: Inspects<K>>(
    alloc: Global,
    inspects: &L,
    keep: K,
    play: &Play,
    index: usize,
    breaks: &Breaks<'_>,
    counts: &mut Counts,
) -> Result<K, Failure> {
    let next = index.saturating_add(1);
    let Some(asked) = asked_at(play, index) else {
        return taken_to(alloc, keep, Way::Replay, play, index, next);
    };
    match breaks {
        Breaks::Reads(most, modes) => {
            read_one(alloc, inspects, keep, &asked, *most, *modes, counts)
        }
        Breaks::Writes(stops, again, records) => {
            let around = (
                record_at(records, play, index),
                record_at(records, play, next),
            );
            write_one(
                alloc, inspects, keep, &asked, around, *stops, *again, counts,
            )
        }
    }
}

// The story's own steps, each request over links that break.
fn break_each<K: Keep + Drop, T: Makes<K> + Inspects<K>>(
    alloc: Global,
    tables: &T,
    play: &Play,
    breaks: &Breaks<'_>,
    counts: &mut Counts,
) -> Result<(), Failure> {
    let mut keep: K = begun(alloc, tables, play)?;
    for index in play.own..play.steps.len() {
        keep = break_at(alloc, tables, keep, play, index, breaks, counts)?;
    }
    Ok(())
}

// How many of the story's own requests have a reply of so many bytes.
fn count_of(play: &Play, stops_at: usize) -> usize {
    let mut count = 0usize;
    for index in play.own..play.steps.len() {
        if let Some(asked) = asked_at(play, index) {
            if asked.due.len() >= stops_at {
                count = count.saturating_add(1);
            }
        }
    }
    count
}

// The reply to each of the story's own requests stops at each byte. It ends with the longest.
fn stop_writes<K: Keep + Drop, T: Makes<K> + Inspects<K>>(
    alloc: Global,
    tables: &T,
    play: &Play,
    records: &[Vec<u8>],
    most: usize,
    stop: Stop,
    again: bool,
    counts: &mut Counts,
) -> Result<(), Failure> {
    for at in 1..=ALL {
        let count = count_of(play, at);
        if count == 0 {
            return Ok(());
        }
        let breaks = Breaks::Writes(WriteStop { most, at, stop }, again, records);
        break_each::<K, T>(alloc, tables, play, &breaks, counts)?;
        counts.writes = counts.writes.saturating_add(count);
    }
    Ok(())
}

// The same by each of these readers, and by writers that fail and that take nothing.
fn stop_by_each<K: Keep + Drop, T: Makes<K> + Inspects<K>>(
    alloc: Global,
    tables: &T,
    play: &Play,
    records: &[Vec<u8>],
    again: bool,
    counts: &mut Counts,
) -> Result<(), Failure> {
    let readers = if again { READERS } else { LAST_READER };
    for most in readers {
        for stop in STOPS {
            stop_writes::<K, T>(alloc, tables, play, records, *most, *stop, again, counts)?;
        }
    }
    Ok(())
}

fn break_writes<K: Keep + Drop, T: Makes<K> + Inspects<K>>(
    alloc: Global,
    tables: &T,
    play: &Play,
    again: bool,
    counts: &mut Counts,
) -> Result<(), Failure> {
    let keep: K = begun(alloc, tables, play)?;
    let (_, records) = records_of(alloc, tables, keep, play, Way::Replay, false)?;
    stop_by_each::<K, T>(alloc, tables, play, records.as_slice(), again, counts)
}

/// Tells a story's own requests over links that break.
pub fn run_broken<K: Keep + Drop, T: Makes<K> + Inspects<K>>(
    alloc: Global,
    tables: &T,
    play: &Play,
    modes: Modes,
    counts: &mut Counts,
) -> Result<(), Failure> {
    if modes.cut || modes.reads {
        for most in READERS {
            break_each::<K, T>(alloc, tables, play, &Breaks::Reads(*most, modes), counts)?;
        }
    }
    if modes.writes {
        return break_writes::<K, T>(alloc, tables, play, modes.again, counts);
    }
    Ok(())
}
