//! A story of a store over files in memory, with the power cut at each of their calls: the files then have everything from before
//! the step or everything from after it, and the step is sent again.
use crate::cuts::{Cuts, Image, Left, NO_CUTS, over_all_rows, over_image};
use crate::images::write_images;
use std::alloc::Global;
use story_runner::failures::Failure;
use story_runner::modes::Counts;
use story_runner::plays::Play;
use story_runner::recovering::{Ended, Work};
use story_runner::stopping::{Cut, line_at};
use story_runner::stores::record_at;

/// The name of this way.
pub const WAY: &str = "power that is cut";

/// The most calls that a story makes of one file.
const MOST_CALLS: u64 = 100_000;

/// A stop, and what it may leave.
#[derive(Drop)]
struct Stop {
    cut: Cut,
    images: Vec<Image>,
}

impl Stop {
    // Whether it was in this step, and may have left this.
    fn has(&self, cut: Cut, image: &Image) -> bool {
        if self.cut.index != cut.index || self.cut.is_in_step != cut.is_in_step {
            return false;
        }
        for left in self.images.as_slice() {
            if left.is_same(image) {
                return true;
            }
        }
        false
    }
}

// The files before the story's own first step; none if it is the first of all.
fn begun(alloc: Global, play: &Play) -> Result<Image, Failure> {
    let nothing = Image::new(alloc);
    if play.own == 0 {
        return Ok(nothing);
    }
    let mut left = over_all_rows(alloc, 0, &nothing, play, Work::Begin)?;
    left.images.truncate(1);
    match left.images.pop() {
        Some(image) => Ok(image),
        None => Ok(nothing),
    }
}

// The contents of the tables before each of the story's own steps, and after the last.
fn records_from(alloc: Global, play: &Play, image: &Image) -> Result<Vec<Vec<u8>>, Failure> {
    let left = over_all_rows(alloc, 0, image, play, Work::Record)?;
    Ok(left.done.records)
}

// The contents of the tables of an earlier schema version.
fn earlier_record(alloc: Global, play: &Play, image: &Image) -> Result<Vec<u8>, Failure> {
    let mut left = over_all_rows(alloc, 0, image, play, Work::QueryEarlier)?;
    match left.done.records.pop() {
        Some(record) => Ok(record),
        None => Err(Failure::refused(0, "the tables don't answer")),
    }
}

// Where the power was cut, unless the story came to its end.
fn cut_of(play: &Play, ended: Ended) -> Option<Cut> {
    match ended {
        Ended::Unopened => Some(Cut::new(play, play.own, false)),
        Ended::Stopped(index) => Some(Cut::new(play, index, true)),
        Ended::Unclosed => Some(Cut::new(play, play.steps.len(), false)),
        Ended::Completed => None,
    }
}

// Runs the story, with the power cut after so many calls. Returns where that was, unless the story came to its end.
fn reported(
    alloc: Global,
    play: &Play,
    image: &Image,
    cuts: Cuts,
) -> Result<Option<Stop>, Failure> {
    let Left { done, images } = over_image(alloc, image, cuts, play, Work::TakeOwn)?;
    match cut_of(play, done.ended) {
        Some(cut) => Ok(Some(Stop { cut, images })),
        None => Ok(None),
    }
}

// Opens the files again, and continues the story to its end.
fn recovered(
    alloc: Global,
    play: &Play,
    records: &[Vec<u8>],
    cut: Cut,
    image: &Image,
) -> Result<(), Failure> {
    match over_all_rows(alloc, cut.line, image, play, Work::GoOn(cut, records)) {
        Ok(_) => Ok(()),
        Err(failure) => Err(failure),
    }
}

/// The contents of the tables.
#[derive(Drop)]
struct Records {
    /// Before the first open of all: nothing, or what a file of an earlier schema version has.
    first: Vec<u8>,
    /// Before each of the story's own steps, and after the last.
    all: Vec<Vec<u8>>,
}

impl Records {
    // The contents before the stop, and after the step.
    fn around(&self, play: &Play, cut: Cut) -> (&[u8], &[u8]) {
        let is_first = cut.index == 0 && !cut.is_in_step;
        let records = self.all.as_slice();
        let before = if is_first {
            self.first.as_slice()
        } else {
            record_at(records, play, cut.index)
        };
        (before, record_at(records, play, cut.next()))
    }
}

// Each of the images that a stop may leave is recovered from, but those that the stop before left, too.
fn recover_each(
    alloc: Global,
    play: &Play,
    records: &[Vec<u8>],
    stop: &Stop,
    last: &Stop,
    counts: &mut Counts,
) -> Result<(), Failure> {
    for image in stop.images.as_slice() {
        if !last.has(stop.cut, image) {
            recovered(alloc, play, records, stop.cut, image)?;
            counts.reopenings = counts.reopenings.saturating_add(1);
        }
    }
    counts.stops = counts.stops.saturating_add(1);
    Ok(())
}

// Writes what a stop leaves, if the environment asks for it.
fn keep_images(
    rt: &HostRuntime,
    play: &Play,
    records: &Records,
    stop: &Stop,
    count: usize,
) -> Result<(), Failure> {
    let line = line_at(play, play.own);
    let around = records.around(play, stop.cut);
    match write_images(rt, line, count, stop.images.as_slice(), around) {
        Ok(()) => Ok(()),
        Err(_) => Err(Failure::refused(stop.cut.line, "the images can't be written")),
    }
}

// After so many calls of the log, or of the file.
fn cuts_after(is_log: bool, calls: u64) -> Cuts {
    if is_log {
        Cuts {
            log: calls,
            db: NO_CUTS.db,
        }
    } else {
        Cuts {
            log: NO_CUTS.log,
            db: calls,
        }
    }
}

// Cuts the power after each call of one of the files, until the story comes to its end.
fn cut_each(
    rt: &HostRuntime,
    play: &Play,
    image: &Image,
    records: &Records,
    is_log: bool,
    counts: &mut Counts,
) -> Result<(), Failure> {
    let alloc = rt.alloc();
    let mut last = Stop {
        cut: Cut::new(play, play.own, false),
        images: Vec::new(alloc),
    };
    for calls in 0..MOST_CALLS {
        let Some(stop) = reported(alloc, play, image, cuts_after(is_log, calls))? else {
            return Ok(());
        };
        recover_each(alloc, play, records.all.as_slice(), &stop, &last, counts)?;
        keep_images(rt, play, records, &stop, counts.stops)?;
        last = stop;
    }
    Err(Failure::refused(0, "the power is cut at each of many calls"))
}

fn run_from(
    rt: &HostRuntime,
    play: &Play,
    image: &Image,
    records: &Records,
    counts: &mut Counts,
) -> Result<(), Failure> {
    cut_each(rt, play, image, records, true, counts)?;
    cut_each(rt, play, image, records, false, counts)
}

/// Tells a story's own steps over files in memory whose power is cut at each call of the one and of the other.
pub fn run_stops(rt: &HostRuntime, play: &Play, counts: &mut Counts) -> Result<(), Failure> {
    let alloc = rt.alloc();
    let image = begun(alloc, play)?;
    let records = Records {
        first: Vec::new(alloc),
        all: records_from(alloc, play, &image)?,
    };
    run_from(rt, play, &image, &records, counts)
}

/// The same, of a story that begins with a file of an earlier version.
pub fn run_earlier_stops(
    rt: &HostRuntime,
    play: &Play,
    image: &Image,
    counts: &mut Counts,
) -> Result<(), Failure> {
    let alloc = rt.alloc();
    let records = Records {
        first: earlier_record(alloc, play, image)?,
        all: records_from(alloc, play, image)?,
    };
    run_from(rt, play, image, &records, counts)
}
