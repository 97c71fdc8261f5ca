//! A story of a store that begins with a file of an earlier version: over that file in memory and copied, and over files
//! in memory whose power is cut.
use crate::files::run_in_copy;
use crate::programs::bytes_of;
use std::alloc::Global;
use story_runner::failures::Failure;
use story_runner::modes::{Counts, Modes};
use story_runner::plays::Play;
use story_runner::recovering::Work;
use story_stores::cuts::{Image, over_all_rows};
use story_stores::stops;
use story_stores::stops::run_earlier_stops;

/// The name of the way in memory.
const WAY: &str = "the file in memory";

fn run_in_image(alloc: Global, play: &Play, image: &Image) -> Result<(), Failure> {
    over_all_rows(alloc, 0, image, play, Work::Report)?;
    Ok(())
}

fn run_over(rt: &HostRuntime, play: &Play, image: &Image) -> Result<(), Failure> {
    if let Err(failure) = run_in_image(rt.alloc(), play, image) {
        return Err(failure.on(WAY));
    }
    run_in_copy(rt, play, image.db.as_slice())
}

/// Runs a story that begins with the file at this path.
pub fn run_begun(
    rt: &HostRuntime,
    path: &str,
    play: &Play,
    modes: Modes,
    counts: &mut Counts,
) -> Result<(), Failure> {
    let image = Image {
        log: Vec::new(rt.alloc()),
        db: bytes_of(rt, path)?,
    };
    run_over(rt, play, &image)?;
    if modes.stops.is_none() {
        return Ok(());
    }
    match run_earlier_stops(rt, play, &image, counts) {
        Ok(()) => Ok(()),
        Err(failure) => Err(failure.on(stops::WAY)),
    }
}
