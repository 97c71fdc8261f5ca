//! A story run by its kind: of a store, of values, or over loopback.
use crate::begun::run_begun;
use crate::commands::FrameWords;
use crate::files::{run_copied, run_in_file};
use crate::loopback::{is_loopback, take_loopback};
use crate::values::{is_of_values, take_value};
use std::alloc::Global;
use story_runner::books::{Book, Part, Story};
use story_runner::failures::Failure;
use story_runner::modes::{Counts, Modes};
use story_runner::plays::{Play, play_of};
use story_runner::refusals;
use story_runner::refusals::run_refused;
use story_stores::beside::run_beside;
use story_stores::resuming::run_resumed;
use story_stores::stops;
use story_stores::stops::run_stops;
use story_stores::ways::{run_in_breaks, run_in_memory, run_large_in_memory};

// The earlier stories and this one, in turn.
fn run_store(
    rt: &HostRuntime,
    book: &Book<'_>,
    story: &Story<'_>,
    counts: &mut Counts,
) -> Result<(), Failure> {
    let play = play_of(rt.alloc(), &FrameWords, book, story)?;
    match story.begins {
        Some(path) => run_begun(rt, path, &play, story.modes, counts),
        None => run_made(rt, &play, story.modes, counts),
    }
}

// A story that begins with no organization.
fn run_made(
    rt: &HostRuntime,
    play: &Play,
    modes: Modes,
    counts: &mut Counts,
) -> Result<(), Failure> {
    if modes.resumes {
        return run_resumed(rt, play);
    }
    if modes.large {
        run_large_in_memory(rt.alloc(), play)?;
        return run_in_file(rt, play);
    }
    run_in_memory(rt.alloc(), play)?;
    run_beside(rt.alloc(), play)?;
    run_in_file(rt, play)?;
    run_over_copy(rt, play, modes)?;
    run_in_breaks(rt.alloc(), play, modes, counts)?;
    run_over_refusals(rt.alloc(), play, modes, counts)?;
    run_in_stops(rt, play, modes, counts)
}

// The story's own steps over a file to which all was copied, and over that from which it was.
fn run_over_copy(rt: &HostRuntime, play: &Play, modes: Modes) -> Result<(), Failure> {
    if modes.copied {
        run_copied(rt, play)
    } else {
        Ok(())
    }
}

// The story's own steps over files whose power is cut.
fn run_in_stops(
    rt: &HostRuntime,
    play: &Play,
    modes: Modes,
    counts: &mut Counts,
) -> Result<(), Failure> {
    if modes.stops.is_none() {
        return Ok(());
    }
    match run_stops(rt, play, counts) {
        Ok(()) => Ok(()),
        Err(failure) => Err(failure.on(stops::WAY)),
    }
}

// The story's own requests over a store that refuses changes.
fn run_over_refusals(
    alloc: Global,
    play: &Play,
    modes: Modes,
    counts: &mut Counts,
) -> Result<(), Failure> {
    if !modes.refused {
        return Ok(());
    }
    match run_refused(alloc, play, counts) {
        Ok(()) => Ok(()),
        Err(failure) => Err(failure.on(refusals::WAY)),
    }
}

fn run_values(rt: &HostRuntime, story: &Story<'_>) -> Result<(), Failure> {
    for plot in story.plots.as_slice() {
        take_value(rt.alloc(), plot)?;
    }
    Ok(())
}

fn first_head<'s, 'a>(story: &'s Story<'a>) -> Option<&'s Part<'a>> {
    let plot = story.plots.first()?;
    plot.parts.first()
}

fn run_loopback(rt: &HostRuntime, story: &Story<'_>) -> Result<(), Failure> {
    for plot in story.plots.as_slice() {
        take_loopback(rt, plot)?;
    }
    Ok(())
}

/// Runs a story, up to what fails, and counts how often links and streams broke under it.
pub fn run_story(
    rt: &HostRuntime,
    book: &Book<'_>,
    story: &Story<'_>,
    counts: &mut Counts,
) -> Result<(), Failure> {
    match first_head(story) {
        Some(head) if is_loopback(head) => run_loopback(rt, story),
        Some(head) if is_of_values(head) => run_values(rt, story),
        _ => run_store(rt, book, story, counts),
    }
}
