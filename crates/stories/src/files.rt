//! A story of a store over tables in a file, which is closed and opened again midway.
use crate::programs::{forget, is_done};
use program::environment::Opening;
use sqlite_disk::{Start, Unknown};
use std::fs;
use story_runner::devices::ALL;
use story_runner::failures::Failure;
use story_runner::plays::Play;
use story_runner::taking::{Way, take_over};
use system::{close_file, open_file};

/// Where the tables lie while a story runs.
const PATH: &str = "stories.db";

/// Where copies of them lie.
const COPY: &str = "copies.db";

/// The words that copy every organization there, then copy one again that was removed, and check for faults.
const COPYING: &[&str] = &[
    "compact --db stories.db --to copies.db",
    "org-remove --db copies.db --force acme",
    "org-copy --db stories.db --to copies.db acme",
    "check --db copies.db",
];

/// The name of this way.
pub const WAY: &str = "tables in a file";

/// The name of the way over a file and its copy.
const COPIED: &str = "tables that are copied";

// Takes steps over the store in a file, which is opened and closed for them.
fn take_from<S: Start>(
    rt: &HostRuntime,
    path: &str,
    opening: Opening,
    start: S,
    play: &Play,
    from: usize,
    to: usize,
) -> Result<(), Failure> {
    let Ok(keep) = open_file(rt, path, opening, start) else {
        return Err(Failure::refused(0, "the file doesn't open"));
    };
    let (keep, taken) = take_over(rt.alloc(), keep, Way::Exchange(ALL), play, from, to);
    if close_file(keep).is_err() {
        return Err(Failure::refused(0, "the file doesn't close"));
    }
    taken
}

fn take_halves(rt: &HostRuntime, play: &Play, first: Opening) -> Result<(), Failure> {
    let middle = play.steps.len() / 2;
    let end = play.steps.len();
    take_from(rt, PATH, first, Unknown, play, 0, middle)?;
    take_from(rt, PATH, Opening::Existing, Unknown, play, middle, end)
}

fn take_halves_of(rt: &HostRuntime, play: &Play, bytes: &[u8]) -> Result<(), Failure> {
    if fs::write(rt, PATH, bytes).is_err() {
        return Err(Failure::refused(0, "the file can't be written"));
    }
    take_halves(rt, play, Opening::Existing)
}

fn copy_all(rt: &HostRuntime) -> Result<(), Failure> {
    for words in COPYING {
        if !is_done(rt, *words)? {
            return Err(Failure::refused(0, "the organizations aren't copied"));
        }
    }
    Ok(())
}

fn take_behind(rt: &HostRuntime, play: &Play) -> Result<(), Failure> {
    let (own, end) = (play.own, play.steps.len());
    take_from(rt, PATH, Opening::Created, Unknown, play, 0, own)?;
    copy_all(rt)?;
    take_from(rt, COPY, Opening::Existing, Unknown, play, own, end)?;
    take_from(rt, PATH, Opening::Existing, Unknown, play, own, end)
}

/// Runs the stories before it over tables in a file, copies each organization to another file by the program's words, and
/// runs the story over both.
pub fn run_copied(rt: &HostRuntime, play: &Play) -> Result<(), Failure> {
    forget(rt, PATH)?;
    forget(rt, COPY)?;
    let taken = take_behind(rt, play);
    forget(rt, PATH)?;
    forget(rt, COPY)?;
    match taken {
        Ok(()) => Ok(()),
        Err(failure) => Err(failure.on(COPIED)),
    }
}

/// Runs a story over tables in a copy of a file.
pub fn run_in_copy(rt: &HostRuntime, play: &Play, bytes: &[u8]) -> Result<(), Failure> {
    forget(rt, PATH)?;
    let taken = take_halves_of(rt, play, bytes);
    forget(rt, PATH)?;
    match taken {
        Ok(()) => Ok(()),
        Err(failure) => Err(failure.on(WAY)),
    }
}

/// Runs a story over tables in a file that is made for it and taken away afterwards.
pub fn run_in_file(rt: &HostRuntime, play: &Play) -> Result<(), Failure> {
    forget(rt, PATH)?;
    let taken = take_halves(rt, play, Opening::Created);
    forget(rt, PATH)?;
    match taken {
        Ok(()) => Ok(()),
        Err(failure) => Err(failure.on(WAY)),
    }
}
