//! The program `stories`: examples as text, each sent to the service and compared with what the text says.
#![tactic(auto)]

mod begun;
mod commands;
mod files;
mod loopback;
mod programs;
mod stories;
mod values;

use std::io;
use std::io::{BufWriter, Read, Write};
use std::process::ExitCode;
use stories::run_story;
use story_runner::books::{Book, Story, read_book};
use story_runner::failures::{Failure, Why};
use story_runner::modes::Counts;
use story_runner::reports::{
    report_counts, report_end, report_failure, report_passed, report_short, report_unread,
};

/// All stories passed.
const PASSED: u8 = 0;

/// A story failed.
const FAILED: u8 = 1;

/// The text cannot be read, or an allocation or a stream failed.
const UNREAD: u8 = 2;

/// What came of a story.
#[derive(Clone, Copy)]
enum Came {
    Passed,
    Failed,
    /// The text cannot be read.
    Unread,
}

fn report_came<W: Write>(
    rt: &HostRuntime,
    output: &mut W,
    name: &str,
    failure: &Failure,
) -> io::Result<Came> {
    match &failure.why {
        Why::Unread(why) => {
            report_unread(output, failure.line, why)?;
            Ok(Came::Unread)
        }
        _ => {
            report_failure(rt.alloc(), output, name, failure)?;
            report_short(rt.alloc(), &mut rt.stderr(), name, failure)?;
            Ok(Came::Failed)
        }
    }
}

fn report_story<W: Write>(
    rt: &HostRuntime,
    output: &mut W,
    book: &Book<'_>,
    story: &Story<'_>,
) -> io::Result<Came> {
    let mut counts = Counts::new();
    match run_story(rt, book, story, &mut counts) {
        Ok(()) => {
            report_passed(output, story.name)?;
            report_counts(output, story.name, &counts)?;
            Ok(Came::Passed)
        }
        Err(failure) => report_came(rt, output, story.name, &failure),
    }
}

fn report_stories<W: Write>(rt: &HostRuntime, output: &mut W, book: &Book<'_>) -> io::Result<u8> {
    let mut failed = 0usize;
    for story in book.stories.as_slice() {
        match report_story(rt, output, book, story)? {
            Came::Passed => {}
            Came::Failed => failed = failed.saturating_add(1),
            Came::Unread => return Ok(UNREAD),
        }
    }
    report_end(output, book.stories.len(), failed)?;
    Ok(if failed == 0 { PASSED } else { FAILED })
}

fn report_text<W: Write>(rt: &HostRuntime, output: &mut W, text: &str) -> io::Result<u8> {
    match read_book(rt.alloc(), text) {
        Ok(book) => report_stories(rt, output, &book),
        Err(unread) => {
            report_unread(output, unread.line, unread.why)?;
            Ok(UNREAD)
        }
    }
}

fn run(rt: &HostRuntime) -> io::Result<u8> {
    let alloc = rt.alloc();
    let mut bytes = Vec::new(alloc);
    rt.stdin().read_to_end(&mut bytes)?;
    let mut output = BufWriter::new(alloc, rt.stdout())?;
    match str::from_utf8(bytes.as_slice()) {
        Ok(text) => report_text(rt, &mut output, text),
        Err(_) => {
            report_unread(&mut output, 0, "the text isn't UTF-8")?;
            Ok(UNREAD)
        }
    }
}

fn main(rt: HostRuntime) -> ExitCode {
    match run(&rt) {
        Ok(status) => ExitCode::from(status),
        Err(_) => ExitCode::from(UNREAD),
    }
}
