//! An operator's command, by the words that a frame has; and the list of tokens and the removal of an organization, which no frame asks for.
use basis::{Moment, OrgName, Unfit};
use program::frame_headers::FrameHeader;
use serve::words::split_words;
use serve::{Admin, Step};
use std::alloc::{AllocError, Global};
use story_runner::plays::ReadsCommands;

// The line of a frame.
fn frame_line(alloc: Global, at: Moment, words: &str) -> Result<String, AllocError> {
    format!(in alloc; "at {} admin {words}", at.seconds())
}

// What lists the tokens of an organization.
fn list_of(alloc: Global, at: Moment, org: &str) -> Result<Step, Unfit> {
    let org = OrgName::read(alloc, org)?;
    Ok(Step::Command {
        at,
        command: Admin::TokenList { org },
    })
}

// What removes an organization.
fn removal_of(alloc: Global, at: Moment, org: &str, is_forced: bool) -> Result<Step, Unfit> {
    let org = OrgName::read(alloc, org)?;
    Ok(Step::Command {
        at,
        command: Admin::OrgRemove { org, is_forced },
    })
}

// What a frame with these words asks for.
fn framed(alloc: Global, at: Moment, words: &str) -> Result<Step, Unfit> {
    let line = frame_line(alloc, at, words)?;
    let words = split_words(alloc, line.as_str().as_bytes())?;
    match FrameHeader::read(alloc, words.as_slice())? {
        FrameHeader::Command { at, command } => Ok(Step::Command { at, command }),
        FrameHeader::Request { .. } => Err(Unfit::Syntax),
    }
}

/// Reads commands as frames have them.
pub struct FrameWords;

impl ReadsCommands for FrameWords {
    fn read(&self, alloc: Global, at: Moment, words: &str) -> Result<Step, Unfit> {
        match words.split_once(' ') {
            Some(("token-list", org)) => list_of(alloc, at, org),
            Some(("org-remove", words)) => match words.strip_prefix("--force ") {
                Some(org) => removal_of(alloc, at, org, true),
                None => removal_of(alloc, at, words, false),
            },
            _ => framed(alloc, at, words),
        }
    }
}
