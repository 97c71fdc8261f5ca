//! What the text defines, and why a text cannot be read.
use crate::lines::Defines;
use basis::Down;
use basis::numbers::{MAX_MOMENT, whole_number};
use std::alloc::{AllocError, AllocFailed, Global};

/// Where a text cannot be read, and why. An allocation failure has no line.
#[derive(Clone, Copy)]
pub struct Unread {
    pub line: usize,
    pub why: &'static str,
}

const NO_MEMORY: Unread = Unread {
    line: 0,
    why: "memory was refused",
};

impl From<AllocError> for Unread {
    fn from(_error: AllocError) -> Unread {
        NO_MEMORY
    }
}

impl<T: Drop> From<AllocFailed<T>> for Unread {
    fn from(_error: AllocFailed<T>) -> Unread {
        NO_MEMORY
    }
}

impl From<Down> for Unread {
    fn from(_down: Down) -> Unread {
        NO_MEMORY
    }
}

/// A short name, and what it stands for.
#[derive(Clone, Copy)]
struct Short<'a> {
    name: &'a str,
    text: &'a str,
}

// What the first of this name stands for.
fn find<'a>(shorts: &[Short<'a>], name: &str) -> Option<&'a str> {
    for short in shorts {
        if short.name == name {
            return Some(short.text);
        }
    }
    None
}

fn push<'a>(shorts: &mut Vec<Short<'a>>, short: Short<'a>) -> Result<(), Unread> {
    shorts.push(short)?;
    Ok(())
}

/// What the text defines.
#[derive(Drop)]
pub struct Definitions<'a> {
    tokens: Vec<Short<'a>>,
    reasons: Vec<Short<'a>>,
    challenges: Vec<Short<'a>>,
    /// The moment of the steps that follow, in seconds since 1970, and the date of their replies.
    pub at: u64,
    pub date: &'a str,
}

impl<'a> Definitions<'a> {
    pub fn new(alloc: Global) -> Definitions<'a> {
        Definitions {
            tokens: Vec::new(alloc),
            reasons: Vec::new(alloc),
            challenges: Vec::new(alloc),
            at: 0,
            date: "",
        }
    }

    /// The bearer token of a short name.
    pub fn token(&self, name: &str) -> Option<&'a str> {
        find(self.tokens.as_slice(), name)
    }

    /// The phrase of a status.
    pub fn reason(&self, status: &str) -> Option<&'a str> {
        find(self.reasons.as_slice(), status)
    }

    /// The challenge that comes with a refusal.
    pub fn challenge(&self, word: &str) -> Option<&'a str> {
        find(self.challenges.as_slice(), word)
    }

    fn set_moment(&mut self, line: usize, seconds: &str, date: &'a str) -> Result<(), Unread> {
        match whole_number(seconds) {
            Some(at) if at <= MAX_MOMENT => {
                self.at = at;
                self.date = date;
                Ok(())
            }
            _ => Err(Unread {
                line,
                why: "a moment is a number of seconds",
            }),
        }
    }

    fn put(
        &mut self,
        line: usize,
        defines: Defines,
        name: &'a str,
        text: &'a str,
    ) -> Result<(), Unread> {
        let short = Short { name, text };
        match defines {
            Defines::Token => push(&mut self.tokens, short),
            Defines::Reason => push(&mut self.reasons, short),
            Defines::Challenge => push(&mut self.challenges, short),
            Defines::Moment => self.set_moment(line, name, text),
        }
    }

    /// Takes a definition.
    pub fn define(&mut self, line: usize, defines: Defines, text: &'a str) -> Result<(), Unread> {
        match text.split_once(' ') {
            Some((name, text)) => self.put(line, defines, name, text),
            None => Err(Unread {
                line,
                why: "a definition is a name and what it stands for",
            }),
        }
    }
}
