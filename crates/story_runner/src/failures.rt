//! Why a story failed.
use crate::definitions::Unread;
use basis::Down;
use std::alloc::{AllocError, AllocFailed, Global};

/// What went wrong.
#[derive(Drop)]
pub enum Why {
    /// Something else came than what is due.
    Differs { due: Vec<u8>, came: Vec<u8> },
    /// Memory, the store or a file refused.
    Refused(&'static str),
    /// A link or a stream broke at a position, and something else came than is due.
    Broken(&'static str, usize),
    /// The text cannot be read.
    Unread(&'static str),
}

/// Why a story failed, on which way and at which line of the text.
#[derive(Drop)]
pub struct Failure {
    pub way: &'static str,
    pub line: usize,
    pub why: Why,
}

impl Failure {
    /// Something else came than is due.
    pub fn differs(line: usize, due: Vec<u8>, came: Vec<u8>) -> Failure {
        Failure {
            way: "",
            line,
            why: Why::Differs { due, came },
        }
    }

    /// Something was refused.
    pub fn refused(line: usize, why: &'static str) -> Failure {
        Failure {
            way: "",
            line,
            why: Why::Refused(why),
        }
    }

    /// Something else came than is due, where a link or a stream broke at a position.
    pub fn broken(line: usize, what: &'static str, index: usize) -> Failure {
        Failure {
            way: "",
            line,
            why: Why::Broken(what, index),
        }
    }

    /// The same on a way.
    pub fn on(self, way: &'static str) -> Failure {
        let Failure { line, why, .. } = self;
        Failure { way, line, why }
    }
}

impl From<Unread> for Failure {
    fn from(unread: Unread) -> Failure {
        Failure {
            way: "",
            line: unread.line,
            why: Why::Unread(unread.why),
        }
    }
}

impl From<Down> for Failure {
    fn from(_down: Down) -> Failure {
        Failure::refused(0, "memory or the store refused")
    }
}

impl From<AllocError> for Failure {
    fn from(_error: AllocError) -> Failure {
        Failure::refused(0, "memory was refused")
    }
}

impl<T: Drop> From<AllocFailed<T>> for Failure {
    fn from(_error: AllocFailed<T>) -> Failure {
        Failure::refused(0, "memory was refused")
    }
}

/// That these bytes are those that are due.
pub fn compare_bytes(alloc: Global, line: usize, due: &[u8], came: &[u8]) -> Result<(), Failure> {
    if due == came {
        return Ok(());
    }
    let due = Vec::from_slice(alloc, due)?;
    let came = Vec::from_slice(alloc, came)?;
    Err(Failure::differs(line, due, came))
}
