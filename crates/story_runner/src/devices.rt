//! Readers and writers that give and take so many bytes at a time, and stop at a given place.
use std::alloc::Global;
use std::io;
use std::io::{ErrorKind, Read, Write};

/// More bytes than a reader gives, or a writer takes, at a time.
pub const ALL: usize = 1_000_000_000;

/// Gives at most so many bytes a read, and fails at one of its reads; at none if that is 0.
#[derive(Drop)]
pub struct Giver<'a> {
    rest: &'a [u8],
    most: usize,
    pub reads: usize,
    fails_at: usize,
}

impl<'a> Giver<'a> {
    pub fn new(rest: &'a [u8], most: usize) -> Giver<'a> {
        Giver::failing(rest, most, 0)
    }

    pub fn failing(rest: &'a [u8], most: usize, fails_at: usize) -> Giver<'a> {
        Giver {
            rest,
            most,
            reads: 0,
            fails_at,
        }
    }
}

impl Read for Giver<'_> {
    fn read(&mut self, buf: &mut [u8]) -> io::Result<usize> {
        self.reads = self.reads.saturating_add(1);
        if self.reads == self.fails_at {
            return Err(io::Error::from(ErrorKind::BrokenPipe));
        }
        let count = self.most.min(self.rest.len()).min(buf.len());
        let (piece, rest) = self.rest.split_at(count);
        buf[..count].copy_from_slice(piece);
        self.rest = rest;
        Ok(count)
    }
}

/// What a writer does at the write at which it stops.
#[derive(Clone, Copy)]
pub enum Stop {
    Fails,
    TakesNone,
}

/// Takes at most so many bytes a write, and stops at one of its writes; at none if that is 0.
#[derive(Drop)]
pub struct Taker {
    pub taken: Vec<u8>,
    most: usize,
    pub writes: usize,
    stops_at: usize,
    stop: Stop,
}

impl Taker {
    /// Takes all that is written.
    pub fn new(alloc: Global) -> Taker {
        Taker {
            taken: Vec::new(alloc),
            most: ALL,
            writes: 0,
            stops_at: 0,
            stop: Stop::Fails,
        }
    }

    /// Takes one byte a write, until it stops.
    pub fn stopping(alloc: Global, stops_at: usize, stop: Stop) -> Taker {
        Taker {
            taken: Vec::new(alloc),
            most: 1,
            writes: 0,
            stops_at,
            stop,
        }
    }
}

impl Write for Taker {
    fn write(&mut self, buf: &[u8]) -> io::Result<usize> {
        if buf.is_empty() {
            return Ok(0);
        }
        self.writes = self.writes.saturating_add(1);
        if self.writes == self.stops_at {
            return match self.stop {
                Stop::Fails => Err(io::Error::from(ErrorKind::BrokenPipe)),
                Stop::TakesNone => Ok(0),
            };
        }
        let count = self.most.min(buf.len());
        let (piece, _) = buf.split_at(count);
        self.taken.extend_from_slice(piece)?;
        Ok(count)
    }

    fn flush(&mut self) -> io::Result<()> {
        Ok(())
    }
}
