//! What a message is read from and a reply is written to.
ghost use Rattle.std.specs.Prelude.{◌≡◌, ◌||◌, ℕ, ◌<◌, List, Bool, false, length, Option, Ok, IfOk, OnOk, is_err};
ghost use Rattle.std.specs.Io.{ReadsAtMost, WritesAtMost};
ghost use Rattle.std.specs.Io.KnownBytes.{ReadConsumes, WriteAppends};
ghost use Rattle.wire.specs.Links.{is_end, takes_nothing};

use std::error::Error;
use std::io::{Read, Write};
use std::{fmt, io};

/// The device failed in this call, and has failed from now on.
#[derive(Clone, Copy, Debug, PartialEq, Eq)]
pub struct Broken;

impl fmt::Display for Broken {
    ghost use Rattle.std.specs.Prelude.{Some, codes};

    ghost output = { λ _. Some (codes "the device failed") };

    fn fmt<W: fmt::Write>(&self, f: &mut fmt::Formatter<W>) -> fmt::Result {
        f.write_str("the device failed")
    }
}

impl Error for Broken {}

/// A reader that is asked no more once it has failed.
pub trait Inlet {
    // The bytes that reads will give from here on, where they are known.
    ghost left: { Self → Option (List ℕ) };

    ghost broken: { Self → Bool };

    // A read has told the input's end.
    ghost ended: { Self → Bool };

    fn failed(&self) -> bool
        ensures { result ≡ broken self.now };

    /// Into a buffer that isn't empty 0 bytes are read only at the input's end.
    fn read(&mut self, buf: &mut [u8]) -> Result<usize, Broken>
        requires { broken self.old ≡ false }
        ensures bound { ReadsAtMost result buf.new }
        ensures bytes { ReadConsumes (left self.old) (left self.new) result buf.new }
        ensures end { ended self.new ≡ (is_end result (length buf.new) || ended self.old) }
        ensures cause { broken self.new ≡ is_err result };
}

/// A writer that is asked no more once it has failed.
pub trait Outlet {
    // The bytes that were written so far, where they are known.
    ghost written: { Self → Option (List ℕ) };

    ghost broken: { Self → Bool };

    fn failed(&self) -> bool
        ensures { result ≡ broken self.now };

    /// Of a piece that isn't empty at least one byte is taken: a device that takes none has failed.
    fn write(&mut self, piece: &[u8]) -> Result<usize, Broken>
        requires { broken self.old ≡ false }
        ensures bound { WritesAtMost result piece.now }
        ensures bytes { WriteAppends (written self.old) (written self.new) result piece.now }
        ensures some { IfOk result (λ count. 0 < length piece.now → 0 < count) }
        ensures cause { broken self.new ≡ is_err result };
}

/// Whether a read told the input's end: it gave nothing into a buffer that has room.
pub fn is_end(count: usize, room: usize) -> bool
    ensures { result ≡ is_end {E = Broken} (Ok count) room }
{
    count == 0 && room > 0
}

/// A reader's answer, as it is told: as many bytes, and a failure where the reader failed.
fn read_outcome(answer: io::Result<usize>) -> Result<usize, Broken>
    ensures count { IfOk answer (λ count. result ≡ Ok count) }
    ensures failed { is_err result ≡ is_err answer }
{
    match answer {
        Ok(count) => Ok(count),
        Err(_) => Err(Broken),
    }
}

/// A writer's answer to a piece of this length, as it is told: as many bytes, and a failure where the writer failed,
/// or took nothing of a piece that isn't empty.
fn write_outcome(answer: io::Result<usize>, length: usize) -> Result<usize, Broken>
    ensures count { IfOk answer (λ count. OnOk result (result ≡ Ok count)) }
    ensures failed { is_err result ≡ (is_err answer || takes_nothing answer length) }
{
    match answer {
        Ok(count) if count > 0 || length == 0 => Ok(count),
        _ => Err(Broken),
    }
}

/// A reader of std.
#[derive(Drop)]
pub struct FromRead<R: Read> {
    reader: R,
    has_failed: bool,
    has_ended: bool,
}

impl<R: Read> FromRead<R> {
    pub fn new(reader: R) -> FromRead<R>
        ensures sound { ⟦<FromRead<R> as Inlet>⟧.broken result ≡ false }
        ensures goes_on { ⟦<FromRead<R> as Inlet>⟧.ended result ≡ false }
        ensures left { ⟦<FromRead<R> as Inlet>⟧.left result ≡ R.remaining reader }
    {
        FromRead {
            reader,
            has_failed: false,
            has_ended: false,
        }
    }

    pub fn into_inner(self) -> R
        ensures { R.remaining result ≡ ⟦<FromRead<R> as Inlet>⟧.left self }
    {
        self.reader
    }
}

impl<R: Read> Inlet for FromRead<R> {
    ghost left = { λ s. R.remaining s.reader };

    ghost broken = { λ s. s.has_failed };

    ghost ended = { λ s. s.has_ended };

    fn failed(&self) -> bool {
        self.has_failed
    }

    fn read(&mut self, buf: &mut [u8]) -> Result<usize, Broken> {
        let outcome = read_outcome(self.reader.read(buf));
        match outcome {
            Ok(count) => self.has_ended = is_end(count, buf.len()) || self.has_ended,
            Err(_) => self.has_failed = true,
        }
        outcome
    }
}

/// A writer of std.
#[derive(Drop)]
pub struct ToWrite<W: Write> {
    writer: W,
    has_failed: bool,
}

impl<W: Write> ToWrite<W> {
    pub fn new(writer: W) -> ToWrite<W>
        ensures sound { ⟦<ToWrite<W> as Outlet>⟧.broken result ≡ false }
        ensures written { ⟦<ToWrite<W> as Outlet>⟧.written result ≡ W.contents writer }
    {
        ToWrite {
            writer,
            has_failed: false,
        }
    }

    pub fn into_inner(self) -> W
        ensures { W.contents result ≡ ⟦<ToWrite<W> as Outlet>⟧.written self }
    {
        self.writer
    }
}

impl<W: Write> Outlet for ToWrite<W> {
    ghost written = { λ s. W.contents s.writer };

    ghost broken = { λ s. s.has_failed };

    fn failed(&self) -> bool {
        self.has_failed
    }

    fn write(&mut self, piece: &[u8]) -> Result<usize, Broken> {
        let outcome = write_outcome(self.writer.write(piece), piece.len());
        self.has_failed = outcome.is_err();
        outcome
    }
}
