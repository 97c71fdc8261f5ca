//! The error stream, which counts the calls on it that failed.
ghost use Rattle.std.specs.Prelude.{◌≡◌, ◌<◌, length, true, Ok, IfOk, is_err};
ghost use Rattle.std.specs.Io.{WritesAtMost};
ghost use Rattle.std.specs.Io.KnownBytes.{WriteAppends, Keeps};
ghost use Rattle.program.specs.Streams.{Reported, as_reported, one_more, failures_after};

use std::io;
use std::io::{ErrorKind, Write};

/// The stream for errors and for what an operator has to know.
pub trait ErrorStream {
    // What it has, if that is known, and how many calls on it have failed.
    ghost reported: { Self → Reported };

    /// Takes at least one byte of a text that is not empty, or fails.
    fn write(&mut self, text: &[u8]) -> io::Result<usize>
        ensures bound { WritesAtMost result text.now }
        ensures bytes { WriteAppends (reported self.old).bytes (reported self.new).bytes result text.now }
        ensures some { IfOk result (λ count. 0 < length text.now → 0 < count) }
        ensures failures { (reported self.new).failures ≡ failures_after result (reported self.old).failures };

    /// Flushes a buffer.
    fn flush(&mut self) -> io::Result<()>
        ensures bytes { Keeps (reported self.old).bytes (reported self.new).bytes }
        ensures failures { (reported self.new).failures ≡ failures_after result (reported self.old).failures };
}

/// A writer's answer to a text of this length. Taking nothing of a text that is not empty is also a failure.
fn answer_to(answer: io::Result<usize>, length: usize) -> io::Result<usize>
    ensures ok { IfOk result (λ count. answer ≡ Ok count) }
    ensures some { IfOk result (λ count. 0 < length → 0 < count) }
    ensures none { is_err result ≡ true → IfOk answer (λ count. count ≡ 0) }
{
    match answer {
        Ok(0) if length > 0 => Err(io::Error::from(ErrorKind::WriteZero)),
        Ok(count) => Ok(count),
        Err(error) => Err(error),
    }
}

#[tactic(auto, unfolding(crate::specs::Streams::one_more))]
fn one_more(failures: u64) -> u64
    ensures { result ≡ one_more failures }
{
    failures.saturating_add(1)
}

/// A writer of std, with the number of calls on it that failed.
#[derive(Drop)]
pub struct CountedErrors<W: Write> {
    writer: W,
    failures: u64,
}

impl<W: Write> CountedErrors<W> {
    pub fn new(writer: W) -> CountedErrors<W>
        ensures { ⟦<CountedErrors<W> as ErrorStream>⟧.reported result ≡ as_reported (W.contents writer) 0 }
    {
        CountedErrors {
            writer,
            failures: 0,
        }
    }

    pub fn into_inner(self) -> W
        ensures { W.contents result ≡ (⟦<CountedErrors<W> as ErrorStream>⟧.reported self).bytes }
    {
        self.writer
    }
}

impl<W: Write> ErrorStream for CountedErrors<W> {
    ghost reported = { λ s. as_reported (W.contents s.writer) s.failures };

    fn write(&mut self, text: &[u8]) -> io::Result<usize> {
        match answer_to(self.writer.write(text), text.len()) {
            Ok(count) => Ok(count),
            Err(error) => {
                self.failures = one_more(self.failures);
                Err(error)
            }
        }
    }

    fn flush(&mut self) -> io::Result<()> {
        match self.writer.flush() {
            Ok(()) => Ok(()),
            Err(error) => {
                self.failures = one_more(self.failures);
                Err(error)
            }
        }
    }
}
