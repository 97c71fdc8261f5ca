//! Streams over sockets that wait no longer than they may.
ghost use Rattle.std.specs.Prelude.{◌≡◌, ℕ, List, Option, None};
ghost use Rattle.std.specs.Io.{ReadsAtMost, WritesAtMost};
ghost use Rattle.std.specs.Io.KnownBytes.{ReadConsumes, WriteAppends};

use program::timeouts::Timeouts;
use std::io;
use std::io::{ErrorKind, Read, Write};
use std::net::{Shutdown, TcpStream};
use std::rc::Rc;
use std::rt::HostRuntime;
use std::time::{Duration, Instant};

/// How often a call that a signal interrupts is retried.
const MOST_INTERRUPTIONS: u32 = 1_000_000;

/// The most bytes that one call writes. A Unix socket takes a longer text in pieces, and may wait for the timeout before each.
const MOST_WRITTEN: usize = 32_768;

/// How long a call waits that was interrupted and has no time left, in milliseconds. What came during a pause of the process is
/// there at once.
const LAST_WAIT_MILLIS: u64 = 1;

/// One side of a socket: what is assumed of the calls that read and write it. All else is proved for every half. The program names
/// `SystemHalf`, which knows no bytes, because no contract says what the system's calls give and take.
pub trait Half {
    // The bytes that its reads will give from here on, if they are known.
    ghost left: { Self → Option (List ℕ) };

    // The bytes that its writes took so far, if they are known.
    ghost taken: { Self → Option (List ℕ) };

    /// The two sides of a socket.
    fn pair(rt: &HostRuntime, stream: TcpStream) -> io::Result<(Self, Self)>
    where
        Self: Sized;

    /// One read. If it fails, no byte is lost.
    fn read(&mut self, buf: &mut [u8]) -> io::Result<usize>
        ensures bound { ReadsAtMost result buf.new }
        ensures bytes { ReadConsumes (left self.old) (left self.new) result buf.new };

    /// One write. If it fails, no byte was taken.
    fn write(&mut self, buf: &[u8]) -> io::Result<usize>
        ensures bound { WritesAtMost result buf.now }
        ensures bytes { WriteAppends (taken self.old) (taken self.new) result buf.now };

    /// The socket, for its settings.
    fn stream(&self) -> &TcpStream;
}

/// A socket that both sides share, or its handle for one side if there was no memory to share it.
#[derive(Drop)]
pub enum SystemHalf {
    Shared(Rc<TcpStream>),
    Own(TcpStream),
}

impl Half for SystemHalf {
    ghost left = { λ _. None };

    ghost taken = { λ _. None };

    fn pair(rt: &HostRuntime, stream: TcpStream) -> io::Result<(SystemHalf, SystemHalf)> {
        match Rc::new(rt.alloc(), stream) {
            Ok(shared) => match shared.clone() {
                Ok(other) => Ok((SystemHalf::Shared(shared), SystemHalf::Shared(other))),
                Err(_) => Err(io::Error::from(ErrorKind::OutOfMemory)),
            },
            Err(failed) => {
                let stream = failed.value;
                let other = stream.try_clone()?;
                Ok((SystemHalf::Own(stream), SystemHalf::Own(other)))
            }
        }
    }

    fn read(&mut self, buf: &mut [u8]) -> io::Result<usize> {
        let mut stream = self.stream();
        stream.read(buf)
    }

    fn write(&mut self, buf: &[u8]) -> io::Result<usize> {
        let mut stream = self.stream();
        stream.write(&buf[..buf.len().min(MOST_WRITTEN)])
    }

    fn stream(&self) -> &TcpStream {
        match self {
            SystemHalf::Shared(stream) => stream.as_ref(),
            SystemHalf::Own(stream) => stream,
        }
    }
}

/// One side of a connection. Each read or write fails if it makes no progress within its timeout, or before the connection's
/// deadline. A call that a signal interrupts (a process that is stopped and continued) is retried for the rest of its time, and
/// at least once, so that a pause breaks no connection whose bytes have come.
#[derive(Drop)]
pub struct Timed<'a, H: Half + Drop> {
    rt: &'a HostRuntime,
    half: H,
    idle: Duration,
    end: Instant,
    /// The timeout that the system has for calls of this side, once it was set.
    reported: Option<Duration>,
    /// Whether the last read filled its buffer, so that more bytes may be waiting.
    is_filled: bool,
}

/// One side of a connection of the system.
pub type TimedStream<'a> = Timed<'a, SystemHalf>;

impl<'a, H: Half + Drop> Timed<'a, H> {
    fn new(rt: &'a HostRuntime, half: H, idle: Duration, end: Instant) -> Timed<'a, H> {
        Timed {
            rt,
            half,
            idle,
            end,
            reported: None,
            is_filled: false,
        }
    }

    /// The two sides of a connection whose time starts now.
    pub fn sides(
        rt: &'a HostRuntime,
        stream: TcpStream,
        timeouts: &Timeouts,
    ) -> io::Result<(Timed<'a, H>, Timed<'a, H>)> {
        let idle = Duration::from_secs(timeouts.idle.get());
        let most = Duration::from_secs(timeouts.most.get());
        let Some(end) = Instant::now(rt)?.checked_add(most) else {
            return Err(io::Error::from(ErrorKind::InvalidData));
        };
        let (one, other) = H::pair(rt, stream)?;
        let reader = Timed::new(rt, one, idle, end);
        let writer = Timed::new(rt, other, idle, end);
        Ok((reader, writer))
    }

    // How long a call that began at a moment may wait from another one on: it waits for `idle` in all, and no later
    // than the end. One for which nothing is left fails.
    fn left(&self, begun: Instant, now: Instant) -> io::Result<Duration> {
        let most = self.idle.min(self.end.duration_since(begun));
        let left = most.saturating_sub(now.duration_since(begun));
        if left.is_zero() {
            return Err(io::Error::from(ErrorKind::TimedOut));
        }
        Ok(left)
    }

    // How long a call that began at a moment may wait once it was interrupted.
    fn left_again(&self, begun: Instant) -> io::Result<Duration> {
        let now = Instant::now(self.rt)?;
        Ok(
            self.left(begun, now)
                .unwrap_or(Duration::from_millis(LAST_WAIT_MILLIS)),
        )
    }

    // Lets reads wait for so long.
    fn let_read(&mut self, wait: Duration) -> io::Result<()>
        ensures { self.new.half ≡ self.old.half }
    {
        if self.reported != Some(wait) {
            self.half.stream().set_read_timeout(Some(wait))?;
            self.reported = Some(wait);
        }
        Ok(())
    }

    // Lets writes wait for so long.
    fn let_write(&mut self, wait: Duration) -> io::Result<()>
        ensures { self.new.half ≡ self.old.half }
    {
        if self.reported != Some(wait) {
            self.half.stream().set_write_timeout(Some(wait))?;
            self.reported = Some(wait);
        }
        Ok(())
    }

    /// Whether more bytes are waiting. If none are, this side is not read again. A read that left room in its buffer took
    /// everything that had arrived, so the system is asked only after one that filled it.
    pub fn has_more(&self) -> bool {
        self.is_filled && self.are_waiting()
    }

    // Whether bytes wait, as the system says at once; where none do, reads don't wait from then on.
    fn are_waiting(&self) -> bool {
        let stream = self.half.stream();
        if stream.set_nonblocking(true).is_err() {
            return false;
        }
        match stream.peek(&mut [0u8; 1]) {
            Ok(1) => stream.set_nonblocking(false).is_ok(),
            _ => false,
        }
    }

    /// Shuts down writing. From now on a read waits at most `idle`, and all reads together at most `most`.
    pub fn end_writing(&mut self, idle: Duration, most: Duration) -> io::Result<()> {
        let Some(end) = Instant::now(self.rt)?.checked_add(most) else {
            return Err(io::Error::from(ErrorKind::InvalidData));
        };
        self.idle = idle;
        self.end = self.end.min(end);
        self.half.stream().shutdown(Shutdown::Write)
    }
}

impl<H: Half + Drop> Read for Timed<'_, H> {
    ghost remaining = { λ s. H.left s.half };

    fn read(&mut self, buf: &mut [u8]) -> io::Result<usize> {
        let begun = Instant::now(self.rt)?;
        let mut wait = self.left(begun, begun)?;
        'tries: for _ in 0..MOST_INTERRUPTIONS {
            self.let_read(wait)?;
            match self.half.read(buf) {
                Ok(count) => {
                    self.is_filled = count == buf.len();
                    return Ok(count);
                }
                Err(error) if error.kind() == ErrorKind::Interrupted => {}
                Err(error) => return Err(error),
            }
            wait = self.left_again(begun)?;
        }
        Err(io::Error::from(ErrorKind::Interrupted))
    }
}

impl<H: Half + Drop> Write for Timed<'_, H> {
    ghost contents = { λ s. H.taken s.half };

    fn write(&mut self, buf: &[u8]) -> io::Result<usize> {
        let begun = Instant::now(self.rt)?;
        let mut wait = self.left(begun, begun)?;
        'tries: for _ in 0..MOST_INTERRUPTIONS {
            self.let_write(wait)?;
            match self.half.write(buf) {
                Err(error) if error.kind() == ErrorKind::Interrupted => {}
                answer => return answer,
            }
            wait = self.left_again(begun)?;
        }
        Err(io::Error::from(ErrorKind::Interrupted))
    }

    fn flush(&mut self) -> io::Result<()> {
        Ok(())
    }
}
