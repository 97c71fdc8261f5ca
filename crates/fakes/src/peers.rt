//! Peers in memory, in the place of those that connect to a socket.
ghost use Rattle.std.specs.Prelude.{◌≡◌, ◌++◌, ◌∷◌, ◌⊎◌, [], Ok, Some, true, IfSome, OnOk};
ghost use Rattle.fakes.specs.Peers.{AcceptsNext, IsBound};
ghost use Rattle.program.specs.declared.environment.Standing.TheVariants as stands;

use basis::{Bytes, Down};
use program::environment::{Connections, Standing};
use program::reasons::Cause;
use program::timeouts::Timeouts;
use std::alloc::Global;
use std::io;
use std::io::Write;
use std::net::Ipv4Addr;
use wire::{FromRead, Inlet, Outlet, ToWrite};

/// What a peer got. It takes a byte a write, as a slow one does.
#[derive(Drop)]
pub struct Sipped {
    bytes: Vec<u8>,
}

impl Write for Sipped {
    ghost contents = { λ s. Some s.bytes.items };

    fn write(&mut self, buf: &[u8]) -> io::Result<usize> {
        match buf {
            [] => Ok(0),
            [byte, ..] => {
                self.bytes.push(*byte)?;
                Ok(1)
            }
        }
    }

    fn flush(&mut self) -> io::Result<()> {
        Ok(())
    }
}

/// Peers that connect one after the other. Each has sent its bytes, and sends no more.
#[derive(Drop)]
pub struct MemoryPeers<'a> {
    alloc: Global,
    waiting: &'a [&'a [u8]],
    /// The address and the port that were bound last.
    pub bound: Option<(Ipv4Addr, u16)>,
    /// What stands at each path.
    pub standing: Standing,
    /// The mode of the socket that was made last.
    pub made: Option<u32>,
    /// The timeouts of the connection that was accepted last.
    pub timeouts: Option<Timeouts>,
    /// What each peer got, in turn.
    pub got: Vec<Bytes>,
    /// Whether what a peer got was not kept, because an allocation failed.
    pub is_lost: bool,
}

impl<'a> MemoryPeers<'a> {
    /// Peers that have sent these bytes, and got nothing yet.
    pub fn new(alloc: Global, waiting: &'a [&'a [u8]]) -> MemoryPeers<'a> {
        MemoryPeers {
            alloc,
            waiting,
            bound: None,
            standing: Standing::Nothing,
            made: None,
            timeouts: None,
            got: Vec::new(alloc),
            is_lost: false,
        }
    }
}

impl<'a> Connections for MemoryPeers<'a> {
    type Reader = FromRead<&'a [u8]>;

    type Writer = ToWrite<Sipped>;

    ghost binds = { λ old address port result new. (result ≡ Ok port) × IsBound new.bound address port };

    ghost looks = { λ old path result new. (result ≡ Ok old.standing) × (new ≡ old) };

    ghost removes = { λ old path result new. new.standing ≡ stands.Nothing };

    ghost listens = { λ old path mode result new. new.made ≡ Some mode };

    ghost accepts = { λ old timeouts result new. AcceptsNext ⟦<FromRead<&'a [u8]> as Inlet>⟧ ⟦<ToWrite<Sipped> as Outlet>⟧ old.waiting.now result new.waiting.now × OnOk result (new.timeouts ≡ Some timeouts) };

    ghost ends = { λ old _ writer _ new. (new.is_lost ≡ true) ⊎ IfSome (⟦<ToWrite<Sipped> as Outlet>⟧.written writer) (λ bytes. new.got.items ≡ old.got.items ++ bytes ∷ []) };

    fn bind(&mut self, address: Ipv4Addr, port: u16) -> Result<u16, Cause> {
        self.bound = Some((address, port));
        Ok(port)
    }

    fn look(&mut self, _path: &str) -> Result<Standing, Cause> {
        Ok(self.standing)
    }

    fn remove(&mut self, _path: &str) -> Result<(), Cause> {
        self.standing = Standing::Nothing;
        Ok(())
    }

    fn listen(&mut self, _path: &str, mode: u32) -> Result<(), Cause> {
        self.made = Some(mode);
        Ok(())
    }

    fn accept(
        &mut self,
        timeouts: &Timeouts,
    ) -> Result<(FromRead<&'a [u8]>, ToWrite<Sipped>), Down> {
        let [sent, rest @ ..] = self.waiting else {
            return Err(Down);
        };
        self.waiting = rest;
        self.timeouts = Some(*timeouts);
        let got = Sipped {
            bytes: Vec::new(self.alloc),
        };
        Ok((FromRead::new(*sent), ToWrite::new(got)))
    }

    fn finish(&mut self, _reader: FromRead<&'a [u8]>, writer: ToWrite<Sipped>, _was_read: bool) {
        let bytes = Bytes::new(writer.into_inner().bytes);
        if self.got.push(bytes).is_err() {
            self.is_lost = true;
        }
    }
}
