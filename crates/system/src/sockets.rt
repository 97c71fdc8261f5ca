//! Connections over TCP, and at Unix sockets.
ghost use Rattle.std.specs.Prelude.{◌≡◌, ⊤};
ghost use Rattle.system.specs.Causes.{port_cause, socket_cause, standing_of};

use crate::streams::{Half, SystemHalf, Timed};
use basis::Down;
use program::environment::{Connections, Standing};
use program::reasons::Cause;
use program::timeouts::Timeouts;
use std::fs::Files;
use std::io::{ErrorKind, Read};
use std::marker::PhantomData;
use std::net::{Ipv4Addr, Net, TcpListener, TcpStream};
use std::os::fd::{AsFd, AsRawFd, OwnedFd};
use std::os::unix::fs::{FileTypeExt, PermissionsExt};
use std::os::unix::net::{SocketAddr, UnixListener, UnixStream};
use std::rt::HostRuntime;
use std::time::Duration;
use std::{fs, io};
use wire::{FromRead, Inlet, Outlet, ToWrite};

/// How long a peer may take for its next byte once its reply is written, in seconds.
pub const LINGER_SECONDS: u64 = 1;

/// How long a peer may take for all that it still sends once its reply is written, in seconds.
pub const LINGER_MOST_SECONDS: u64 = 5;

/// The most reads of what a peer still sends once its reply is written.
pub const LINGER_READS: u32 = 8_192;

/// As many connections may wait at a socket as the system allows, as at a port.
const BACKLOG: i32 = -1;

/// What listens: at a port, or at a Unix socket.
#[derive(Drop)]
enum Listener {
    Port(TcpListener),
    Socket(UnixListener),
}

impl Listener {
    // The next connection. At a Unix socket it is read, written, timed and shut by the same calls as one over TCP.
    fn accept(&self) -> io::Result<TcpStream> {
        match self {
            Listener::Port(listener) => {
                let (stream, _) = listener.accept()?;
                Ok(stream)
            }
            Listener::Socket(listener) => {
                let (stream, _) = listener.accept()?;
                Ok(TcpStream::from(OwnedFd::from(stream)))
            }
        }
    }
}

/// Sockets whose connections have these halves. They listen where they were last asked to.
#[derive(Drop)]
pub struct Sockets<'a, H: Half + Drop> {
    rt: &'a HostRuntime,
    listener: Option<Listener>,
    halves: PhantomData<H>,
}

/// The system's sockets.
pub type TcpSockets<'a> = Sockets<'a, SystemHalf>;

impl<'a, H: Half + Drop> Sockets<'a, H> {
    /// Sockets that do not listen yet.
    pub fn new(rt: &'a HostRuntime) -> Sockets<'a, H> {
        Sockets {
            rt,
            listener: None,
            halves: PhantomData,
        }
    }
}

// Why the system refused a port.
fn port_cause(kind: ErrorKind) -> Cause
    ensures { result ≡ port_cause kind }
{
    match kind {
        ErrorKind::AddrInUse => Cause::PortTaken,
        ErrorKind::PermissionDenied => Cause::PortNotPermitted,
        ErrorKind::OutOfMemory => Cause::NoMemory,
        _ => Cause::Port,
    }
}

// Why the system refused a socket.
fn socket_cause(kind: ErrorKind) -> Cause
    ensures { result ≡ socket_cause kind }
{
    match kind {
        ErrorKind::PermissionDenied => Cause::SocketNotPermitted,
        ErrorKind::OutOfMemory => Cause::NoMemory,
        _ => Cause::Socket,
    }
}

// What a socket is at which a connection was tried.
fn standing_of(tried: ErrorKind) -> Result<Standing, Cause>
    ensures { result ≡ standing_of tried }
{
    match tried {
        ErrorKind::ConnectionRefused => Ok(Standing::Silent),
        kind => Err(socket_cause(kind)),
    }
}

// What stands at a path where a socket is.
fn try_socket(rt: &HostRuntime, path: &str) -> Result<Standing, Cause> {
    match UnixStream::connect(rt, path) {
        Ok(_) => Ok(Standing::Answered),
        Err(error) => standing_of(error.kind()),
    }
}

// Makes a socket and listens at it. The mode is set before `listen`: until then the system refuses every connection, so
// nobody whom the mode keeps out can connect, whatever the process's umask.
fn listen_at(rt: &HostRuntime, path: &str, mode: u32) -> io::Result<UnixListener> {
    let socket = rt.unix_socket()?;
    rt.bind_unix(socket.as_fd(), &SocketAddr::from_pathname(path)?)?;
    fs::set_permissions(rt, path, fs::Permissions::from_mode(mode))?;
    if libc::net::listen(socket.as_raw_fd(), BACKLOG) != 0 {
        return Err(io::Error::from(ErrorKind::Other));
    }
    Ok(UnixListener::from(socket))
}

// Lets the peer read its reply: what it still sends is read and dropped, within bounds, since a connection
// that is closed over unread bytes is reset (RFC 9112, section 9.6).
fn linger<H: Half + Drop>(stream: &mut Timed<'_, H>) -> io::Result<()> {
    stream.end_writing(
        Duration::from_secs(LINGER_SECONDS),
        Duration::from_secs(LINGER_MOST_SECONDS),
    )?;
    let mut dropped = [0u8; 4096];
    for _ in 0..LINGER_READS {
        if stream.read(&mut dropped)? == 0 {
            return Ok(());
        }
    }
    Ok(())
}

impl<'a, H: Half + Drop> Connections for Sockets<'a, H> {
    type Reader = FromRead<Timed<'a, H>>;

    type Writer = ToWrite<Timed<'a, H>>;

    // No contract says what the system does. What the halves give and take, they say themselves.
    ghost binds = { λ _ _ _ _ _. ⊤ };

    ghost looks = { λ _ _ _ _. ⊤ };

    ghost removes = { λ _ _ _ _. ⊤ };

    ghost listens = { λ _ _ _ _ _. ⊤ };

    ghost accepts = { λ _ _ _ _. ⊤ };

    ghost ends = { λ _ _ _ _ _. ⊤ };

    fn bind(&mut self, address: Ipv4Addr, port: u16) -> Result<u16, Cause> {
        let listener = match TcpListener::bind(self.rt, (address, port)) {
            Ok(listener) => listener,
            Err(error) => return Err(port_cause(error.kind())),
        };
        let Ok(addr) = listener.local_addr() else {
            return Err(Cause::Port);
        };
        self.listener = Some(Listener::Port(listener));
        Ok(addr.port())
    }

    // A symbolic link is not followed: it is something else than a socket.
    fn look(&mut self, path: &str) -> Result<Standing, Cause> {
        match fs::symlink_metadata(self.rt, path) {
            Ok(found) if found.file_type().is_socket() => try_socket(self.rt, path),
            Ok(_) => Ok(Standing::Other),
            Err(error) if error.kind() == ErrorKind::NotFound => Ok(Standing::Nothing),
            Err(error) => Err(socket_cause(error.kind())),
        }
    }

    fn remove(&mut self, path: &str) -> Result<(), Cause> {
        match fs::remove_file(self.rt, path) {
            Ok(()) => Ok(()),
            Err(error) => Err(socket_cause(error.kind())),
        }
    }

    fn listen(&mut self, path: &str, mode: u32) -> Result<(), Cause> {
        match listen_at(self.rt, path, mode) {
            Ok(listener) => {
                self.listener = Some(Listener::Socket(listener));
                Ok(())
            }
            Err(error) => Err(socket_cause(error.kind())),
        }
    }

    fn accept(
        &mut self,
        timeouts: &Timeouts,
    ) -> Result<(FromRead<Timed<'a, H>>, ToWrite<Timed<'a, H>>), Down> {
        let Some(listener) = &self.listener else {
            return Err(Down);
        };
        let Ok(stream) = listener.accept() else {
            return Err(Down);
        };
        match Timed::sides(self.rt, stream, timeouts) {
            Ok((reader, writer)) => Ok((FromRead::new(reader), ToWrite::new(writer))),
            Err(_) => Err(Down),
        }
    }

    // Where the link failed there is no reply to be read. Where the whole message was read and no byte waits behind
    // it, nothing is unread.
    fn finish(
        &mut self,
        reader: FromRead<Timed<'a, H>>,
        writer: ToWrite<Timed<'a, H>>,
        was_read: bool,
    ) {
        if reader.failed() || writer.failed() {
            return;
        }
        let mut stream = reader.into_inner();
        if was_read && !stream.has_more() {
            return;
        }
        let _ = linger(&mut stream);
    }
}
