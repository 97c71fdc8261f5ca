//! A message of HTTP, and reading it: its head, the `100 Continue` where it is awaited, and its body.
ghost use Rattle.std.specs.Prelude.{◌≡◌, ◌≤◌, ◌↔◌, ◌++◌, ℕ, List, length, take, true, false, IfSome, IsErrOf, IsTrue, OnErr, is_err, min};
ghost use Rattle.std.specs.Io.KnownBytes.{Consumes};
ghost use Rattle.wire.specs.Heads.{head_end_of, Whole};
ghost use Rattle.wire.specs.Links.{ReportsReceived, ReportsInput, Writes, continue_if};
ghost use Rattle.wire.specs.Inner.Bodies.{Fills, Finishes, ReadsBody};

use crate::devices::{Inlet, Outlet};
use crate::framing::{Frame, read_frame};
use crate::heads::{ReceivedHead, read_head};
use crate::replies::{WriteFault, write_all};
use basis::{Bytes, Refusal, Text};
use http::Method;
use std::alloc::Global;
use std::error::Error;
use std::fmt;

/// A request, as far as custody looks at it.
#[derive(Drop)]
pub struct Message {
    pub method: Method,
    /// What stands before the first `?` of the target, without scheme and host.
    pub path: Text,
    /// What stands after it.
    pub query: Option<Text>,
    pub authorization: Option<Bytes>,
    pub content_md5: Option<Bytes>,
    pub body: Bytes,
}

/// Why no message was read.
#[derive(Clone, Copy, Debug, PartialEq, Eq)]
pub enum WireFault {
    /// The input ended inside the message.
    Ended,
    /// A read failed.
    Read,
    /// Writing the `100 Continue` failed.
    Continue,
    /// The head is refused; the flag says that it could be parsed and its method is HEAD.
    Refused(Refusal, bool),
    /// Memory was refused.
    Down,
}

impl fmt::Display for WireFault {
    ghost use Rattle.std.specs.Prelude.{Some};
    ghost use Rattle.wire.specs.Messages.{fault_text};

    ghost output = { λ fault. Some (fault_text fault) };

    fn fmt<W: fmt::Write>(&self, f: &mut fmt::Formatter<W>) -> fmt::Result {
        match self {
            WireFault::Ended => f.write_str("the input ended inside the message"),
            WireFault::Read => f.write_str("a read failed"),
            WireFault::Continue => f.write_str("writing the `100 Continue` failed"),
            WireFault::Refused(refusal, _) => write!(f, "the head is refused: {}", refusal.word()),
            WireFault::Down => f.write_str("memory was refused"),
        }
    }
}

impl Error for WireFault {}

// The interim reply that gives leave to send the body (RFC 9110, section 15.2.1).
const CONTINUE: &[u8] = b"HTTP/1.1 100 Continue\r\n\r\n";

/// Reads a message, however its bytes are cut into reads, and writes the `100 Continue` as soon as the
/// head is whole, where it is awaited. No read is made once the message is whole or refused; bytes
/// received with its last ones are dropped.
pub fn read_message<I: Inlet, O: Outlet>(
    alloc: Global,
    inlet: &mut I,
    outlet: &mut O,
) -> Result<Message, WireFault>
    requires reads { I.broken inlet.old ≡ false }
    requires writes { O.broken outlet.old ≡ false }
    ensures answer { (received : List ℕ) × Consumes (I.left inlet.old) (I.left inlet.new) received
        × ReportsReceived received (I.left inlet.new) (O.written outlet.old) (O.written outlet.new) result }
    ensures known { IfSome (I.left inlet.old) (λ bytes. ReportsInput bytes (O.written outlet.old) (O.written outlet.new) result) }
    ensures read { (I.broken inlet.new ≡ true) ↔ IsErrOf result WireFault.Read }
    ensures end { I.ended inlet.old ≡ false → ((I.ended inlet.new ≡ true) ↔ IsErrOf result WireFault.Ended) }
    ensures written { (O.broken outlet.new ≡ true) ↔ IsErrOf result WireFault.Continue }
{
    read_through(alloc, inlet, outlet)
}

// The message of the bytes received, whether or not the reader tells those that it has left.
fn read_through<I: Inlet, O: Outlet>(
    alloc: Global,
    inlet: &mut I,
    outlet: &mut O,
) -> Result<Message, WireFault>
    requires reads { I.broken inlet.old ≡ false }
    requires writes { O.broken outlet.old ≡ false }
    ensures answer { (received : List ℕ) × Consumes (I.left inlet.old) (I.left inlet.new) received
        × ReportsReceived received (I.left inlet.new) (O.written outlet.old) (O.written outlet.new) result }
    ensures read { (I.broken inlet.new ≡ true) ↔ IsErrOf result WireFault.Read }
    ensures end { I.ended inlet.old ≡ false → ((I.ended inlet.new ≡ true) ↔ IsErrOf result WireFault.Ended) }
    ensures written { (O.broken outlet.new ≡ true) ↔ IsErrOf result WireFault.Continue }
{
    match read_head(alloc, inlet) {
        Ok(received_head) => read_on(alloc, received_head, inlet, outlet),
        Err(fault) => Err(fault),
    }
}

// The message whose head is received.
fn read_on<I: Inlet, O: Outlet>(
    alloc: Global,
    received_head: ReceivedHead,
    inlet: &mut I,
    outlet: &mut O,
) -> Result<Message, WireFault>
    requires reads { I.broken inlet.old ≡ false }
    requires writes { O.broken outlet.old ≡ false }
    requires head_end { head_end_of received_head.bytes ≡ Whole received_head.len }
    requires within { received_head.len ≤ length received_head.bytes }
    ensures answer { (received : List ℕ) × Consumes (I.left inlet.old) (I.left inlet.new) received
        × ReportsReceived (received_head.bytes ++ received) (I.left inlet.new) (O.written outlet.old) (O.written outlet.new) result }
    ensures read { (I.broken inlet.new ≡ true) ↔ IsErrOf result WireFault.Read }
    ensures end { I.ended inlet.old ≡ false → ((I.ended inlet.new ≡ true) ↔ IsErrOf result WireFault.Ended) }
    ensures written { (O.broken outlet.new ≡ true) ↔ IsErrOf result WireFault.Continue }
{
    let (head, rest) = received_head.bytes.as_slice().split_at(received_head.len);
    match read_frame(alloc, head) {
        Ok(frame) => finish(alloc, frame, rest, inlet, outlet),
        Err(fault) => Err(fault),
    }
}

// The `100 Continue` and the body, past a head that is accepted.
fn finish<I: Inlet, O: Outlet>(
    alloc: Global,
    frame: Frame,
    rest: &[u8],
    inlet: &mut I,
    outlet: &mut O,
) -> Result<Message, WireFault>
    requires reads { I.broken inlet.old ≡ false }
    requires writes { O.broken outlet.old ≡ false }
    ensures finished { (received : List ℕ) × Consumes (I.left inlet.old) (I.left inlet.new) received
        × Finishes frame (rest.now ++ received) (I.left inlet.new) (O.written outlet.old) (O.written outlet.new) result }
    ensures read { (I.broken inlet.new ≡ true) ↔ IsErrOf result WireFault.Read }
    ensures end { I.ended inlet.old ≡ false → ((I.ended inlet.new ≡ true) ↔ IsErrOf result WireFault.Ended) }
    ensures written { (O.broken outlet.new ≡ true) ↔ IsErrOf result WireFault.Continue }
{
    match read_body(
        alloc,
        frame.body_len,
        frame.awaits_continue,
        rest,
        inlet,
        outlet,
    ) {
        Ok(body) => Ok(Message {
            body,
            ..frame.message
        }),
        Err(fault) => Err(fault),
    }
}

// The `100 Continue` where it is awaited, and the body.
fn read_body<I: Inlet, O: Outlet>(
    alloc: Global,
    len: usize,
    awaits_continue: bool,
    rest: &[u8],
    inlet: &mut I,
    outlet: &mut O,
) -> Result<Bytes, WireFault>
    requires reads { I.broken inlet.old ≡ false }
    requires writes { O.broken outlet.old ≡ false }
    ensures body { (received : List ℕ) × Consumes (I.left inlet.old) (I.left inlet.new) received
        × ReadsBody len awaits_continue (rest.now ++ received) (I.left inlet.new) (O.written outlet.old) (O.written outlet.new) result }
    ensures read { (I.broken inlet.new ≡ true) ↔ IsErrOf result WireFault.Read }
    ensures end { I.ended inlet.old ≡ false → ((I.ended inlet.new ≡ true) ↔ IsErrOf result WireFault.Ended) }
    ensures written { (O.broken outlet.new ≡ true) ↔ IsErrOf result WireFault.Continue }
{
    let Some(mut body) = body_buffer(alloc, len, rest) else {
        return Err(WireFault::Down);
    };
    if write_continue(awaits_continue, outlet).is_err() {
        return Err(WireFault::Continue);
    }
    let filled = rest.len().min(len);
    match fill(body.as_mut_slice(), filled, inlet) {
        Ok(()) => Ok(Bytes::new(body)),
        Err(fault) => Err(fault),
    }
}

// The whole body's bytes: what was received of it beside the head, and zeros where the rest is to be read.
fn body_buffer(alloc: Global, len: usize, rest: &[u8]) -> Option<Vec<u8>>
    ensures begins { IfSome result (λ body. take (min (length rest.now) len) body.items ≡ take len rest.now) }
    ensures whole { IfSome result (λ body. length body.items ≡ len) }
{
    let Ok(mut body) = Vec::with_capacity(alloc, len) else {
        return None;
    };
    let received = rest.len().min(len);
    body.extend_from_slice(&rest[..received]).unwrap();
    body.resize(len, 0).unwrap();
    Some(body)
}

// The `100 Continue`, where it is awaited.
fn write_continue<O: Outlet>(awaits_continue: bool, outlet: &mut O) -> Result<(), WriteFault>
    requires { O.broken outlet.old ≡ false }
    ensures text { Writes (O.written outlet.old) (O.written outlet.new) (continue_if awaits_continue) result }
    ensures awaited { OnErr result (IsTrue awaits_continue) }
    ensures cause { O.broken outlet.new ≡ is_err result }
{
    if awaits_continue {
        write_all(outlet, CONTINUE)
    } else {
        Ok(())
    }
}

// Reads what the body lacks behind its first bytes, right into its place.
fn fill<I: Inlet>(body: &mut [u8], body_start: usize, inlet: &mut I) -> Result<(), WireFault>
    requires sound { I.broken inlet.old ≡ false }
    requires short { body_start ≤ length body.old }
    ensures filled { (received : List ℕ) × Consumes (I.left inlet.old) (I.left inlet.new) received
        × Fills (take body_start body.old ++ received) (length body.old) (I.left inlet.new) body.new result }
    ensures cause { (I.broken inlet.new ≡ true) ↔ IsErrOf result WireFault.Read }
    ensures end { I.ended inlet.old ≡ false → ((I.ended inlet.new ≡ true) ↔ IsErrOf result WireFault.Ended) }
{
    let len = body.len();
    let mut filled = body_start;
    'filling: while filled < len {
        let Ok(count) = inlet.read(&mut body[filled..]) else {
            return Err(WireFault::Read);
        };
        if count == 0 {
            return Err(WireFault::Ended);
        }
        filled += count;
    }
    Ok(())
}
