//! The head of a request: reading it up to its end however it is cut (each byte is looked at once), the fields in it by their names, and its
//! target, a path and a query after `http://` and a host or without them.
ghost use Rattle.std.specs.Prelude.{◌≡◌, ◌↔◌, ◌≤◌, ◌+◌, ℕ, List, ◌∷◌, ◌++◌, length, false, true, IfSome, IsErrOf, count_by, find, ◌<◌, Some, None, IsTrue};
ghost use Rattle.std.specs.Io.KnownBytes.{Consumes};
ghost use Rattle.std.specs.Option.{option_copied};
ghost use Rattle.std.specs.Str.{str_eq_ignore_ascii_case};
ghost use Rattle.std.specs.List.{position_or_len};
ghost use Rattle.httparse.specs.Spans.{header_bytes, IsHeaderWithin};
ghost use Rattle.wire.specs.Heads.{is_break, is_feed, feeds_of};
ghost use Rattle.wire.specs.Inner.Positions.{len_from, len_after, len_past, Finds};
ghost use Rattle.wire.specs.Fields.{is_named, has_field, stands_twice, value_of, has_value, is_field};
ghost use Rattle.wire.specs.Inner.Spans.{fields_at, AreWithin};
ghost use Rattle.wire.specs.Targets.{begins_with_slash, begins_with_scheme, ends_host, origin_of, or_root, path_of, query_of};

use crate::devices::Inlet;
use crate::messages::WireFault;
use basis::{Bytes, Refusal};
use httparse::spans::HeaderSpan;
use std::alloc::Global;

/// The most bytes of a head, with its empty line.
pub const MAX_HEAD: usize = 16_384;

// How many bytes are asked for at once. So many are cleared for each request, and nearly all heads are shorter.
const CHUNK: usize = 2048;

/// The bytes received, and how many of them are the head.
#[derive(Drop)]
pub struct ReceivedHead {
    pub bytes: Bytes,
    pub len: usize,
}

/// Reads up to the end of the head, and asks for nothing once it is received.
pub fn read_head<I: Inlet>(alloc: Global, inlet: &mut I) -> Result<ReceivedHead, WireFault>
    requires { I.broken inlet.old ≡ false }
    ensures found { (received : List ℕ) × Consumes (I.left inlet.old) (I.left inlet.new) received × Finds received (I.left inlet.new) result }
    ensures cause { (I.broken inlet.new ≡ true) ↔ IsErrOf result WireFault.Read }
    ensures end { I.ended inlet.old ≡ false → ((I.ended inlet.new ≡ true) ↔ IsErrOf result WireFault.Ended) }
{
    let mut bytes = Vec::new(alloc);
    let mut chunk = [0; CHUNK];
    let mut position = HeadPosition::Blank;
    'reading: while bytes.len() < MAX_HEAD {
        let room = CHUNK.min(MAX_HEAD - bytes.len());
        let Ok(count) = inlet.read(&mut chunk[..room]) else {
            return Err(WireFault::Read);
        };
        if count == 0 {
            return Err(WireFault::Ended);
        }
        let piece = &chunk[..count];
        let before = bytes.len();
        if bytes.extend_from_slice(piece).is_err() {
            return Err(WireFault::Down);
        }
        if let Some(end) = end_in(&mut position, piece) {
            return Ok(ReceivedHead {
                bytes: Bytes::new(bytes),
                len: before + end,
            });
        }
    }
    Err(WireFault::Refused(Refusal::HeadTooLarge, false))
}

/// Where the reading of a head stands.
#[derive(Clone, Copy)]
pub enum HeadPosition {
    /// Before the first byte that is neither CR nor LF.
    Blank,
    /// Inside a line.
    Text,
    /// After a line feed.
    Feed,
    /// After a line feed and a carriage return.
    FeedReturn,
}

impl HeadPosition {
    // Where the next byte leads, or none where the head ends with it.
    fn after(self, byte: u8) -> Option<HeadPosition>
        ensures { (bytes : List ℕ) → len_from self (byte ∷ bytes) ≡ len_after result bytes }
    {
        match self {
            HeadPosition::Blank if is_break(byte) => Some(HeadPosition::Blank),
            HeadPosition::Feed | HeadPosition::FeedReturn if byte == b'\n' => None,
            HeadPosition::Feed if byte == b'\r' => Some(HeadPosition::FeedReturn),
            _ if byte == b'\n' => Some(HeadPosition::Feed),
            _ => Some(HeadPosition::Text),
        }
    }
}

/// How many bytes of the piece stand up to the head's end, if it ends there.
pub fn end_in(position: &mut HeadPosition, piece: &[u8]) -> Option<usize>
    ensures end { (more : List ℕ) → len_from position.old (piece.now ++ more) ≡ len_past result (length piece.now) position.new more }
    ensures within { IfSome result (λ n. n ≤ length piece.now) }
{
    for (i, byte) in piece.iter().enumerate() {
        match position.after(*byte) {
            None => return Some(i + 1),
            Some(next) => *position = next,
        }
    }
    None
}

/// The line feeds of a head, from the first byte that is neither CR nor LF.
pub fn feeds(head: &[u8]) -> usize
    ensures { result ≡ feeds_of head.now }
{
    let mut rest = head;
    'breaks: while let [byte, after @ ..] = rest {
        if !is_break(*byte) {
            return count_feeds(rest);
        }
        rest = after;
    }
    0
}

fn count_feeds(bytes: &[u8]) -> usize
    ensures { result ≡ count_by is_feed bytes.now }
{
    bytes.iter().filter(|byte| **byte == b'\n').count()
}

fn is_break(byte: u8) -> bool
    ensures { result ≡ is_break byte }
{
    byte == b'\n' || byte == b'\r'
}

fn first_named<'f>(head: &[u8], fields: &'f [HeaderSpan], name: &[u8]) -> Option<&'f HeaderSpan>
    requires { AreWithin head.now fields.now }
    ensures { option_copied result ≡ find (λ field. is_named name.now (header_bytes head.now field)) fields.now }
{
    fields.iter().find(|field| is_named(head, **field, name))
}

/// The value of the only field of a name.
pub fn value<'b>(head: &'b [u8], fields: &[HeaderSpan], name: &[u8]) -> Option<&'b [u8]>
    requires { AreWithin head.now fields.now }
    ensures { option_copied result ≡ value_of name.now (fields_at head.now fields.now) }
{
    if stands_twice(head, fields, name) {
        return None;
    }
    match first_named(head, fields, name) {
        Some(field) => Some(field.value.of(head)),
        None => None,
    }
}

pub fn is_there(head: &[u8], fields: &[HeaderSpan], name: &[u8]) -> bool
    requires { AreWithin head.now fields.now }
    ensures { result ≡ has_field name.now (fields_at head.now fields.now) }
{
    fields.iter().any(|field| is_named(head, *field, name))
}

#[tactic(auto, using(crate::proofs::FieldLemmas::count_at))]
pub fn stands_twice(head: &[u8], fields: &[HeaderSpan], name: &[u8]) -> bool
    requires { AreWithin head.now fields.now }
    ensures { result ≡ stands_twice name.now (fields_at head.now fields.now) }
{
    fields
        .iter()
        .filter(|field| is_named(head, **field, name))
        .count()
        > 1
}

/// Whether a field of a name has this value, in any case.
pub fn has_value(head: &[u8], fields: &[HeaderSpan], name: &[u8], wanted: &[u8]) -> bool
    requires { AreWithin head.now fields.now }
    ensures { result ≡ has_value name.now wanted.now (fields_at head.now fields.now) }
{
    fields
        .iter()
        .any(|field| is_field(head, *field, name, wanted))
}

// Whether the field has the name and the value.
fn is_field(head: &[u8], field: HeaderSpan, name: &[u8], wanted: &[u8]) -> bool
    requires { IsHeaderWithin (length head.now) field }
    ensures { result ≡ is_field name.now wanted.now (header_bytes head.now field) }
{
    is_named(head, field, name) && is_same(field.value.of(head), wanted)
}

fn is_named(head: &[u8], field: HeaderSpan, name: &[u8]) -> bool
    requires { IsHeaderWithin (length head.now) field }
    ensures { result ≡ is_named name.now (header_bytes head.now field) }
{
    is_same(field.name.of(head), name)
}

fn is_same(text: &[u8], other: &[u8]) -> bool
    ensures { result ≡ str_eq_ignore_ascii_case text.now other.now }
{
    text.eq_ignore_ascii_case(other)
}

const SCHEME: &[u8] = b"http://";

/// The target without scheme and host, where it has one of the two forms.
pub fn origin(target: &str) -> Option<&str>
    ensures { option_copied result ≡ origin_of target.now }
{
    let bytes = target.as_bytes();
    if begins_with_slash(bytes) {
        return Some(target);
    }
    if !begins_with_scheme(bytes) {
        return None;
    }
    let host = host_len(bytes.split_at(SCHEME.len()).1);
    if host == 0 {
        return None;
    }
    Some(&target[SCHEME.len() + host..])
}

/// What stands before the first `?`, or `/`.
pub fn path(origin: &str) -> &str
    ensures { result.now ≡ path_of origin.now }
{
    match origin.split_once('?') {
        Some((path, _)) => or_root(path),
        None => or_root(origin),
    }
}

/// What stands after the first `?`.
pub fn query(origin: &str) -> Option<&str>
    ensures { option_copied result ≡ query_of origin.now }
{
    match origin.split_once('?') {
        Some((_, query)) => Some(query),
        None => None,
    }
}

fn begins_with_slash(target: &[u8]) -> bool
    ensures { result ≡ begins_with_slash target.now }
{
    match target {
        [byte, ..] => *byte == b'/',
        [] => false,
    }
}

fn begins_with_scheme(target: &[u8]) -> bool
    ensures value { result ≡ begins_with_scheme target.now }
    ensures long { IsTrue result → 7 ≤ length target.now }
{
    target.len() >= SCHEME.len() && target[..SCHEME.len()].eq_ignore_ascii_case(SCHEME)
}

fn host_len(rest: &[u8]) -> usize
    ensures position { result ≡ position_or_len ends_host rest.now }
    ensures within { result ≤ length rest.now }
{
    for (i, byte) in rest.iter().enumerate() {
        if ends_host(*byte) {
            return i;
        }
    }
    rest.len()
}

fn ends_host(byte: u8) -> bool
    ensures { result ≡ ends_host byte }
{
    byte == b'/' || byte == b'?'
}

fn or_root(path: &str) -> &str
    ensures { result.now ≡ or_root path.now }
{
    if path.is_empty() { "/" } else { path }
}
