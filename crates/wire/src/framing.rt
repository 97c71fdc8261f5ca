//! What a whole head says.
ghost use Rattle.std.specs.Prelude.{◌≡◌, ◌≤◌, ℕ, List, IfOk};
ghost use Rattle.std.specs.Option.{option_copied};
ghost use Rattle.httparse.specs.Grammar.{IsToken, RequestHead};
ghost use Rattle.httparse.specs.Spans.{IsRequestWithin, IsRequestOf, IsRequestAt};
ghost use Rattle.wire.specs.Framing.{is_without_host, repeats_a_field, is_framed_twice, max_body, awaits_continue, are_misframed, frame_of, body_length, is_head_method, parts_of, Verdict, IsJudged};
ghost use Rattle.wire.specs.Inner.Spans.{fields_at, AreWithin, capped_length, parts_at, Judges, Frames, GivesLength};

use crate::heads::{feeds, has_value, is_there, origin, path, query, stands_twice, value};
use crate::messages::{Message, WireFault};
use basis::{Bytes, Down, Refusal, Text};
use http::Method;
use http::method::MethodError;
use httparse::Status;
use httparse::spans::{EMPTY_HEADER_SPAN, HeaderSpan, RequestSpans, parse_request};
use std::alloc::Global;
use std::str;

/// The most field lines of a head.
pub const MAX_FIELDS: usize = 64;

// The request line and the empty line end in a line feed too.
const MAX_FEEDS: usize = MAX_FIELDS + 2;

/// The most bytes of a body of POST and PUT.
pub const MAX_STATE_BODY: usize = 16_777_216;

/// The most bytes of a body of another method.
pub const MAX_OTHER_BODY: usize = 16_384;

// A length above every limit is as good as this one.
const LENGTH_CAP: usize = MAX_STATE_BODY + 1;

/// A message whose body is still to be read, the length of that, and whether a `100 Continue` is awaited.
#[derive(Drop)]
pub struct Frame {
    pub message: Message,
    pub body_len: usize,
    pub awaits_continue: bool,
}

/// The verdict on a whole head.
pub fn read_frame(alloc: Global, head: &[u8]) -> Result<Frame, WireFault>
    ensures { Frames head.now result }
{
    let lines = feeds(head);
    if lines > MAX_FEEDS {
        return Err(WireFault::Refused(Refusal::HeadTooLarge, false));
    }
    let mut fields = [EMPTY_HEADER_SPAN; MAX_FIELDS];
    match parse_request(head, &mut fields) {
        Ok(Status::Complete(spans)) => parsed(alloc, head, spans, &fields),
        Ok(Status::Partial) => Err(WireFault::Refused(Refusal::BadMessage, false)),
        Err(_) => Err(WireFault::Refused(Refusal::BadMessage, false)),
    }
}

// The verdict on a head of the grammar.
fn parsed(
    alloc: Global,
    head: &[u8],
    spans: RequestSpans,
    fields: &[HeaderSpan],
) -> Result<Frame, WireFault>
    requires within { IsRequestWithin head.now fields.now spans }
    requires of { IsRequestOf head.now fields.now spans }
    ensures { (h : RequestHead) → IsRequestAt head.now fields.now spans h → Judges (parts_of h) result }
{
    let method = spans.method.of(head);
    let Ok(target) = str::from_utf8(spans.path.of(head)) else {
        unreachable!()
    };
    judge(
        alloc,
        method,
        target,
        spans.version,
        head,
        &fields[..spans.headers],
    )
}

// The rules that refuse a head, in their order, and then its frame.
fn judge(
    alloc: Global,
    method: &[u8],
    target: &str,
    minor: u8,
    head: &[u8],
    fields: &[HeaderSpan],
) -> Result<Frame, WireFault>
    requires within { AreWithin head.now fields.now }
    requires token { IsToken method.now }
    ensures { Judges (parts_at method.now target.now minor head.now fields.now) result }
{
    let is_head = is_head_method(method);
    let Some(origin) = origin(target) else {
        return Err(WireFault::Refused(Refusal::BadMessage, is_head));
    };
    if are_misframed(minor, head, fields) {
        return Err(WireFault::Refused(Refusal::BadMessage, is_head));
    }
    if is_there(head, fields, b"transfer-encoding") {
        return Err(WireFault::Refused(Refusal::NoLength, is_head));
    }
    match read_length(value(head, fields, b"content-length"), max_body(method)) {
        Length::Refuses(refusal) => Err(WireFault::Refused(refusal, is_head)),
        Length::Of(len) => match taken(alloc, method, origin, minor, len, head, fields) {
            Ok(frame) => Ok(frame),
            Err(Down) => Err(WireFault::Down),
        },
    }
}

fn are_misframed(minor: u8, head: &[u8], fields: &[HeaderSpan]) -> bool
    requires { AreWithin head.now fields.now }
    ensures { result ≡ are_misframed minor (fields_at head.now fields.now) }
{
    is_without_host(head, fields, minor)
        || repeats_a_field(head, fields)
        || is_framed_twice(head, fields)
}

fn is_without_host(head: &[u8], fields: &[HeaderSpan], minor: u8) -> bool
    requires { AreWithin head.now fields.now }
    ensures { result ≡ is_without_host minor (fields_at head.now fields.now) }
{
    (minor == 1 && !is_there(head, fields, b"host")) || stands_twice(head, fields, b"host")
}

fn repeats_a_field(head: &[u8], fields: &[HeaderSpan]) -> bool
    requires { AreWithin head.now fields.now }
    ensures { result ≡ repeats_a_field (fields_at head.now fields.now) }
{
    stands_twice(head, fields, b"authorization")
        || stands_twice(head, fields, b"content-length")
        || stands_twice(head, fields, b"content-md5")
}

fn is_framed_twice(head: &[u8], fields: &[HeaderSpan]) -> bool
    requires { AreWithin head.now fields.now }
    ensures { result ≡ is_framed_twice (fields_at head.now fields.now) }
{
    is_there(head, fields, b"transfer-encoding") && is_there(head, fields, b"content-length")
}

// What the field Content-Length says.
enum Length {
    Refuses(Refusal),
    Of(usize),
}

fn read_length(text: Option<&[u8]>, most: usize) -> Length
    requires { most ≤ MAX_STATE_BODY }
    ensures { GivesLength (option_copied text.entry) most result }
{
    let Some(text) = text else {
        return Length::Of(0);
    };
    match capped_length(text) {
        None => Length::Refuses(Refusal::BadMessage),
        Some(len) if len > most => Length::Refuses(Refusal::TooLarge),
        Some(len) => Length::Of(len),
    }
}

// The number that a length's digits write, or the cap where it is above.
fn capped_length(text: &[u8]) -> Option<usize>
    ensures { result ≡ capped_length LENGTH_CAP text.now }
{
    if text.is_empty() {
        return None;
    }
    let mut number = 0;
    'digits: for byte in text {
        if !byte.is_ascii_digit() {
            return None;
        }
        number = LENGTH_CAP.min(number * 10 + (*byte - b'0') as usize);
    }
    Some(number)
}

fn max_body(method: &[u8]) -> usize
    ensures value { result ≡ max_body method.now }
    ensures most { result ≤ MAX_STATE_BODY }
{
    if method == b"POST".as_slice() || method == b"PUT".as_slice() {
        MAX_STATE_BODY
    } else {
        MAX_OTHER_BODY
    }
}

fn is_head_method(method: &[u8]) -> bool
    ensures { result ≡ is_head_method method.now }
{
    method == b"HEAD".as_slice()
}

fn taken(
    alloc: Global,
    method: &[u8],
    origin: &str,
    minor: u8,
    body_len: usize,
    head: &[u8],
    fields: &[HeaderSpan],
) -> Result<Frame, Down>
    requires within { AreWithin head.now fields.now }
    requires token { IsToken method.now }
    requires len { body_len ≡ body_length (fields_at head.now fields.now) }
    ensures { (target : List ℕ) → IfOk result (λ frame. frame ≡ frame_of (parts_at method.now target minor head.now fields.now) origin.now) }
{
    let method = method_copied(alloc, method)?;
    let path = Text::copy_of(alloc, path(origin))?;
    let query = text_copied(alloc, query(origin))?;
    let authorization = bytes_copied(alloc, value(head, fields, b"authorization"))?;
    let content_md5 = bytes_copied(alloc, value(head, fields, b"content-md5"))?;
    let body = Bytes::new(Vec::new(alloc));
    Ok(Frame {
        message: Message {
            method,
            path,
            query,
            authorization,
            content_md5,
            body,
        },
        body_len,
        awaits_continue: awaits_continue(minor, body_len, head, fields),
    })
}

fn awaits_continue(minor: u8, body_len: usize, head: &[u8], fields: &[HeaderSpan]) -> bool
    requires within { AreWithin head.now fields.now }
    requires len { body_len ≡ body_length (fields_at head.now fields.now) }
    ensures { result ≡ awaits_continue minor (fields_at head.now fields.now) }
{
    minor == 1 && body_len != 0 && has_value(head, fields, b"expect", b"100-continue")
}

fn method_copied(alloc: Global, method: &[u8]) -> Result<Method, Down>
    requires { IsToken method.now }
    ensures { IfOk result (λ copy. copy ≡ method.now) }
{
    match Method::from_bytes(alloc, method) {
        Ok(method) => Ok(method),
        Err(MethodError::Invalid) => unreachable!(),
        Err(MethodError::OutOfMemory) => Err(Down),
    }
}

fn text_copied(alloc: Global, text: Option<&str>) -> Result<Option<Text>, Down>
    ensures { IfOk result (λ copy. copy ≡ option_copied text.entry) }
{
    match text {
        Some(text) => Ok(Some(Text::copy_of(alloc, text)?)),
        None => Ok(None),
    }
}

fn bytes_copied(alloc: Global, bytes: Option<&[u8]>) -> Result<Option<Bytes>, Down>
    ensures { IfOk result (λ copy. copy ≡ option_copied bytes.entry) }
{
    match bytes {
        Some(bytes) => Ok(Some(Bytes::copy_of(alloc, bytes)?)),
        None => Ok(None),
    }
}

/// Each whole head has a verdict, which the parser's answer shows.
pub fn some_verdict(head: &[u8])
    ensures { (verdict : Verdict) × IsJudged head.now verdict }
{
    let count = feeds(head);
    if count > MAX_FEEDS {
        return;
    }
    let mut fields = [EMPTY_HEADER_SPAN; MAX_FIELDS];
    match parse_request(head, &mut fields) {
        Ok(Status::Complete(_spans)) => return,
        Ok(Status::Partial) => return,
        Err(_error) => return,
    }
}
