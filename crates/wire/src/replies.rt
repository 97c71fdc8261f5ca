//! An answer, and writing it as a reply: its head is put together on the stack, so that no memory is taken.
ghost use Rattle.std.specs.Prelude.{◌≡◌, false, None, ◌≤◌, ◌<◌, ◌+◌, ℕ, List, ◌++◌, length, is_err, [], codes, decimal, IfSome};
ghost use Rattle.std.specs.Option.{option_copied};
ghost use Rattle.httpdate.specs.Date.{date_text};
ghost use Rattle.arrayvec.specs.ArrayVec.{array_vec_len};
ghost use Rattle.wire.specs.Replies.{empty_answer, no_content_answer, document_answer, refused_answer, unavailable_answer, bad_secret_answer, status_of, text_answer, IsReplyText, head_text, phrase_of, status_line, date_line, fixed_lines, allow_line, challenge_of, challenge_field, challenge_line, type_of, type_line, length_line, sent_body};
ghost use Rattle.wire.specs.Contents.{content_bytes};
ghost use Rattle.wire.specs.Links.{Writes, line_end};

use crate::devices::{Broken, Outlet};
use arrayvec::ArrayVec;
use basis::{Bytes, Moment, Refusal};
use httpdate::HttpDate;
use itoa::Buffer;
use std::error::Error;
use std::fmt;
use std::marker::Model;

/// What is answered. The flag `is_head` says that the method of the request is HEAD: the body is
/// then left out when the reply is written (RFC 9110, section 9.3.2).
#[derive(Drop)]
pub struct Reply {
    status: u16,
    refusal: Option<Refusal>,
    content: Content,
    is_head: bool,
    // Whether the body is text, and not JSON.
    is_text: bool,
}

impl Model for Reply {
    ghost use Rattle.wire.specs.Replies.{Answer};

    ghost Value = { Answer };

    ghost use Rattle.wire.specs.Contents.{answer_of};

    ghost view = { answer_of };
}

impl Reply {
    fn answered(status: u16, content: Content) -> Reply
        ensures { result ≡ record { status = status; refusal = None; body = content_bytes content; is_head = false; is_text = false } }
    {
        Reply {
            status,
            refusal: None,
            content,
            is_head: false,
            is_text: false,
        }
    }

    /// 200 with an empty body.
    pub fn empty() -> Reply
        ensures { result ≡ empty_answer }
    {
        Reply::answered(200, Content::Empty)
    }

    /// 204: the state is there without a version.
    pub fn no_content() -> Reply
        ensures { result ≡ no_content_answer }
    {
        Reply::answered(204, Content::Empty)
    }

    /// 200 with a body.
    pub fn document(body: Bytes) -> Reply
        ensures { result ≡ document_answer body }
    {
        Reply::answered(200, Content::Held(body))
    }

    /// The status of a refusal, with a body.
    pub fn refused(refusal: Refusal, body: Bytes, is_head: bool) -> Reply
        ensures { result ≡ refused_answer refusal body is_head }
    {
        Reply {
            status: refusal.status(),
            refusal: Some(refusal),
            content: Content::Held(body),
            is_head,
            is_text: false,
        }
    }

    /// Lines of text; if the request is refused, they say so.
    pub fn text(refusal: Option<Refusal>, body: Bytes) -> Reply
        ensures { result ≡ text_answer refusal body }
    {
        Reply {
            status: status_of(refusal),
            refusal,
            content: Content::Held(body),
            is_head: false,
            is_text: true,
        }
    }

    /// 503, with a fixed body: memory or the store refused.
    pub fn unavailable(is_head: bool) -> Reply
        ensures { result ≡ unavailable_answer is_head }
    {
        Reply {
            status: Refusal::Unavailable.status(),
            refusal: Some(Refusal::Unavailable),
            content: Content::Unavailable,
            is_head,
            is_text: false,
        }
    }

    /// 401, with a fixed body: the operator's secret is missing, or it is another one.
    pub fn bad_secret(is_head: bool) -> Reply
        ensures { result ≡ bad_secret_answer is_head }
    {
        Reply {
            status: Refusal::BadSecret.status(),
            refusal: Some(Refusal::BadSecret),
            content: Content::BadSecret,
            is_head,
            is_text: false,
        }
    }

    /// The status code.
    pub fn status(&self) -> u16
        ensures { result ≡ self.now.status }
    {
        self.status
    }

    /// The refusal, if it is one.
    pub fn refusal(&self) -> Option<Refusal>
        ensures { result ≡ self.now.refusal }
    {
        self.refusal
    }

    fn body(&self) -> &[u8]
        ensures { result.now ≡ self.now.body }
    {
        self.content.bytes()
    }

    fn is_head(&self) -> bool
        ensures { result ≡ self.now.is_head }
    {
        self.is_head
    }

    fn is_text(&self) -> bool
        ensures { result ≡ self.now.is_text }
    {
        self.is_text
    }
}

// 200, or the status of a refusal.
fn status_of(refusal: Option<Refusal>) -> u16
    ensures { result ≡ status_of refusal }
{
    match refusal {
        None => 200,
        Some(refusal) => refusal.status(),
    }
}

/// The body of a reply: none, a fixed one, or one that was made.
#[derive(Drop)]
enum Content {
    Empty,
    Unavailable,
    BadSecret,
    Held(Bytes),
}

impl Content {
    fn bytes(&self) -> &[u8]
        ensures { result.now ≡ content_bytes self.now }
    {
        match self {
            Content::Empty => &[],
            Content::Unavailable => DOWN_TEXT,
            Content::BadSecret => SECRET_TEXT,
            Content::Held(bytes) => bytes.as_slice(),
        }
    }
}

// The document of the refusal for want of memory.
const DOWN_TEXT: &[u8] = b"{\"error\":\"down\"}";

// The document of the refusal for want of the operator's secret.
const SECRET_TEXT: &[u8] = b"{\"error\":\"bad-token\"}";

/// The writer failed, or took no byte: a prefix of the reply stands written, and not all of it.
#[derive(Clone, Copy, Debug, PartialEq, Eq)]
pub struct WriteFault;

impl fmt::Display for WriteFault {
    ghost use Rattle.std.specs.Prelude.{Some, codes};

    ghost output = { λ _. Some (codes "the reply couldn't be written whole") };

    fn fmt<W: fmt::Write>(&self, f: &mut fmt::Formatter<W>) -> fmt::Result {
        f.write_str("the reply couldn't be written whole")
    }
}

impl Error for WriteFault {}

// Room for the longest head of a reply.
const MAX_REPLY_HEAD: usize = 512;

// A reply of no more bytes is put together on the stack, and written as one piece.
const MAX_JOINED: usize = 4096;

const MAX_JOINED_BODY: usize = MAX_JOINED - MAX_REPLY_HEAD;

// The one status that has no field Content-Length (RFC 9110, section 8.6).
const NO_CONTENT: u16 = 204;

type Head = ArrayVec<u8, MAX_REPLY_HEAD>;

/// Writes the text of a reply at a moment, and takes no memory for it.
pub fn write_reply<O: Outlet>(reply: &Reply, now: Moment, outlet: &mut O) -> Result<(), WriteFault>
    requires { O.broken outlet.old ≡ false }
    ensures text { (text : List ℕ) × IsReplyText reply.now now text
        × Writes (O.written outlet.old) (O.written outlet.new) text result }
    ensures any { (text : List ℕ) → IsReplyText reply.now now text
        → Writes (O.written outlet.old) (O.written outlet.new) text result }
    ensures cause { O.broken outlet.new ≡ is_err result }
{
    let date = HttpDate::from_unix_secs(now.seconds()).unwrap();
    let mut head = Head::new();
    put_head(&mut head, reply, date);
    write_both(head.as_slice(), sent(reply), outlet)
}

// Writes a head and a body that have room beside one another as one piece.
fn write_joined<O: Outlet>(head: &[u8], body: &[u8], outlet: &mut O) -> Result<(), WriteFault>
    requires sound { O.broken outlet.old ≡ false }
    requires short { length head.now + length body.now ≤ 4096 }
    ensures text { Writes (O.written outlet.old) (O.written outlet.new) (head.now ++ body.now) result }
    ensures cause { O.broken outlet.new ≡ is_err result }
{
    let mut joined: ArrayVec<u8, MAX_JOINED> = ArrayVec::new();
    joined.try_extend_from_slice(head).unwrap();
    joined.try_extend_from_slice(body).unwrap();
    write_all(outlet, joined.as_slice())
}

// The head, and then the body that is sent: as one piece where both are short.
fn write_both<O: Outlet>(head: &[u8], body: &[u8], outlet: &mut O) -> Result<(), WriteFault>
    requires sound { O.broken outlet.old ≡ false }
    requires short { length head.now ≤ 512 }
    ensures text { Writes (O.written outlet.old) (O.written outlet.new) (head.now ++ body.now) result }
    ensures cause { O.broken outlet.new ≡ is_err result }
{
    if body.len() <= MAX_JOINED_BODY {
        return write_joined(head, body, outlet);
    }
    write_all(outlet, head)?;
    write_all(outlet, body)
}

/// Writes all of a piece, in as many writes as the device takes.
pub(crate) fn write_all<O: Outlet>(outlet: &mut O, piece: &[u8]) -> Result<(), WriteFault>
    requires { O.broken outlet.old ≡ false }
    ensures text { Writes (O.written outlet.old) (O.written outlet.new) piece.now result }
    ensures cause { O.broken outlet.new ≡ is_err result }
{
    let mut rest = piece;
    'writing: while !rest.is_empty() {
        match outlet.write(rest) {
            Ok(count) => rest = rest.split_at(count).1,
            Err(Broken) => return Err(WriteFault),
        }
    }
    Ok(())
}

fn sent(reply: &Reply) -> &[u8]
    ensures { result.now ≡ sent_body reply.now.is_head reply.now.body }
{
    if reply.is_head() { &[] } else { reply.body() }
}

// The head of the reply, with its empty line.
fn put_head(head: &mut Head, reply: &Reply, date: HttpDate)
    requires { head.old.items ≡ [] }
    ensures { head.new.items ≡ head_text reply.now (date_text date) }
{
    let body = reply.body();
    add_status(head, reply.status());
    add_date(head, date);
    add_fixed(head);
    add_allow(head, reply.refusal());
    add_challenge(head, reply.refusal());
    add_type(head, reply.is_text(), body);
    add_length(head, reply.status(), body.len());
    add(head, b"\r\n");
}

fn add_status(head: &mut Head, status: u16)
    requires { head.old.items ≡ [] }
    ensures items { head.new.items ≡ status_line status }
    ensures len { array_vec_len head.new ≤ 70 }
{
    add(head, b"HTTP/1.1 ");
    add_decimal(head, u64::from(status));
    add(head, b" ");
    add(head, phrase(status));
    add(head, b"\r\n");
}

fn add_date(head: &mut Head, date: HttpDate)
    requires { array_vec_len head.old ≤ 70 }
    ensures items { head.new.items ≡ head.old.items ++ date_line (date_text date) }
    ensures len { array_vec_len head.new ≤ 110 }
{
    add(head, b"Date: ");
    add(head, &date.to_bytes());
    add(head, b"\r\n");
}

fn add_fixed(head: &mut Head)
    requires { array_vec_len head.old ≤ 110 }
    ensures items { head.new.items ≡ head.old.items ++ fixed_lines }
    ensures len { array_vec_len head.new ≤ 170 }
{
    add(
        head,
        b"Connection: close\r\nCache-Control: private, no-store\r\n",
    );
}

fn add_allow(head: &mut Head, refusal: Option<Refusal>)
    requires { array_vec_len head.old ≤ 170 }
    ensures items { head.new.items ≡ head.old.items ++ allow_line refusal }
    ensures len { array_vec_len head.new ≤ 220 }
{
    if let Some(Refusal::NoMethod(allow)) = refusal {
        add(head, b"Allow: ");
        add(head, allow.text().as_bytes());
        add(head, b"\r\n");
    }
}

fn add_challenge(head: &mut Head, refusal: Option<Refusal>)
    requires { array_vec_len head.old ≤ 220 }
    ensures items { head.new.items ≡ head.old.items ++ challenge_line refusal }
    ensures len { array_vec_len head.new ≤ 300 }
{
    if let Some(refusal) = refusal {
        add_challenge_field(head, challenge(refusal));
    }
}

fn add_challenge_field(head: &mut Head, challenge: Option<&'static [u8]>)
    requires room { array_vec_len head.old ≤ 220 }
    requires short { IfSome challenge (λ text. length text.now ≤ 50) }
    ensures items { head.new.items ≡ head.old.items ++ challenge_field (option_copied challenge.entry) }
    ensures len { array_vec_len head.new ≤ 300 }
{
    if let Some(text) = challenge {
        add(head, b"WWW-Authenticate: ");
        add(head, text);
        add(head, b"\r\n");
    }
}

fn line_of_type(is_text: bool) -> &'static [u8]
    ensures text { result.now ≡ codes "Content-Type: " ++ type_of is_text ++ line_end }
    ensures short { length result.now ≤ 41 }
{
    if is_text {
        b"Content-Type: text/plain; charset=utf-8\r\n"
    } else {
        b"Content-Type: application/json\r\n"
    }
}

fn add_type(head: &mut Head, is_text: bool, body: &[u8])
    requires { array_vec_len head.old ≤ 300 }
    ensures items { head.new.items ≡ head.old.items ++ type_line is_text body.now }
    ensures len { array_vec_len head.new ≤ 350 }
{
    if !body.is_empty() {
        add(head, line_of_type(is_text));
    }
}

fn add_length(head: &mut Head, status: u16, len: usize)
    requires { array_vec_len head.old ≤ 350 }
    ensures items { head.new.items ≡ head.old.items ++ length_line status len }
    ensures len { array_vec_len head.new ≤ 400 }
{
    if status != NO_CONTENT {
        add(head, b"Content-Length: ");
        add_decimal(head, len as u64);
        add(head, b"\r\n");
    }
}

fn add_decimal(head: &mut Head, number: u64)
    requires { array_vec_len head.old ≤ 480 }
    ensures items { head.new.items ≡ head.old.items ++ decimal number }
    ensures len { array_vec_len head.new ≤ array_vec_len head.old + 20 }
{
    let mut buffer = Buffer::new();
    let digits = buffer.format(number);
    add(head, digits.as_bytes());
}

fn add(head: &mut Head, piece: &[u8])
    requires { array_vec_len head.old + length piece.now ≤ 512 }
    ensures items { head.new.items ≡ head.old.items ++ piece.now }
{
    head.try_extend_from_slice(piece).unwrap();
}

fn phrase(status: u16) -> &'static [u8]
    ensures phrase { result.now ≡ phrase_of status }
    ensures short { length result.now ≤ 31 }
{
    match status {
        200 => b"OK",
        204 => b"No Content",
        400 => b"Bad Request",
        401 => b"Unauthorized",
        403 => b"Forbidden",
        404 => b"Not Found",
        405 => b"Method Not Allowed",
        409 => b"Conflict",
        411 => b"Length Required",
        413 => b"Payload Too Large",
        423 => b"Locked",
        431 => b"Request Header Fields Too Large",
        _ => b"Service Unavailable",
    }
}

fn challenge(refusal: Refusal) -> Option<&'static [u8]>
    ensures challenge { option_copied result ≡ challenge_of refusal }
    ensures short { IfSome result (λ text. length text.now ≤ 50) }
{
    match refusal {
        Refusal::NoToken => Some(b"Bearer realm=\"custody\""),
        Refusal::TwoTokens => Some(b"Bearer realm=\"custody\", error=\"invalid_request\""),
        Refusal::BadToken => Some(b"Bearer realm=\"custody\", error=\"invalid_token\""),
        Refusal::BadSecret => Some(b"Operator realm=\"custody\""),
        Refusal::NeedWrite | Refusal::NeedAdmin => {
            Some(b"Bearer realm=\"custody\", error=\"insufficient_scope\"")
        }
        _ => None,
    }
}
