//! A request in short form as its bytes, and a reply that is due as its bytes.
use crate::books::Part;
use crate::definitions::{Definitions, Unread};
use crate::joined::Joined;
use basis::Down;
use std::alloc::Global;

/// What is put before a target in short form.
const WITHIN: &str = "/v1/acme/";

/// The field with the length of a body.
const LENGTH: &str = "Content-Length";

/// What follows the date in each reply.
const KEPT_FIELDS: &str = "\r\nConnection: close\r\nCache-Control: private, no-store\r\n";

// A target as it is sent.
fn is_whole(target: &str) -> bool {
    target.starts_with('/')
        || target.starts_with('*')
        || target.starts_with("http")
        || target.starts_with("HTTP")
}

// The token, the method and the target of a request in short form.
fn words_of<'a>(head: &Part<'a>) -> Result<(&'a str, &'a str, &'a str), Unread> {
    let unread = head.unread("a request is a token's name, a method and a target");
    let Some((token, rest)) = head.text.split_once(' ') else {
        return Err(unread);
    };
    match rest.split_once(' ') {
        Some((method, target)) => Ok((token, method, target)),
        None => Err(unread),
    }
}

// The bearer token of a short name; none for a hyphen.
fn bearer_of<'a>(
    definitions: &Definitions<'a>,
    head: &Part<'_>,
    name: &str,
) -> Result<Option<&'a str>, Unread> {
    if name == "-" {
        return Ok(None);
    }
    match definitions.token(name) {
        Some(token) => Ok(Some(token)),
        None => Err(head.unread("no step begins so, and no token has this name")),
    }
}

fn begin_request(joined: &mut Joined, method: &str, target: &str, bearer: Option<&str>) {
    let within = if is_whole(target) { "" } else { WITHIN };
    joined.put_texts(&[method, " ", within, target, " HTTP/1.1\r\nHost: c\r\n"]);
    if let Some(token) = bearer {
        joined.put_texts(&["Authorization: Bearer ", token, "\r\n"]);
    }
}

/// The bytes of a request in short form.
pub fn request_of(
    alloc: Global,
    definitions: &Definitions<'_>,
    head: &Part<'_>,
) -> Result<Vec<u8>, Unread> {
    let (name, method, target) = words_of(head)?;
    let bearer = bearer_of(definitions, head, name)?;
    let mut joined = Joined::new(alloc);
    begin_request(&mut joined, method, target, bearer);
    joined.put(head.fields.as_slice());
    if head.has_pieces {
        joined.put_number(alloc, LENGTH, head.written().len());
    }
    joined.put(b"\r\n");
    joined.put(head.written());
    Ok(joined.end()?)
}

// The status and, for a refusal, its word.
fn status_of<'a>(answer: &Part<'a>) -> (&'a str, &'a str) {
    match answer.text.split_once(' ') {
        Some(words) => words,
        None => (answer.text, ""),
    }
}

// The body of a reply: that of a refusal's word, or what the pieces write.
fn body_of(alloc: Global, answer: &Part<'_>, word: &str) -> Result<Vec<u8>, Down> {
    let mut joined = Joined::new(alloc);
    joined.put(answer.written());
    if !word.is_empty() {
        joined.put_texts(&["{\"error\":\"", word, "\"}"]);
    }
    joined.end()
}

// Whether further fields say the type of the body.
fn has_type(fields: &[u8]) -> bool {
    match str::from_utf8(fields) {
        Ok(text) => text.split_once("Content-Type: ").is_some(),
        Err(_) => false,
    }
}

fn put_fields(
    joined: &mut Joined,
    definitions: &Definitions<'_>,
    answer: &Part<'_>,
    word: &str,
    has_body: bool,
) {
    let fields = answer.fields.as_slice();
    joined.put(fields);
    if let Some(challenge) = definitions.challenge(word) {
        joined.put_texts(&["WWW-Authenticate: ", challenge, "\r\n"]);
    }
    if has_body && !has_type(fields) {
        joined.put(b"Content-Type: application/json\r\n");
    }
}

// The phrase of a status. A refusal's word makes the body.
fn reason_of<'a>(
    definitions: &Definitions<'a>,
    answer: &Part<'_>,
    status: &str,
    word: &str,
) -> Result<&'a str, Unread> {
    if !word.is_empty() && answer.has_pieces {
        return Err(answer.unread("a refusal's word makes the body"));
    }
    match definitions.reason(status) {
        Some(reason) => Ok(reason),
        None => Err(answer.unread("the text defines no reason for this status")),
    }
}

// A reply that its status and its body say.
fn short_reply(
    alloc: Global,
    definitions: &Definitions<'_>,
    date: &str,
    answer: &Part<'_>,
    is_head: bool,
) -> Result<Vec<u8>, Unread> {
    let (status, word) = status_of(answer);
    let reason = reason_of(definitions, answer, status, word)?;
    let body = body_of(alloc, answer, word)?;
    let mut joined = Joined::new(alloc);
    joined.put_texts(&[
        "HTTP/1.1 ",
        status,
        " ",
        reason,
        "\r\nDate: ",
        date,
        KEPT_FIELDS,
    ]);
    put_fields(&mut joined, definitions, answer, word, !body.is_empty());
    if status != "204" {
        joined.put_number(alloc, LENGTH, body.len());
    }
    joined.put(b"\r\n");
    if !is_head {
        joined.put(body.as_slice());
    }
    Ok(joined.end()?)
}

/// The bytes of the reply that is due to a request, which has the method HEAD or another.
pub fn reply_of(
    alloc: Global,
    definitions: &Definitions<'_>,
    date: &str,
    answer: &Part<'_>,
    is_head: bool,
) -> Result<Vec<u8>, Unread> {
    match answer.text {
        "nothing" => Ok(Vec::new(alloc)),
        "raw" => Ok(Vec::from_slice(alloc, answer.written())?),
        _ => short_reply(alloc, definitions, date, answer, is_head),
    }
}
