//! Escapes of what acts on a terminal, in a text of JSON that is put together.
ghost use Rattle.std.specs.Prelude.{◌≡◌, ◌<◌, ℕ, List, ◌∷◌, ◌++◌, nat_lt, get_or, IfOk, OnOk};
ghost use Rattle.std.specs.List.{list_all};
ghost use Rattle.std.specs.Char.{digit_char};
ghost use Rattle.std.specs.Int.{is_in_range};
ghost use Rattle.docs.specs.Escapes.{acts, is_tail, code_of, acting, behind_first, unicode_escape, escaped_from, escaped};

use std::alloc::{AllocError, Global};

// Room for the escapes of a text, in bytes; more of them take more memory.
const USUAL_ESCAPES: usize = 128;

/// The text, with each character escaped that acts on a terminal. A text without any is left as it is.
pub(crate) fn escape_acting(alloc: Global, text: Vec<u8>) -> Result<Vec<u8>, AllocError>
    ensures { IfOk result (λ v. v.items ≡ escaped text.items) }
{
    if is_shown(text.as_slice()) {
        return Ok(text);
    }
    let mut out = Vec::with_capacity(alloc, text.len() + USUAL_ESCAPES)?;
    put_escaped(&mut out, text.as_slice())?;
    Ok(out)
}

// Whether each byte is a character of ASCII other than DEL.
fn is_shown(text: &[u8]) -> bool
    ensures { result ≡ list_all (λ b. nat_lt b 127) text.now }
{
    text.iter().all(|byte| *byte < 127)
}

fn put_escaped(out: &mut Vec<u8>, text: &[u8]) -> Result<(), AllocError>
    ensures { OnOk result (out.new.items ≡ out.old.items ++ escaped text.now) }
{
    let mut skip = 0;
    for (i, byte) in text.iter().enumerate() {
        let second = byte_at(text, i + 1);
        let third = byte_at(text, i + 2);
        skip = put_byte(out, skip, *byte, second, third)?;
    }
    Ok(())
}

// A byte of a text, and 0 behind its end.
fn byte_at(text: &[u8], at: usize) -> u8
    ensures { result ≡ get_or text.now at 0 }
{
    match text.get(at) {
        Some(byte) => *byte,
        None => 0,
    }
}

// Puts what stands for a byte, by the two behind it; and how many of those behind it stand escaped by that.
fn put_byte(
    out: &mut Vec<u8>,
    skip: usize,
    first: u8,
    second: u8,
    third: u8,
) -> Result<usize, AllocError>
    ensures { IfOk result (λ left. (rest : List ℕ) → get_or rest 0 0 ≡ second → get_or rest 1 0 ≡ third → out.new.items ++ escaped_from left rest ≡ out.old.items ++ escaped_from skip (first ∷ rest)) }
{
    if skip > 0 {
        return Ok(skip - 1);
    }
    let code = acting(first, second, third);
    if code == 0 {
        out.push(first)?;
        return Ok(0);
    }
    put_escape(out, code)?;
    Ok(behind_first(first))
}

// Of the characters that act, the one whose UTF-8 these bytes begin with; 0 where there is none.
#[tactic(auto, unfolding(crate::specs::Escapes::acting))]
fn acting(first: u8, second: u8, third: u8) -> u16
    ensures { result ≡ acting first second third }
{
    let code = code_of(first, second, third);
    if acts(code) { code } else { 0 }
}

fn acts(code: u16) -> bool
    ensures { result ≡ acts code }
{
    is_within(0x7f, 0x9f, code)
        || code == 0x61c
        || is_within(0x200e, 0x200f, code)
        || is_within(0x2028, 0x202e, code)
        || is_within(0x2066, 0x2069, code)
}

// The character whose UTF-8 these bytes begin with, if it is DEL, has two bytes, or has three of which the first
// one is 0xe2; 0 where there is none.
#[tactic(auto, unfolding(crate::specs::Escapes::code_of))]
fn code_of(first: u8, second: u8, third: u8) -> u16
    ensures { result ≡ code_of first second third }
{
    if first == 0x7f {
        0x7f
    } else if is_within(0xc2, 0xdf, u16::from(first)) && is_tail(second) {
        u16::from(first % 32) * 64 + u16::from(second % 64)
    } else if first == 0xe2 && is_tail(second) && is_tail(third) {
        0x2000 + u16::from(second % 64) * 64 + u16::from(third % 64)
    } else {
        0
    }
}

// Whether the byte stands in a character of more bytes, behind the first one.
fn is_tail(byte: u8) -> bool
    ensures { result ≡ is_tail byte }
{
    is_within(0x80, 0xbf, u16::from(byte))
}

fn is_within(least: u16, most: u16, code: u16) -> bool
    ensures { result ≡ is_in_range least most code }
{
    least <= code && code <= most
}

// How many bytes of a character stand behind its first one.
fn behind_first(first: u8) -> usize
    ensures { result ≡ behind_first first }
{
    match first {
        0x7f => 0,
        0xe2 => 2,
        _ => 1,
    }
}

#[tactic(auto, unfolding(crate::specs::Escapes::unicode_escape))]
fn put_escape(out: &mut Vec<u8>, code: u16) -> Result<(), AllocError>
    ensures { OnOk result (out.new.items ≡ out.old.items ++ unicode_escape code) }
{
    let escape = [
        b'\\',
        b'u',
        digit(code / 4096 % 16),
        digit(code / 256 % 16),
        digit(code / 16 % 16),
        digit(code % 16),
    ];
    out.extend_from_slice(&escape)
}

// A digit of 16.
fn digit(value: u16) -> u8
    requires { value < 16 }
    ensures { result ≡ digit_char value }
{
    if value < 10 {
        b'0' + value as u8
    } else {
        b'a' - 10 + value as u8
    }
}
