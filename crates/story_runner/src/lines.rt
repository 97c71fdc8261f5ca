//! One line of the text: what it is by how it begins, and the bytes that a piece writes.
use crate::keyed::Keyed;
use crate::modes::Mode;
use std::alloc::AllocError;

/// What a line of a step begins: the step itself, or a part of what is due.
#[derive(Clone, Copy, PartialEq, Eq)]
pub enum Mark {
    /// The first line of a step.
    Head,
    /// `=`: what is answered.
    Answer,
    /// `->`: what a value comes to.
    Outcome,
}

/// How a piece writes bytes.
#[derive(Clone, Copy, PartialEq, Eq)]
pub enum Piece {
    /// `|`: the text, a line feed between two of them.
    Row,
    /// `>`: the text, and CR LF.
    Field,
    /// `\`: the text with escapes.
    Escaped,
    /// `*`: a number, and a text with escapes so many times.
    Repeated,
}

/// What a line defines.
#[derive(Clone, Copy)]
pub enum Defines {
    Token,
    Moment,
    Reason,
    Challenge,
}

/// What a line says of the story that begins.
#[derive(Clone, Copy)]
pub enum Says<'a> {
    /// A word alone on a line: what breaks under it, or in which ways it runs.
    Breaks(Mode),
    /// `begins`: it begins with the tables of a file.
    FromFile(&'a str),
    /// `operator`: the operator's door is open to this secret.
    Operator(&'a str),
}

/// A line, by how it begins, and the text after that.
#[derive(Clone, Copy)]
pub enum Line<'a> {
    /// A comment, or an empty line.
    Nothing,
    Definition(Defines, &'a str),
    Story(&'a str),
    After(&'a str),
    /// `links`: what breaks under the steps of a story.
    Links(&'a str),
    Says(Says<'a>),
    Piece(Piece, &'a str),
    /// `+`: a field of a head.
    Field(&'a str),
    Begins(Mark, &'a str),
}

// What follows a mark and one space, or the mark at the end of the line.
fn behind<'a>(line: &'a str, mark: &str) -> Option<&'a str> {
    match line.strip_prefix(mark) {
        Some("") => Some(""),
        Some(rest) => rest.strip_prefix(' '),
        None => None,
    }
}

/// What a mark at the front of a line says of it.
#[derive(Clone, Copy)]
enum Front {
    Piece(Piece),
    Begins(Mark),
    Story,
    After,
    Links,
    FromFile,
    Operator,
    Field,
    Defines(Defines),
}

const FRONTS: &[(&str, Front)] = &[
    ("|", Front::Piece(Piece::Row)),
    (">", Front::Piece(Piece::Field)),
    ("\\", Front::Piece(Piece::Escaped)),
    ("*", Front::Piece(Piece::Repeated)),
    ("=", Front::Begins(Mark::Answer)),
    ("->", Front::Begins(Mark::Outcome)),
    ("story", Front::Story),
    ("after", Front::After),
    ("links", Front::Links),
    ("begins", Front::FromFile),
    ("operator", Front::Operator),
    ("+", Front::Field),
    ("token", Front::Defines(Defines::Token)),
    ("at", Front::Defines(Defines::Moment)),
    ("reason", Front::Defines(Defines::Reason)),
    ("challenge", Front::Defines(Defines::Challenge)),
];

const MODES: &[(&str, Mode)] = &[
    ("stops", Mode::Stops(Keyed::Sha)),
    ("stops first-byte", Mode::Stops(Keyed::FirstByte)),
    ("large", Mode::Large),
    ("resumes", Mode::Resumes),
    ("copied", Mode::Copied),
];

// A line that begins in this way, by what follows.
fn line_of(front: Front, rest: &str) -> Line<'_> {
    match front {
        Front::Piece(piece) => Line::Piece(piece, rest),
        Front::Begins(mark) => Line::Begins(mark, rest),
        Front::Story => Line::Story(rest),
        Front::After => Line::After(rest),
        Front::Links => Line::Links(rest),
        Front::FromFile => Line::Says(Says::FromFile(rest)),
        Front::Operator => Line::Says(Says::Operator(rest)),
        Front::Field => Line::Field(rest),
        Front::Defines(defines) => Line::Definition(defines, rest),
    }
}

fn marked(line: &str) -> Option<Line<'_>> {
    for (mark, front) in FRONTS {
        if let Some(rest) = behind(line, mark) {
            return Some(line_of(*front, rest));
        }
    }
    None
}

fn mode_in(line: &str) -> Option<Mode> {
    for (word, mode) in MODES {
        if line == *word {
            return Some(*mode);
        }
    }
    None
}

// What a line is that has no mark.
fn unmarked(line: &str) -> Line<'_> {
    match mode_in(line) {
        Some(mode) => Line::Says(Says::Breaks(mode)),
        None => Line::Begins(Mark::Head, line),
    }
}

/// What a line is.
pub fn read_line(line: &str) -> Line<'_> {
    if line.is_empty() || line.starts_with('#') {
        return Line::Nothing;
    }
    match marked(line) {
        Some(found) => found,
        None => unmarked(line),
    }
}

// How far an escape is read.
#[derive(Clone, Copy)]
enum Escape {
    Plain,
    Begun,
    Hex,
    HexDigit(u8),
}

fn hex_digit(b: u8) -> Option<u8> {
    match b {
        b'0'..=b'9' => Some(b - b'0'),
        b'a'..=b'f' => Some(b - b'a' + 10),
        b'A'..=b'F' => Some(b - b'A' + 10),
        _ => None,
    }
}

fn single(b: u8) -> Option<u8> {
    match b {
        b'r' => Some(b'\r'),
        b'n' => Some(b'\n'),
        b't' => Some(b'\t'),
        b'\\' => Some(b'\\'),
        _ => None,
    }
}

// The effect of the next byte: how far the escape is read then, and the byte that is written.
fn step(escape: Escape, b: u8) -> Option<(Escape, Option<u8>)> {
    match escape {
        Escape::Plain if b == b'\\' => Some((Escape::Begun, None)),
        Escape::Plain => Some((Escape::Plain, Some(b))),
        Escape::Begun if b == b'x' => Some((Escape::Hex, None)),
        Escape::Begun => match single(b) {
            Some(byte) => Some((Escape::Plain, Some(byte))),
            None => None,
        },
        Escape::Hex => match hex_digit(b) {
            Some(digit) => Some((Escape::HexDigit(digit), None)),
            None => None,
        },
        Escape::HexDigit(high) => match hex_digit(b) {
            Some(low) => Some((Escape::Plain, Some(high.wrapping_mul(16).wrapping_add(low)))),
            None => None,
        },
    }
}

/// Appends a text with escapes to the bytes. Returns whether each escape is one.
pub fn write_escaped(bytes: &mut Vec<u8>, text: &str) -> Result<bool, AllocError> {
    let mut escape = Escape::Plain;
    for b in text.as_bytes() {
        let Some((next, written)) = step(escape, *b) else {
            return Ok(false);
        };
        escape = next;
        if let Some(byte) = written {
            bytes.push(byte)?;
        }
    }
    match escape {
        Escape::Plain => Ok(true),
        _ => Ok(false),
    }
}
