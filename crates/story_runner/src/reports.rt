//! What is printed.
use crate::failures::{Failure, Why};
use crate::modes::Counts;
use std::alloc::{AllocError, Global};
use std::io;
use std::io::Write;

// A byte as a failure shows it.
fn show_byte(text: &mut String, b: u8, is_hex: bool) -> Result<(), AllocError> {
    match b {
        b'\\' => text.push_str("\\\\"),
        b'\r' if !is_hex => text.push_str("\\r"),
        b'\n' if !is_hex => text.push_str("\\n"),
        b'\t' if !is_hex => text.push_str("\\t"),
        b' '..=b'~' => text.push(char::from(b)),
        _ => write!(text, "\\x{b:02x}"),
    }
}

/// Bytes as printable ASCII: a backslash as `\\`, all others as `\xHH`; but if `is_hex` is not set,
/// those that have a letter as their escape by it.
pub fn shown(alloc: Global, bytes: &[u8], is_hex: bool) -> Result<String, AllocError> {
    let mut text = String::new(alloc);
    for b in bytes {
        show_byte(&mut text, *b, is_hex)?;
    }
    Ok(text)
}

fn report_bytes<W: Write>(
    alloc: Global,
    output: &mut W,
    name: &str,
    bytes: &[u8],
) -> io::Result<()> {
    let text = shown(alloc, bytes, false)?;
    writeln!(output, "{name}: {}", text.as_str())
}

fn report_why<W: Write>(alloc: Global, output: &mut W, why: &Why) -> io::Result<()> {
    match why {
        Why::Differs { due, came } => {
            report_bytes(alloc, output, "expected", due.as_slice())?;
            report_bytes(alloc, output, "came", came.as_slice())
        }
        Why::Refused(why) => writeln!(output, "{why}"),
        Why::Broken(what, index) => writeln!(output, "{what} {index}"),
        Why::Unread(why) => writeln!(output, "{why}"),
    }
}

/// Tells why a story failed.
pub fn report_failure<W: Write>(
    alloc: Global,
    output: &mut W,
    name: &str,
    failure: &Failure,
) -> io::Result<()> {
    let (way, line) = (failure.way, failure.line);
    if way.is_empty() {
        writeln!(output, "FAILED {name}: line {line}")?;
    } else {
        writeln!(output, "FAILED {name}: {way}, line {line}")?;
    }
    report_why(alloc, output, &failure.why)?;
    output.flush()
}

/// The most bytes that a short line shows of what is due, and of what came.
const SHORT: usize = 100;

// The first bytes, shown.
fn shown_short(alloc: Global, bytes: &[u8]) -> Result<String, AllocError> {
    match bytes.get(..SHORT) {
        Some(front) => shown(alloc, front, false),
        None => shown(alloc, bytes, false),
    }
}

// From the first byte that differs on, if it is not one of the first.
fn differing<'a>(bytes: &'a [u8], other: &[u8]) -> &'a [u8] {
    let same = bytes
        .iter()
        .zip(other.iter())
        .position(|pair| *pair.0 != *pair.1);
    match same {
        Some(index) => bytes.get(index.saturating_sub(20)..).unwrap_or(bytes),
        None => bytes,
    }
}

fn short_why(alloc: Global, why: &Why) -> Result<String, AllocError> {
    match why {
        Why::Differs { due, came } => {
            let expected = shown_short(alloc, differing(due.as_slice(), came.as_slice()))?;
            let found = shown_short(alloc, differing(came.as_slice(), due.as_slice()))?;
            format!(in alloc;
                "expected .. {}, came .. {}",
                expected.as_str(),
                found.as_str()
            )
        }
        Why::Refused(why) => String::from_str(alloc, why),
        Why::Broken(what, index) => format!(in alloc; "{what} {index}"),
        Why::Unread(why) => String::from_str(alloc, why),
    }
}

/// Tells why a story failed on one line.
pub fn report_short<W: Write>(
    alloc: Global,
    errors: &mut W,
    name: &str,
    failure: &Failure,
) -> io::Result<()> {
    let (way, line) = (failure.way, failure.line);
    let why = short_why(alloc, &failure.why)?;
    writeln!(
        errors,
        "stories: {name} failed: {way}, line {line}: {}",
        why.as_str()
    )
}

/// Reports that a story passed.
pub fn report_passed<W: Write>(output: &mut W, name: &str) -> io::Result<()> {
    writeln!(output, "passed {name}")?;
    output.flush()
}

fn report_count<W: Write>(output: &mut W, name: &str, what: &str, count: usize) -> io::Result<()> {
    if count == 0 {
        return Ok(());
    }
    writeln!(output, "passed {name}, {what}: {count}")
}

fn report_stops<W: Write>(
    output: &mut W,
    name: &str,
    stops: usize,
    reopenings: usize,
) -> io::Result<()> {
    if stops == 0 {
        return Ok(());
    }
    writeln!(
        output,
        "passed {name}, stops: {stops}, reopenings: {reopenings}"
    )
}

/// Tells how often links and streams broke under a story, and the power was cut.
pub fn report_counts<W: Write>(output: &mut W, name: &str, counts: &Counts) -> io::Result<()> {
    report_count(output, name, "cut", counts.cut)?;
    report_count(output, name, "reads that fail", counts.reads)?;
    report_count(output, name, "writes that fail", counts.writes)?;
    report_count(output, name, "changes that are refused", counts.refused)?;
    report_stops(output, name, counts.stops, counts.reopenings)?;
    output.flush()
}

/// Reports where the text cannot be read.
pub fn report_unread<W: Write>(output: &mut W, line: usize, why: &str) -> io::Result<()> {
    writeln!(output, "line {line}: {why}")?;
    output.flush()
}

/// Reports how many stories passed, or failed.
pub fn report_end<W: Write>(output: &mut W, all: usize, failed: usize) -> io::Result<()> {
    if failed == 0 {
        writeln!(output, "{all} stories passed")?;
    } else {
        writeln!(output, "{failed} of {all} stories failed")?;
    }
    output.flush()
}
