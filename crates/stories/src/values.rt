//! Steps of values: a document, a name, a number or a message read and shown.
use basis::numbers::whole_number;
use basis::{
    Limit, LockId, Moment, Number, OrgName, RunAsk, Secret, SettingsAsk, StateHead, Unfit, WsName,
};
use docs::{DocFault, digest_fits, read_lock, read_run, read_settings, read_state};
use serve::lines::split_line;
use std::alloc::{AllocError, Global};
use story_runner::books::{Part, Plot};
use story_runner::definitions::Unread;
use story_runner::failures::{Failure, compare_bytes};
use story_runner::lines::Mark;
use story_runner::messages::show_message;
use story_stores::kept::show_kept;

/// What is read.
#[derive(Clone, Copy)]
enum Kind {
    State,
    Lock,
    Settings,
    Run,
    Digest,
    Org,
    Ws,
    LockId,
    Secret,
    Number,
    Whole,
    Moment,
    Limit,
    Message,
    Line,
    Kept,
}

const KINDS: &[(&str, Kind)] = &[
    ("state", Kind::State),
    ("lock", Kind::Lock),
    ("settings", Kind::Settings),
    ("run", Kind::Run),
    ("digest", Kind::Digest),
    ("org", Kind::Org),
    ("ws", Kind::Ws),
    ("lock-id", Kind::LockId),
    ("secret", Kind::Secret),
    ("number", Kind::Number),
    ("whole", Kind::Whole),
    ("moment", Kind::Moment),
    ("limit", Kind::Limit),
    ("message", Kind::Message),
    ("line", Kind::Line),
    ("kept", Kind::Kept),
];

/// The kind of a step of values, and what follows its word.
fn kind_of<'a>(head: &Part<'a>) -> Option<(Kind, &'a str)> {
    let (first, rest) = match head.text.split_once(' ') {
        Some(words) => words,
        None => (head.text, ""),
    };
    for (word, kind) in KINDS {
        if *word == first {
            return Some((*kind, rest));
        }
    }
    None
}

/// What a value comes to: the lines of the step's result.
type Shown = Result<String, Failure>;

fn shown(text: Result<String, AllocError>) -> Shown {
    match text {
        Ok(text) => Ok(text),
        Err(refused) => Err(Failure::from(refused)),
    }
}

fn text_of(alloc: Global, text: &str) -> Shown {
    shown(String::from_str(alloc, text))
}

fn refused(alloc: Global, fault: DocFault) -> Shown {
    match fault {
        DocFault::Bad => text_of(alloc, "bad"),
        DocFault::Down => Err(Failure::refused(0, "memory was refused")),
    }
}

fn unfit(alloc: Global, unfit: Unfit) -> Shown {
    match unfit {
        Unfit::Syntax => text_of(alloc, "bad"),
        Unfit::Down => Err(Failure::refused(0, "memory was refused")),
    }
}

fn state_text(alloc: Global, head: &StateHead) -> Result<String, AllocError> {
    let (serial, lineage) = (head.serial.get(), head.lineage.as_str());
    if lineage.is_empty() {
        format!(in alloc; "serial {serial}")
    } else {
        format!(in alloc; "serial {serial} lineage {lineage}")
    }
}

fn show_state(alloc: Global, bytes: &[u8]) -> Shown {
    match read_state(alloc, bytes) {
        Ok(head) => shown(state_text(alloc, &head)),
        Err(fault) => refused(alloc, fault),
    }
}

fn show_lock(alloc: Global, bytes: &[u8]) -> Shown {
    match read_lock(alloc, bytes) {
        Ok(id) => shown(format!(in alloc; "id {}", id.as_str())),
        Err(fault) => refused(alloc, fault),
    }
}

fn settings_text(alloc: Global, settings: &SettingsAsk) -> Result<String, AllocError> {
    let auto_apply = settings.runs.auto_apply;
    match settings.retention {
        Some(most) => { format!(in alloc; "auto_apply {auto_apply} keep_versions {}", most.get()) }
        None => format!(in alloc; "auto_apply {auto_apply}"),
    }
}

fn show_settings(alloc: Global, bytes: &[u8]) -> Shown {
    match read_settings(alloc, bytes) {
        Ok(settings) => shown(settings_text(alloc, &settings)),
        Err(fault) => refused(alloc, fault),
    }
}

fn run_text(alloc: Global, ask: &RunAsk) -> Result<String, AllocError> {
    let mut text = format!(in alloc; "plan_only {}", ask.plan_only)?;
    if let Some(key) = &ask.key {
        text.push_str(" key ")?;
        text.push_str(key.as_str())?;
    }
    if !ask.message.as_str().is_empty() {
        text.push_str(" message ")?;
        text.push_str(ask.message.as_str())?;
    }
    Ok(text)
}

fn show_run(alloc: Global, bytes: &[u8]) -> Shown {
    match read_run(alloc, bytes) {
        Ok(ask) => shown(run_text(alloc, &ask)),
        Err(fault) => refused(alloc, fault),
    }
}

fn show_digest(alloc: Global, field: &str, body: &[u8]) -> Shown {
    if digest_fits(field.as_bytes(), body) {
        text_of(alloc, "fits")
    } else {
        text_of(alloc, "differs")
    }
}

// The name's text is that which was read.
fn show_read(alloc: Global, found: &str, text: &str) -> Shown {
    if found == text {
        text_of(alloc, "read")
    } else {
        text_of(alloc, "read as another text")
    }
}

fn show_org(alloc: Global, text: &str) -> Shown {
    match OrgName::read(alloc, text) {
        Ok(name) => show_read(alloc, name.as_str(), text),
        Err(fault) => unfit(alloc, fault),
    }
}

fn show_ws(alloc: Global, text: &str) -> Shown {
    match WsName::read(alloc, text) {
        Ok(name) => show_read(alloc, name.as_str(), text),
        Err(fault) => unfit(alloc, fault),
    }
}

fn show_lock_id(alloc: Global, text: &str) -> Shown {
    match LockId::read(alloc, text) {
        Ok(name) => show_read(alloc, name.as_str(), text),
        Err(fault) => unfit(alloc, fault),
    }
}

fn show_secret(alloc: Global, text: &str) -> Shown {
    match Secret::read(alloc, text) {
        Ok(name) => show_read(alloc, name.as_str(), text),
        Err(fault) => unfit(alloc, fault),
    }
}

fn show_value(alloc: Global, value: Option<u64>) -> Shown {
    match value {
        Some(value) => shown(format!(in alloc; "{value}")),
        None => text_of(alloc, "bad"),
    }
}

fn number_in(text: &str) -> Option<u64> {
    match Number::read(text) {
        Ok(number) => Some(u64::from(number.get())),
        Err(_) => None,
    }
}

fn moment_in(text: &str) -> Option<u64> {
    let moment = Moment::new(whole_number(text)?)?;
    Some(moment.seconds())
}

fn limit_in(text: &str) -> Option<u64> {
    let value = u32::try_from(whole_number(text)?).ok()?;
    let limit = Limit::new(value)?;
    Some(u64::from(limit.get()))
}

// How many bytes the first line of a frame has, and how many follow it.
fn show_front(alloc: Global, bytes: &[u8]) -> Shown {
    match split_line(bytes) {
        Some((line, rest)) => shown(format!(in alloc; "{} then {}", line.len(), rest.len())),
        None => text_of(alloc, "bad"),
    }
}

// What is read as text.
fn show_text(alloc: Global, kind: Kind, text: &str) -> Shown {
    match kind {
        Kind::Org => show_org(alloc, text),
        Kind::Ws => show_ws(alloc, text),
        Kind::LockId => show_lock_id(alloc, text),
        Kind::Secret => show_secret(alloc, text),
        Kind::Number => show_value(alloc, number_in(text)),
        Kind::Whole => show_value(alloc, whole_number(text)),
        Kind::Moment => show_value(alloc, moment_in(text)),
        Kind::Limit => show_value(alloc, limit_in(text)),
        _ => text_of(alloc, "not of this kind"),
    }
}

// What is read as bytes, with the words of its head.
fn show_bytes(alloc: Global, kind: Kind, words: &str, bytes: &[u8]) -> Shown {
    match kind {
        Kind::State => show_state(alloc, bytes),
        Kind::Lock => show_lock(alloc, bytes),
        Kind::Settings => show_settings(alloc, bytes),
        Kind::Run => show_run(alloc, bytes),
        Kind::Digest => show_digest(alloc, words, bytes),
        Kind::Message => show_message(alloc, bytes),
        Kind::Line => show_front(alloc, bytes),
        Kind::Kept => show_kept(alloc, words, bytes),
        _ => match str::from_utf8(bytes) {
            Ok(text) => show_text(alloc, kind, text),
            Err(_) => text_of(alloc, "bad"),
        },
    }
}

// A text on one line: a digest's field comes before its body.
fn show_line(alloc: Global, kind: Kind, text: &str) -> Shown {
    match kind {
        Kind::Digest => match text.split_once(' ') {
            Some((field, body)) => show_digest(alloc, field, body.as_bytes()),
            None => show_digest(alloc, text, b""),
        },
        _ => show_bytes(alloc, kind, "", text.as_bytes()),
    }
}

// What is due, compared with what a value comes to.
fn compare(alloc: Global, head: &Part<'_>, due: &str, came: Shown) -> Result<(), Failure> {
    match came {
        Ok(came) => compare_bytes(alloc, head.line, due.as_bytes(), came.as_str().as_bytes()),
        Err(failure) => Err(failure),
    }
}

// What is before and after the last ` -> `.
fn parted(text: &str) -> Option<(&str, &str)> {
    if let Some(result) = text.strip_prefix("-> ") {
        return Some(("", result));
    }
    text.rsplit_once(" -> ")
}

// The lines of a result.
fn result_lines(alloc: Global, parts: &[Part<'_>]) -> Result<String, Unread> {
    let mut lines = String::new(alloc);
    let mut is_first = true;
    for part in parts {
        if part.mark != Mark::Outcome {
            return Err(part.unread("a value's result is lines `-> RESULT`"));
        }
        if !is_first {
            lines.push('\n')?;
        }
        is_first = false;
        lines.push_str(part.text)?;
    }
    Ok(lines)
}

// A step whose value is written in pieces.
fn take_block(
    alloc: Global,
    head: &Part<'_>,
    kind: Kind,
    words: &str,
    parts: &[Part<'_>],
) -> Result<(), Failure> {
    let due = result_lines(alloc, parts)?;
    let came = show_bytes(alloc, kind, words, head.written());
    compare(alloc, head, due.as_str(), came)
}

/// Takes a step of values.
pub fn take_value(alloc: Global, plot: &Plot<'_>) -> Result<(), Failure> {
    let [head, parts @ ..] = plot.parts.as_slice() else {
        return Ok(());
    };
    let Some((kind, rest)) = kind_of(head) else {
        return Err(Failure::from(head.unread("a story of values has steps of values alone")));
    };
    if !parts.is_empty() {
        return take_block(alloc, head, kind, rest, parts);
    }
    let Some((text, due)) = parted(rest) else {
        return Err(Failure::from(head.unread("no result is given")));
    };
    compare(alloc, head, due, show_line(alloc, kind, text))
}

/// Whether a step is one of values.
pub fn is_of_values(head: &Part<'_>) -> bool {
    kind_of(head).is_some()
}
