//! The line that tells a fault.
ghost use Rattle.std.specs.Prelude.{◌≡◌, IfOk};
ghost use Rattle.checks.specs.Lines.{fault_word, name_or_hyphen, fault_line};

use crate::found::{Fault, FaultKind};
use crate::workspaces::is_ws_name;
use basis::{Down, Text};
use std::alloc::Global;

impl FaultKind {
    /// The word of a fault in its line.
    pub fn word(self) -> &'static str
        ensures { result.now ≡ fault_word self }
    {
        match self {
            FaultKind::Table => "table",
            FaultKind::Version => "version",
            FaultKind::Twice => "twice",
            FaultKind::DigestTwice => "digest-twice",
            FaultKind::Ownerless => "ownerless",
            FaultKind::Unbounded => "unbounded",
            FaultKind::Unkept => "unkept",
            FaultKind::Range => "range",
            FaultKind::TooMany => "too-many",
            FaultKind::Unlawful => "unlawful",
            FaultKind::Versions => "versions",
            FaultKind::Runs => "runs",
            FaultKind::MissingRun => "missing-run",
            FaultKind::Text => "text",
            FaultKind::Place => "place",
            FaultKind::Uses => "uses",
            FaultKind::Key => "key",
            FaultKind::SamePage => "same-page",
        }
    }
}

/// A name, or a hyphen if the bytes of the row are not a valid name.
fn name_or_hyphen(alloc: Global, name: &str) -> Result<&str, Down>
    ensures { IfOk result (λ text. text.now ≡ name_or_hyphen name.entry.now) }
{
    if is_ws_name(alloc, name)? {
        Ok(name)
    } else {
        Ok("-")
    }
}

/// The line of a fault, without its line feed: `fault WORD ORG WS NUMBER`, with a hyphen for what is not known. The name of a
/// table or of a token is in the place of WS.
pub fn fault_line(alloc: Global, fault: &Fault) -> Result<Text, Down>
    ensures { IfOk result (λ line. line ≡ fault_line fault.now) }
{
    let word = fault.kind.word();
    let org = name_or_hyphen(alloc, fault.org.as_str())?;
    let ws = name_or_hyphen(alloc, fault.ws.as_str())?;
    let line = match fault.number {
        Some(number) => format!(in alloc; "fault {word} {org} {ws} {number}")?,
        None => format!(in alloc; "fault {word} {org} {ws} -")?,
    };
    Ok(Text::new(line))
}
