//! The lines of the log: one of compact JSON for each exchange.
ghost use Rattle.std.specs.Prelude.{◌≡◌, IfOk, OnOk, option_map};
ghost use Rattle.std.specs.Option.{option_copied};
ghost use Rattle.docs.specs.Logs.{operator_word, log_word, door_member, log_line, ExchangesAreLines, LinesReadBack};
ghost use Rattle.docs.specs.Inner.Put.{Puts};
ghost use Rattle.docs.specs.Inner.Logs.{asked, named, outcome, made};

use crate::escapes::escape_acting;
use crate::put::{begin_text, end_text, put_number, put_text, whole_number};
use basis::{Down, LockId, Moment, Number, OrgName, Refusal, Text, WsAct, WsName};
use json::Writer;
use std::alloc::{AllocError, Global};

/// What an operator's command asks, as the log names it.
#[derive(Clone, Copy)]
pub enum OperatorAct {
    AddOrganization,
    LimitOrganization,
    RemoveOrganization,
    ListOrganizations,
    AddToken,
    ListTokens,
    RevokeToken,
    Stop,
}

impl OperatorAct {
    fn word(self) -> &'static str
        ensures { result.now ≡ operator_word self }
    {
        match self {
            OperatorAct::AddOrganization => "add organization",
            OperatorAct::LimitOrganization => "limit organization",
            OperatorAct::RemoveOrganization => "remove organization",
            OperatorAct::ListOrganizations => "list organizations",
            OperatorAct::AddToken => "add token",
            OperatorAct::ListTokens => "list tokens",
            OperatorAct::RevokeToken => "revoke token",
            OperatorAct::Stop => "stop",
        }
    }
}

/// What a request asks, as the log names it.
#[derive(Clone, Copy)]
pub enum LogAct {
    ListWorkspaces,
    /// Something of one workspace.
    OfWorkspace(WsAct),
    /// An operator's command.
    OfOperator(OperatorAct),
}

impl LogAct {
    /// The words in the line.
    pub fn word(self) -> &'static str
        ensures { result.now ≡ log_word self }
    {
        match self {
            LogAct::ListWorkspaces => "list workspaces",
            LogAct::OfWorkspace(act) => act.word(),
            LogAct::OfOperator(act) => act.word(),
        }
    }
}

/// What a line of the log tells of one exchange, but for its connection and how it ended. A field that
/// is absent is `null` in the line.
#[derive(Drop)]
pub struct LogRow {
    /// What is asked; absent where the bytes ask nothing that reads.
    pub act: Option<LogAct>,
    /// The moment of the exchange, which is always there.
    pub at: Moment,
    /// Whether the request came to the operator's door. The line has `operator` and `subject` only if it did.
    pub at_door: bool,
    /// The lock's ID that the request names; absent where it names none.
    pub id: Option<LockId>,
    /// The number of the version or the run that the request names or makes; absent where there is none.
    pub number: Option<Number>,
    /// The name of the operator whose secret the request brings; absent if it brings none that counts.
    pub operator: Option<OrgName>,
    /// The organization that the token or the command names; absent if neither names one.
    pub organization: Option<OrgName>,
    /// Why the request is refused; absent where it isn't.
    pub refusal: Option<Refusal>,
    /// The run that holds the workspace afterwards; absent where none does, or the same one did before.
    pub run: Option<Number>,
    /// The status of the reply; absent where there was no reply.
    pub status: Option<u16>,
    /// The name of the token that a command added or revoked; absent if there is none.
    pub subject: Option<OrgName>,
    /// The name of the token that asks; absent where the request brings no token that counts.
    pub token: Option<Text>,
    /// The number of the version that was made; absent where none was.
    pub version: Option<Number>,
    /// The workspace that the request names; absent where it names none.
    pub workspace: Option<WsName>,
}

// A line fits this whatever its names and numbers are, if nothing is escaped and the lock's ID has at most 90
// bytes; a longer line takes more memory.
const USUAL_LINE: usize = 512;

/// The line of an exchange, with the line feed that ends it: the number of its connection, how it ended,
/// and the rest.
pub fn write_log_line(
    alloc: Global,
    connection: u64,
    end: &str,
    row: &LogRow,
) -> Result<Vec<u8>, Down>
    ensures { IfOk result (λ v. v.items ≡ log_line connection end.now row.now) }
{
    let mut writer = begin_text(alloc, USUAL_LINE)?;
    put_asked(&mut writer, connection, end, row)?;
    put_named(&mut writer, row)?;
    put_outcome(&mut writer, row)?;
    put_made(&mut writer, row)?;
    let text = end_text(writer)?;
    let mut line = escape_acting(alloc, text)?;
    line.extend_from_slice(b"\n")?;
    Ok(line)
}

/// Each exchange is one line, safe on a terminal: a line feed ends it, and no control character stands in it.
pub fn exchanges_are_lines()
    ensures { ExchangesAreLines }
{}

/// Each line reads as the JSON of its exchange, so that each text comes back as it was.
pub fn lines_read_back()
    ensures { LinesReadBack }
{}

fn act_word(act: &Option<LogAct>) -> Option<&'static str>
    ensures { option_map (λ text. text.now) result ≡ option_map log_word act.now }
{
    match act {
        Some(act) => Some(act.word()),
        None => None,
    }
}

// What was asked, when, and how the exchange ended.
fn put_asked(
    writer: &mut Writer,
    connection: u64,
    end: &str,
    row: &LogRow,
) -> Result<(), AllocError>
    ensures { OnOk result (Puts writer.old writer.new (asked connection end.now row.now)) }
{
    put_text(writer, "act", act_word(&row.act))?;
    put_number(writer, "at", Some(row.at.seconds()))?;
    put_number(writer, "connection", Some(connection))?;
    put_text(writer, "end", Some(end))
}

// A member of the line of a request that came to the operator's door, and of no other.
fn put_at_door(
    writer: &mut Writer,
    at_door: bool,
    name: &str,
    text: Option<&str>,
) -> Result<(), AllocError>
    ensures { OnOk result (Puts writer.old writer.new (door_member at_door name.now (option_copied text.entry))) }
{
    if at_door {
        put_text(writer, name, text)
    } else {
        Ok(())
    }
}

// The lock's ID, the number, the operator and the organization.
fn put_named(writer: &mut Writer, row: &LogRow) -> Result<(), AllocError>
    ensures { OnOk result (Puts writer.old writer.new (named row.now)) }
{
    put_text(writer, "id", row.id.as_ref().map(LockId::as_str))?;
    put_number(writer, "number", row.number.map(whole_number))?;
    put_at_door(
        writer,
        row.at_door,
        "operator",
        row.operator.as_ref().map(OrgName::as_str),
    )?;
    put_text(
        writer,
        "organization",
        row.organization.as_ref().map(OrgName::as_str),
    )
}

// Why it is refused, the run that holds, and the status.
fn put_outcome(writer: &mut Writer, row: &LogRow) -> Result<(), AllocError>
    ensures { OnOk result (Puts writer.old writer.new (outcome row.now)) }
{
    put_text(writer, "refusal", row.refusal.map(Refusal::word))?;
    put_number(writer, "run", row.run.map(whole_number))?;
    put_number(writer, "status", row.status.map(u64::from))
}

// The subject, the token, the version and the workspace.
fn put_made(writer: &mut Writer, row: &LogRow) -> Result<(), AllocError>
    ensures { OnOk result (Puts writer.old writer.new (made row.now)) }
{
    put_at_door(
        writer,
        row.at_door,
        "subject",
        row.subject.as_ref().map(OrgName::as_str),
    )?;
    put_text(writer, "token", row.token.as_ref().map(Text::as_str))?;
    put_number(writer, "version", row.version.map(whole_number))?;
    put_text(
        writer,
        "workspace",
        row.workspace.as_ref().map(WsName::as_str),
    )
}
