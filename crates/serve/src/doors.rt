//! The operator's door: an operator's command in a request.
ghost use Rattle.std.specs.Prelude.{◌≡◌, ◌≢◌, false, Some, None, IfOk, IfErr, OnOk, OnErr, IsErrOf};
ghost use Rattle.basis.specs.Inner.Checks.{Follows};
ghost use Rattle.machine.specs.StoreCalls.{Lasts};
ghost use Rattle.machine.specs.declared.keeps.AdminAnswer.TheVariants.{Done};
ghost use Rattle.docs.specs.Bodies.{error_text};
ghost use Rattle.wire.specs.Replies.{text_answer, refused_answer, unavailable_answer};
ghost use Rattle.serve.specs.Doors.{door_command, command_in, command_asked, command_permitted, reported_answer};
ghost use Rattle.serve.specs.Operators.{is_list, permitted};
ghost use Rattle.serve.specs.Logs.{act_commanded, org_commanded, token_commanded, command_row, no_command_row, stop_row};
ghost use Rattle.serve.specs.Service.{Stays};
ghost use Rattle.serve.specs.Inner.Doors.{row_commanded, Operates, TurnsAway, OperatesAs, OperatesOrNot, IsRowAs, IsRowSoFar};

use crate::checks::digest_checked;
use crate::commands::{CommandReport, report, report_done};
use crate::lines::{MAX_LINE, only_line};
use crate::logs::operator_row;
use crate::messages::is_head;
use crate::operators::{Operator, Operators};
use crate::requests::refuse;
use crate::steps::Admin;
use crate::words::read_command_line;
use basis::{Down, Moment, OrgName, Refusal, Unfit};
use docs::{LogAct, LogRow, OperatorAct};
use machine::Keep;
use std::alloc::Global;
use wire::{Message, Reply};

/// The operator's door: closed, or open to these operators.
#[derive(Drop)]
pub enum Door {
    Closed,
    Open { operators: Operators },
}

/// A command at the operator's door.
#[derive(Drop)]
pub enum DoorCommand {
    /// An operator's command on the store.
    OnStore(Admin),
    /// The service ends.
    Stop,
}

// The command at the door that a line is.
fn read_door_command(alloc: Global, line: &[u8]) -> Result<DoorCommand, Unfit>
    ensures ok { IfOk result (λ command. door_command line.now ≡ Some command) }
    ensures syntax { IsErrOf result Unfit.Syntax → door_command line.now ≡ None }
{
    if line == b"stop".as_slice() {
        return Ok(DoorCommand::Stop);
    }
    let command = read_command_line(alloc, line)?;
    Ok(DoorCommand::OnStore(command))
}

// The command that a body is.
fn command_in(alloc: Global, body: &[u8]) -> Result<DoorCommand, Refusal>
    ensures { Follows result (command_in body.now) }
{
    if body.len() > MAX_LINE {
        return Err(Refusal::BadBody);
    }
    let Some(line) = only_line(body) else {
        return Err(Refusal::BadBody);
    };
    match read_door_command(alloc, line) {
        Ok(command) => Ok(command),
        Err(Unfit::Syntax) => Err(Refusal::BadBody),
        Err(Unfit::Down) => Err(Refusal::Unavailable),
    }
}

// The command that a message asks for once it may enter, or the refusal of the first check that fails: Content-MD5, the
// body. `Unavailable` if an allocation fails.
fn command_asked(alloc: Global, message: &Message) -> Result<DoorCommand, Refusal>
    ensures { Follows result (command_asked message.now) }
{
    digest_checked(&message.content_md5, &message.body)?;
    command_in(alloc, message.body.as_slice())
}

fn is_list(command: &DoorCommand) -> bool
    ensures { result ≡ is_list command.now }
{
    match command {
        DoorCommand::OnStore(Admin::OrgList | Admin::TokenList { .. }) => true,
        _ => false,
    }
}

// The command, unless its operator may only list and it is no list.
fn permitted(lists_only: bool, command: DoorCommand) -> Result<DoorCommand, Refusal>
    ensures { result ≡ permitted lists_only command }
{
    if lists_only && !is_list(&command) {
        Err(Refusal::NeedAdmin)
    } else {
        Ok(command)
    }
}

// The command that a message of this operator asks for, or the refusal of the first check that fails: Content-MD5, the body, what the
// operator may ask for. `Unavailable` if an allocation fails.
fn command_permitted(
    alloc: Global,
    operator: &Operator,
    message: &Message,
) -> Result<DoorCommand, Refusal>
    ensures { Follows result (command_permitted operator.now message.now) }
{
    let command = command_asked(alloc, message)?;
    permitted(operator.lists_only, command)
}

fn act_of(asked: &Admin) -> LogAct
    ensures { result ≡ act_commanded asked.now }
{
    match asked {
        Admin::OrgAdd { .. } => LogAct::OfOperator(OperatorAct::AddOrganization),
        Admin::OrgLimit { .. } => LogAct::OfOperator(OperatorAct::LimitOrganization),
        Admin::OrgRemove { .. } => LogAct::OfOperator(OperatorAct::RemoveOrganization),
        Admin::OrgList => LogAct::OfOperator(OperatorAct::ListOrganizations),
        Admin::TokenAdd { .. } => LogAct::OfOperator(OperatorAct::AddToken),
        Admin::TokenList { .. } => LogAct::OfOperator(OperatorAct::ListTokens),
        Admin::TokenRevoke { .. } => LogAct::OfOperator(OperatorAct::RevokeToken),
    }
}

// The names in a command.
#[derive(Drop)]
struct Names {
    org: Option<OrgName>,
    token: Option<OrgName>,
}

impl Names {
    fn of_org(org: OrgName) -> Names
        ensures org { result.org ≡ Some org }
        ensures token { result.token ≡ None }
    {
        Names {
            org: Some(org),
            token: None,
        }
    }

    fn of_token(org: OrgName, name: OrgName) -> Names
        ensures org { result.org ≡ Some org }
        ensures token { result.token ≡ Some name }
    {
        Names {
            org: Some(org),
            token: Some(name),
        }
    }
}

fn names_in(asked: Admin) -> Names
    ensures org { result.org ≡ org_commanded asked }
    ensures token { result.token ≡ token_commanded asked }
{
    match asked {
        Admin::OrgAdd { org, .. } => Names::of_org(org),
        Admin::OrgLimit { org, .. } => Names::of_org(org),
        Admin::OrgRemove { org, .. } => Names::of_org(org),
        Admin::OrgList => Names {
            org: None,
            token: None,
        },
        Admin::TokenAdd { org, name, .. } => Names::of_token(org, name),
        Admin::TokenList { org } => Names::of_org(org),
        Admin::TokenRevoke { org, name } => Names::of_token(org, name),
    }
}

/// A reply at the door, and its row of the log.
#[derive(Drop)]
pub struct Operated {
    pub reply: Reply,
    pub row: LogRow,
}

// The reply and the row for a command that is carried out.
fn answered(at: Moment, by: Option<OrgName>, asked: Admin, reported: CommandReport) -> Operated
    ensures reply { result.reply ≡ text_answer reported.refusal reported.text }
    ensures row { result.row ≡ command_row at by asked (text_answer reported.refusal reported.text) }
{
    let CommandReport { refusal, text } = reported;
    let act = act_of(&asked);
    let Names { org, token } = names_in(asked);
    let reply = Reply::text(refusal, text);
    let row = operator_row(at, by, Some(act), org, token, &reply);
    Operated { reply, row }
}

// The row of a 503, if this command had been read.
fn row_so_far(at: Moment, by: Option<OrgName>, asked: Admin) -> LogRow
    ensures { result ≡ command_row at by asked (unavailable_answer false) }
{
    let act = act_of(&asked);
    let Names { org, token } = names_in(asked);
    let reply = Reply::unavailable(false);
    operator_row(at, by, Some(act), org, token, &reply)
}

// The row of a 503, if no command had been read.
fn unread_row(at: Moment, by: Option<OrgName>) -> LogRow
    ensures { result ≡ no_command_row at by (unavailable_answer false) }
{
    let reply = Reply::unavailable(false);
    operator_row(at, by, None, None, None, &reply)
}

fn carry_out<K: Keep>(
    alloc: Global,
    keep: &mut K,
    at: Moment,
    by: Option<OrgName>,
    asked: Admin,
) -> Result<Operated, LogRow>
    ensures lasts { Lasts K.clean K.sound K.keyed K.shielded keep.old keep.new }
    ensures ok { K.clean keep.new → K.sound keep.old → IfOk result (Operates at by (DoorCommand.OnStore asked) (K.rows keep.old) (K.rows keep.new)) }
    ensures err { K.clean keep.new → OnErr result (Stays (K.rows keep.old) (K.rows keep.new)) }
    ensures row { IfErr result (λ row. row ≡ command_row at by asked (unavailable_answer false)) }
{
    match report(alloc, keep, &asked) {
        Ok(reported) => Ok(answered(at, by, asked, reported)),
        Err(Down) => Err(row_so_far(at, by, asked)),
    }
}

fn stop_row(at: Moment, by: Option<OrgName>, reply: &Reply) -> LogRow
    ensures { result ≡ stop_row at by reply.now }
{
    let act = LogAct::OfOperator(OperatorAct::Stop);
    operator_row(at, by, Some(act), None, None, reply)
}

// The reply and the row for `stop`.
fn stopped(at: Moment, by: Option<OrgName>, reported: CommandReport) -> Operated
    ensures reply { result.reply ≡ text_answer reported.refusal reported.text }
    ensures row { result.row ≡ stop_row at by (text_answer reported.refusal reported.text) }
{
    let CommandReport { refusal, text } = reported;
    let reply = Reply::text(refusal, text);
    let row = stop_row(at, by, &reply);
    Operated { reply, row }
}

// The row of its 503.
fn down_row(at: Moment, by: Option<OrgName>) -> LogRow
    ensures { result ≡ stop_row at by (unavailable_answer false) }
{
    let reply = Reply::unavailable(false);
    stop_row(at, by, &reply)
}

// Answers `stop`. It changes nothing: whoever serves the connections ends the service, by the row.
fn stop(alloc: Global, at: Moment, by: Option<OrgName>) -> Result<Operated, LogRow>
    ensures reply { IfOk result (λ done. done.reply ≡ reported_answer Done) }
    ensures row { IfOk result (λ done. done.row ≡ stop_row at by (reported_answer Done)) }
    ensures down { IfErr result (λ row. row ≡ stop_row at by (unavailable_answer false)) }
{
    match report_done(alloc) {
        Ok(reported) => Ok(stopped(at, by, reported)),
        Err(Down) => Err(down_row(at, by)),
    }
}

// Carries out a command at the door.
fn obey<K: Keep>(
    alloc: Global,
    keep: &mut K,
    at: Moment,
    by: Option<OrgName>,
    asked: DoorCommand,
) -> Result<Operated, LogRow>
    ensures lasts { Lasts K.clean K.sound K.keyed K.shielded keep.old keep.new }
    ensures ok { K.clean keep.new → K.sound keep.old → IfOk result (Operates at by asked (K.rows keep.old) (K.rows keep.new)) }
    ensures err { K.clean keep.new → OnErr result (Stays (K.rows keep.old) (K.rows keep.new)) }
    ensures row { IfErr result (λ row. row ≡ row_commanded at by asked (unavailable_answer false)) }
{
    match asked {
        DoorCommand::OnStore(command) => carry_out(alloc, keep, at, by, command),
        DoorCommand::Stop => stop(alloc, at, by),
    }
}

// The reply to a message that is turned away. For a secret that does not open the door it needs no memory.
fn refusal_reply(alloc: Global, refusal: Refusal, is_head: bool) -> Result<Reply, Down>
    ensures known { OnOk result (refusal ≢ Refusal.Unavailable) }
    ensures ok { IfOk result (λ reply. reply ≡ refused_answer refusal (error_text refusal) is_head) }
    ensures secret { OnErr result (refusal ≢ Refusal.BadSecret) }
{
    match refusal {
        Refusal::BadSecret => return Ok(Reply::bad_secret(is_head)),
        _ => {}
    }
    refuse(alloc, refusal, is_head)
}

fn turn_away(
    alloc: Global,
    at: Moment,
    by: Option<OrgName>,
    refusal: Refusal,
    is_head: bool,
) -> Result<Operated, LogRow>
    ensures known { OnOk result (refusal ≢ Refusal.Unavailable) }
    ensures ok { IfOk result (TurnsAway at by refusal is_head) }
    ensures secret { OnErr result (refusal ≢ Refusal.BadSecret) }
    ensures row { IfErr result (λ row. row ≡ no_command_row at by (unavailable_answer false)) }
{
    match refusal_reply(alloc, refusal, is_head) {
        Ok(reply) => {
            let row = operator_row(at, by, None, None, None, &reply);
            Ok(Operated { reply, row })
        }
        Err(Down) => Err(unread_row(at, by)),
    }
}

// Carries out the command of a message that let this operator in, and returns the reply; or the row of a 503.
fn operate_for<K: Keep>(
    alloc: Global,
    keep: &mut K,
    operator: &Operator,
    at: Moment,
    message: &Message,
) -> Result<Operated, LogRow>
    ensures lasts { Lasts K.clean K.sound K.keyed K.shielded keep.old keep.new }
    ensures ok { K.clean keep.new → K.sound keep.old → IfOk result (OperatesAs (command_permitted operator.now message.now) (Some operator.now.name) at message.now (K.rows keep.old) (K.rows keep.new)) }
    ensures err { K.clean keep.new → OnErr result (Stays (K.rows keep.old) (K.rows keep.new)) }
    ensures row { IfErr result (IsRowAs (command_permitted operator.now message.now) (Some operator.now.name) at message.now) }
{
    let Ok(name) = operator.name.clone() else {
        return Err(unread_row(at, None));
    };
    match command_permitted(alloc, operator, message) {
        Ok(asked) => obey(alloc, keep, at, Some(name), asked),
        Err(refusal) => turn_away(alloc, at, Some(name), refusal, is_head(message)),
    }
}

/// Carries out the command of a message at the open door, and returns the reply; or the row of a 503.
pub fn operate<K: Keep>(
    alloc: Global,
    keep: &mut K,
    operators: &Operators,
    at: Moment,
    message: &Message,
) -> Result<Operated, LogRow>
    ensures lasts { Lasts K.clean K.sound K.keyed K.shielded keep.old keep.new }
    ensures ok { K.clean keep.new → K.sound keep.old → IfOk result (OperatesOrNot operators.now at message.now (K.rows keep.old) (K.rows keep.new)) }
    ensures err { K.clean keep.new → OnErr result (Stays (K.rows keep.old) (K.rows keep.new)) }
    ensures row { IfErr result (IsRowSoFar operators.now at message.now) }
{
    match operators.let_in(at, message) {
        Ok(operator) => operate_for(alloc, keep, operator, at, message),
        Err(refusal) => turn_away(alloc, at, None, refusal, is_head(message)),
    }
}
