//! The log row of an exchange.
ghost use Rattle.std.specs.Prelude.{◌≡◌, ◌+◌, Some, None};
ghost use Rattle.serve.specs.Logs.{act_logged, workspace_named, number_named, number_given, no_trace, silent_row, with_answer, operator_row, row_of_request, unavailable_row};
ghost use Rattle.machine.specs.Laws.{holds};
ghost use Rattle.serve.specs.Inner.Tracing.{run_shown_by, edit_number, edit_start, version_by, run_by, trace_by, read_so_far, as_unavailable};

use basis::{Holder, LockId, Moment, Number, OrgName, Refusal, Text, WsName};
use docs::{LogAct, LogRow};
use machine::{Act, Answer, Change, Decision, Edit, Unit, Version};
use route::{Asked, AskedAct};
use std::alloc::AllocError;
use wire::Reply;

/// What the rules did, as far as the log shows it.
#[derive(Clone, Copy)]
pub struct Trace {
    /// The run that is shown.
    pub shown_run: Option<Number>,
    /// The version that was made.
    pub version: Option<Number>,
    /// The run that holds the workspace afterwards, and did not before.
    pub run: Option<Number>,
}

/// What the log shows of a request besides its head and its answer.
#[derive(Drop)]
pub struct RowFacts {
    /// The name of the token.
    pub token: Option<Text>,
    /// The lock's ID in the document.
    pub id: Option<LockId>,
    pub trace: Trace,
}

impl RowFacts {
    /// What had been read when an allocation or the store failed.
    pub fn read_so_far(token: Option<Text>, id: Option<LockId>) -> RowFacts
        ensures { result ≡ read_so_far token id }
    {
        RowFacts {
            token,
            id,
            trace: Trace::none(),
        }
    }
}

impl Trace {
    pub fn none() -> Trace
        ensures { result ≡ no_trace }
    {
        Trace {
            shown_run: None,
            version: None,
            run: None,
        }
    }
}

fn act_logged(asked: &AskedAct) -> LogAct
    ensures { result ≡ act_logged asked.now }
{
    match asked {
        AskedAct::ListWorkspaces { .. } => LogAct::ListWorkspaces,
        AskedAct::OfWorkspace(_, act) => LogAct::OfWorkspace(*act),
    }
}

fn number_named(asked: &AskedAct) -> Option<Number>
    ensures { result ≡ number_named asked.now }
{
    match asked {
        AskedAct::ListWorkspaces { .. } => None,
        AskedAct::OfWorkspace(_, act) => act.number(),
    }
}

fn workspace_named(asked: AskedAct) -> Option<WsName>
    ensures { result ≡ workspace_named asked }
{
    match asked {
        AskedAct::ListWorkspaces { .. } => None,
        AskedAct::OfWorkspace(ws, _) => Some(ws),
    }
}

// The run that an answer shows.
fn run_shown_by(answer: &Answer) -> Option<Number>
    ensures { result ≡ run_shown_by answer.now }
{
    match answer {
        Answer::Run(run) => Some(run.number),
        Answer::Done | Answer::NoState | Answer::State(_) => None,
        Answer::Workspace(_) | Answer::Versions(_) | Answer::Runs(_) => None,
    }
}

// The number of a version, unless the next number already follows it.
fn number_given(next: u64, version: &Version) -> Option<Number>
    ensures { result ≡ number_given next (version.now.number + 1) }
{
    let number = version.number;
    prove!(number.get() >= 1);
    if u64::from(number.get()) + 1 == next {
        None
    } else {
        Some(number)
    }
}

fn edit_number(next: u64, edit: &Edit) -> Option<Number>
    ensures { result ≡ edit_number next edit.now }
{
    match edit {
        Edit::AddVersion { version, .. } => number_given(next, version),
        Edit::Make(_) | Edit::Configure { .. } | Edit::Remove | Edit::Purge => None,
        Edit::Hold { .. } | Edit::Release(_) | Edit::AddRun { .. } | Edit::Report { .. } => None,
    }
}

fn is_held_by(holder: &Holder, number: Number) -> bool
    ensures { result ≡ holds holder.now number }
{
    match holder {
        Holder::Run(held) => held.get() == number.get(),
        Holder::Nobody | Holder::Lock { .. } => false,
    }
}

// The run that starts, if the workspace stays and the run did not hold it before.
fn edit_start(holder: &Holder, change: &Change) -> Option<Number>
    ensures { result ≡ edit_start holder.now change.now }
{
    match &change.edit {
        Edit::Remove => return None,
        _ => {}
    }
    match change.start {
        Some(number) if !is_held_by(holder, number) => Some(number),
        _ => None,
    }
}

fn version_by(unit: &Unit, change: &Change) -> Option<Number>
    ensures { result ≡ version_by unit.now change.now }
{
    match unit {
        Unit::Absent { .. } => None,
        Unit::Present(unit) => edit_number(unit.next_version, &change.edit),
    }
}

fn run_by(unit: &Unit, change: &Change) -> Option<Number>
    ensures { result ≡ run_by unit.now change.now }
{
    match unit {
        Unit::Absent { .. } => None,
        Unit::Present(unit) => edit_start(&unit.holder, change),
    }
}

/// What a decision does, by what is seen of the workspace before it.
pub fn trace_by(unit: &Unit, decision: &Decision) -> Trace
    ensures { result ≡ trace_by unit.now decision.now }
{
    match decision {
        Decision::Refused(_) => Trace::none(),
        Decision::Accepted { answer, change } => match change {
            None => Trace {
                shown_run: run_shown_by(answer),
                version: None,
                run: None,
            },
            Some(change) => Trace {
                shown_run: run_shown_by(answer),
                version: version_by(unit, change),
                run: run_by(unit, change),
            },
        },
    }
}

/// The row of an exchange of which nothing is known but its moment.
pub fn silent_row(at: Moment) -> LogRow
    ensures { result ≡ silent_row at }
{
    LogRow {
        act: None,
        at,
        at_door: false,
        id: None,
        number: None,
        operator: None,
        organization: None,
        refusal: None,
        run: None,
        status: None,
        subject: None,
        token: None,
        version: None,
        workspace: None,
    }
}

/// The row of a message that asks nothing which reads: its refusal.
pub fn refused_row(at: Moment, reply: &Reply) -> LogRow
    ensures { result ≡ with_answer reply.now (silent_row at) }
{
    LogRow {
        status: Some(reply.status()),
        refusal: reply.refusal(),
        ..silent_row(at)
    }
}

/// The row of the 503 of memory or a store that refused, where nothing was read of what is asked.
pub fn unavailable_row(at: Moment) -> LogRow
    ensures { result ≡ unavailable_row at }
{
    as_unavailable(silent_row(at))
}

/// The row of the 503 in place of what was to be answered: what is asked, and by whom. Nothing was made, so it has no number.
pub fn as_unavailable(row: LogRow) -> LogRow
    ensures { result ≡ as_unavailable row }
{
    let reply = Reply::unavailable(false);
    LogRow {
        number: None,
        refusal: reply.refusal(),
        run: None,
        status: Some(reply.status()),
        version: None,
        ..row
    }
}

/// The row of a request at the operator's door: the operator whom it lets in, what its command asks, the organization that it names,
/// and the token that it added or revoked, each if there is one.
pub fn operator_row(
    at: Moment,
    by: Option<OrgName>,
    act: Option<LogAct>,
    organization: Option<OrgName>,
    subject: Option<OrgName>,
    reply: &Reply,
) -> LogRow
    ensures { result ≡ operator_row at by act organization subject reply.now }
{
    LogRow {
        act,
        at_door: true,
        operator: by,
        organization,
        refusal: reply.refusal(),
        status: Some(reply.status()),
        subject,
        ..silent_row(at)
    }
}

/// The row of a request.
pub fn request_row(at: Moment, asked: Asked, reply: &Reply, facts: RowFacts) -> LogRow
    ensures { result ≡ row_of_request at asked reply.now facts.token facts.id facts.trace }
{
    let RowFacts { token, id, trace } = facts;
    let Asked {
        caller,
        secret,
        org,
        act,
        lock_id,
    } = asked;
    drop(secret);
    drop(org);
    let refusal = reply.refusal();
    LogRow {
        act: Some(act_logged(&act)),
        at,
        at_door: false,
        id: id.or(lock_id),
        number: number_named(&act).or(trace.shown_run.or(trace.version)),
        operator: None,
        organization: Some(caller),
        refusal,
        run: trace.run,
        status: Some(reply.status()),
        subject: None,
        token,
        version: trace.version,
        workspace: workspace_named(act),
    }
}
