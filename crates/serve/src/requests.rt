//! A request of an organization: the checks in their order, and the answer of the rules.
ghost use Rattle.std.specs.Prelude.{◌≡◌, ◌≢◌, ◌⊎◌, ℕ, [], false, List, Option, Some, None, Ok, Err, IsSome, IfOk, IfErr, OnOk, option_copied};
ghost use Rattle.machine.specs.StoreCalls.{Unchanged};
ghost use Rattle.machine.specs.Ranges.{IsInRange};
ghost use Rattle.machine.specs.Records.{workspace_in, seen_in};
ghost use Rattle.machine.specs.Rules.{refused_by};
ghost use Rattle.machine.specs.Meaning.{meaning, answered, holder_of, ChangeIsDue};
ghost use Rattle.machine.specs.declared.acts.Answer.TheVariants.{Workspace as ShownWorkspace, Run as ShownRun, Versions as ListedVersions, Runs as ListedRuns};
ghost use Rattle.serve.specs.declared.checks.Task.TheVariants.{ListAll, Carry};
ghost use Rattle.machine.specs.declared.acts.Decision.TheVariants.{Accepted};
ghost use Rattle.machine.specs.declared.records.Organization.{Organization};
ghost use Rattle.docs.specs.Bodies.{error_text};
ghost use Rattle.wire.specs.Replies.{refused_answer};
ghost use Rattle.serve.specs.Steps.{holder_text, answer_to, ruled_in, carried, request_step};
ghost use Rattle.serve.specs.Checks.{checked};
ghost use Rattle.serve.specs.Logs.{id_of_task, id_spelt, task_read, traced, token_named};
ghost use Rattle.serve.specs.Inner.Judging.{Stands};
ghost use Rattle.serve.specs.Inner.Tracing.{facts_of, read_so_far, AreReadSoFar};
ghost use Rattle.serve.specs.Inner.Prepared.{Foresees, IsTaskInRange};
ghost use Rattle.serve.specs.Inner.Units.{holder_in};

use crate::checks::{Task, in_reach, judged, known_caller, missed, spelt_id};
use crate::logs::{RowFacts, Trace, trace_by};
use basis::numbers::MAX_MOMENT;
use basis::{Bytes, Down, Holder, Moment, OrgName, Refusal, RunRow, Text, WsName, WsPrefix, WsRow};
use docs::{
    write_error, write_run, write_run_holder, write_run_list, write_version_list, write_ws,
    write_ws_list,
};
use machine::{Act, Answer, Change, Decision, Keep, Shown, TokenRow, Unit, decide};
use route::{Asked, allowed};
use std::alloc::Global;
use wire::Reply;

/// A change that is to follow, and the names of the workspace that it changes.
#[derive(Drop)]
pub struct WsChange {
    pub org: OrgName,
    pub ws: WsName,
    pub change: Change,
}

/// The answer to a request at a moment, and the change to make; or, if an allocation or the store failed,
/// what had been read of the request.
pub fn request<K: Keep>(
    alloc: Global,
    keep: &mut K,
    at: Moment,
    asked: &Asked,
    content_md5: &Option<Bytes>,
    body: Bytes,
) -> Result<(Reply, Option<WsChange>, RowFacts), RowFacts>
    ensures unchanged { Unchanged K.rows K.clean K.sound K.keyed K.shielded keep.old keep.new }
    ensures ok { K.clean keep.new → K.sound keep.old → IfOk result (λ p. Foresees (K.rows keep.old asked.now.caller) asked.now.caller
        (request_step (K.rows keep.old asked.now.caller) at asked.now content_md5.now body) p.0 p.1) }
    ensures facts { K.clean keep.new → K.sound keep.old → IfOk result (λ p. p.2 ≡ facts_of (K.rows keep.old asked.now.caller) at asked.now content_md5.now body) }
    ensures down { K.clean keep.new → K.sound keep.old → IfErr result (λ facts. AreReadSoFar (K.rows keep.old asked.now.caller) at asked.now content_md5.now body facts) }
{
    let mut token = None;
    match checked(alloc, keep, at, asked, content_md5, body, &mut token) {
        Ok(task) => carry(alloc, keep, at, &asked.caller, task, token),
        Err(refusal) => refuse_request(alloc, refusal, token),
    }
}

// What passed the checks is done, by a token of this name.
fn carry<K: Keep>(
    alloc: Global,
    keep: &mut K,
    at: Moment,
    org: &OrgName,
    task: Task,
    token: Option<Text>,
) -> Result<(Reply, Option<WsChange>, RowFacts), RowFacts>
    ensures unchanged { Unchanged K.rows K.clean K.sound K.keyed K.shielded keep.old keep.new }
    ensures ok { K.clean keep.new → K.sound keep.old → IfOk result (λ p. IsSome (K.rows keep.old org.now) → IsTaskInRange task
        → Foresees (K.rows keep.old org.now) org.now (carried org.now at (K.rows keep.old org.now) (Ok task)) p.0 p.1) }
    ensures facts { K.clean keep.new → K.sound keep.old → IfOk result (λ p. IsSome (K.rows keep.old org.now)
        → p.2 ≡ record { token = token; id = id_of_task task; trace = traced at (K.rows keep.old org.now) (Ok task) }) }
    ensures down { IfErr result (λ facts. (id : Option (List ℕ)) × ((id ≡ None) ⊎ (id ≡ id_of_task task)) × (facts ≡ read_so_far token id)) }
{
    let Ok(id) = spelt_id(&task) else {
        return Err(RowFacts::read_so_far(token, None));
    };
    match perform(alloc, keep, at, org, task) {
        Ok((reply, change, trace)) => Ok((reply, change, RowFacts { token, id, trace })),
        Err(Down) => Err(RowFacts::read_so_far(token, id)),
    }
}

// What the checks refuse, by a token of this name, if it counts.
fn refuse_request(
    alloc: Global,
    why: Refusal,
    token: Option<Text>,
) -> Result<(Reply, Option<WsChange>, RowFacts), RowFacts>
    ensures known { OnOk result (why ≢ Refusal.Unavailable) }
    ensures ok { IfOk result (λ p. (p.0 ≡ refused_answer why (error_text why) false) × (p.1 ≡ None)) }
    ensures facts { IfOk result (λ p. p.2 ≡ read_so_far token None) }
    ensures down { IfErr result (λ facts. facts ≡ read_so_far token None) }
{
    match refuse(alloc, why, false) {
        Ok(reply) => Ok((reply, None, RowFacts::read_so_far(token, None))),
        Err(Down) => Err(RowFacts::read_so_far(token, None)),
    }
}

/// What is to be done, or the refusal of the first check that fails; `Unavailable` if an allocation fails.
/// If digest and document pass, the rules decide whether what is named exists, and refuse with the same
/// answer if it does not: so a good request queries its workspace once.
fn checked<K: Keep>(
    alloc: Global,
    keep: &mut K,
    at: Moment,
    asked: &Asked,
    content_md5: &Option<Bytes>,
    body: Bytes,
    token: &mut Option<Text>,
) -> Result<Task, Refusal>
    ensures unchanged { Unchanged K.rows K.clean K.sound K.keyed K.shielded keep.old keep.new }
    ensures ok { K.clean keep.new → K.sound keep.old → Stands result (K.rows keep.old asked.now.caller) at asked.now content_md5.now body }
    ensures range { IfOk result IsTaskInRange }
    ensures there { K.clean keep.new → K.sound keep.old → OnOk result (IsSome (K.rows keep.old asked.now.caller)) }
    ensures traces { K.clean keep.new → K.sound keep.old → IfOk result (λ task. traced at (K.rows keep.old asked.now.caller) (Ok task)
        ≡ traced at (K.rows keep.old asked.now.caller) (checked (K.rows keep.old asked.now.caller) at asked.now content_md5.now body)) }
    ensures spells { K.clean keep.new → K.sound keep.old → result ≢ Err Refusal.Unavailable
        → id_spelt result ≡ id_spelt (task_read (K.rows keep.old asked.now.caller) at asked.now content_md5.now body) }
    ensures names { K.clean keep.new → K.sound keep.old → result ≢ Err Refusal.Unavailable → token.new ≡ token_named (K.rows keep.old asked.now.caller) at asked.now }

    // Where it is for want of memory, too: no name, or that of the token.
    ensures reads { K.clean keep.new → K.sound keep.old → (token.new ≡ None) ⊎ (token.new ≡ token_named (K.rows keep.old asked.now.caller) at asked.now) }
{
    *token = None;
    let TokenRow { name, caller } = match known_caller(alloc, keep, at, asked) {
        Ok(row) => row,
        Err(refusal) => return Err(refusal),
    };
    *token = Some(name);
    if let Err(refusal) = allowed(asked, &caller) {
        return Err(refusal);
    }
    if let Err(refusal) = in_reach(asked) {
        return Err(refusal);
    }
    match judged(
        alloc,
        &caller.prefix,
        &asked.act,
        content_md5,
        &asked.lock_id,
        body,
    ) {
        Ok(task) => Ok(task),
        Err(refusal) => Err(missed(alloc, keep, &asked.caller, &asked.act, refusal)),
    }
}

/// A refusal: its word. That of want of memory is left to the caller.
pub fn refuse(alloc: Global, refusal: Refusal, is_head: bool) -> Result<Reply, Down>
    ensures known { OnOk result (refusal ≢ Refusal.Unavailable) }
    ensures ok { IfOk result (λ reply. reply ≡ refused_answer refusal (error_text refusal) is_head) }
{
    match refusal {
        Refusal::Unavailable => return Err(Down),
        _ => {}
    }
    let body = write_error(alloc, refusal)?;
    Ok(Reply::refused(refusal, Bytes::new(body), is_head))
}

/// The body that shows who holds.
fn holder_body(alloc: Global, org: &OrgName, ws: &WsName, unit: &Unit) -> Result<Bytes, Down>
    ensures { IfOk result (λ body. body ≡ holder_text org.now ws.now (holder_in unit.now)) }
{
    match unit {
        Unit::Absent { .. } => Ok(Bytes::new(Vec::new(alloc))),
        Unit::Present(unit) => match &unit.holder {
            Holder::Nobody => Ok(Bytes::new(Vec::new(alloc))),
            Holder::Lock { text, .. } => Ok(text.clone()?),
            Holder::Run(n) => Ok(Bytes::new(write_run_holder(alloc, org, ws, *n)?)),
        },
    }
}

/// The reply of a refusal by the rules.
fn refused_reply(
    alloc: Global,
    org: &OrgName,
    ws: &WsName,
    unit: &Unit,
    refusal: Refusal,
) -> Result<Reply, Down>
    ensures { IfOk result (λ reply. reply ≡ answer_to org.now ws.now (refused_by refusal (holder_in unit.now))) }
{
    let body = match refusal {
        Refusal::Locked => holder_body(alloc, org, ws, unit)?,
        _ => Bytes::new(write_error(alloc, refusal)?),
    };
    Ok(Reply::refused(refusal, body, false))
}

fn workspace_reply(alloc: Global, ws: &WsName, shown: Shown) -> Result<Reply, Down>
    ensures { IfOk result (λ reply. reply ≡ answer_to [] ws.now (answered (ShownWorkspace shown) None)) }
{
    let row = WsRow {
        settings: shown.settings,
        holder: shown.holder,
        name: ws.clone()?,
        version: shown.version,
    };
    Ok(Reply::document(Bytes::new(write_ws(alloc, &row)?)))
}

fn run_reply(alloc: Global, run: &RunRow) -> Result<Reply, Down>
    ensures { IfOk result (λ reply. reply ≡ answer_to [] [] (answered (ShownRun run.now) None)) }
{
    Ok(Reply::document(Bytes::new(write_run(alloc, run)?)))
}

/// The reply of an accepted act.
fn accepted_reply<K: Keep>(
    alloc: Global,
    keep: &mut K,
    org: &OrgName,
    ws: &WsName,
    answer: Answer,
) -> Result<Reply, Down>
    ensures unchanged { Unchanged K.rows K.clean K.sound K.keyed K.shielded keep.old keep.new }
    ensures ok { K.clean keep.new → K.sound keep.old → IfOk result (λ reply. reply
        ≡ answer_to org.now ws.now (answered answer (workspace_in (K.rows keep.old org.now) ws.now))) }
{
    match answer {
        Answer::Done => Ok(Reply::empty()),
        Answer::NoState => Ok(Reply::no_content()),
        Answer::State(n) => match keep.text(alloc, org, ws, n)? {
            Some(text) => Ok(Reply::document(text)),
            None => Ok(Reply::no_content()),
        },
        Answer::Workspace(shown) => workspace_reply(alloc, ws, shown),
        Answer::Run(run) => run_reply(alloc, &run),
        Answer::Versions(after) => list_versions(alloc, keep, org, ws, after),
        Answer::Runs(after) => list_runs(alloc, keep, org, ws, after),
    }
}

fn list_versions<K: Keep>(
    alloc: Global,
    keep: &mut K,
    org: &OrgName,
    ws: &WsName,
    after: u64,
) -> Result<Reply, Down>
    ensures unchanged { Unchanged K.rows K.clean K.sound K.keyed K.shielded keep.old keep.new }
    ensures ok { K.clean keep.new → K.sound keep.old → IfOk result (λ reply. reply
        ≡ answer_to org.now ws.now (answered (ListedVersions after) (workspace_in (K.rows keep.old org.now) ws.now))) }
{
    let list = keep.versions(alloc, org, ws, after)?;
    Ok(Reply::document(Bytes::new(write_version_list(alloc, &list)?)))
}

fn list_runs<K: Keep>(
    alloc: Global,
    keep: &mut K,
    org: &OrgName,
    ws: &WsName,
    after: u64,
) -> Result<Reply, Down>
    ensures unchanged { Unchanged K.rows K.clean K.sound K.keyed K.shielded keep.old keep.new }
    ensures ok { K.clean keep.new → K.sound keep.old → IfOk result (λ reply. reply
        ≡ answer_to org.now ws.now (answered (ListedRuns after) (workspace_in (K.rows keep.old org.now) ws.now))) }
{
    let list = keep.runs(alloc, org, ws, after)?;
    Ok(Reply::document(Bytes::new(write_run_list(alloc, &list)?)))
}

fn name_in(after: &Option<WsName>) -> Option<&WsName>
    ensures { option_copied result ≡ after.now }
{
    match after {
        Some(name) => Some(name),
        None => None,
    }
}

/// The list of an organization's workspaces that a prefix admits.
fn list_workspaces<K: Keep>(
    alloc: Global,
    keep: &mut K,
    org: &OrgName,
    after: &Option<WsName>,
    prefix: &WsPrefix,
) -> Result<Reply, Down>
    ensures unchanged { Unchanged K.rows K.clean K.sound K.keyed K.shielded keep.old keep.new }
    ensures ok { K.clean keep.new → K.sound keep.old → IfOk result (λ reply. (at : ℕ)
        → Foresees (K.rows keep.old org.now) org.now (carried org.now at (K.rows keep.old org.now) (Ok (ListAll after.now prefix.now))) reply None) }
{
    let list = keep.workspaces(alloc, org, name_in(after), prefix)?;
    Ok(Reply::document(Bytes::new(write_ws_list(alloc, &list)?)))
}

/// What the checks have left to do: a list, or the rules on an act.
fn perform<K: Keep>(
    alloc: Global,
    keep: &mut K,
    at: Moment,
    org: &OrgName,
    task: Task,
) -> Result<(Reply, Option<WsChange>, Trace), Down>
    ensures unchanged { Unchanged K.rows K.clean K.sound K.keyed K.shielded keep.old keep.new }
    ensures ok { K.clean keep.new → K.sound keep.old → IfOk result (λ p. IsSome (K.rows keep.old org.now) → IsTaskInRange task
        → Foresees (K.rows keep.old org.now) org.now (carried org.now at (K.rows keep.old org.now) (Ok task)) p.0 p.1) }
    ensures traces { K.clean keep.new → K.sound keep.old → IfOk result (λ p. IsSome (K.rows keep.old org.now) → p.2 ≡ traced at (K.rows keep.old org.now) (Ok task)) }
{
    match task {
        Task::ListAll { after, prefix } => {
            let reply = list_workspaces(alloc, keep, org, &after, &prefix)?;
            Ok((reply, None, Trace::none()))
        }
        Task::Carry { ws, act } => rule(alloc, keep, at, org, ws, &act),
    }
}

/// What a decision is answered, and its change.
fn answer_decision<K: Keep>(
    alloc: Global,
    keep: &mut K,
    org: &OrgName,
    ws: WsName,
    unit: &Unit,
    decision: Decision,
) -> Result<(Reply, Option<WsChange>), Down>
    ensures unchanged { Unchanged K.rows K.clean K.sound K.keyed K.shielded keep.old keep.new }
    ensures ok { K.clean keep.new → K.sound keep.old → IfOk result (λ p. IsSome (K.rows keep.old org.now)
        → holder_in unit.now ≡ holder_of (workspace_in (K.rows keep.old org.now) ws)
        → ((o : Organization) → K.rows keep.old org.now ≡ Some o → ChangeIsDue (seen_in o ws) decision)
        → Foresees (K.rows keep.old org.now) org.now
        (ruled_in org.now ws (K.rows keep.old org.now)
        (meaning decision (workspace_in (K.rows keep.old org.now) ws))) p.0 p.1) }
{
    match decision {
        Decision::Refused(refusal) => {
            let reply = refused_reply(alloc, org, &ws, unit, refusal)?;
            Ok((reply, None))
        }
        Decision::Accepted { answer, change } => {
            let reply = accepted_reply(alloc, keep, org, &ws, answer)?;
            let Some(change) = change else {
                return Ok((reply, None));
            };
            let org = org.clone()?;
            Ok((reply, Some(WsChange { org, ws, change })))
        }
    }
}

/// The rules on an act: what is seen of the workspace, the decision, and what is answered.
fn rule<K: Keep>(
    alloc: Global,
    keep: &mut K,
    at: Moment,
    org: &OrgName,
    ws: WsName,
    act: &Act,
) -> Result<(Reply, Option<WsChange>, Trace), Down>
    ensures unchanged { Unchanged K.rows K.clean K.sound K.keyed K.shielded keep.old keep.new }
    ensures ok { K.clean keep.new → K.sound keep.old → IfOk result (λ p. IsSome (K.rows keep.old org.now) → IsInRange act.now
        → Foresees (K.rows keep.old org.now) org.now (carried org.now at (K.rows keep.old org.now) (Ok (Carry ws act.now))) p.0 p.1) }
    ensures traces { K.clean keep.new → K.sound keep.old → IfOk result (λ p. IsSome (K.rows keep.old org.now) → p.2 ≡ traced at (K.rows keep.old org.now) (Ok (Carry ws act.now))) }
{
    keep.records_are_lawful();
    prove!(at.seconds() <= MAX_MOMENT);
    let unit = keep.unit(alloc, org, &ws, act)?;
    let decision = decide(&unit, act, at)?;
    let trace = trace_by(&unit, &decision);
    match answer_decision(alloc, keep, org, ws, &unit, decision) {
        Ok((reply, change)) => Ok((reply, change, trace)),
        Err(down) => Err(down),
    }
}
