//! The checks of a request from the token on, each by itself.
ghost use Rattle.std.specs.Prelude.{◌≡◌, ◌≢◌, [], cond, IsSome, Some, IfOk, Ok, option_copied};
ghost use Rattle.basis.specs.Inner.Checks.{Follows};
ghost use Rattle.basis.specs.declared.refusals.Refusal.TheVariants.{BadBody, BadLock, BadState, NotFound, Unavailable};
ghost use Rattle.docs.specs.Documents.{settings_of, state_head, lock_id_of, run_ask};
ghost use Rattle.machine.specs.StoreCalls.{Unchanged};
ghost use Rattle.machine.specs.Needs.{needed_of};
ghost use Rattle.machine.specs.Records.{workspace_in};
ghost use Rattle.machine.specs.Units.{unit_of};
ghost use Rattle.machine.specs.declared.acts.Act.TheVariants.{Query as QueryAct, PutWorkspace, UpdateState, PurgeState, Lock, Unlock, MakeRun};
ghost use Rattle.machine.specs.declared.records.Organization.{Organization};
ghost use Rattle.serve.specs.Checks.{require, in_reach, makes, named_by, is_there, is_found, digest_checked, spelt, act_of, id_of_act, task_of};
ghost use Rattle.serve.specs.Logs.{id_of_task};
ghost use Rattle.serve.specs.Inner.Prepared.{valid_token, row_known};
ghost use Rattle.route.specs.declared.routes.AskedAct.TheVariants.{OfWorkspace};
ghost use Rattle.serve.specs.declared.checks.Task.TheVariants.{ListAll};
ghost use Rattle.serve.specs.Inner.Judging.{judged_task, missed};
ghost use Rattle.serve.specs.Inner.Units.{if_named, sees_named, is_present};

use basis::{
    Bytes, Down, LockId, Moment, Number, OrgName, Query, Refusal, StateHead, WsAct, WsName,
    WsPrefix,
};
use docs::{DocFault, digest_fits, read_lock, read_run, read_settings, read_state};
use machine::{Act, Keep, Needs, StateText, TokenRow, Unit, WorkspaceUnit};
use route::{Asked, AskedAct, secret_digest};
use std::alloc::{AllocError, Global};

/// What is asked, with its document read: to list the organization's workspaces after a name, of those that a prefix
/// admits, or an act on a workspace.
#[derive(Drop)]
pub enum Task {
    ListAll {
        after: Option<WsName>,
        prefix: WsPrefix,
    },
    Carry {
        ws: WsName,
        act: Act,
    },
}

// A token that counts at this moment. One that has ended is as if it weren't there.
fn valid_token(row: TokenRow, at: Moment) -> Result<TokenRow, Refusal>
    ensures { result ≡ valid_token at row }
{
    if row.caller.is_valid_at(at) {
        Ok(row)
    } else {
        Err(Refusal::BadToken)
    }
}

/// The token that asks, and who asks by it: it counts at this moment.
pub fn known_caller<K: Keep>(
    alloc: Global,
    keep: &mut K,
    at: Moment,
    asked: &Asked,
) -> Result<TokenRow, Refusal>
    ensures unchanged { Unchanged K.rows K.clean K.sound K.keyed K.shielded keep.old keep.new }
    ensures ok { K.clean keep.new → K.sound keep.old → Follows result (row_known (K.rows keep.old asked.now.caller) at asked.now) }
{
    let secret = secret_digest(&asked.secret);
    match keep.caller(alloc, &asked.caller, &secret) {
        Ok(Some(row)) => valid_token(row, at),
        Ok(None) => Err(Refusal::BadToken),
        Err(Down) => Err(Refusal::Unavailable),
    }
}

/// Whether what is asked is in the caller's reach. If not, it is reported as absent.
pub fn in_reach(asked: &Asked) -> Result<(), Refusal>
    ensures { result ≡ in_reach asked.now }
{
    let is_own = asked.org.as_str() == asked.caller.as_str();
    require(is_own, Refusal::NotFound)
}

fn require(holds: bool, refusal: Refusal) -> Result<(), Refusal>
    ensures { result ≡ require refusal holds }
{
    if holds { Ok(()) } else { Err(refusal) }
}

fn makes(act: WsAct) -> bool
    ensures { result ≡ makes act }
{
    match act {
        WsAct::Put => true,
        WsAct::Query(_) | WsAct::Delete => false,
        WsAct::UpdateState | WsAct::PurgeState => false,
        WsAct::Lock | WsAct::Unlock | WsAct::ForceUnlock => false,
        WsAct::MakeRun | WsAct::ReportRun(_, _) => false,
    }
}

// The query that reports what an act names.
fn named_by(act: WsAct) -> Query
    ensures { result ≡ named_by act }
{
    match act {
        WsAct::Query(query) => query,
        WsAct::ReportRun(number, _) => Query::Run(number),
        WsAct::Put | WsAct::Delete | WsAct::MakeRun => Query::Workspace,
        WsAct::UpdateState | WsAct::PurgeState => Query::Workspace,
        WsAct::Lock | WsAct::Unlock | WsAct::ForceUnlock => Query::Workspace,
    }
}

// Whether the named number exists, if a number is named.
fn if_named(named: Option<Number>, is_there: bool) -> bool
    ensures { result ≡ if_named named is_there }
{
    match named {
        None => true,
        Some(_) => is_there,
    }
}

// Whether what is named was seen, given that the workspace exists.
fn sees_named(needs: &Needs<'_>, unit: &WorkspaceUnit) -> bool
    ensures { result ≡ sees_named (needed_of needs.now) unit.now }
{
    if_named(needs.version, unit.has_version) && if_named(needs.run, unit.asked_run.is_some())
}

fn is_present(unit: &Unit, act: &WsAct) -> bool
    ensures { result ≡ is_present (named_by act.now) unit.now }
{
    match unit {
        Unit::Absent { .. } => false,
        Unit::Present(unit) => {
            let query = named_query(*act);
            sees_named(&query.needs(), unit)
        }
    }
}

// The query that reports what an act names, as an act.
fn named_query(act: WsAct) -> Act
    ensures { result ≡ QueryAct (named_by act) }
{
    let query = named_by(act);
    Act::Query(query)
}

// What is seen of it.
fn query<K: Keep>(
    alloc: Global,
    keep: &mut K,
    org: &OrgName,
    ws: &WsName,
    act: WsAct,
) -> Result<Unit, Down>
    ensures unchanged { Unchanged K.rows K.clean K.sound K.keyed K.shielded keep.old keep.new }
    ensures ok { K.clean keep.new → K.sound keep.old → IfOk result (λ unit. (o : Organization) → K.rows keep.old org.now ≡ Some o
        → unit ≡ unit_of o ws.now (QueryAct (named_by act))) }
{
    let query = named_query(act);
    keep.unit(alloc, org, ws, &query)
}

// Whether what an act names exists.
fn is_there<K: Keep>(
    alloc: Global,
    keep: &mut K,
    org: &OrgName,
    ws: &WsName,
    act: WsAct,
) -> Result<bool, Down>
    ensures unchanged { Unchanged K.rows K.clean K.sound K.keyed K.shielded keep.old keep.new }
    ensures ok { K.clean keep.new → K.sound keep.old → IsSome (K.rows keep.old org.now)
        → IfOk result (λ there. there ≡ is_there act (workspace_in (K.rows keep.old org.now) ws.now)) }
{
    let unit = query(alloc, keep, org, ws, act)?;
    Ok(is_present(&unit, &act))
}

// Whether what an act names exists, or is to be created.
fn is_found<K: Keep>(
    alloc: Global,
    keep: &mut K,
    org: &OrgName,
    ws: &WsName,
    act: WsAct,
) -> Result<bool, Down>
    ensures unchanged { Unchanged K.rows K.clean K.sound K.keyed K.shielded keep.old keep.new }
    ensures ok { K.clean keep.new → K.sound keep.old → IsSome (K.rows keep.old org.now)
        → IfOk result (λ found. found ≡ is_found (K.rows keep.old org.now) ws.now act) }
{
    let there = is_there(alloc, keep, org, ws, act)?;
    Ok(makes(act) || there)
}

// The first refusal: `not-found` if what is asked for is absent, otherwise the given one.
fn missed_by(is_found: bool, refusal: Refusal) -> Refusal
    ensures { result ≡ cond is_found refusal NotFound }
{
    if is_found { refusal } else { Refusal::NotFound }
}

/// The refusal of a request whose digest or document was refused: if what it names is absent, that comes
/// first. `Unavailable` if an allocation fails.
pub fn missed<K: Keep>(
    alloc: Global,
    keep: &mut K,
    org: &OrgName,
    asked: &AskedAct,
    refusal: Refusal,
) -> Refusal
    ensures unchanged { Unchanged K.rows K.clean K.sound K.keyed K.shielded keep.old keep.new }
    ensures known { result ≢ Unavailable → refusal ≢ Unavailable }
    ensures ok { K.clean keep.new → K.sound keep.old → IsSome (K.rows keep.old org.now)
        → result ≢ Unavailable → result ≡ missed (K.rows keep.old org.now) asked.now refusal }
{
    match refusal {
        Refusal::Unavailable => return Refusal::Unavailable,
        _ => {}
    }
    match asked {
        AskedAct::ListWorkspaces { .. } => refusal,
        AskedAct::OfWorkspace(ws, act) => match is_found(alloc, keep, org, ws, *act) {
            Ok(is_found) => missed_by(is_found, refusal),
            Err(Down) => Refusal::Unavailable,
        },
    }
}

/// Whether Content-MD5, if it is sent, is the MD5 of the body (RFC 1864).
pub fn digest_checked(content_md5: &Option<Bytes>, body: &Bytes) -> Result<(), Refusal>
    ensures { result ≡ digest_checked content_md5.now body.now }
{
    match content_md5 {
        None => Ok(()),
        Some(field) => {
            let fits = digest_fits(field.as_slice(), body.as_slice());
            require(fits, Refusal::BadDigest)
        }
    }
}

fn read_put(alloc: Global, body: &Bytes) -> Result<Act, Refusal>
    ensures { Follows result (spelt BadBody PutWorkspace (settings_of body.now)) }
{
    match read_settings(alloc, body.as_slice()) {
        Ok(ask) => Ok(Act::PutWorkspace(ask)),
        Err(DocFault::Bad) => Err(Refusal::BadBody),
        Err(DocFault::Down) => Err(Refusal::Unavailable),
    }
}

// The update with this state, whose head was read. Its text is not copied.
fn update_of(
    alloc: Global,
    head: StateHead,
    lock_id: &Option<LockId>,
    body: Bytes,
) -> Result<Act, Refusal>
    ensures { Follows result (Ok (UpdateState head body lock_id.now)) }
{
    let Ok(lock_id) = lock_id.clone() else {
        return Err(Refusal::Unavailable);
    };
    match StateText::new(alloc, body) {
        Ok(text) => Ok(Act::UpdateState {
            head,
            text,
            lock_id,
        }),
        Err(_) => Err(Refusal::Unavailable),
    }
}

fn read_update(alloc: Global, lock_id: &Option<LockId>, body: Bytes) -> Result<Act, Refusal>
    ensures { Follows result (spelt BadState (λ head. UpdateState head body lock_id.now) (state_head body)) }
{
    match read_state(alloc, body.as_slice()) {
        Ok(head) => update_of(alloc, head, lock_id, body),
        Err(DocFault::Bad) => Err(Refusal::BadState),
        Err(DocFault::Down) => Err(Refusal::Unavailable),
    }
}

fn read_purge(lock_id: &Option<LockId>) -> Result<Act, Refusal>
    ensures { Follows result (Ok (PurgeState lock_id.now)) }
{
    match lock_id.clone() {
        Ok(lock_id) => Ok(Act::PurgeState { lock_id }),
        Err(_) => Err(Refusal::Unavailable),
    }
}

fn read_locking(alloc: Global, body: Bytes) -> Result<Act, Refusal>
    ensures { Follows result (spelt BadLock (λ held. Lock held body) (lock_id_of body)) }
{
    match read_lock(alloc, body.as_slice()) {
        Ok(id) => Ok(Act::Lock { id, text: body }),
        Err(DocFault::Bad) => Err(Refusal::BadLock),
        Err(DocFault::Down) => Err(Refusal::Unavailable),
    }
}

fn read_unlocking(alloc: Global, body: &Bytes) -> Result<Act, Refusal>
    ensures { Follows result (spelt BadLock Unlock (lock_id_of body.now)) }
{
    match read_lock(alloc, body.as_slice()) {
        Ok(id) => Ok(Act::Unlock(id)),
        Err(DocFault::Bad) => Err(Refusal::BadLock),
        Err(DocFault::Down) => Err(Refusal::Unavailable),
    }
}

fn read_making(alloc: Global, body: &Bytes) -> Result<Act, Refusal>
    ensures { Follows result (spelt BadBody MakeRun (run_ask body.now)) }
{
    match read_run(alloc, body.as_slice()) {
        Ok(ask) => Ok(Act::MakeRun(ask)),
        Err(DocFault::Bad) => Err(Refusal::BadBody),
        Err(DocFault::Down) => Err(Refusal::Unavailable),
    }
}

/// The act that the body's document spells, or why it spells none.
fn act_of(alloc: Global, act: WsAct, lock_id: &Option<LockId>, body: Bytes) -> Result<Act, Refusal>
    ensures { Follows result (act_of act lock_id.now body) }
{
    match act {
        WsAct::Query(query) => Ok(Act::Query(query)),
        WsAct::Put => read_put(alloc, &body),
        WsAct::UpdateState => read_update(alloc, lock_id, body),
        WsAct::PurgeState => read_purge(lock_id),
        WsAct::Lock => read_locking(alloc, body),
        WsAct::Unlock => read_unlocking(alloc, &body),
        WsAct::ForceUnlock => Ok(Act::ForceUnlock),
        WsAct::Delete => Ok(Act::DeleteWorkspace),
        WsAct::MakeRun => read_making(alloc, &body),
        WsAct::ReportRun(number, action) => Ok(Act::ReportRun(number, action)),
    }
}

fn id_of_act(act: &Act) -> Option<&LockId>
    ensures { option_copied result ≡ id_of_act act.now }
{
    match act {
        Act::Lock { id, .. } => Some(id),
        Act::Unlock(id) => Some(id),
        Act::Query(_) | Act::PutWorkspace(_) | Act::DeleteWorkspace => None,
        Act::UpdateState { .. } | Act::PurgeState { .. } => None,
        Act::ForceUnlock | Act::MakeRun(_) | Act::ReportRun(_, _) => None,
    }
}

/// The lock's ID that the document of what is to be done has.
pub fn spelt_id(task: &Task) -> Result<Option<LockId>, AllocError>
    ensures { IfOk result (λ id. id ≡ id_of_task task.now) }
{
    match task {
        Task::ListAll { .. } => Ok(None),
        Task::Carry { act, .. } => match id_of_act(act) {
            Some(id) => Ok(Some(id.clone()?)),
            None => Ok(None),
        },
    }
}

fn list_after(after: &Option<WsName>, prefix: &WsPrefix) -> Result<Task, Refusal>
    ensures { Follows result (Ok (ListAll after.now prefix.now)) }
{
    let Ok(prefix) = prefix.clone() else {
        return Err(Refusal::Unavailable);
    };
    match after.clone() {
        Ok(after) => Ok(Task::ListAll { after, prefix }),
        Err(_) => Err(Refusal::Unavailable),
    }
}

fn task_at(
    alloc: Global,
    ws: &WsName,
    act: WsAct,
    lock_id: &Option<LockId>,
    body: Bytes,
) -> Result<Task, Refusal>
    ensures { Follows result (task_of [] (OfWorkspace ws.now act) lock_id.now body) }
{
    let act = act_of(alloc, act, lock_id, body)?;
    match ws.clone() {
        Ok(ws) => Ok(Task::Carry { ws, act }),
        Err(_) => Err(Refusal::Unavailable),
    }
}

/// What is to be done if what is named exists: checks the digest, then the document. A list is of the
/// workspaces that the prefix admits.
pub fn judged(
    alloc: Global,
    prefix: &WsPrefix,
    asked: &AskedAct,
    content_md5: &Option<Bytes>,
    lock_id: &Option<LockId>,
    body: Bytes,
) -> Result<Task, Refusal>
    ensures { Follows result (judged_task prefix.now asked.now content_md5.now lock_id.now body) }
{
    if let Err(refusal) = digest_checked(content_md5, &body) {
        return Err(refusal);
    }
    match asked {
        AskedAct::ListWorkspaces { after } => list_after(after, prefix),
        AskedAct::OfWorkspace(ws, act) => task_at(alloc, ws, *act, lock_id, body),
    }
}
