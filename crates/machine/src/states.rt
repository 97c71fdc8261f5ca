//! Decisions on states: who may write, which state may follow another, and what a read returns.
ghost use Rattle.std.specs.Prelude.{◌≡◌, Some, IfOk};
ghost use Rattle.machine.specs.Inner.Decisions.{decided_update, decided_after, decided_version, decided_read, decided_purge, decided_version_read};
ghost use Rattle.machine.specs.Writing.{may_write, is_applying};
ghost use Rattle.machine.specs.Succession.{lineages_differ};
ghost use Rattle.basis.specs.declared.rows.Holder.TheVariants.{Run as HoldingRun};

use crate::acts::{Answer, Decision, Edit, Newest, WorkspaceUnit};
use crate::outcomes::{accept, accept_again, answer_only};
use crate::records::Version;
use crate::texts::StateText;
use basis::{Down, Holder, LockId, Moment, Number, Refusal, RunStatus, StateHead, Text, is_run_id};

fn is_applying(status: Option<RunStatus>) -> bool
    ensures { result ≡ is_applying status }
{
    matches!(status, Some(RunStatus::Applying))
}

// Why a write is refused, or `None` if it is allowed.
fn may_write(holder: &Holder, status: Option<RunStatus>, id: &Option<LockId>) -> Option<Refusal>
    ensures { result ≡ may_write holder.now status id.now }
{
    match holder {
        Holder::Nobody => match id {
            None => None,
            Some(_) => Some(Refusal::NotHeld),
        },
        Holder::Lock { id: held, .. } => match id {
            None => Some(Refusal::Locked),
            Some(id) => {
                if id.as_str() == held.as_str() {
                    None
                } else {
                    Some(Refusal::Locked)
                }
            }
        },
        Holder::Run(n) => match id {
            None => Some(Refusal::Locked),
            Some(id) => may_write_of_run(*n, status, id),
        },
    }
}

fn may_write_of_run(n: Number, status: Option<RunStatus>, id: &LockId) -> Option<Refusal>
    ensures { result ≡ may_write (HoldingRun n) status (Some id.now) }
{
    if !is_run_id(n, id.as_str()) {
        Some(Refusal::Locked)
    } else if is_applying(status) {
        None
    } else {
        Some(Refusal::NotApplying)
    }
}

fn lineages_differ(a: &Text, b: &Text) -> bool
    ensures { result ≡ lineages_differ a.now b.now }
{
    a.as_str().len() > 0 && b.as_str().len() > 0 && a.as_str() != b.as_str()
}

fn decide_version(
    unit: &WorkspaceUnit,
    head: &StateHead,
    text: &StateText,
    now: Moment,
) -> Result<Decision, Down>
    ensures { IfOk result (λ decision. decision ≡ decided_version unit.now head.now text.now now) }
{
    let Some(number) = Number::new(unit.next_version) else {
        return Ok(Decision::Refused(Refusal::OverLimit));
    };
    let version = Version {
        number,
        serial: head.serial,
        lineage: head.lineage.clone()?,
        created: now,
        text: text.clone()?,
    };
    let outgoing = unit.outgoing;
    Ok(accept(Answer::Done, Edit::AddVersion { version, outgoing }, None))
}

fn decide_after(
    unit: &WorkspaceUnit,
    head: &StateHead,
    text: &StateText,
    now: Moment,
) -> Result<Decision, Down>
    ensures { IfOk result (λ decision. decision ≡ decided_after unit.now.newest unit.now head.now text.now now) }
{
    let Some(newest) = &unit.newest else {
        return decide_version(unit, head, text, now);
    };
    if newest.is_same {
        return Ok(accept_again());
    }
    if lineages_differ(&newest.lineage, &head.lineage) {
        return Ok(Decision::Refused(Refusal::OtherLineage));
    }
    if newest.serial.get() < head.serial.get() {
        decide_version(unit, head, text, now)
    } else {
        Ok(Decision::Refused(Refusal::OldSerial))
    }
}

pub(crate) fn decide_update(
    unit: &WorkspaceUnit,
    head: &StateHead,
    text: &StateText,
    id: &Option<LockId>,
    now: Moment,
) -> Result<Decision, Down>
    ensures { IfOk result (λ decision. decision
        ≡ decided_update (may_write unit.now.holder unit.now.holder_status id.now) unit.now head.now text.now now) }
{
    match may_write(&unit.holder, unit.holder_status, id) {
        Some(refusal) => Ok(Decision::Refused(refusal)),
        None => decide_after(unit, head, text, now),
    }
}

pub(crate) fn decide_read(newest: &Option<Newest>) -> Decision
    ensures { result ≡ decided_read newest.now }
{
    let answer = match newest {
        None => Answer::NoState,
        Some(newest) => Answer::State(newest.number),
    };
    Decision::Accepted {
        answer,
        change: None,
    }
}

pub(crate) fn decide_purge(unit: &WorkspaceUnit, id: &Option<LockId>) -> Decision
    ensures { result ≡ decided_purge (may_write unit.now.holder unit.now.holder_status id.now) unit.now }
{
    let refused = may_write(&unit.holder, unit.holder_status, id);
    match refused {
        Some(refusal) => Decision::Refused(refusal),
        None => accept(Answer::Done, Edit::Purge, None),
    }
}

pub(crate) fn decide_read_version(has_version: bool, n: Number) -> Decision
    ensures { result ≡ decided_version_read has_version n }
{
    if has_version {
        answer_only(Answer::State(n))
    } else {
        Decision::Refused(Refusal::NotFound)
    }
}
