//! Decisions on locks: LOCK, UNLOCK, and a forced UNLOCK.
ghost use Rattle.std.specs.Prelude.{◌≡◌, None, IfOk, cond};
ghost use Rattle.machine.specs.Inner.Decisions.{decided_lock, decided_unlock, decided_force, changing};
ghost use Rattle.machine.specs.Rules.{is_released};
ghost use Rattle.machine.specs.declared.acts.Answer.TheVariants.{Done};
ghost use Rattle.machine.specs.declared.acts.Edit.TheVariants.{Release};
ghost use Rattle.machine.specs.declared.acts.Decision.TheVariants.{Accepted, Refused};

use crate::acts::{Answer, Decision, Edit, WorkspaceUnit};
use crate::outcomes::{accept, accept_again};
use basis::{Bytes, Down, Holder, LockId, Refusal};

pub(crate) fn decide_lock(holder: &Holder, id: &LockId, text: &Bytes) -> Result<Decision, Down>
    ensures { IfOk result (λ decision. decision ≡ decided_lock holder.now id.now text.now) }
{
    match holder {
        Holder::Nobody => {
            let id = id.clone()?;
            let text = text.clone()?;
            Ok(accept(Answer::Done, Edit::Hold { id, text }, None))
        }
        Holder::Lock { id: held, .. } => {
            let is_repeated = id.as_str() == held.as_str();
            if is_repeated {
                Ok(accept_again())
            } else {
                Ok(Decision::Refused(Refusal::Locked))
            }
        }
        Holder::Run(_) => Ok(Decision::Refused(Refusal::Locked)),
    }
}

fn is_released(released: &Option<LockId>, id: &LockId) -> bool
    ensures { result ≡ is_released released.now id.now }
{
    match released {
        None => false,
        Some(last) => last.as_str() == id.as_str(),
    }
}

// Releases the lock with this ID, and starts the first waiting run.
fn release(unit: &WorkspaceUnit, held: &LockId) -> Result<Decision, Down>
    ensures { IfOk result (λ decision. decision ≡ changing Done (Release held.now) unit.now.first_waiting) }
{
    let edit = Edit::Release(held.clone()?);
    Ok(accept(Answer::Done, edit, unit.first_waiting))
}

// The ID is not the holder's. If it is the one released last, the act was done before.
fn decide_again(unit: &WorkspaceUnit, id: &LockId, refusal: Refusal) -> Decision
    ensures { result ≡ cond (is_released unit.now.released id.now) (Accepted Done None) (Refused refusal) }
{
    if is_released(&unit.released, id) {
        accept_again()
    } else {
        Decision::Refused(refusal)
    }
}

pub(crate) fn decide_unlock(unit: &WorkspaceUnit, id: &LockId) -> Result<Decision, Down>
    ensures { IfOk result (λ decision. decision ≡ decided_unlock unit.now.holder unit.now id.now) }
{
    match &unit.holder {
        Holder::Nobody => Ok(accept_again()),
        Holder::Lock { id: held, .. } => {
            let releases = id.as_str() == held.as_str();
            if releases {
                release(unit, held)
            } else {
                Ok(decide_again(unit, id, Refusal::Locked))
            }
        }
        Holder::Run(_) => Ok(decide_again(unit, id, Refusal::HeldByRun)),
    }
}

pub(crate) fn decide_force(unit: &WorkspaceUnit) -> Result<Decision, Down>
    ensures { IfOk result (λ decision. decision ≡ decided_force unit.now.holder unit.now) }
{
    match &unit.holder {
        Holder::Nobody => Ok(accept_again()),
        Holder::Lock { id: held, .. } => release(unit, held),
        Holder::Run(_) => Ok(Decision::Refused(Refusal::HeldByRun)),
    }
}
