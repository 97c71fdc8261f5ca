//! Decisions: the outcome of an act, from the few values that it depends on.
ghost use Rattle.std.specs.Prelude.{◌≡◌, ℕ, List, IfOk};
ghost use Rattle.machine.specs.Units.{unit_of};
ghost use Rattle.machine.specs.Records.{seen_in};
ghost use Rattle.machine.specs.Laws.{IsLawfulOrganization};
ghost use Rattle.machine.specs.Inner.Decisions.{AsksInRange, decision_of, decision_missing, decided_query};
ghost use Rattle.machine.specs.Meaning.{Meets};
ghost use Rattle.machine.specs.declared.records.Organization.{Organization as AnyOrganization};
ghost use Rattle.machine.specs.declared.acts.Unit.TheVariants.{Present};

use crate::acts::{Act, Answer, Decision, Unit, WorkspaceUnit};
use crate::locks::{decide_force, decide_lock, decide_unlock};
use crate::outcomes::answer_only;
use crate::runs::{decide_make, decide_read_run, decide_report};
use crate::states::{decide_purge, decide_read, decide_read_version, decide_update};
use crate::workspaces::{decide_delete, decide_making, decide_put, decide_show};
use basis::{Down, Moment, Query, Refusal};

/// The greatest number of open runs of a workspace.
pub const MAX_OPEN_RUNS: usize = 100;

// The answer to a read-only act: nothing changes.
fn decide_query(unit: &WorkspaceUnit, query: Query) -> Result<Decision, Down>
    ensures { IfOk result (λ decision. decision ≡ decided_query query unit.now) }
{
    match query {
        Query::Workspace => decide_show(unit),
        Query::State => Ok(decide_read(&unit.newest)),
        Query::Version(n) => Ok(decide_read_version(unit.has_version, n)),
        Query::Versions(after) => Ok(answer_only(Answer::Versions(after))),
        Query::Run(_) => decide_read_run(&unit.asked_run),
        Query::Runs(after) => Ok(answer_only(Answer::Runs(after))),
    }
}

fn decide_present(unit: &WorkspaceUnit, act: &Act, now: Moment) -> Result<Decision, Down>
    ensures is { IfOk result (λ decision. decision ≡ decision_of (Present unit.now) act.now now) }
    ensures range { AsksInRange act.now }
{
    match act {
        Act::Query(query) => decide_query(unit, *query),
        Act::PutWorkspace(ask) => decide_put(unit, *ask),
        Act::DeleteWorkspace => Ok(decide_delete(unit)),
        Act::UpdateState {
            head,
            text,
            lock_id,
        } => decide_update(unit, head, text, lock_id, now),
        Act::PurgeState { lock_id } => Ok(decide_purge(unit, lock_id)),
        Act::Lock { id, text } => decide_lock(&unit.holder, id, text),
        Act::Unlock(id) => decide_unlock(unit, id),
        Act::ForceUnlock => decide_force(unit),
        Act::MakeRun(ask) => decide_make(unit, ask, now),
        Act::ReportRun(n, action) => decide_report(unit, *n, *action),
    }
}

fn decide_missing(act: &Act, has_room: bool) -> Decision
    ensures is { result ≡ decision_missing act.now has_room }
    ensures range { AsksInRange act.now }
{
    match act {
        Act::PutWorkspace(ask) => decide_making(*ask, has_room),
        Act::Query(_) => Decision::Refused(Refusal::NotFound),
        Act::DeleteWorkspace => Decision::Refused(Refusal::NotFound),
        Act::UpdateState { .. } => Decision::Refused(Refusal::NotFound),
        Act::PurgeState { .. } => Decision::Refused(Refusal::NotFound),
        Act::Lock { .. } => Decision::Refused(Refusal::NotFound),
        Act::Unlock(_) => Decision::Refused(Refusal::NotFound),
        Act::ForceUnlock => Decision::Refused(Refusal::NotFound),
        Act::MakeRun(_) => Decision::Refused(Refusal::NotFound),
        Act::ReportRun(_, _) => Decision::Refused(Refusal::NotFound),
    }
}

fn decided(unit: &Unit, act: &Act, now: Moment) -> Result<Decision, Down>
    ensures is { IfOk result (λ decision. decision ≡ decision_of unit.now act.now now) }
    ensures range { AsksInRange act.now }
{
    match unit {
        Unit::Absent { workspaces, limit } => {
            let has_room = *workspaces < limit.get() as usize;
            Ok(decide_missing(act, has_room))
        }
        Unit::Present(unit) => decide_present(unit, act, now),
    }
}

/// The outcome of an act at this time, from what it needs of its workspace. In a lawful organization it is
/// the outcome that the rules give.
pub fn decide(unit: &Unit, act: &Act, now: Moment) -> Result<Decision, Down>
    ensures { IfOk result (λ decision. (o : AnyOrganization) (name : List ℕ) → IsLawfulOrganization o → unit.now ≡ unit_of o name act.now
        → Meets (seen_in o name) act.now now decision) }
{
    decided(unit, act, now)
}
