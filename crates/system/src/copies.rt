//! An organization is copied from one database to another, or compared in both.
ghost use Rattle.std.specs.Prelude.{◌≡◌, ◌≢◌, ℕ, List, IfOk, OnErr};
ghost use Rattle.machine.specs.StoreCalls.{Unchanged, LastsWhere};
ghost use Rattle.program.specs.Moves.{AnswersTask, SaysSame};

use basis::{Down, OrgName};
use machine::{AdminAnswer, Keep};
use pages::PageKey;
use program::environment::CopyTask;
use sqlite::Alter;
use std::alloc::Global;
use tables::SqlKeep;

/// Compares an organization in two stores.
fn compare_between<S: Alter, K: PageKey>(
    alloc: Global,
    org: &OrgName,
    from: &mut SqlKeep<S, K>,
    to: &mut SqlKeep<S, K>,
) -> Result<AdminAnswer, Down>
    ensures source { Unchanged ⟦<SqlKeep<S, K> as Keep>⟧.rows ⟦<SqlKeep<S, K> as Keep>⟧.clean ⟦<SqlKeep<S, K> as Keep>⟧.sound ⟦<SqlKeep<S, K> as Keep>⟧.keyed ⟦<SqlKeep<S, K> as Keep>⟧.shielded from.old from.new }
    ensures target { Unchanged ⟦<SqlKeep<S, K> as Keep>⟧.rows ⟦<SqlKeep<S, K> as Keep>⟧.clean ⟦<SqlKeep<S, K> as Keep>⟧.sound ⟦<SqlKeep<S, K> as Keep>⟧.keyed ⟦<SqlKeep<S, K> as Keep>⟧.shielded to.old to.new }
    ensures same { ⟦<SqlKeep<S, K> as Keep>⟧.clean to.new → ⟦<SqlKeep<S, K> as Keep>⟧.sound to.old → ⟦<SqlKeep<S, K> as Keep>⟧.clean from.new → ⟦<SqlKeep<S, K> as Keep>⟧.sound from.old
        → IfOk result (λ answer. SaysSame answer (⟦<SqlKeep<S, K> as Keep>⟧.rows from.old org.now) (⟦<SqlKeep<S, K> as Keep>⟧.rows to.old org.now)) }
{
    match from.is_same_in(alloc, org, to) {
        Ok(true) => Ok(AdminAnswer::Done),
        Ok(false) => Ok(AdminAnswer::Exists),
        Err(down) => Err(down),
    }
}

/// Copies an organization from one store to another, in one transaction of the target, or compares it in both.
pub fn copy_between<S: Alter, K: PageKey>(
    alloc: Global,
    task: CopyTask,
    org: &OrgName,
    from: &mut SqlKeep<S, K>,
    to: &mut SqlKeep<S, K>,
) -> Result<AdminAnswer, Down>
    ensures source { Unchanged ⟦<SqlKeep<S, K> as Keep>⟧.rows ⟦<SqlKeep<S, K> as Keep>⟧.clean ⟦<SqlKeep<S, K> as Keep>⟧.sound ⟦<SqlKeep<S, K> as Keep>⟧.keyed ⟦<SqlKeep<S, K> as Keep>⟧.shielded from.old from.new }
    ensures lasts { LastsWhere (⟦<SqlKeep<S, K> as Keep>⟧.clean from.new × ⟦<SqlKeep<S, K> as Keep>⟧.sound from.old) ⟦<SqlKeep<S, K> as Keep>⟧.clean ⟦<SqlKeep<S, K> as Keep>⟧.sound ⟦<SqlKeep<S, K> as Keep>⟧.keyed ⟦<SqlKeep<S, K> as Keep>⟧.shielded to.old to.new }
    ensures own { ⟦<SqlKeep<S, K> as Keep>⟧.clean to.new → ⟦<SqlKeep<S, K> as Keep>⟧.sound to.old → ⟦<SqlKeep<S, K> as Keep>⟧.clean from.new → ⟦<SqlKeep<S, K> as Keep>⟧.sound from.old
        → IfOk result (λ answer. AnswersTask task answer (⟦<SqlKeep<S, K> as Keep>⟧.rows from.old org.now) (⟦<SqlKeep<S, K> as Keep>⟧.rows to.old org.now) (⟦<SqlKeep<S, K> as Keep>⟧.rows to.new org.now)) }
    ensures others { ⟦<SqlKeep<S, K> as Keep>⟧.clean to.new → ⟦<SqlKeep<S, K> as Keep>⟧.sound to.old → ⟦<SqlKeep<S, K> as Keep>⟧.clean from.new → ⟦<SqlKeep<S, K> as Keep>⟧.sound from.old
        → (o : List ℕ) → o ≢ org.now → ⟦<SqlKeep<S, K> as Keep>⟧.rows to.new o ≡ ⟦<SqlKeep<S, K> as Keep>⟧.rows to.old o }
    ensures err { ⟦<SqlKeep<S, K> as Keep>⟧.clean to.new → OnErr result ((o : List ℕ) → ⟦<SqlKeep<S, K> as Keep>⟧.rows to.new o ≡ ⟦<SqlKeep<S, K> as Keep>⟧.rows to.old o) }
{
    match task {
        CopyTask::Make => to.copy_from(alloc, org, from),
        CopyTask::Compare => compare_between(alloc, org, from, to),
    }
}
