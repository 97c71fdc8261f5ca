//! Copies an organization from one database to another, row by row, inside one transaction of the other.
ghost use Rattle.std.specs.Prelude.{◌≡◌, List, [], ◌∷◌, map, Some, ⊤, OnOk, IfOk};
ghost use Rattle.sqlite.specs.Held.{state};
ghost use Rattle.sqlite.specs.State.{HasCleanDisk};
ghost use Rattle.machine.specs.declared.records.Version.{Version as AnyVersion};
ghost use Rattle.machine.specs.declared.records.Workspace.{Workspace as AnyWorkspace};
ghost use Rattle.statements.specs.Steps.{Steps, Sees};
ghost use Rattle.statements.specs.Tables.{Tables, Holds};
ghost use Rattle.tables.specs.Records.{version_at, workspace_by, workspace_of_cells};
ghost use Rattle.tables.specs.Sound.{IsSound};
ghost use Rattle.tables.specs.Inner.Copies.{RelatedSteps, AreMadeBy, released_rows, held_rows, counted_rows, Carries, with_versions, with_runs, Begins};
ghost use Rattle.tables.specs.Inner.Keys.{KeepsKeys, KeepsPages};

use crate::loading::{LoadedWorkspace, load_workspace};
use crate::steps;
use basis::{Bytes, Holder, KeepCount, LockId, RunRow, VersionRow};
use machine::{StateText, Version};
use pages::PageKey;
use sqlite::{Alter, Connection, Error, Transaction};
use statements::rows::Workspace;
use statements::{runs, workspaces};
use std::alloc::Global;

/// The columns of the next numbers in a workspace's row as it is read.
const NEXT_VERSION_COLUMN: usize = 5;

const NEXT_RUN_COLUMN: usize = 6;

/// Stores the ID released last, for a workspace without a holder.
fn put_released<S: Alter>(
    tx: &mut Transaction<'_, S>,
    org: &str,
    ws: &str,
    released: &Option<LockId>,
) -> Result<(), Error>
    ensures { RelatedSteps S.Store (AreMadeBy (released_rows org.now ws.now released.now)) tx.old tx.new result }
{
    match released {
        None => Ok(()),
        Some(id) => workspaces::release_lock(tx, org, ws, id),
    }
}

/// Sets the holder of a workspace that has none.
fn put_holder<S: Alter>(
    tx: &mut Transaction<'_, S>,
    org: &str,
    ws: &str,
    holder: &Holder,
) -> Result<(), Error>
    ensures { RelatedSteps S.Store (AreMadeBy (held_rows org.now ws.now holder.now)) tx.old tx.new result }
{
    match holder {
        Holder::Nobody => Ok(()),
        _ => workspaces::hold(tx, org, ws, holder),
    }
}

/// Sets the numbers of the next version and the next run.
fn put_counts<S: Alter>(
    tx: &mut Transaction<'_, S>,
    org: &str,
    ws: &str,
    head: &Workspace,
) -> Result<(), Error>
    ensures { Steps S.Store (counted_rows org.now ws.now head.now) tx.old tx.new result }
{
    let Ok(version) = u32::try_from(head.next_version) else {
        return Err(Error::IntegralValueOutOfRange(NEXT_VERSION_COLUMN));
    };
    let Ok(run) = u32::try_from(head.next_run) else {
        return Err(Error::IntegralValueOutOfRange(NEXT_RUN_COLUMN));
    };
    workspaces::set_next_version(tx, org, ws, version)?;
    workspaces::set_next_run(tx, org, ws, run)?;
    Ok(())
}

/// Adds a workspace without its versions and runs. If this succeeds, its name did not exist before.
fn put_head<S: Alter>(
    tx: &mut Transaction<'_, S>,
    org: &str,
    ws: &str,
    head: &Workspace,
    retention: KeepCount,
) -> Result<(), Error>
    ensures begins { RelatedSteps S.Store (Begins org.now ws.now (workspace_of_cells retention head.now [] [])) tx.old tx.new result }
    ensures pages { RelatedSteps S.Store KeepsPages tx.old tx.new result }
{
    workspaces::add(tx, org, ws, head.runs, retention)?;
    put_counts(tx, org, ws, head)?;
    put_released(tx, org, ws, &head.released)?;
    put_holder(tx, org, ws, &head.holder)
}

/// A version with its text.
fn version_of(alloc: Global, head: &VersionRow, text: Bytes) -> Result<Version, Error>
    ensures { IfOk result (λ version. version ≡ record { number = head.now.number; serial = head.now.serial; lineage = head.now.lineage; created = head.now.created; text = text }) }
{
    Ok(Version {
        number: head.number,
        serial: head.serial,
        lineage: head.lineage.clone()?,
        created: head.created,
        text: StateText::new(alloc, text)?,
    })
}

/// Copies a version, whose text is read from the other database.
fn copy_version<T: Alter, K: PageKey, S: Alter>(
    tx: &mut Transaction<'_, S>,
    alloc: Global,
    from: &mut Connection<T>,
    org: &str,
    ws: &str,
    head: &VersionRow,
) -> Result<(), Error>
    ensures unchanged { Sees T.Store (λ _ _. ⊤) from.old from.new result }
    ensures copies { (version : AnyVersion) × RelatedSteps S.Store (Carries org.now ws.now (with_versions (version ∷ []))) tx.old tx.new result
        × (HasCleanDisk (state T.Store from.new) → OnOk result ((f : Tables) → Holds (state T.Store from.old).now f → version ≡ version_at f org.now ws.now head.now)) }
    ensures keyed { RelatedSteps S.Store (KeepsKeys K.key_of) tx.old tx.new result }
{
    let text = texts::text(alloc, from, org, ws, head.number, head.size)?;
    let version = version_of(alloc, head, text)?;
    steps::add::<K, S>(tx, org, ws, &version)
}

/// Copies versions, one after the other.
fn copy_versions<T: Alter, K: PageKey, S: Alter>(
    tx: &mut Transaction<'_, S>,
    alloc: Global,
    from: &mut Connection<T>,
    org: &str,
    ws: &str,
    heads: &[VersionRow],
) -> Result<(), Error>
    ensures unchanged { Sees T.Store (λ _ _. ⊤) from.old from.new result }
    ensures copies { (versions : List AnyVersion) × RelatedSteps S.Store (Carries org.now ws.now (with_versions versions)) tx.old tx.new result
        × (HasCleanDisk (state T.Store from.new) → OnOk result ((f : Tables) → Holds (state T.Store from.old).now f → versions ≡ map (version_at f org.now ws.now) heads.now)) }
    ensures keyed { RelatedSteps S.Store (KeepsKeys K.key_of) tx.old tx.new result }
{
    'versions: for head in heads {
        copy_version::<T, K, S>(tx, alloc, from, org, ws, head)?;
    }
    Ok(())
}

/// Adds a run as it is in the other database.
fn copy_run<S: Alter>(
    tx: &mut Transaction<'_, S>,
    org: &str,
    ws: &str,
    run: &RunRow,
) -> Result<(), Error>
    ensures carries { RelatedSteps S.Store (Carries org.now ws.now (with_runs (run.now ∷ []))) tx.old tx.new result }
    ensures pages { RelatedSteps S.Store KeepsPages tx.old tx.new result }
{
    let key = steps::optional_str(&run.key);
    let message = run.message.as_str();
    runs::add(
        tx,
        org,
        ws,
        run.number,
        run.plan_only,
        key,
        message,
        run.created,
        run.status,
        run.action,
    )
}

/// Adds runs, one after the other.
fn put_runs<S: Alter>(
    tx: &mut Transaction<'_, S>,
    org: &str,
    ws: &str,
    runs: &[RunRow],
) -> Result<(), Error>
    ensures carries { RelatedSteps S.Store (Carries org.now ws.now (with_runs runs.now)) tx.old tx.new result }
    ensures pages { RelatedSteps S.Store KeepsPages tx.old tx.new result }
{
    'runs: for run in runs {
        copy_run(tx, org, ws, run)?;
    }
    Ok(())
}

/// Copies a workspace that has been read without its texts. If this succeeds, its name did not exist before.
fn copy_parts<T: Alter, K: PageKey, S: Alter>(
    tx: &mut Transaction<'_, S>,
    alloc: Global,
    from: &mut Connection<T>,
    org: &str,
    ws: &str,
    loaded: &LoadedWorkspace,
) -> Result<(), Error>
    ensures unchanged { Sees T.Store (λ _ _. ⊤) from.old from.new result }
    ensures copies { (w : AnyWorkspace) × RelatedSteps S.Store (Begins org.now ws.now w) tx.old tx.new result
        × (HasCleanDisk (state T.Store from.new) → OnOk result ((f : Tables) → Holds (state T.Store from.old).now f
        → w ≡ workspace_of_cells loaded.now.retention loaded.now.it (map (version_at f org.now ws.now) loaded.now.versions) loaded.now.runs)) }
    ensures keyed { RelatedSteps S.Store (KeepsKeys K.key_of) tx.old tx.new result }
{
    put_head(tx, org, ws, &loaded.it, loaded.retention)?;
    copy_versions::<T, K, S>(tx, alloc, from, org, ws, loaded.versions.as_slice())?;
    put_runs(tx, org, ws, loaded.runs.as_slice())
}

/// Copies a workspace of an organization. If this succeeds, its name did not exist before.
pub(crate) fn copy_workspace<T: Alter, K: PageKey, S: Alter>(
    tx: &mut Transaction<'_, S>,
    alloc: Global,
    from: &mut Connection<T>,
    org: &str,
    ws: &str,
) -> Result<(), Error>
    ensures unchanged { Sees T.Store (λ _ _. ⊤) from.old from.new result }
    ensures copies { (w : AnyWorkspace) × RelatedSteps S.Store (Begins org.now ws.now w) tx.old tx.new result
        × (HasCleanDisk (state T.Store from.new) → OnOk result ((f : Tables) → Holds (state T.Store from.old).now f → IsSound f → workspace_by f org.now ws.now ≡ Some w)) }
    ensures keyed { RelatedSteps S.Store (KeepsKeys K.key_of) tx.old tx.new result }
{
    let loaded = load_workspace(alloc, from, org, ws)?;
    copy_parts::<T, K, S>(tx, alloc, from, org, ws, &loaded)
}
