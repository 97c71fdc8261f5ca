//! Whether each workspace is lawful, with its versions and runs.
ghost use Rattle.std.specs.Prelude.{◌≡◌, IfOk, OnOk};
ghost use Rattle.std.specs.List.{AllByRecursion};
ghost use Rattle.basis.specs.Names.{is_ws_name};
ghost use Rattle.statements.specs.Tables.{Tables};
ghost use Rattle.checks.specs.Judging.{OfSome, Adds, Judges};
ghost use Rattle.checks.specs.Faults.{OfWorkspaces};
ghost use Rattle.checks.specs.Inner.Groups.{lent};
ghost use Rattle.checks.specs.Workspaces.{is_next, is_free_if, is_own, retention_among};
ghost use Rattle.checks.specs.Inner.Workspaces.{IsLawfulAt, OfGroups, AreAllGrouped, HasWsRows, AreLawfulWss};

use crate::found::{FaultKind, Found};
use crate::groups::{Groups, group, rows_at, ws_key};
use crate::runs::{are_runs, unfit_run};
use crate::versions::{are_versions, unfit_version};
use basis::numbers::MAX_NUMBER;
use basis::{Down, KeepCount, LockId, RunRow, Unfit, VersionRow, WsName, is_free_id};
use statements::rows::{Rows, WsRow};
use std::alloc::Global;

/// What the rows of versions, runs and keeping hold, by their workspaces.
#[derive(Drop)]
pub struct Grouped<'a> {
    pub versions: Groups<'a, VersionRow>,
    pub runs: Groups<'a, RunRow>,
    pub retentions: Groups<'a, KeepCount>,
}

/// Looks whether each workspace is lawful: its name, next numbers, holder and the lock released last, its
/// versions, and its runs.
pub fn judge_workspaces(alloc: Global, rows: &Rows, found: &mut Found) -> Result<(), Down>
    ensures judges { OnOk result ((t : Tables) → HasWsRows rows.now t → Judges (OfWorkspaces rows.now) (AreLawfulWss t) found.old found.new) }
    ensures adds { OnOk result (Adds (OfWorkspaces rows.now) found.old.faults found.new.faults) }
{
    let groups = group_all(alloc, rows)?;
    judge_rows(alloc, rows, &groups, found)?;
    Ok(())
}

fn group_all<'a>(alloc: Global, rows: &'a Rows) -> Result<Grouped<'a>, Down>
    ensures { IfOk result (AreAllGrouped rows.now) }
{
    let versions = group(alloc, rows.versions.as_slice())?;
    let runs = group(alloc, rows.runs.as_slice())?;
    let retentions = group(alloc, rows.retentions.as_slice())?;
    Ok(Grouped {
        versions,
        runs,
        retentions,
    })
}

fn judge_rows<'a>(
    alloc: Global,
    rows: &'a Rows,
    groups: &Grouped<'a>,
    found: &mut Found,
) -> Result<(), Down>
    ensures { OnOk result (Judges (OfSome (λ x. OfGroups groups.now x.1) rows.now.wss) (AllByRecursion (λ x. IsLawfulAt groups.now x.1) rows.now.wss) found.old found.new) }
{
    let wss = rows.wss.as_slice();
    for row in wss {
        judge_row(alloc, groups, &row.1, found)?;
    }
    Ok(())
}

fn judge_row<'a>(
    alloc: Global,
    groups: &Grouped<'a>,
    row: &'a WsRow,
    found: &mut Found,
) -> Result<(), Down>
    ensures { OnOk result (Judges (OfGroups groups.now row.now) (IsLawfulAt groups.now row.now) found.old found.new) }
{
    let org = row.org.as_str();
    let ws = row.name.as_str();
    let own = is_own(alloc, row)?;
    found.judge(alloc, own, FaultKind::Unlawful, org, ws, None)?;
    let key = ws_key(org, ws);
    let retention = retention_among(rows_at(&groups.retentions, &key)).get();
    let versions = rows_at(&groups.versions, &key);
    let lawful = are_versions(alloc, versions, retention, row.it.next_version)?;
    let number = unfit_version(versions);
    found.judge(alloc, lawful, FaultKind::Versions, org, ws, number)?;
    let runs = rows_at(&groups.runs, &key);
    let lawful = are_runs(alloc, runs, &row.it.holder, row.it.next_run)?;
    let number = unfit_run(runs, &row.it.holder);
    found.judge(alloc, lawful, FaultKind::Runs, org, ws, number)?;
    Ok(())
}

// How many versions are kept, by the first row that says so.
fn retention_among(retentions: &[&KeepCount]) -> KeepCount
    ensures { result ≡ retention_among (lent retentions.now) }
{
    match retentions.first() {
        Some(retention) => **retention,
        None => KeepCount::first(),
    }
}

// Whether the name, the next numbers and the lock that was released last are in range.
fn is_own(alloc: Global, row: &WsRow) -> Result<bool, Down>
    ensures { IfOk result (λ lawful. lawful ≡ is_own row.now) }
{
    let named = is_ws_name(alloc, row.name.as_str())?;
    Ok(
        named
            && is_next(row.it.next_version)
            && is_next(row.it.next_run)
            && is_free_if(&row.it.released),
    )
}

/// Whether a text is a workspace's name.
pub(crate) fn is_ws_name(alloc: Global, name: &str) -> Result<bool, Down>
    ensures { IfOk result (λ named. named ≡ is_ws_name name.now) }
{
    match WsName::read(alloc, name) {
        Ok(_) => Ok(true),
        Err(Unfit::Syntax) => Ok(false),
        Err(Unfit::Down) => Err(Down),
    }
}

fn is_next(next: u64) -> bool
    ensures { result ≡ is_next next }
{
    1 <= next && next <= MAX_NUMBER as u64 + 1
}

fn is_free_if(id: &Option<LockId>) -> bool
    ensures { result ≡ is_free_if id.now }
{
    match id {
        Some(id) => is_free_id(id.as_str().as_bytes()),
        None => true,
    }
}
