//! Whether each run of a workspace has its row.
ghost use Rattle.std.specs.Prelude.{◌≡◌, List, OnOk, IfOk};
ghost use Rattle.std.specs.List.{AllByRecursion};
ghost use Rattle.statements.specs.Rows.{Kept, RunRow};
ghost use Rattle.checks.specs.Judging.{Judges};
ghost use Rattle.checks.specs.Faults.{LacksRun, RunsMissing};
ghost use Rattle.checks.specs.Missing.{has_run, HasItsRuns};
ghost use Rattle.checks.specs.Inner.Missing.{HasRunKeys, FindsMissing};

use crate::found::{FaultKind, Found};
use crate::keys::Keys;
use crate::places::place_key;
use basis::Down;
use statements::rows::{RunRow, WsRow};
use std::alloc::Global;

/// The keys of runs.
fn run_keys<'a>(alloc: Global, runs: &'a [(i64, RunRow)]) -> Result<Keys<'a>, Down>
    ensures { IfOk result (HasRunKeys runs.now) }
{
    let mut keys = Keys::new(alloc);
    for row in runs {
        let run = &row.1;
        let number = u64::from(run.it.number.get());
        keys.add(place_key(&run.org, &run.name, number, 0))?;
    }
    Ok(keys)
}

/// Whether a row is that of the workspace's run of this number.
fn has_run<'a>(keys: &Keys<'a>, row: &'a WsRow, number: u64) -> bool
    ensures { (runs : List (Kept RunRow)) → HasRunKeys runs keys.now → result ≡ has_run runs row.now number }
{
    keys.has(place_key(&row.org, &row.name, number, 0))
}

/// The lowest number of a run of the workspace that no row has, if there is one.
fn missing_run<'a>(keys: &Keys<'a>, row: &'a WsRow) -> Option<u64>
    ensures { (runs : List (Kept RunRow)) → HasRunKeys runs keys.now → FindsMissing runs row.now result }
{
    let next = row.it.next_run;
    for number in 1..next {
        if !has_run(keys, row, number) {
            return Some(number);
        }
    }
    None
}

/// Notes a workspace of which a run is missing.
fn judge_row<'a>(
    alloc: Global,
    keys: &Keys<'a>,
    row: &'a WsRow,
    found: &mut Found,
) -> Result<(), Down>
    ensures { (runs : List (Kept RunRow)) → HasRunKeys runs keys.now → OnOk result (Judges (LacksRun runs row.now) (HasItsRuns runs row.now) found.old found.new) }
{
    match missing_run(keys, row) {
        Some(number) => found.note(
            alloc,
            FaultKind::MissingRun,
            row.org.as_str(),
            row.name.as_str(),
            Some(number),
        ),
        None => Ok(()),
    }
}

/// Notes each workspace of which a run is missing.
pub(crate) fn judge_missing<'a>(
    alloc: Global,
    wss: &'a [(i64, WsRow)],
    runs: &'a [(i64, RunRow)],
    found: &mut Found,
) -> Result<(), Down>
    ensures { OnOk result (Judges (RunsMissing runs.now wss.now) (AllByRecursion (λ x. HasItsRuns runs.now x.1) wss.now) found.old found.new) }
{
    let keys = run_keys(alloc, runs)?;
    for row in wss {
        judge_row(alloc, &keys, &row.1, found)?;
    }
    Ok(())
}
