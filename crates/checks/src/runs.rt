//! The runs of a workspace.
ghost use Rattle.std.specs.Prelude.{◌≡◌, ◌||◌, ◌==◌, ℕ, List, not, find, option_map, unwrap_or, IfOk, OnOk, map, true, false};
ghost use Rattle.std.specs.List.{list_all};
ghost use Rattle.std.specs.Str.{bytes_eq};
ghost use Rattle.std.specs.BTreeSet.{contains_text};
ghost use Rattle.machine.specs.RunSteps.{is_status};
ghost use Rattle.machine.specs.Laws.{is_active, is_pending, holds, is_nobody};
ghost use Rattle.checks.specs.Inner.Groups.{lent};
ghost use Rattle.checks.specs.Runs.{run_number, is_key, action_ends, is_unreached, is_where_action_ends, is_active_rightly, waits_rightly, is_run, count_open, is_new, is_that, keys_differ, is_held, are_runs};

use crate::versions::{rise, sort};
use basis::numbers::MAX_MOMENT;
use basis::rows::{MAX_KEY, MAX_MESSAGE};
use basis::{Down, Holder, Number, RunAction, RunRow, RunStatus, Text, is_free_id};
use machine::MAX_OPEN_RUNS;
use std::alloc::Global;
use std::collections::BTreeSet;

/// Whether these runs are lawful under this holder, where the next one has this number: their numbers rise
/// up to that, each is in its ranges and where its last action ends, no more than 100 are open, no two have
/// one key, and a run that holds is a queued one of them.
#[tactic(auto, using(crate::proofs::Lent::all_lent))]
pub fn are_runs(alloc: Global, runs: &[&RunRow], holder: &Holder, next: u64) -> Result<bool, Down>
    ensures { IfOk result (λ lawful. lawful ≡ are_runs holder.now next (lent runs.now)) }
{
    let mut numbers = run_numbers(alloc, runs)?;
    sort(&mut numbers);
    let numbered = rise(&numbers, next) && are_fit(runs, holder);
    let held = numbered && count_open(runs) <= MAX_OPEN_RUNS && is_held(runs, holder);
    let apart = keys_differ(alloc, runs)?;
    Ok(held && apart)
}

#[tactic(auto, using(crate::proofs::Lent::each_lent))]
fn run_numbers(alloc: Global, runs: &[&RunRow]) -> Result<Vec<u64>, Down>
    ensures { IfOk result (λ ns. ns.items ≡ map run_number (lent runs.now)) }
{
    Ok(
        runs.iter()
            .map(|run| u64::from(run.number.get()))
            .collect(alloc)?,
    )
}

fn are_fit(runs: &[&RunRow], holder: &Holder) -> bool
    ensures { result ≡ list_all (λ r. is_run holder.now r.now) runs.now }
{
    runs.iter().all(|run| is_run(run, holder))
}

/// The number of the first run that isn't in its ranges, where its last action ends, and active or waiting
/// as the holder lets it.
pub fn unfit_run(runs: &[&RunRow], holder: &Holder) -> Option<u64>
    ensures { result ≡ option_map (λ r. r.now.number) (find (λ r. not (is_run holder.now r.now)) runs.now) }
{
    runs.iter()
        .find(|run| !is_run(run, holder))
        .map(|run| u64::from(run.number.get()))
}

// Whether a run is in its ranges, where its last action ends, and active or waiting as the holder lets it.
fn is_run(run: &RunRow, holder: &Holder) -> bool
    ensures { result ≡ is_run holder.now run.now }
{
    is_key(&run.key)
        && run.message.as_str().len() <= MAX_MESSAGE
        && run.created.seconds() <= MAX_MOMENT
        && is_where_action_ends(run.plan_only, run.action, run.status)
        && is_active_rightly(
            run.plan_only,
            is_active(run.status),
            holds(holder, run.number),
        )
        && waits_rightly(run.plan_only, is_pending(run.status), is_nobody(holder))
}

fn is_key(key: &Option<Text>) -> bool
    ensures { result ≡ is_key key.now }
{
    match key {
        Some(key) => 1 <= key.as_str().len() && key.as_str().len() <= MAX_KEY,
        None => true,
    }
}

fn is_where_action_ends(plan_only: bool, action: Option<RunAction>, status: RunStatus) -> bool
    ensures { result ≡ is_where_action_ends plan_only action status }
{
    match action {
        Some(action) => action_ends(plan_only, action, status),
        None => is_unreached(status),
    }
}

// Whether no action has reached a run.
fn is_unreached(status: RunStatus) -> bool
    ensures { result ≡ is_unreached status }
{
    match status {
        RunStatus::Pending | RunStatus::Planning => true,
        RunStatus::Planned | RunStatus::Applying | RunStatus::Applied => false,
        RunStatus::PlannedAndFinished | RunStatus::Errored => false,
        RunStatus::Discarded | RunStatus::Canceled => false,
    }
}

// Whether the action ends in the status, whichever way the settings are.
fn action_ends(plan_only: bool, action: RunAction, status: RunStatus) -> bool
    ensures { result ≡ action_ends plan_only action status }
{
    if plan_only {
        ends_plan_only(action, status)
    } else {
        ends_queued(action, status)
    }
}

fn ends_plan_only(action: RunAction, status: RunStatus) -> bool
    ensures { result ≡ action_ends true action status }
{
    match action {
        RunAction::ReportPlanned => is_status(RunStatus::PlannedAndFinished, status),
        RunAction::ReportUnchanged => is_status(RunStatus::PlannedAndFinished, status),
        RunAction::Fail => is_status(RunStatus::Errored, status),
        RunAction::Cancel => is_status(RunStatus::Canceled, status),
        RunAction::Confirm | RunAction::ReportApplied | RunAction::Discard => false,
    }
}

fn ends_queued(action: RunAction, status: RunStatus) -> bool
    ensures { result ≡ action_ends false action status }
{
    match action {
        RunAction::ReportPlanned => {
            is_status(RunStatus::Applying, status) || is_status(RunStatus::Planned, status)
        }
        RunAction::ReportUnchanged => is_status(RunStatus::PlannedAndFinished, status),
        RunAction::Fail => is_status(RunStatus::Errored, status),
        RunAction::Confirm => is_status(RunStatus::Applying, status),
        RunAction::ReportApplied => is_status(RunStatus::Applied, status),
        RunAction::Discard => is_status(RunStatus::Discarded, status),
        RunAction::Cancel => is_status(RunStatus::Canceled, status),
    }
}

fn is_status(status: RunStatus, other: RunStatus) -> bool
    ensures { result ≡ is_status status other }
{
    status.word().as_bytes() == other.word().as_bytes()
}

// Whether the run is planning, planned or applying.
fn is_active(status: RunStatus) -> bool
    ensures { result ≡ is_active status }
{
    match status {
        RunStatus::Planning | RunStatus::Planned | RunStatus::Applying => true,
        RunStatus::Pending | RunStatus::Applied | RunStatus::PlannedAndFinished => false,
        RunStatus::Errored | RunStatus::Discarded | RunStatus::Canceled => false,
    }
}

fn is_pending(status: RunStatus) -> bool
    ensures { result ≡ is_pending status }
{
    match status {
        RunStatus::Pending => true,
        RunStatus::Planning | RunStatus::Planned | RunStatus::Applying => false,
        RunStatus::Applied | RunStatus::PlannedAndFinished | RunStatus::Errored => false,
        RunStatus::Discarded | RunStatus::Canceled => false,
    }
}

// Whether the run of this number holds.
fn holds(holder: &Holder, number: Number) -> bool
    ensures { result ≡ holds holder.now number }
{
    match holder {
        Holder::Run(holding) => holding.get() == number.get(),
        Holder::Lock { id: _, text: _ } => false,
        Holder::Nobody => false,
    }
}

fn is_nobody(holder: &Holder) -> bool
    ensures { result ≡ is_nobody holder.now }
{
    match holder {
        Holder::Nobody => true,
        Holder::Lock { id: _, text: _ } => false,
        Holder::Run(_) => false,
    }
}

fn is_active_rightly(plan_only: bool, active: bool, holding: bool) -> bool
    ensures { result ≡ is_active_rightly plan_only active holding }
{
    plan_only || if holding { active } else { !active }
}

fn waits_rightly(plan_only: bool, pending: bool, free: bool) -> bool
    ensures { result ≡ waits_rightly plan_only pending free }
{
    !pending || (!plan_only && !free)
}

// How many of the runs haven't ended.
#[tactic(auto, using(crate::proofs::Lent::count_lent))]
fn count_open(runs: &[&RunRow]) -> usize
    ensures { result ≡ count_open (lent runs.now) }
{
    runs.iter().filter(|run| run.status.is_open()).count()
}

// Whether a lock's ID names no run, and a run that holds is a queued one of these.
#[tactic(auto, using(crate::proofs::Lent::found_lent))]
fn is_held(runs: &[&RunRow], holder: &Holder) -> bool
    ensures { result ≡ is_held holder.now (lent runs.now) }
{
    match holder {
        Holder::Nobody => true,
        Holder::Lock { id, text: _ } => is_free_id(id.as_str().as_bytes()),
        Holder::Run(number) => is_queued(runs, *number),
    }
}

// Whether the run of this number is a queued one.
fn is_queued(runs: &[&RunRow], number: Number) -> bool
    ensures { result ≡ unwrap_or (option_map (λ r. not r.now.plan_only) (find (λ r. r.now.number == number) runs.now)) false }
{
    match runs.iter().find(|run| run.number == number) {
        Some(run) => !run.plan_only,
        None => false,
    }
}

// Whether no two have one key.
fn keys_differ(alloc: Global, runs: &[&RunRow]) -> Result<bool, Down>
    ensures { IfOk result (λ differ. differ ≡ keys_differ (lent runs.now)) }
{
    let mut seen = BTreeSet::new(alloc);
    for run in runs {
        let fresh = add_of(alloc, &mut seen, run)?;
        if !fresh {
            return Ok(false);
        }
    }
    Ok(true)
}

// Adds the key of a run, if it has one, and says whether it is new.
fn add_of(alloc: Global, seen: &mut BTreeSet<String>, run: &RunRow) -> Result<bool, Down>
    ensures fresh { IfOk result (λ fresh. fresh ≡ is_new (contains_text seen.old) run.now.key) }
    ensures added { OnOk result ((q : List ℕ) → contains_text seen.new q ≡ (is_that q run.now.key || contains_text seen.old q)) }
{
    match &run.key {
        Some(key) => add(alloc, seen, key.as_str()),
        None => Ok(true),
    }
}

// Adds a key, and says whether it is new.
fn add(alloc: Global, seen: &mut BTreeSet<String>, key: &str) -> Result<bool, Down>
    ensures fresh { IfOk result (λ fresh. fresh ≡ not (contains_text seen.old key.now)) }
    ensures added { OnOk result ((q : List ℕ) → contains_text seen.new q ≡ (bytes_eq key.now q || contains_text seen.old q)) }
{
    let key = String::from_str(alloc, key)?;
    let fresh = seen.insert(key)?;
    Ok(fresh)
}
