//! Decisions on runs: a new run, an action on a run, and which run starts next.
ghost use Rattle.std.specs.Prelude.{◌≡◌, Some, None, IfOk};
ghost use Rattle.machine.specs.Inner.Decisions.{decided_number_of_run, decided_make, decided_read_run, decided_step, decided_report, start_with, status_begun, begun_by, changing};
ghost use Rattle.machine.specs.Settling.{to_start};
ghost use Rattle.machine.specs.Rules.{number_left, new_run};
ghost use Rattle.machine.specs.Laws.{holds};
ghost use Rattle.machine.specs.RunSteps.{is_last};
ghost use Rattle.machine.specs.declared.acts.Answer.TheVariants.{Run as ShownRun};
ghost use Rattle.machine.specs.declared.acts.Edit.TheVariants.{AddRun};
ghost use Rattle.machine.specs.declared.acts.Decision.TheVariants.{Accepted};

use crate::acts::{Answer, Decision, Edit, WorkspaceUnit};
use crate::decisions::MAX_OPEN_RUNS;
use crate::outcomes::accept;
use crate::records::is_waiting;
use crate::run_steps::next_status;
use basis::{Down, Holder, Moment, Number, Refusal, RunAction, RunAsk, RunRow, RunStatus};

// The run to start; none if the workspace has a holder.
fn to_start(holder: &Holder, first_waiting: Option<Number>) -> Option<Number>
    ensures { result ≡ to_start holder.now first_waiting }
{
    match holder {
        Holder::Nobody => first_waiting,
        Holder::Lock { .. } => None,
        Holder::Run(_) => None,
    }
}

fn status_begun(start: Option<Number>, number: Number, status: RunStatus) -> RunStatus
    ensures { result ≡ status_begun start number status }
{
    match start {
        None => status,
        Some(n) => {
            if number == n {
                RunStatus::Planning
            } else {
                status
            }
        }
    }
}

// A run after an act: in this status, or planning if it is the run that starts.
fn run_after(
    run: &RunRow,
    action: Option<RunAction>,
    status: RunStatus,
    start: Option<Number>,
) -> Result<RunRow, Down>
    ensures { IfOk result (λ after. after ≡ begun_by start (record run.now { action = action; status = status })) }
{
    Ok(RunRow {
        number: run.number,
        plan_only: run.plan_only,
        key: run.key.clone()?,
        message: run.message.clone()?,
        created: run.created,
        status: status_begun(start, run.number, status),
        action,
    })
}

fn copy_ask(ask: &RunAsk) -> Result<RunAsk, Down>
    ensures { IfOk result (λ copy. copy ≡ ask.now) }
{
    Ok(RunAsk {
        key: ask.key.clone()?,
        message: ask.message.clone()?,
        plan_only: ask.plan_only,
    })
}

pub(crate) fn new_run(number: Number, ask: &RunAsk, now: Moment) -> Result<RunRow, Down>
    ensures { IfOk result (λ run. run ≡ new_run number ask.now now) }
{
    let status = if ask.plan_only {
        RunStatus::Planning
    } else {
        RunStatus::Pending
    };
    Ok(RunRow {
        number,
        plan_only: ask.plan_only,
        key: ask.key.clone()?,
        message: ask.message.clone()?,
        created: now,
        status,
        action: None,
    })
}

// The run that starts after a run has been added. If the workspace has no holder, no other run is waiting.
fn start_with(unit: &WorkspaceUnit, run: &RunRow) -> Option<Number>
    ensures { result ≡ start_with unit.now run.now }
{
    let own = if is_waiting(run) {
        Some(run.number)
    } else {
        None
    };
    to_start(&unit.holder, own)
}

// Adds a run, and answers with the run as it is after a run has started, if one starts.
fn add_run(run: &RunRow, ask: &RunAsk, now: Moment, start: Option<Number>) -> Result<Decision, Down>
    ensures { IfOk result (λ decision. decision ≡ changing (ShownRun (begun_by start run.now)) (AddRun run.now.number ask.now now) start) }
{
    let answer = Answer::Run(run_after(run, run.action, run.status, start)?);
    let edit = Edit::AddRun {
        number: run.number,
        ask: copy_ask(ask)?,
        created: now,
    };
    Ok(accept(answer, edit, start))
}

fn decide_new_run(unit: &WorkspaceUnit, ask: &RunAsk, now: Moment) -> Result<Decision, Down>
    ensures { IfOk result (λ decision. decision ≡ decided_number_of_run (number_left unit.now.next_run) unit.now ask.now now) }
{
    let Some(number) = Number::new(unit.next_run) else {
        return Ok(Decision::Refused(Refusal::OverLimit));
    };
    let run = new_run(number, ask, now)?;
    let start = start_with(unit, &run);
    add_run(&run, ask, now, start)
}

fn show_run(run: &RunRow) -> Result<Decision, Down>
    ensures { IfOk result (λ decision. decision ≡ Accepted (ShownRun run.now) None) }
{
    Ok(Decision::Accepted {
        answer: Answer::Run(run.clone()?),
        change: None,
    })
}

pub(crate) fn decide_make(unit: &WorkspaceUnit, ask: &RunAsk, now: Moment) -> Result<Decision, Down>
    ensures { IfOk result (λ decision. decision ≡ decided_make unit.now.asked_run unit.now ask.now now) }
{
    match &unit.asked_run {
        Some(run) => show_run(run),
        None => {
            if unit.open_runs < MAX_OPEN_RUNS {
                decide_new_run(unit, ask, now)
            } else {
                Ok(Decision::Refused(Refusal::OverLimit))
            }
        }
    }
}

pub(crate) fn decide_read_run(asked_run: &Option<RunRow>) -> Result<Decision, Down>
    ensures { IfOk result (λ decision. decision ≡ decided_read_run asked_run.now) }
{
    match asked_run {
        Some(run) => show_run(run),
        None => Ok(Decision::Refused(Refusal::NotFound)),
    }
}

fn holds(holder: &Holder, n: Number) -> bool
    ensures { result ≡ holds holder.now n }
{
    match holder {
        Holder::Nobody => false,
        Holder::Lock { .. } => false,
        Holder::Run(m) => *m == n,
    }
}

// A run took an action that leads to this status. If it held the workspace and has ended, the first waiting
// run starts.
fn decide_step(
    unit: &WorkspaceUnit,
    run: &RunRow,
    n: Number,
    action: RunAction,
    status: RunStatus,
) -> Result<Decision, Down>
    ensures { IfOk result (λ decision. decision ≡ decided_step (Some status) unit.now run.now n action) }
{
    let frees = holds(&unit.holder, n) && !status.is_open();
    let start = if frees { unit.first_waiting } else { None };
    let answer = Answer::Run(run_after(run, Some(action), status, start)?);
    let edit = Edit::Report {
        number: n,
        action,
        status,
        frees,
    };
    Ok(accept(answer, edit, start))
}

fn is_last(action: RunAction, last: Option<RunAction>) -> bool
    ensures { result ≡ is_last action last }
{
    match last {
        None => false,
        Some(last) => last.word() == action.word(),
    }
}

pub(crate) fn decide_report(
    unit: &WorkspaceUnit,
    n: Number,
    action: RunAction,
) -> Result<Decision, Down>
    ensures { IfOk result (λ decision. decision ≡ decided_report unit.now.asked_run unit.now n action) }
{
    let Some(run) = &unit.asked_run else {
        return Ok(Decision::Refused(Refusal::NotFound));
    };
    if is_last(action, run.action) {
        return show_run(run);
    }
    match next_status(
        run.plan_only,
        unit.settings.runs.auto_apply,
        run.status,
        action,
    ) {
        Some(status) => decide_step(unit, run, n, action, status),
        None => Ok(Decision::Refused(Refusal::WrongState)),
    }
}
