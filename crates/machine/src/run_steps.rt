//! The steps of runs: the status that an action leads to (HCP Terraform, 'Run States and Stages', a subset).
ghost use Rattle.std.specs.Prelude.{◌≡◌};
ghost use Rattle.machine.specs.RunSteps.{next_status, queued_steps, plan_only_steps, step_in};
ghost use Rattle.basis.specs.declared.runs.RunStatus.{RunStatus as AnyStatus};
ghost use Rattle.basis.specs.declared.runs.RunStatus.TheVariants.{Pending, Planning, Planned, Applying};

use basis::{RunAction, RunStatus};

/// The status that an action leads to; `None` if the status has no such step. Under auto-apply, a queued run
/// applies once it is reported as planned.
pub fn next_status(
    plan_only: bool,
    auto_apply: bool,
    status: RunStatus,
    action: RunAction,
) -> Option<RunStatus>
    ensures { result ≡ next_status plan_only auto_apply status action }
{
    if plan_only {
        next_of_plan_only(status, action)
    } else if auto_apply {
        next_of_queued(RunStatus::Applying, status, action)
    } else {
        next_of_queued(RunStatus::Planned, status, action)
    }
}

fn next_of_plan_only(status: RunStatus, action: RunAction) -> Option<RunStatus>
    ensures { result ≡ step_in plan_only_steps status action }
{
    match status {
        RunStatus::Planning => match action {
            RunAction::ReportPlanned => Some(RunStatus::PlannedAndFinished),
            RunAction::ReportUnchanged => Some(RunStatus::PlannedAndFinished),
            RunAction::Fail => Some(RunStatus::Errored),
            RunAction::Cancel => Some(RunStatus::Canceled),
            RunAction::Confirm | RunAction::ReportApplied | RunAction::Discard => None,
        },
        RunStatus::Pending | RunStatus::Planned | RunStatus::Applying => None,
        RunStatus::Applied | RunStatus::PlannedAndFinished | RunStatus::Errored => None,
        RunStatus::Discarded | RunStatus::Canceled => None,
    }
}

fn next_of_queued(planned: RunStatus, status: RunStatus, action: RunAction) -> Option<RunStatus>
    ensures { result ≡ step_in (queued_steps planned) status action }
{
    match status {
        RunStatus::Pending => next_of_pending(action),
        RunStatus::Planning => next_of_planning(planned, action),
        RunStatus::Planned => next_of_planned(action),
        RunStatus::Applying => next_of_applying(action),
        RunStatus::Applied | RunStatus::PlannedAndFinished | RunStatus::Errored => None,
        RunStatus::Discarded | RunStatus::Canceled => None,
    }
}

fn next_of_pending(action: RunAction) -> Option<RunStatus>
    ensures { (planned : AnyStatus) → result ≡ step_in (queued_steps planned) Pending action }
{
    match action {
        RunAction::Discard => Some(RunStatus::Discarded),
        RunAction::ReportPlanned | RunAction::ReportUnchanged | RunAction::Fail => None,
        RunAction::Confirm | RunAction::ReportApplied | RunAction::Cancel => None,
    }
}

fn next_of_planning(planned: RunStatus, action: RunAction) -> Option<RunStatus>
    ensures { result ≡ step_in (queued_steps planned) Planning action }
{
    match action {
        RunAction::ReportPlanned => Some(planned),
        RunAction::ReportUnchanged => Some(RunStatus::PlannedAndFinished),
        RunAction::Fail => Some(RunStatus::Errored),
        RunAction::Cancel => Some(RunStatus::Canceled),
        RunAction::Confirm | RunAction::ReportApplied | RunAction::Discard => None,
    }
}

fn next_of_planned(action: RunAction) -> Option<RunStatus>
    ensures { (planned : AnyStatus) → result ≡ step_in (queued_steps planned) Planned action }
{
    match action {
        RunAction::Confirm => Some(RunStatus::Applying),
        RunAction::Discard => Some(RunStatus::Discarded),
        RunAction::ReportPlanned | RunAction::ReportUnchanged | RunAction::Fail => None,
        RunAction::ReportApplied | RunAction::Cancel => None,
    }
}

fn next_of_applying(action: RunAction) -> Option<RunStatus>
    ensures { (planned : AnyStatus) → result ≡ step_in (queued_steps planned) Applying action }
{
    match action {
        RunAction::ReportApplied => Some(RunStatus::Applied),
        RunAction::Fail => Some(RunStatus::Errored),
        RunAction::Cancel => Some(RunStatus::Canceled),
        RunAction::ReportPlanned | RunAction::ReportUnchanged => None,
        RunAction::Confirm | RunAction::Discard => None,
    }
}
