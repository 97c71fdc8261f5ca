//! Statuses and actions of runs: a subset of HCP Terraform's 'Run States and Stages'.
ghost use Rattle.std.specs.Prelude.{◌≡◌};
ghost use Rattle.basis.specs.Runs.{status_word, action_word, is_open};

/// Where a run stands. The first four are open; the others are ends.
#[derive(Clone, Copy, PartialEq, Eq)]
pub enum RunStatus {
    Pending,
    Planning,
    Planned,
    Applying,
    Applied,
    PlannedAndFinished,
    Errored,
    Discarded,
    Canceled,
}

impl RunStatus {
    pub fn word(self) -> &'static str
        ensures { result.now ≡ status_word self }
    {
        match self {
            RunStatus::Pending => "pending",
            RunStatus::Planning => "planning",
            RunStatus::Planned => "planned",
            RunStatus::Applying => "applying",
            RunStatus::Applied => "applied",
            RunStatus::PlannedAndFinished => "planned_and_finished",
            RunStatus::Errored => "errored",
            RunStatus::Discarded => "discarded",
            RunStatus::Canceled => "canceled",
        }
    }

    /// Whether the run hasn't ended.
    pub fn is_open(self) -> bool
        ensures { result ≡ is_open self }
    {
        match self {
            RunStatus::Pending | RunStatus::Planning | RunStatus::Planned | RunStatus::Applying => {
                true
            }
            _ => false,
        }
    }
}

/// What a runner or a person reports of a run, or asks of it.
#[derive(Clone, Copy, PartialEq, Eq)]
pub enum RunAction {
    /// The plan is made and has changes.
    ReportPlanned,
    /// The plan is made and has none.
    ReportUnchanged,
    Fail,
    Confirm,
    /// The plan is applied.
    ReportApplied,
    Discard,
    Cancel,
}

impl RunAction {
    /// The word of the action in a path and in a run's body.
    pub fn word(self) -> &'static str
        ensures { result.now ≡ action_word self }
    {
        match self {
            RunAction::ReportPlanned => "planned",
            RunAction::ReportUnchanged => "unchanged",
            RunAction::Fail => "fail",
            RunAction::Confirm => "confirm",
            RunAction::ReportApplied => "applied",
            RunAction::Discard => "discard",
            RunAction::Cancel => "cancel",
        }
    }
}
