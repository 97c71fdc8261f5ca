//! What is asked of one workspace, and its words.
ghost use Rattle.std.specs.Prelude.{◌≡◌};
ghost use Rattle.basis.specs.Acts.{query_word, act_word, query_number, act_number};

use crate::numbers::Number;
use crate::runs::RunAction;

/// What is told of a workspace; nothing changes by it.
#[derive(Clone, Copy)]
pub enum Query {
    /// The workspace as it is shown.
    Workspace,
    /// The text of the newest version (Terraform's `GET`).
    State,
    /// The text of the version of this number.
    Version(Number),
    /// The versions whose numbers come after this one, at most 50.
    Versions(u64),
    /// A run as it is shown.
    Run(Number),
    /// The runs whose numbers come after this one, at most 50.
    Runs(u64),
}

impl Query {
    fn word(self) -> &'static str
        ensures { result.now ≡ query_word self }
    {
        match self {
            Query::Workspace => "show workspace",
            Query::State => "read state",
            Query::Version(_) => "read version",
            Query::Versions(_) => "list versions",
            Query::Run(_) => "read run",
            Query::Runs(_) => "list runs",
        }
    }

    // The number of what is told, where the query names one.
    fn number(self) -> Option<Number>
        ensures { result ≡ query_number self }
    {
        match self {
            Query::Version(number) => Some(number),
            Query::Run(number) => Some(number),
            Query::Workspace | Query::State => None,
            Query::Versions(_) | Query::Runs(_) => None,
        }
    }
}

/// What a request asks of one workspace.
#[derive(Clone, Copy)]
pub enum WsAct {
    /// Something is told of the workspace; nothing changes.
    Query(Query),
    /// Makes the workspace, or gives it other settings.
    Put,
    /// Takes the workspace away.
    Delete,
    /// Makes a new version.
    UpdateState,
    /// Takes all versions away.
    PurgeState,
    /// Locks the workspace.
    Lock,
    /// UNLOCK with a body, which names the lock.
    Unlock,
    /// UNLOCK with an empty body, whoever has the lock.
    ForceUnlock,
    /// Makes a run.
    MakeRun,
    /// What is reported of a run, or asked of it.
    ReportRun(Number, RunAction),
}

impl WsAct {
    /// The act in words; of what is reported of a run, or asked of it, the action's own word.
    pub fn word(self) -> &'static str
        ensures { result.now ≡ act_word self }
    {
        match self {
            WsAct::Query(query) => query.word(),
            WsAct::Put => "put workspace",
            WsAct::Delete => "delete workspace",
            WsAct::UpdateState => "update state",
            WsAct::PurgeState => "purge state",
            WsAct::Lock => "lock",
            WsAct::Unlock => "unlock",
            WsAct::ForceUnlock => "force unlock",
            WsAct::MakeRun => "make run",
            WsAct::ReportRun(_, action) => action.word(),
        }
    }

    /// The number of the version or the run that the act names.
    pub fn number(self) -> Option<Number>
        ensures { result ≡ act_number self }
    {
        match self {
            WsAct::Query(query) => query.number(),
            WsAct::ReportRun(number, _) => Some(number),
            WsAct::Put | WsAct::Delete | WsAct::MakeRun => None,
            WsAct::UpdateState | WsAct::PurgeState => None,
            WsAct::Lock | WsAct::Unlock | WsAct::ForceUnlock => None,
        }
    }
}
