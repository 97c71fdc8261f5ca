//! What a request asks of a workspace, what a decision on it needs, and what is decided.

use crate::records::Version;
use crate::texts::StateText;
use basis::{
    Bytes, Holder, HolderId, KeepCount, Limit, LockId, Moment, Number, Query, Refusal, RunAction,
    RunAsk, RunRow, RunStatus, Serial, Settings, SettingsAsk, StateHead, Text,
};

/// What a request asks of one workspace. Its documents have been read.
#[derive(Drop)]
pub enum Act {
    /// Reads something of the workspace, and changes nothing.
    Query(Query),
    /// Creates the workspace, or sets its settings if it exists.
    PutWorkspace(SettingsAsk),
    /// Deletes the workspace, with its versions and runs.
    DeleteWorkspace,
    /// Terraform's `POST` of a state, with the ID of the lock that the caller says it holds.
    UpdateState {
        head: StateHead,
        text: StateText,
        lock_id: Option<LockId>,
    },
    /// `DELETE` of a state: removes every version.
    PurgeState {
        lock_id: Option<LockId>,
    },
    /// Terraform's `LOCK`: the ID, and the lock information byte for byte as it was sent.
    Lock {
        id: LockId,
        text: Bytes,
    },
    /// Terraform's `UNLOCK`, by the lock's ID.
    Unlock(LockId),
    /// `UNLOCK` with an empty body: releases whichever lock holds.
    ForceUnlock,
    /// Creates a run, or returns the run that has the key.
    MakeRun(RunAsk),
    /// Reports an action on a run.
    ReportRun(Number, RunAction),
}

/// Which versions are kept. A decision that asks which versions are removed means those before them.
#[derive(Clone, Copy)]
pub enum Staying {
    /// All of them: the decision does not ask which are removed.
    StayAll,
    /// The newest, one fewer than the workspace keeps, because a version is added.
    MakeRoom,
    /// The newest, at most this many.
    StayAtMost(KeepCount),
}

/// What a decision on an act needs of its workspace besides the workspace's own row. A store reads nothing
/// else.
#[derive(Drop)]
pub struct Needs<'a> {
    /// Whether the act creates a missing workspace. If so, the number of the organization's workspaces and
    /// its limit are needed if the workspace is missing.
    pub makes: bool,
    /// Whether the number of versions that the workspace keeps is needed.
    pub retention: bool,
    /// Whether the status of the holding run is needed.
    pub holder_status: bool,
    /// Whether the newest version is needed.
    pub newest: bool,
    /// The text that the newest version's text is compared with.
    pub text: Option<&'a [u8]>,
    /// Whether the versions to be removed are needed, and which versions are kept.
    pub outgoing: Staying,
    /// The number of the version that the act names.
    pub version: Option<Number>,
    /// The number of the run that the act names.
    pub run: Option<Number>,
    /// The key of the run that the act names.
    pub key: Option<&'a Text>,
    /// Whether the first waiting run is needed.
    pub waiting: bool,
    /// Whether the number of open runs is needed.
    pub open_runs: bool,
}

/// What a decision needs of the newest version.
#[derive(Drop)]
pub struct Newest {
    pub number: Number,
    pub serial: Serial,
    pub lineage: Text,
    /// Whether its text equals `Needs::text`, byte for byte.
    pub is_same: bool,
}

/// What a decision needs of a workspace that exists. A part that the act does not need is `None`, 0 or false.
#[derive(Drop)]
pub struct WorkspaceUnit {
    /// If the act does not need the number of versions kept, `retention` is that of a new workspace.
    pub settings: Settings,
    pub holder: Holder,
    /// The status of the holding run.
    pub holder_status: Option<RunStatus>,
    /// The ID of the last lock that was released.
    pub released: Option<LockId>,
    pub next_version: u64,
    pub next_run: u64,
    pub newest: Option<Newest>,
    /// The greatest number of the versions to be removed.
    pub outgoing: Option<Number>,
    /// The number of the first waiting run: the least number of the queued runs that are pending.
    pub first_waiting: Option<Number>,
    /// Whether the workspace keeps the version that the act names.
    pub has_version: bool,
    /// The run that the act names by its number; if the act creates a run, the run that has its key.
    pub asked_run: Option<RunRow>,
    /// The number of open runs.
    pub open_runs: usize,
}

/// What a decision needs of one workspace, or that the workspace does not exist.
#[derive(Drop)]
pub enum Unit {
    /// The number of the organization's workspaces and its limit if the act creates a workspace; 0 and 0 for
    /// any other act, which needs neither.
    Absent { workspaces: usize, limit: Limit },
    Present(WorkspaceUnit),
}

/// A workspace as it is shown, without its name.
#[derive(Drop)]
pub struct Shown {
    pub settings: Settings,
    pub holder: Option<HolderId>,
    pub version: Option<Number>,
}

/// The answer to an accepted act.
#[derive(Drop)]
pub enum Answer {
    /// The act is done, and there is nothing to show.
    Done,
    /// There is no state.
    NoState,
    /// The text of the version with this number.
    State(Number),
    /// The workspace after the act.
    Workspace(Shown),
    /// The run after the act.
    Run(RunRow),
    /// The list of the versions with greater numbers than this one.
    Versions(u64),
    /// The list of the runs with greater numbers than this one.
    Runs(u64),
}

/// How an accepted act changes its workspace.
#[derive(Drop)]
pub enum Edit {
    /// Creates the workspace.
    Make(Settings),
    /// Sets the settings of an existing workspace, and removes the versions with numbers up to `outgoing`.
    Configure {
        settings: Settings,
        outgoing: Option<Number>,
    },
    /// Deletes the workspace, with its versions and runs.
    Remove,
    /// Adds a version after the others, and removes those with numbers up to `outgoing`.
    AddVersion {
        version: Version,
        outgoing: Option<Number>,
    },
    /// Removes every version.
    Purge,
    /// The lock with this ID holds the workspace. The lock's text is stored.
    Hold {
        id: LockId,
        text: Bytes,
    },
    /// The workspace has no holder any more. This ID is that of the last lock that was released.
    Release(LockId),
    /// Adds a run after the others.
    AddRun {
        number: Number,
        ask: RunAsk,
        created: Moment,
    },
    /// Sets the run's last action and its status. If the report `frees` the workspace, it has no holder any
    /// more.
    Report {
        number: Number,
        action: RunAction,
        status: RunStatus,
        frees: bool,
    },
}

/// How an accepted act changes its workspace: an edit, and the run that starts after it because the workspace
/// has no holder.
#[derive(Drop)]
pub struct Change {
    pub edit: Edit,
    pub start: Option<Number>,
}

/// The outcome of an act.
#[derive(Drop)]
pub enum Decision {
    /// Nothing changes. The body of `Locked` is the holder's text.
    Refused(Refusal),
    Accepted {
        answer: Answer,
        change: Option<Change>,
    },
}
