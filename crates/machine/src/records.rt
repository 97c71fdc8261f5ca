//! The record of an organization: its limit, its tokens and its workspaces, as nested values.
ghost use Rattle.std.specs.Prelude.{◌≡◌};
ghost use Rattle.machine.specs.Settling.{is_waiting};

use crate::maps::NameMap;
use crate::texts::StateText;
use basis::{
    Caller, Holder, Items, Limit, LockId, Moment, Number, RunRow, RunStatus, Serial, Settings, Text,
};

/// A version of a workspace's state. Its text is kept byte for byte as it was sent.
#[derive(Clone, Drop)]
pub struct Version {
    pub number: Number,
    pub serial: Serial,
    pub lineage: Text,
    pub created: Moment,
    pub text: StateText,
}

/// Whether the run waits: it is queued and pending.
pub(crate) fn is_waiting(run: &RunRow) -> bool
    ensures { result ≡ is_waiting run.now }
{
    matches!(run.status, RunStatus::Pending) && !run.plan_only
}

/// The contents of a workspace.
#[derive(Drop)]
pub struct Workspace {
    pub settings: Settings,
    pub holder: Holder,
    /// The ID of the last lock that was released.
    pub released: Option<LockId>,
    pub next_version: u64,
    pub next_run: u64,
    /// The versions kept, with rising numbers.
    pub versions: Items<Version>,
    /// The runs, with rising numbers.
    pub runs: Items<RunRow>,
}

/// A bearer token: the SHA-256 of its secret, and its caller.
#[derive(Drop)]
pub struct Token {
    pub digest: [u8; 32],
    pub caller: Caller,
}

/// Everything that custody keeps of one organization.
#[derive(Drop)]
pub struct Organization {
    pub limit: Limit,
    pub tokens: NameMap<Token>,
    pub workspaces: NameMap<Workspace>,
}
