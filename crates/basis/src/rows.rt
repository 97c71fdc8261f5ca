//! What documents say, and what listings and bodies show.
ghost use Rattle.std.specs.Prelude.{◌≡◌, List, [], ◌∷◌, ◌++◌, OnOk, OnErr};
ghost use Rattle.basis.specs.Listings.{listing_of};

use crate::memory::Down;
use crate::names::{LockId, WsName};
use crate::numbers::{KeepCount, Moment, Number, Serial};
use crate::runs::{RunAction, RunStatus};
use crate::texts::{Bytes, Items, Text};
use std::alloc::Global;

/// The most bytes of a state's lineage.
pub const MAX_LINEAGE: usize = 256;

/// The most bytes of a run's key.
pub const MAX_KEY: usize = 64;

/// The most bytes of a run's message.
pub const MAX_MESSAGE: usize = 1_000;

/// What custody reads of a Terraform state: `serial` counts its changes, and `lineage` tells states
/// that don't follow one another apart. An absent lineage is empty.
#[derive(Drop)]
pub struct StateHead {
    pub serial: Serial,
    pub lineage: Text,
}

/// The settings of a workspace that say how its runs go: each is as its document asks.
#[derive(Clone, Copy, PartialEq, Eq)]
pub struct RunSettings {
    /// Whether a plan is applied without being confirmed.
    pub auto_apply: bool,
}

/// Settings of a workspace.
#[derive(Clone, Copy, PartialEq, Eq)]
pub struct Settings {
    pub runs: RunSettings,
    /// How many versions are kept: as one more comes, the oldest go.
    pub retention: KeepCount,
}

/// What the document of a workspace's settings asks.
#[derive(Clone, Copy, PartialEq, Eq)]
pub struct SettingsAsk {
    pub runs: RunSettings,
    /// How many versions are to be kept. Without it a new workspace keeps 100, and one that is there
    /// what it kept.
    pub retention: Option<KeepCount>,
}

/// What the document of a run's creation asks.
#[derive(Drop)]
pub struct RunAsk {
    pub key: Option<Text>,
    pub message: Text,
    pub plan_only: bool,
}

/// Who holds a workspace, as it is shown: the ID of a lock, or the number n of a run, shown as `run-n`.
#[derive(Drop)]
pub enum HolderId {
    Lock(LockId),
    Run(Number),
}

/// Who holds a workspace: nobody, a lock with the text that took it, or a run.
#[derive(Clone, Drop)]
pub enum Holder {
    Nobody,
    Lock { id: LockId, text: Bytes },
    Run(Number),
}

/// A workspace as it is shown.
#[derive(Drop)]
pub struct WsRow {
    pub settings: Settings,
    pub holder: Option<HolderId>,
    pub name: WsName,
    /// The number of the newest version.
    pub version: Option<Number>,
}

/// A version without its text, as it is listed.
#[derive(Drop)]
pub struct VersionRow {
    pub created: Moment,
    pub lineage: Text,
    pub number: Number,
    pub serial: Serial,
    /// How many bytes its text has.
    pub size: u64,
}

/// A run of a workspace, as it is kept and shown.
#[derive(Clone, Drop)]
pub struct RunRow {
    /// The last accepted action.
    pub action: Option<RunAction>,
    pub created: Moment,
    pub key: Option<Text>,
    pub message: Text,
    pub number: Number,
    pub plan_only: bool,
    pub status: RunStatus,
}

/// The most items of a listing.
pub const MAX_ITEMS: usize = 50;

/// At most 50 items, rising, and whether further ones follow the last.
#[derive(Drop)]
pub struct Listing<T> {
    pub items: Items<T>,
    pub more: bool,
}

impl<T> Listing<T> {
    /// The listing of nothing.
    pub fn new(alloc: Global) -> Listing<T>
        ensures { result ≡ listing_of [] }
    {
        Listing {
            items: Items::new(Vec::new(alloc)),
            more: false,
        }
    }

    /// The listing of these items: those past the most that it has are let go.
    pub fn of(items: Items<T>) -> Listing<T>
    where
        T: Drop,
        ensures { result ≡ listing_of items }
    {
        let more = items.as_slice().len() > MAX_ITEMS;
        let mut items = items.into_vec();
        items.truncate(MAX_ITEMS);
        Listing {
            items: Items::new(items),
            more,
        }
    }

    /// Puts an item behind the others, or, where there is no room for it, says that more follow.
    pub fn offer(&mut self, item: T) -> Result<(), Down>
    where
        T: Drop,
        ensures ok { OnOk result ((xs : List _) → self.old ≡ listing_of xs → self.new ≡ listing_of (xs ++ item ∷ [])) }
        ensures err { OnErr result (self.new ≡ self.old) }
    {
        if self.items.as_slice().len() < MAX_ITEMS {
            self.items.push(item)
        } else {
            self.more = true;
            Ok(())
        }
    }
}
