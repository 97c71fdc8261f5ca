//! A database in memory, in the place of one in a file.
ghost use Rattle.std.specs.Prelude.{⊤, ◌≡◌, ◌≢◌, ◌⊎◌, Some, None, Ok, IfOk, false, not, is_some, map};
ghost use Rattle.fakes.specs.declared.files.TheConstants.{SCHEMA_VERSION};
ghost use Rattle.fakes.specs.Files.{IsKeptStore};
ghost use Rattle.program.specs.declared.reasons.Cause.TheVariants as cause;
ghost use Rattle.program.specs.declared.reasons.OpenFault.TheVariants as fault;

use basis::{Bytes, Down, Items, Moment, OrgName, Text};
use machine::{AdminAnswer, Keep, PlainKeep};
use program::environment::{CopyTask, Files, Opening};
use program::reasons::{Cause, OpenFault};
use program::replays::replay_over;
use program::totals::{Findings, Totals};
use serve::Step;
use std::alloc::Global;

/// The newest version of the schema of which a file would be.
pub const SCHEMA_VERSION: u64 = 3;

/// There are no tables, so there are no rows.
const NO_ROWS: Totals = Totals {
    organizations: 0,
    workspaces: 0,
    versions: 0,
    runs: 0,
    newest: None,
    made: 0,
};

/// A database at one path, in memory; nothing is opened or kept at another.
#[derive(Drop)]
pub struct MemoryFile<'a> {
    alloc: Global,
    path: &'a str,
    store: Option<PlainKeep>,
    /// Whether a close leaves a log beside the file.
    pub keeps_log: bool,
    /// Whether others than its owner may read the file.
    pub is_readable: bool,
    /// The moment, in seconds since 1970, from which on the file is no longer at its path, if it is moved.
    pub moved: Option<u64>,
    /// What a check for faults finds: a line for each.
    pub faults: Vec<&'a str>,
}

// The lines of faults.
fn lines_of(alloc: Global, faults: &[&str]) -> Result<Items<Text>, Down>
    ensures { IfOk result (λ lines. lines ≡ map (λ fault. fault.now) faults.now) }
{
    let mut lines = Items::new(Vec::new(alloc));
    for fault in faults {
        lines.push(Text::copy_of(alloc, *fault)?)?;
    }
    Ok(lines)
}

impl<'a> MemoryFile<'a> {
    /// A path at which nothing lies yet.
    pub fn new(alloc: Global, path: &'a str) -> MemoryFile<'a>
        ensures vacant { ⟦<MemoryFile<'a> as Files<PlainKeep>>⟧.vacant result path.now }
    {
        MemoryFile {
            alloc,
            path,
            store: None,
            keeps_log: false,
            is_readable: false,
            moved: None,
            faults: Vec::new(alloc),
        }
    }
}

impl Files<PlainKeep> for MemoryFile<'_> {
    // Of other paths nothing is said.
    ghost holds = { λ files path store. path ≡ files.path.now → IsKeptStore ⟦<PlainKeep as Keep>⟧ files.store store };

    ghost copied = { λ files path store. (path ≡ files.path.now) × (files.store ≡ Some store) };

    // Another path is refused, and one at which nothing is kept yet where nothing is to be made.
    ghost refuses = { λ files path why. ((path ≢ files.path.now) × (why ≡ fault.Down cause.NoFile)) ⊎ ((files.store ≡ None) × (why ≡ fault.Down cause.Missing)) };

    ghost vacant = { λ files path. (path ≡ files.path.now) × (files.store ≡ None) };

    ghost bare = { λ files path. (path ≡ files.path.now) × (files.store ≡ None) };

    // It has no schema, so nothing is raised. Of other paths nothing is said.
    ghost unraised = { λ files path store. path ≡ files.path.now → IsKeptStore ⟦<PlainKeep as Keep>⟧ files.store store };

    // Of other paths nothing is said.
    ghost lacks = { λ files path answer. path ≡ files.path.now → is_some files.store ≡ not answer };

    // Nor is it whether others may read what lies there.
    ghost reads = { λ files path answer. path ≡ files.path.now → answer ≡ files.is_readable };

    // A store in memory is never shut.
    ghost shuts = { λ store said after. (said ≡ Ok false) × (after ≡ store) };

    // A definition without a value of the type can't name the field that says when it is moved.
    ghost places = { λ _ _. ⊤ };

    // It has no WAL.
    ghost checkpoints = { λ store after. after ≡ store };

    // It has no tables: it is given the faults that a check finds.
    ghost finds = { λ store _ after. after ≡ store };

    ghost newest = { SCHEMA_VERSION };

    ghost is_ours = { λ store. ⟦<PlainKeep as Keep>⟧.sound store };

    fn is_absent(&self, _path: &str) -> bool {
        self.store.is_none()
    }

    fn others_may_read(&self, _path: &str) -> bool {
        self.is_readable
    }

    fn newest_schema(&self) -> u64 {
        SCHEMA_VERSION
    }

    fn open(&mut self, path: &str, opening: Opening) -> Result<PlainKeep, OpenFault> {
        if path != self.path {
            return Err(OpenFault::Down(Cause::NoFile));
        }
        match self.store.take() {
            Some(store) => Ok(store),
            None => match opening {
                Opening::Read | Opening::Existing => Err(OpenFault::Down(Cause::Missing)),
                Opening::Created | Opening::Target => Ok(PlainKeep::new(self.alloc)),
            },
        }
    }

    fn is_shut(&self, _store: &mut PlainKeep) -> Result<bool, Down> {
        Ok(false)
    }

    fn is_in_place(&self, at: Moment) -> bool {
        match self.moved {
            Some(moved) => at.seconds() < moved,
            None => true,
        }
    }

    fn checkpoint(&self, _store: &mut PlainKeep) -> Result<(), Down> {
        Ok(())
    }

    fn check(&self, alloc: Global, _store: &mut PlainKeep) -> Result<Findings, Down> {
        match lines_of(alloc, self.faults.as_slice()) {
            Ok(faults) => Ok(Findings {
                faults,
                totals: NO_ROWS,
            }),
            Err(down) => Err(down),
        }
    }

    // There is one path alone, so there is nothing to copy to.
    fn copy(
        &self,
        _alloc: Global,
        _task: CopyTask,
        _org: &OrgName,
        _from: &mut PlainKeep,
        _to: &mut PlainKeep,
    ) -> Result<AdminAnswer, Down> {
        Err(Down)
    }

    fn close(&mut self, path: &str, store: PlainKeep) -> Result<(), Down> {
        if path != self.path {
            return Err(Down);
        }
        self.store = Some(store);
        if self.keeps_log { Err(Down) } else { Ok(()) }
    }

    fn replay(&self, alloc: Global, steps: &[Step]) -> Result<Vec<Bytes>, Down> {
        let (replies, keep) = replay_over(alloc, PlainKeep::new(alloc), steps);
        keep.is_always_clean();
        replies
    }
}
