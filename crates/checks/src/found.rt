//! The faults that were found.
ghost use Rattle.std.specs.Prelude.{◌≡◌, true, nat_le, length, OnOk};
ghost use Rattle.checks.specs.Judging.{IsClean, fault_of, Breaks, noted, Judges};

use basis::{Down, Items, Text};
use std::alloc::Global;

/// The most faults that are reported.
pub const MAX_FAULTS: usize = 50;

/// What is wrong with a row, or with a page.
#[derive(Clone, Copy, PartialEq, Eq)]
pub enum FaultKind {
    /// A table is missing, or defined differently from ours.
    Table,
    /// The tables have another schema version, or none.
    Version,
    /// Another row has the same key.
    Twice,
    /// Another token of the organization has the same digest.
    DigestTwice,
    /// The row that it belongs to is missing.
    Ownerless,
    /// A token has no row in `bound`.
    Unbounded,
    /// A workspace has no row in `keeping`.
    Unkept,
    /// A name, limit, digest, end or prefix is out of range.
    Range,
    /// The organization has more workspaces than the greatest limit.
    TooMany,
    /// The workspace, its holder or one of its numbers breaks the rules.
    Unlawful,
    /// Its versions break the rules: their numbers, their count, or a value of one.
    Versions,
    /// Its runs break the rules: their numbers, statuses, keys, or which one holds.
    Runs,
    /// A run of the workspace is missing. The number is the lowest one that is.
    MissingRun,
    /// A version's text is not complete: one of its pages is missing, or has another size.
    Text,
    /// A row of `vpage` has a place that its version's text does not have.
    Place,
    /// A page's number of uses is not the number of rows that name it.
    Uses,
    /// A page's key is not that of its bytes.
    Key,
    /// Another page of the key has the same bytes.
    SamePage,
}

/// A fault, and where it was found. What is not known is empty.
#[derive(Drop)]
pub struct Fault {
    pub kind: FaultKind,
    pub org: Text,
    /// The name of a workspace, of a token, or of a table.
    pub ws: Text,
    /// The number of a version or of a run.
    pub number: Option<u64>,
}

/// The faults that were found, the first `MAX_FAULTS` of them.
#[derive(Drop)]
pub struct Found {
    faults: Items<Fault>,
}

impl Found {
    pub fn new(alloc: Global) -> Found
        ensures { IsClean result }
    {
        Found {
            faults: Items::new(Vec::new(alloc)),
        }
    }

    /// Whether no fault was found.
    pub fn is_clean(&self) -> bool
        ensures reported { result ≡ true → IsClean self.now }
        ensures clean { IsClean self.now → result ≡ true }
    {
        self.faults.as_slice().is_empty()
    }

    pub fn faults(&self) -> &[Fault]
        ensures { result.now ≡ self.now.faults }
    {
        self.faults.as_slice()
    }

    /// Whether the list of faults is full.
    pub fn is_full(&self) -> bool
        ensures { result ≡ nat_le MAX_FAULTS (length self.now.faults) }
    {
        self.faults.as_slice().len() >= MAX_FAULTS
    }

    /// Notes a fault, if there is room for it.
    pub fn note(
        &mut self,
        alloc: Global,
        kind: FaultKind,
        org: &str,
        ws: &str,
        number: Option<u64>,
    ) -> Result<(), Down>
        ensures { OnOk result (self.new.faults ≡ noted (fault_of kind org.now ws.now number) self.old.faults) }
    {
        if self.is_full() {
            return Ok(());
        }
        let org = Text::copy_of(alloc, org)?;
        let ws = Text::copy_of(alloc, ws)?;
        self.faults.push(Fault {
            kind,
            org,
            ws,
            number,
        })
    }

    /// Notes a fault unless it holds.
    pub fn judge(
        &mut self,
        alloc: Global,
        holds: bool,
        kind: FaultKind,
        org: &str,
        ws: &str,
        number: Option<u64>,
    ) -> Result<(), Down>
        ensures { OnOk result (Judges (Breaks (holds ≡ true) (fault_of kind org.now ws.now number)) (holds ≡ true) self.old self.new) }
    {
        if holds {
            return Ok(());
        }
        self.note(alloc, kind, org, ws, number)
    }
}
