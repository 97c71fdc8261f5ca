//! All looks for faults, one after the other.
ghost use Rattle.std.specs.Prelude.{ℕ, List, IfOk, OnOk};
ghost use Rattle.statements.specs.Tables.{Tables};
ghost use Rattle.tables.specs.Scans.{AreRowsOf, ArePagesKeyed};
ghost use Rattle.tables.specs.Sound.{IsSound};
ghost use Rattle.checks.specs.Judging.{Adds, Judges, Decides, AreReported};
ghost use Rattle.checks.specs.Faults.{OfNames, OfOthers, OfTokens, OfOwned, OfRanges, OfRows, OfTables, IsFaultOf};
ghost use Rattle.checks.specs.Missing.{HasEveryRun};
ghost use Rattle.checks.specs.Inner.Counts.{AreFew};
ghost use Rattle.checks.specs.Inner.Places.{AreTextsSound};
ghost use Rattle.checks.specs.Inner.Workspaces.{AreLawfulWss};
ghost use Rattle.checks.specs.Inner.FaultChecks.{AreNamesApart, AreOthersApart, HaveTokensOwners, HaveWorkspacesOwners, AreInRange, AreRowsFit};

use crate::counts::judge_counts;
use crate::found::{FaultKind, Found};
use crate::keys::{digests_apart, names_apart, orgs_apart};
use crate::missing::judge_missing;
use crate::owners::{all_among, all_of_orgs};
use crate::places::judge_pages;
use crate::ranges::{bounds_in_range, orgs_in_range, tokens_in_range};
use crate::stored_version::version_stored;
use crate::workspaces::judge_workspaces;
use basis::Down;
use statements::rows::Rows;
use std::alloc::Global;

/// Whether organizations, tokens, their digests and workspaces are there once.
fn judge_names(alloc: Global, rows: &Rows, found: &mut Found) -> Result<(), Down>
    ensures { OnOk result (Judges (OfNames rows.now) (AreNamesApart rows.now) found.old found.new) }
{
    orgs_apart(alloc, rows.orgs.as_slice(), found)?;
    names_apart(alloc, rows.tokens.as_slice(), found)?;
    digests_apart(alloc, rows.tokens.as_slice(), found)?;
    names_apart(alloc, rows.wss.as_slice(), found)
}

/// Whether rows of bound and of keeping are there once.
fn judge_others(alloc: Global, rows: &Rows, found: &mut Found) -> Result<(), Down>
    ensures { OnOk result (Judges (OfOthers rows.now) (AreOthersApart rows.now) found.old found.new) }
{
    names_apart(alloc, rows.bounds.as_slice(), found)?;
    names_apart(alloc, rows.retentions.as_slice(), found)
}

/// Whether tokens and how far they reach belong to one another, and to organizations.
fn judge_tokens(alloc: Global, rows: &Rows, found: &mut Found) -> Result<(), Down>
    ensures { OnOk result (Judges (OfTokens rows.now) (HaveTokensOwners rows.now) found.old found.new) }
{
    let (orgs, tokens, bounds) = (
        rows.orgs.as_slice(),
        rows.tokens.as_slice(),
        rows.bounds.as_slice(),
    );
    all_among(alloc, bounds, tokens, FaultKind::Unbounded, found)?;
    all_of_orgs(alloc, orgs, tokens, found)?;
    all_among(alloc, tokens, bounds, FaultKind::Ownerless, found)
}

/// Whether workspaces, what they keep, versions and runs belong to one another, and to organizations.
fn judge_owned(alloc: Global, rows: &Rows, found: &mut Found) -> Result<(), Down>
    ensures { OnOk result (Judges (OfOwned rows.now) (HaveWorkspacesOwners rows.now) found.old found.new) }
{
    let (wss, retentions) = (rows.wss.as_slice(), rows.retentions.as_slice());
    all_among(alloc, retentions, wss, FaultKind::Unkept, found)?;
    all_of_orgs(alloc, rows.orgs.as_slice(), wss, found)?;
    all_among(alloc, wss, retentions, FaultKind::Ownerless, found)?;
    all_among(
        alloc,
        wss,
        rows.versions.as_slice(),
        FaultKind::Ownerless,
        found,
    )?;
    all_among(
        alloc,
        wss,
        rows.runs.as_slice(),
        FaultKind::Ownerless,
        found,
    )
}

/// Whether the version is told, and names, limits, digests, ends and prefixes are in range.
fn judge_ranges(alloc: Global, rows: &Rows, found: &mut Found) -> Result<(), Down>
    ensures { OnOk result (Judges (OfRanges rows.now) (AreInRange rows.now) found.old found.new) }
{
    version_stored(
        alloc,
        rows.editions.as_slice(),
        rows.metas.as_slice(),
        found,
    )?;
    orgs_in_range(alloc, rows.orgs.as_slice(), found)?;
    tokens_in_range(alloc, rows.tokens.as_slice(), found)?;
    bounds_in_range(alloc, rows.bounds.as_slice(), found)
}

/// All that is told by the rows of each table but those of texts.
fn judge_rows(alloc: Global, rows: &Rows, found: &mut Found) -> Result<(), Down>
    ensures { OnOk result (Judges (OfRows rows.now) (AreRowsFit rows.now) found.old found.new) }
{
    judge_names(alloc, rows, found)?;
    judge_others(alloc, rows, found)?;
    judge_tokens(alloc, rows, found)?;
    judge_owned(alloc, rows, found)?;
    judge_ranges(alloc, rows, found)
}

/// Texts and their pages, how many workspaces there are, what each is, and whether each of its runs is there.
fn judge_tables(alloc: Global, rows: &Rows, found: &mut Found) -> Result<(), Down>
    ensures judges { OnOk result ((key_of : List ℕ → List ℕ) (t : Tables) → AreRowsOf key_of t rows.now → Judges (OfTables rows.now) (AreTextsSound key_of t × AreFew t.wss × AreLawfulWss t × HasEveryRun t) found.old found.new) }
    ensures adds { OnOk result (Adds (OfTables rows.now) found.old.faults found.new.faults) }
{
    let (versions, vpages) = (rows.versions.as_slice(), rows.vpages.as_slice());
    let (wss, runs) = (rows.wss.as_slice(), rows.runs.as_slice());
    judge_pages(alloc, rows.pages.as_slice(), versions, vpages, found)?;
    judge_counts(alloc, wss, found)?;
    judge_workspaces(alloc, rows, found)?;
    judge_missing(alloc, wss, runs, found)
}

fn judge(alloc: Global, rows: &Rows, found: &mut Found) -> Result<(), Down>
    ensures judges { OnOk result ((key_of : List ℕ → List ℕ) (t : Tables) → AreRowsOf key_of t rows.now → Judges (IsFaultOf rows.now) (IsSound t × ArePagesKeyed key_of t × HasEveryRun t) found.old found.new) }
    ensures adds { OnOk result (Adds (IsFaultOf rows.now) found.old.faults found.new.faults) }
{
    judge_rows(alloc, rows, found)?;
    judge_tables(alloc, rows, found)
}

/// The faults of the rows: none exactly if the tables are sound, each page's key is that of its bytes, and no run is
/// missing. They are all if they are fewer than `MAX_FAULTS`.
pub fn faults(alloc: Global, rows: &Rows) -> Result<Found, Down>
    ensures decides { IfOk result (λ found. (key_of : List ℕ → List ℕ) (t : Tables) → AreRowsOf key_of t rows.now → Decides (IsSound t × ArePagesKeyed key_of t × HasEveryRun t) found) }
    ensures reported { IfOk result (λ found. AreReported (IsFaultOf rows.now) found.faults) }
{
    let mut found = Found::new(alloc);
    judge(alloc, rows, &mut found)?;
    Ok(found)
}
