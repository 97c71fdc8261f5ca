//! Keys of rows, and whether no two rows of a table have one key.
ghost use Rattle.std.specs.Prelude.{◌≡◌, ℕ, List, Option, Some, None, false, not, ◌&&◌, ◌||◌, ◌==◌, bytes_eq, IfOk, OnOk};
ghost use Rattle.std.specs.List.{list_any};
ghost use Rattle.sqlite_keyed.specs.Rules.{AreApart};
ghost use Rattle.statements.specs.Changes.{is_of, is_org, is_digest_of};
ghost use Rattle.statements.specs.Belonging.{AreNamedApart};
ghost use Rattle.texts.specs.Texts.{is_place};
ghost use Rattle.checks.specs.Judging.{Judges};
ghost use Rattle.checks.specs.Faults.{SameOrgs, SameNames, SameDigests, SamePages, SamePlaces};
ghost use Rattle.checks.specs.Inner.Keys.{is_key, has_key};

use crate::found::{FaultKind, Found};
use basis::{Down, KeepCount, RunRow, VersionRow};
use statements::rows::{Bound, OrgRow, Owned, PageHead, Token, TokenRow, VpageRow, Workspace};
use std::alloc::Global;
use std::collections::BTreeSet;

/// What identifies a row of its table: up to two numbers, and the bytes of up to two columns.
#[derive(Clone, Copy, PartialEq, Eq, PartialOrd, Ord)]
pub(crate) struct RowKey<'a> {
    pub(crate) place: u64,
    pub(crate) number: u64,
    pub(crate) first: &'a [u8],
    pub(crate) second: &'a [u8],
}

/// A set of keys.
#[derive(Drop)]
pub(crate) struct Keys<'a> {
    pub(crate) keys: BTreeSet<RowKey<'a>>,
}

impl<'a> Keys<'a> {
    pub(crate) fn new(alloc: Global) -> Keys<'a>
        ensures { (first second : List ℕ) (number place : ℕ) → has_key result first second number place ≡ false }
    {
        Keys {
            keys: BTreeSet::new(alloc),
        }
    }

    /// Adds a key. Returns whether it is new.
    pub(crate) fn add(&mut self, key: RowKey<'a>) -> Result<bool, Down>
        ensures fresh { IfOk result (λ fresh. fresh ≡ not (has_key self.old key.entry.first.now key.entry.second.now key.entry.number key.entry.place)) }
        ensures added { OnOk result ((first second : List ℕ) (number place : ℕ) → has_key self.new first second number place ≡ (has_key self.old first second number place || is_key first second number place key.entry)) }
    {
        Ok(self.keys.insert(key)?)
    }

    pub(crate) fn has(&self, key: RowKey<'a>) -> bool
        ensures { result ≡ has_key self.now key.entry.first.now key.entry.second.now key.entry.number key.entry.place }
    {
        self.keys.contains(&key)
    }

    /// Adds the key of these texts. Returns whether it is new.
    pub(crate) fn add_texts(&mut self, first: &'a [u8], second: &'a [u8]) -> Result<bool, Down>
        ensures fresh { IfOk result (λ fresh. fresh ≡ not (has_key self.old first.now second.now 0 0)) }
        ensures added { OnOk result ((one two : List ℕ) → has_key self.new one two 0 0 ≡ (has_key self.old one two 0 0 || (bytes_eq first.now one && bytes_eq second.now two))) }
    {
        self.add(RowKey {
            place: 0,
            number: 0,
            first,
            second,
        })
    }

    /// Whether the key of these texts is among them.
    pub(crate) fn has_texts(&self, first: &'a [u8], second: &'a [u8]) -> bool
        ensures { result ≡ has_key self.now first.now second.now 0 0 }
    {
        self.has(RowKey {
            place: 0,
            number: 0,
            first,
            second,
        })
    }
}

/// The other columns of a row of a token or of a workspace.
pub trait Numbered {
    ghost number_of: { Self → Option ℕ };

    /// The number of the version or run that it is.
    fn number(&self) -> Option<u64>
        ensures { result ≡ number_of self.now };
}

impl Numbered for Token {
    ghost number_of = { λ r. None };

    fn number(&self) -> Option<u64> {
        None
    }
}

impl Numbered for Bound {
    ghost number_of = { λ r. None };

    fn number(&self) -> Option<u64> {
        None
    }
}

impl Numbered for Workspace {
    ghost number_of = { λ r. None };

    fn number(&self) -> Option<u64> {
        None
    }
}

impl Numbered for KeepCount {
    ghost number_of = { λ r. None };

    fn number(&self) -> Option<u64> {
        None
    }
}

impl Numbered for VersionRow {
    ghost number_of = { λ r. Some r.number };

    fn number(&self) -> Option<u64> {
        Some(self.number.get() as u64)
    }
}

impl Numbered for RunRow {
    ghost number_of = { λ r. Some r.number };

    fn number(&self) -> Option<u64> {
        Some(self.number.get() as u64)
    }
}

/// The keys of rows.
pub(crate) fn keys_of<'a, T>(alloc: Global, rows: &'a [(i64, Owned<T>)]) -> Result<Keys<'a>, Down>
    ensures { IfOk result (λ keys. (org name : List ℕ) → has_key keys org name 0 0 ≡ list_any (is_of org name) rows.now) }
{
    let mut keys = Keys::new(alloc);
    for (_, row) in rows {
        keys.add_texts(row.org.as_str().as_bytes(), row.name.as_str().as_bytes())?;
    }
    Ok(keys)
}

/// Whether no two rows have the same organization and name.
pub fn names_apart<T>(
    alloc: Global,
    rows: &[(i64, Owned<T>)],
    found: &mut Found,
) -> Result<(), Down>
    ensures { OnOk result (Judges (SameNames rows.now) (AreNamedApart rows.now) found.old found.new) }
{
    let mut keys = Keys::new(alloc);
    for (_, row) in rows {
        let org = row.org.as_str();
        let name = row.name.as_str();
        let fresh = keys.add_texts(org.as_bytes(), name.as_bytes())?;
        found.judge(alloc, fresh, FaultKind::Twice, org, name, None)?;
    }
    Ok(())
}

/// Whether no two organizations have one name.
pub fn orgs_apart(alloc: Global, orgs: &[(i64, OrgRow)], found: &mut Found) -> Result<(), Down>
    ensures { OnOk result (Judges (SameOrgs orgs.now) (AreApart (λ a b. is_org a.1.name b) orgs.now) found.old found.new) }
{
    let mut keys = Keys::new(alloc);
    for (_, row) in orgs {
        let name = row.name.as_str();
        let fresh = keys.add_texts(&[], name.as_bytes())?;
        found.judge(alloc, fresh, FaultKind::Twice, name, "", None)?;
    }
    Ok(())
}

/// Whether no two tokens of an organization have one digest.
pub fn digests_apart(
    alloc: Global,
    tokens: &[(i64, TokenRow)],
    found: &mut Found,
) -> Result<(), Down>
    ensures { OnOk result (Judges (SameDigests tokens.now) (AreApart (λ a b. is_digest_of a.1.org a.1.it.digest b) tokens.now) found.old found.new) }
{
    let mut keys = Keys::new(alloc);
    for (_, row) in tokens {
        let org = row.org.as_str();
        let name = row.name.as_str();
        let fresh = keys.add_texts(org.as_bytes(), row.it.digest.as_slice())?;
        found.judge(alloc, fresh, FaultKind::DigestTwice, org, name, None)?;
    }
    Ok(())
}

/// Whether no two pages of a key have one twin number.
pub fn pages_apart(alloc: Global, heads: &[PageHead], found: &mut Found) -> Result<(), Down>
    ensures { OnOk result (Judges (SamePages heads.now) (AreApart (λ a b. bytes_eq b.key a.key && b.twin == a.twin) heads.now) found.old found.new) }
{
    let mut keys = Keys::new(alloc);
    for head in heads {
        let fresh = keys.add(RowKey {
            place: 0,
            number: head.twin,
            first: &[],
            second: head.key.as_slice(),
        })?;
        found.judge(alloc, fresh, FaultKind::Twice, "", "", None)?;
    }
    Ok(())
}

/// Whether no place of a version has two rows of vpage.
pub fn vpages_apart(
    alloc: Global,
    vpages: &[(i64, VpageRow)],
    found: &mut Found,
) -> Result<(), Down>
    ensures { OnOk result (Judges (SamePlaces vpages.now) (AreApart (λ a b. is_place a.1.org a.1.ws a.1.number a.1.place b) vpages.now) found.old found.new) }
{
    let mut keys = Keys::new(alloc);
    for (_, row) in vpages {
        let org = row.org.as_str();
        let ws = row.ws.as_str();
        let fresh = keys.add(RowKey {
            place: row.place,
            number: row.number,
            first: org.as_bytes(),
            second: ws.as_bytes(),
        })?;
        found.judge(alloc, fresh, FaultKind::Twice, org, ws, Some(row.number))?;
    }
    Ok(())
}
