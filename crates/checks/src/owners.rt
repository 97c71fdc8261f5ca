//! Whether each row has those that it belongs to, or that belong to it.
ghost use Rattle.std.specs.Prelude.{◌≡◌, ℕ, List, [], IfOk, OnOk};
ghost use Rattle.std.specs.List.{list_any};
ghost use Rattle.statements.specs.Changes.{is_org};
ghost use Rattle.statements.specs.Belonging.{AreOfOrgs, AreAmong};
ghost use Rattle.checks.specs.Judging.{Judges};
ghost use Rattle.checks.specs.Faults.{OfNoOrg, Unmatched};
ghost use Rattle.checks.specs.Inner.Keys.{has_key};

use crate::found::{FaultKind, Found};
use crate::keys::{Keys, Numbered, keys_of};
use basis::Down;
use statements::rows::{OrgRow, Owned};
use std::alloc::Global;

/// The keys of organizations.
fn org_keys<'a>(alloc: Global, orgs: &'a [(i64, OrgRow)]) -> Result<Keys<'a>, Down>
    ensures { IfOk result (λ keys. (name : List ℕ) → has_key keys [] name 0 0 ≡ list_any (is_org name) orgs.now) }
{
    let mut keys = Keys::new(alloc);
    for (_, row) in orgs {
        keys.add_texts(&[], row.name.as_str().as_bytes())?;
    }
    Ok(keys)
}

/// Whether the organization of each row is among these.
pub fn all_of_orgs<'a, T>(
    alloc: Global,
    orgs: &'a [(i64, OrgRow)],
    rows: &'a [(i64, Owned<T>)],
    found: &mut Found,
) -> Result<(), Down>
    ensures { OnOk result (Judges (OfNoOrg orgs.now rows.now) (AreOfOrgs orgs.now rows.now) found.old found.new) }
{
    let keys = org_keys(alloc, orgs)?;
    for (_, row) in rows {
        let org = row.org.as_str();
        let name = row.name.as_str();
        let known = keys.has_texts(&[], org.as_bytes());
        found.judge(alloc, known, FaultKind::Ownerless, org, name, None)?;
    }
    Ok(())
}

/// Whether each row has a row of the same organization and name among these.
pub fn all_among<'a, O, T: Numbered>(
    alloc: Global,
    others: &'a [(i64, Owned<O>)],
    rows: &'a [(i64, Owned<T>)],
    kind: FaultKind,
    found: &mut Found,
) -> Result<(), Down>
    ensures { OnOk result (Judges (Unmatched kind T.number_of others.now rows.now) (AreAmong others.now rows.now) found.old found.new) }
{
    let keys = keys_of(alloc, others)?;
    for (_, row) in rows {
        let org = row.org.as_str();
        let name = row.name.as_str();
        let number = row.it.number();
        let known = keys.has_texts(org.as_bytes(), name.as_bytes());
        found.judge(alloc, known, kind, org, name, number)?;
    }
    Ok(())
}
