//! Whether names, limits, digests, ends and prefixes are in range.
ghost use Rattle.std.specs.Prelude.{◌≡◌, ◌≤◌, ◌↔◌, true, length, IfSome, IfOk, OnOk, IsTrue};
ghost use Rattle.std.specs.List.{AllByRecursion};
ghost use Rattle.basis.specs.Names.{is_org_name, is_prefix};
ghost use Rattle.basis.specs.declared.numbers.TheConstants.{MAX_LIMIT};
ghost use Rattle.machine.specs.Ranges.{IsMoment};
ghost use Rattle.tables.specs.Sound.{IsOrgRow, IsTokenRow, IsBoundRow};
ghost use Rattle.checks.specs.Judging.{Judges};
ghost use Rattle.checks.specs.Faults.{OrgsOutside, TokensOutside, BoundsOutside};

use crate::found::{FaultKind, Found};
use basis::numbers::{MAX_LIMIT, MAX_MOMENT};
use basis::{Down, Limit, Moment, OrgName, Unfit, WsPrefix};
use statements::rows::{BoundRow, OrgRow, TokenRow};
use std::alloc::Global;

/// The bytes of a token's digest.
const DIGEST_BYTES: usize = 32;

/// Whether a text is an organization's name, or a token's.
fn is_name(alloc: Global, text: &str) -> Result<bool, Down>
    ensures { IfOk result (λ fits. fits ≡ is_org_name text.now) }
{
    match OrgName::read(alloc, text) {
        Ok(_) => Ok(true),
        Err(Unfit::Syntax) => Ok(false),
        Err(Unfit::Down) => Err(Down),
    }
}

/// Whether a token may have this name and this digest.
fn is_token(alloc: Global, name: &str, digest: &[u8]) -> Result<bool, Down>
    ensures { IfOk result (λ fits. (fits ≡ true) ↔ (IsTrue (is_org_name name.now) × (length digest.now ≡ 32))) }
{
    if digest.len() != DIGEST_BYTES {
        return Ok(false);
    }
    is_name(alloc, name)
}

/// Whether a text is a prefix.
fn is_beginning(alloc: Global, text: &str) -> Result<bool, Down>
    ensures { IfOk result (λ fits. fits ≡ is_prefix text.now) }
{
    match WsPrefix::read(alloc, text) {
        Ok(_) => Ok(true),
        Err(Unfit::Syntax) => Ok(false),
        Err(Unfit::Down) => Err(Down),
    }
}

/// Each limit is in range.
fn known_limit(limit: Limit)
    ensures { limit ≤ MAX_LIMIT }
{
    prove!(limit.get() <= MAX_LIMIT);
}

/// Each end is a moment.
fn known_end(until: Option<Moment>)
    ensures { IfSome until IsMoment }
{
    if let Some(until) = until {
        prove!(until.seconds() <= MAX_MOMENT);
    }
}

/// Whether the name of each organization is one, and its limit in range.
pub fn orgs_in_range(alloc: Global, orgs: &[(i64, OrgRow)], found: &mut Found) -> Result<(), Down>
    ensures { OnOk result (Judges (OrgsOutside orgs.now) (AllByRecursion IsOrgRow orgs.now) found.old found.new) }
{
    for (_, row) in orgs {
        known_limit(row.cap);
        let name = row.name.as_str();
        let fits = is_name(alloc, name)?;
        found.judge(alloc, fits, FaultKind::Range, name, "", None)?;
    }
    Ok(())
}

/// Whether the name of each token is one, and its digest has 32 bytes.
pub fn tokens_in_range(
    alloc: Global,
    tokens: &[(i64, TokenRow)],
    found: &mut Found,
) -> Result<(), Down>
    ensures { OnOk result (Judges (TokensOutside tokens.now) (AllByRecursion IsTokenRow tokens.now) found.old found.new) }
{
    for (_, row) in tokens {
        let org = row.org.as_str();
        let name = row.name.as_str();
        let fits = is_token(alloc, name, row.it.digest.as_slice())?;
        found.judge(alloc, fits, FaultKind::Range, org, name, None)?;
    }
    Ok(())
}

/// Whether the end of each token is a moment, and its prefix one.
pub fn bounds_in_range(
    alloc: Global,
    bounds: &[(i64, BoundRow)],
    found: &mut Found,
) -> Result<(), Down>
    ensures { OnOk result (Judges (BoundsOutside bounds.now) (AllByRecursion IsBoundRow bounds.now) found.old found.new) }
{
    for (_, row) in bounds {
        known_end(row.it.until);
        let org = row.org.as_str();
        let name = row.name.as_str();
        let fits = is_beginning(alloc, row.it.prefix.as_str())?;
        found.judge(alloc, fits, FaultKind::Range, org, name, None)?;
    }
    Ok(())
}
