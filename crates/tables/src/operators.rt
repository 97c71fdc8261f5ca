//! What an operator's commands do. Each reads first, then changes in one transaction.
ghost use Rattle.std.specs.Prelude.{◌≡◌, false, ◌||◌, is_some, ⊤, IfOk, OnOk, OnErr};
ghost use Rattle.sqlite.specs.Held.{state};
ghost use Rattle.sqlite.specs.State.{HasCleanDisk, KeepsCommit};
ghost use Rattle.tables.specs.Inner.Imports.{TakesCommitted, Copies, CommitsRelated};
ghost use Rattle.tables.specs.Inner.Removals.{Leaves};
ghost use Rattle.tables.specs.Inner.Keys.{KeepsKeys};
ghost use Rattle.statements.specs.Steps.{Equals, Sees};
ghost use Rattle.tables.specs.Inner.Steps.{EndsIdle, ManagesBy, org_managed, limit_managed, token_managed, revocation_managed, is_taken};

use crate::transactions::assert_committed;
use crate::{removals, transactions};
use basis::{Bounds, Limit, Role};
use machine::AdminAnswer;
use pages::PageKey;
use sqlite::{Alter, Connection, Error};
use statements::{organizations, tokens};
use std::alloc::Global;

/// Adds an organization.
pub(crate) fn org_add<S: Alter>(
    conn: &mut Connection<S>,
    org: &str,
    limit: Limit,
) -> Result<AdminAnswer, Error>
    requires idle { conn.old.in_transaction ≡ false }
    ensures ends { EndsIdle S.Store conn.old conn.new }
    ensures done { ManagesBy (org_managed org.now limit) (state S.Store conn.old) (state S.Store conn.new) result }
{
    assert_committed(conn);
    let cap = organizations::cap(conn, org)?;
    if cap.is_some() {
        return Ok(AdminAnswer::Exists);
    }
    transactions::add_organization(conn, org, limit)?;
    Ok(AdminAnswer::Done)
}

/// Copies an organization with everything in it from another database. Nothing changes if the other database
/// lacks it, or if this one has it.
pub(crate) fn copy<T: Alter, K: PageKey, S: Alter>(
    conn: &mut Connection<S>,
    alloc: Global,
    from: &mut Connection<T>,
    org: &str,
) -> Result<AdminAnswer, Error>
    requires idle { conn.old.in_transaction ≡ false }
    requires source_idle { from.old.in_transaction ≡ false }
    ensures ends { EndsIdle S.Store conn.old conn.new }
    ensures unchanged { Sees T.Store (λ _ _. ⊤) from.old from.new result }
    ensures done { HasCleanDisk (state S.Store conn.new)
        → IfOk result (λ answer. CommitsRelated (TakesCommitted T.Store (Copies answer org.now) from.old from.new) (state S.Store conn.old) (state S.Store conn.new)) × OnErr result (KeepsCommit (state S.Store conn.old) (state S.Store conn.new)) }
    ensures keyed { HasCleanDisk (state S.Store conn.new) → OnOk result (CommitsRelated (KeepsKeys K.key_of) (state S.Store conn.old) (state S.Store conn.new)) }
{
    assert_committed(conn);
    assert_committed(from);
    let found = organizations::cap(from, org)?;
    let there = organizations::cap(conn, org)?;
    let Some(cap) = found else {
        return Ok(AdminAnswer::Absent);
    };
    if there.is_some() {
        return Ok(AdminAnswer::Exists);
    }
    transactions::copy_organization::<T, K, S>(conn, alloc, from, org, cap)?;
    Ok(AdminAnswer::Done)
}

/// Removes an organization with everything in it. One that has a lock or an open run is removed only if this
/// is forced.
pub(crate) fn org_remove<S: Alter>(
    conn: &mut Connection<S>,
    alloc: Global,
    org: &str,
    is_forced: bool,
) -> Result<AdminAnswer, Error>
    requires idle { conn.old.in_transaction ≡ false }
    ensures ends { EndsIdle S.Store conn.old conn.new }
    ensures done { HasCleanDisk (state S.Store conn.new)
        → IfOk result (λ answer. CommitsRelated (Leaves answer is_forced org.now) (state S.Store conn.old) (state S.Store conn.new)) × OnErr result (KeepsCommit (state S.Store conn.old) (state S.Store conn.new)) }
{
    assert_committed(conn);
    let cap = organizations::cap(conn, org)?;
    if cap.is_none() {
        return Ok(AdminAnswer::Absent);
    }
    let all = removals::read_possessions(alloc, conn, org)?;
    if removals::is_kept_back(conn, org, is_forced, all.names.as_slice())? {
        return Ok(AdminAnswer::InUse);
    }
    transactions::remove_organization(conn, org, all.names.as_slice(), all.tokens.as_slice())?;
    Ok(AdminAnswer::Done)
}

/// Sets an organization's limit of workspaces.
pub(crate) fn org_limit<S: Alter>(
    conn: &mut Connection<S>,
    org: &str,
    limit: Limit,
) -> Result<AdminAnswer, Error>
    requires idle { conn.old.in_transaction ≡ false }
    ensures ends { EndsIdle S.Store conn.old conn.new }
    ensures done { ManagesBy (limit_managed org.now limit) (state S.Store conn.old) (state S.Store conn.new) result }
{
    assert_committed(conn);
    let cap = organizations::cap(conn, org)?;
    if cap.is_none() {
        return Ok(AdminAnswer::Absent);
    }
    transactions::set_limit(conn, org, limit)?;
    Ok(AdminAnswer::Done)
}

fn is_either(named: Option<Role>, known: Option<Role>) -> bool
    ensures { result ≡ (is_some named || is_some known) }
{
    named.is_some() || known.is_some()
}

/// Whether an organization has a token with this name, or one with this digest.
fn is_taken<S: Alter>(
    conn: &mut Connection<S>,
    org: &str,
    name: &str,
    digest: &[u8],
) -> Result<bool, Error>
    ensures { Sees S.Store (Equals (is_taken org.now name.now digest.now)) conn.old conn.new result }
{
    let named = tokens::role_of_name(conn, org, name)?;
    let known = tokens::role_of_digest(conn, org, digest)?;
    Ok(is_either(named, known))
}

/// Adds a token to an organization.
pub(crate) fn token_add<S: Alter>(
    conn: &mut Connection<S>,
    org: &str,
    name: &str,
    role: Role,
    digest: &[u8],
    bounds: &Bounds,
) -> Result<AdminAnswer, Error>
    requires idle { conn.old.in_transaction ≡ false }
    ensures ends { EndsIdle S.Store conn.old conn.new }
    ensures done { ManagesBy (token_managed org.now name.now digest.now role bounds.now) (state S.Store conn.old) (state S.Store conn.new) result }
{
    assert_committed(conn);
    let cap = organizations::cap(conn, org)?;
    if cap.is_none() {
        return Ok(AdminAnswer::Absent);
    }
    if is_taken(conn, org, name, digest)? {
        return Ok(AdminAnswer::Exists);
    }
    transactions::add_token(conn, org, name, role, digest, bounds)?;
    Ok(AdminAnswer::Done)
}

/// Removes a token of an organization.
pub(crate) fn token_revoke<S: Alter>(
    conn: &mut Connection<S>,
    org: &str,
    name: &str,
) -> Result<AdminAnswer, Error>
    requires idle { conn.old.in_transaction ≡ false }
    ensures ends { EndsIdle S.Store conn.old conn.new }
    ensures done { ManagesBy (revocation_managed org.now name.now) (state S.Store conn.old) (state S.Store conn.new) result }
{
    assert_committed(conn);
    let role = tokens::role_of_name(conn, org, name)?;
    if role.is_none() {
        return Ok(AdminAnswer::Absent);
    }
    transactions::remove_token(conn, org, name)?;
    Ok(AdminAnswer::Done)
}
