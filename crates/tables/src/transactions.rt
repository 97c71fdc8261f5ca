//! The transactions of a store, one function each: its change is committed, or nothing is.
ghost use Rattle.std.specs.Prelude.{◌≡◌, ◌<◌, ℕ, true, false, List, ⊤, OnOk, OnErr};
ghost use Rattle.sqlite.specs.Held.{state};
ghost use Rattle.sqlite.specs.State.{HasCleanDisk, KeepsCommit};
ghost use Rattle.statements.specs.declared.making.TheConstants.{SCHEMA_VERSION};
ghost use Rattle.statements.specs.Changes.{edition_moved, org_row_added, org_capped, token_added, token_removed};
ghost use Rattle.statements.specs.Steps.{AnyRows, Sees};
ghost use Rattle.tables.specs.Inner.Imports.{TakesFrom, Brings, CommitsRelated};
ghost use Rattle.tables.specs.Inner.Copies.{AreMadeBy};
ghost use Rattle.tables.specs.Inner.Removals.{all_gone_of};
ghost use Rattle.tables.specs.Inner.Edits.{changed_rows, TakesEdit};
ghost use Rattle.tables.specs.Inner.Keys.{KeepsKeys};
ghost use Rattle.tables.specs.Inner.Making.{IsMade, StepsFrom};
ghost use Rattle.tables.specs.Inner.Steps.{IsAllCommitted, EndsIdle, Transacts};

use crate::{imports, removals, steps};
use basis::{Bounds, Limit, Role, WsName};
use machine::Change;
use pages::PageKey;
use sqlite::{Alter, Connection, Error, Transaction};
use statements::rows::NamedToken;
use statements::{making, organizations, tokens};
use std::alloc::Global;

/// While no transaction is open, nothing is uncommitted. The function does nothing; its contract says so.
pub(crate) fn assert_committed<S: Alter>(conn: &Connection<S>)
    requires idle { conn.now.in_transaction ≡ false }
    ensures { IsAllCommitted (state S.Store conn.now) }
{
    let idle = conn.is_autocommit();
    prove!(idle);
}

/// Begins a transaction where none is open.
fn begin<S: Alter>(conn: &mut Connection<S>) -> Transaction<'_, S>
    requires idle { conn.old.in_transaction ≡ false }
    ensures same_reference { result.conn.ghost_name ≡ conn.entry.ghost_name }
    ensures begun { result.conn.now ≡ record conn.old { in_transaction = true } }
    ensures all_committed { IsAllCommitted (state S.Store conn.old) }
{
    assert_committed(conn);
    conn.transaction()
}

/// Creates the tables of the newest version, and stores the version.
pub(crate) fn make<S: Alter>(conn: &mut Connection<S>) -> Result<(), Error>
    requires idle { conn.old.in_transaction ≡ false }
    ensures ends { EndsIdle S.Store conn.old conn.new }
    ensures made { HasCleanDisk (state S.Store conn.new) → OnOk result (IsMade (state S.Store conn.old) (state S.Store conn.new)) × OnErr result (KeepsCommit (state S.Store conn.old) (state S.Store conn.new)) }
{
    let mut tx = begin(conn);
    making::make_schema(&mut tx)?;
    tx.commit()
}

/// Upgrades a database to the next version.
pub(crate) fn raise<S: Alter>(conn: &mut Connection<S>, from: u64) -> Result<(), Error>
    requires idle { conn.old.in_transaction ≡ false }
    requires older { from < SCHEMA_VERSION }
    ensures ends { EndsIdle S.Store conn.old conn.new }
    ensures done { HasCleanDisk (state S.Store conn.new) → StepsFrom from (state S.Store conn.old) (state S.Store conn.new) result }
{
    let mut tx = begin(conn);
    making::raise(&mut tx, from)?;
    tx.commit()
}

/// Stores the newest version again.
pub(crate) fn touch_version<S: Alter>(conn: &mut Connection<S>) -> Result<(), Error>
    requires idle { conn.old.in_transaction ≡ false }
    ensures ends { EndsIdle S.Store conn.old conn.new }
    ensures done { Transacts (edition_moved SCHEMA_VERSION) (λ _. AnyRows) (state S.Store conn.old) (state S.Store conn.new) result }
{
    let mut tx = begin(conn);
    making::touch_schema_version(&mut tx)?;
    tx.commit()
}

/// Changes a workspace.
pub(crate) fn change<K: PageKey, S: Alter>(
    conn: &mut Connection<S>,
    org: &str,
    ws: &str,
    change: &Change,
) -> Result<(), Error>
    requires idle { conn.old.in_transaction ≡ false }
    ensures ends { EndsIdle S.Store conn.old conn.new }
    ensures done { (keys : ℕ → List ℕ) × Transacts (changed_rows keys org.now ws.now change.now) (λ _. TakesEdit keys org.now ws.now change.now.edit) (state S.Store conn.old) (state S.Store conn.new) result }
    ensures keyed { HasCleanDisk (state S.Store conn.new) → OnOk result (CommitsRelated (KeepsKeys K.key_of) (state S.Store conn.old) (state S.Store conn.new)) }
{
    let mut tx = begin(conn);
    steps::change::<K, S>(&mut tx, org, ws, change)?;
    tx.commit()
}

/// Adds an organization.
pub(crate) fn add_organization<S: Alter>(
    conn: &mut Connection<S>,
    org: &str,
    limit: Limit,
) -> Result<(), Error>
    requires idle { conn.old.in_transaction ≡ false }
    ensures ends { EndsIdle S.Store conn.old conn.new }
    ensures done { Transacts (org_row_added org.now limit) (λ _. AnyRows) (state S.Store conn.old) (state S.Store conn.new) result }
{
    let mut tx = begin(conn);
    organizations::add(&mut tx, org, limit)?;
    tx.commit()
}

/// Copies an organization with this limit from another database into one that lacks it.
pub(crate) fn copy_organization<T: Alter, K: PageKey, S: Alter>(
    conn: &mut Connection<S>,
    alloc: Global,
    from: &mut Connection<T>,
    org: &str,
    cap: Limit,
) -> Result<(), Error>
    requires idle { conn.old.in_transaction ≡ false }
    ensures ends { EndsIdle S.Store conn.old conn.new }
    ensures unchanged { Sees T.Store (λ _ _. ⊤) from.old from.new result }
    ensures done { HasCleanDisk (state S.Store conn.new)
        → OnOk result (CommitsRelated (TakesFrom T.Store (Brings org.now cap) from.old from.new) (state S.Store conn.old) (state S.Store conn.new)) × OnErr result (KeepsCommit (state S.Store conn.old) (state S.Store conn.new)) }
    ensures keyed { HasCleanDisk (state S.Store conn.new) → OnOk result (CommitsRelated (KeepsKeys K.key_of) (state S.Store conn.old) (state S.Store conn.new)) }
{
    let mut tx = begin(conn);
    imports::bring::<T, K, S>(&mut tx, alloc, from, org, cap)?;
    tx.commit()
}

/// Removes an organization that has exactly these workspaces and tokens.
pub(crate) fn remove_organization<S: Alter>(
    conn: &mut Connection<S>,
    org: &str,
    names: &[WsName],
    list: &[NamedToken],
) -> Result<(), Error>
    requires idle { conn.old.in_transaction ≡ false }
    ensures ends { EndsIdle S.Store conn.old conn.new }
    ensures done { HasCleanDisk (state S.Store conn.new)
        → OnOk result (CommitsRelated (AreMadeBy (all_gone_of org.now names.now list.now)) (state S.Store conn.old) (state S.Store conn.new)) × OnErr result (KeepsCommit (state S.Store conn.old) (state S.Store conn.new)) }
{
    let mut tx = begin(conn);
    removals::leave(&mut tx, org, names, list)?;
    tx.commit()
}

/// Sets an organization's limit of workspaces.
pub(crate) fn set_limit<S: Alter>(
    conn: &mut Connection<S>,
    org: &str,
    limit: Limit,
) -> Result<(), Error>
    requires idle { conn.old.in_transaction ≡ false }
    ensures ends { EndsIdle S.Store conn.old conn.new }
    ensures done { Transacts (org_capped org.now limit) (λ _. AnyRows) (state S.Store conn.old) (state S.Store conn.new) result }
{
    let mut tx = begin(conn);
    organizations::set_cap(&mut tx, org, limit)?;
    tx.commit()
}

/// Adds a token, with its row of bound.
pub(crate) fn add_token<S: Alter>(
    conn: &mut Connection<S>,
    org: &str,
    name: &str,
    role: Role,
    digest: &[u8],
    bounds: &Bounds,
) -> Result<(), Error>
    requires idle { conn.old.in_transaction ≡ false }
    ensures ends { EndsIdle S.Store conn.old conn.new }
    ensures done { Transacts (token_added org.now name.now digest.now role bounds.now.until bounds.now.prefix) (λ _. AnyRows) (state S.Store conn.old) (state S.Store conn.new) result }
{
    let mut tx = begin(conn);
    tokens::add(&mut tx, org, name, digest, role, bounds)?;
    tx.commit()
}

/// Removes a token, with its row of bound.
pub(crate) fn remove_token<S: Alter>(
    conn: &mut Connection<S>,
    org: &str,
    name: &str,
) -> Result<(), Error>
    requires idle { conn.old.in_transaction ≡ false }
    ensures ends { EndsIdle S.Store conn.old conn.new }
    ensures done { Transacts (token_removed org.now name.now) (λ _. AnyRows) (state S.Store conn.old) (state S.Store conn.new) result }
{
    let mut tx = begin(conn);
    tokens::remove(&mut tx, org, name)?;
    tx.commit()
}
