//! Statements on the table token. When a token is added or removed, so is its row of bound.
ghost use Rattle.statements.specs.Steps.{AnyRows, Equals, EqualsWhere, Writes, Queries};
ghost use Rattle.statements.specs.Changes.{token_row_added, token_row_removed, token_added, token_removed, HasNoBound};
ghost use Rattle.statements.specs.Listings.{bounded_tokens_of, BoundedTokensApart, digest_tokens_of, TokensApart};
ghost use Rattle.statements.specs.Finds.{IsBoundedRoleOf, role_of_digest, role_of_name};

use crate::bounds;
use crate::calls::{all_rows, first_row, read_all, read_one, read_only, write};
use crate::encoding::role_number;
use crate::rows::{BoundedRole, NamedToken};
use basis::{Bounds, Items, Role};
use sqlite::{Alter, Connection, Error, Transaction, params};
use std::alloc::Global;

const TOKEN_ROLE: &str = "SELECT role FROM token WHERE org = ?1 AND digest = ?2 ORDER BY rowid";

/// The role of the organization's token with this digest.
pub fn role_of_digest<S: Alter>(
    conn: &mut Connection<S>,
    org: &str,
    digest: &[u8],
) -> Result<Option<Role>, Error>
    ensures { Queries S.Store (Equals (role_of_digest org.now digest.now)) conn.old conn.new result }
{
    let row = first_row(conn, TOKEN_ROLE, params![org, digest]);
    read_one(row)
}

const NAMED_TOKEN_ROLE: &str = "SELECT role FROM token WHERE org = ?1 AND name = ?2 ORDER BY rowid";

/// The role of the organization's token with this name.
pub fn role_of_name<S: Alter>(
    conn: &mut Connection<S>,
    org: &str,
    name: &str,
) -> Result<Option<Role>, Error>
    ensures { Queries S.Store (Equals (role_of_name org.now name.now)) conn.old conn.new result }
{
    let row = first_row(conn, NAMED_TOKEN_ROLE, params![org, name]);
    read_one(row)
}

const FIND_TOKEN: &str =
    "SELECT token.name, role, until, prefix FROM token LEFT JOIN bound ON bound.org = ?1 AND bound.name = token.name WHERE token.org = ?1 AND digest = ?2";

/// The organization's token with this digest, with its expiry and prefix. Fails if the token has no row of
/// bound, or if more than one row is found.
pub fn find_by_digest<S: Alter>(
    conn: &mut Connection<S>,
    org: &str,
    digest: &[u8],
) -> Result<Option<BoundedRole>, Error>
    ensures { Queries S.Store (IsBoundedRoleOf org.now digest.now) conn.old conn.new result }
{
    let rows = all_rows(conn, FIND_TOKEN, params![org, digest]);
    read_only(rows)
}

const LIST_TOKENS: &str =
    "SELECT token.name, role, until, prefix FROM token LEFT JOIN bound ON bound.org = ?1 AND bound.name = token.name WHERE token.org = ?1 ORDER BY token.name";

/// All tokens of an organization with their expiries and prefixes, in the order of their names' bytes. Fails
/// if one has no row of bound.
pub fn list<S: Alter>(
    alloc: Global,
    conn: &mut Connection<S>,
    org: &str,
) -> Result<Items<BoundedRole>, Error>
    ensures { Queries S.Store (EqualsWhere BoundedTokensApart (bounded_tokens_of org.now)) conn.old conn.new result }
{
    let rows = all_rows(conn, LIST_TOKENS, params![org]);
    read_all(alloc, rows)
}

const LIST_DIGEST_TOKENS: &str =
    "SELECT name, digest, role FROM token WHERE org = ?1 ORDER BY name";

/// All tokens of an organization with their digests, in the order of their names' bytes.
pub fn list_with_digests<S: Alter>(
    alloc: Global,
    conn: &mut Connection<S>,
    org: &str,
) -> Result<Items<NamedToken>, Error>
    ensures { Queries S.Store (EqualsWhere TokensApart (digest_tokens_of org.now)) conn.old conn.new result }
{
    let rows = all_rows(conn, LIST_DIGEST_TOKENS, params![org]);
    read_all(alloc, rows)
}

const ADD_TOKEN: &str = "INSERT INTO token (org, name, digest, role) VALUES (?1, ?2, ?3, ?4)";

/// Adds the row of a token, with its digest instead of its secret.
fn add_row<'v, S: Alter>(
    tx: &mut Transaction<'_, S>,
    org: &'v str,
    name: &'v str,
    digest: &'v [u8],
    role: Role,
) -> Result<(), Error>
    ensures { Writes S.Store AnyRows (token_row_added org.now name.now digest.now role) tx.old tx.new result }
{
    let role = role_number(role);
    write(tx, ADD_TOKEN, params![org, name, digest, role])
}

/// Adds a token, with its expiry and prefix.
pub fn add<'v, S: Alter>(
    tx: &mut Transaction<'_, S>,
    org: &'v str,
    name: &'v str,
    digest: &'v [u8],
    role: Role,
    bounds: &'v Bounds,
) -> Result<(), Error>
    ensures { Writes S.Store AnyRows (token_added org.now name.now digest.now role bounds.now.until bounds.now.prefix) tx.old tx.new result }
{
    add_row(tx, org, name, digest, role)?;
    bounds::add(tx, org, name, bounds)
}

const REMOVE_TOKEN: &str = "DELETE FROM token WHERE org = ?1 AND name = ?2";

/// Removes the row of a token. The contract holds if the token has no row of bound.
fn remove_row<S: Alter>(tx: &mut Transaction<'_, S>, org: &str, name: &str) -> Result<(), Error>
    ensures { Writes S.Store (HasNoBound org.now name.now) (token_row_removed org.now name.now) tx.old tx.new result }
{
    write(tx, REMOVE_TOKEN, params![org, name])
}

/// Removes the expiry and the prefix of a token, and then the token.
pub fn remove<S: Alter>(tx: &mut Transaction<'_, S>, org: &str, name: &str) -> Result<(), Error>
    ensures { Writes S.Store AnyRows (token_removed org.now name.now) tx.old tx.new result }
{
    bounds::remove(tx, org, name)?;
    remove_row(tx, org, name)
}
