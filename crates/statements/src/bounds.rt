//! Statements on the table bound: the expiry of each token and the prefix of its workspaces.
ghost use Rattle.statements.specs.Steps.{AnyRows, Equals, Writes, Queries};
ghost use Rattle.statements.specs.Making.{MakesBy};
ghost use Rattle.statements.specs.Inner.Making.{Moved};
ghost use Rattle.statements.specs.Changes.{bound_row_added, bound_row_removed, bounds_filled};
ghost use Rattle.statements.specs.Finds.{bound_of};

use crate::calls::{first_row, read_one, write};
use crate::encoding::optional_seconds;
use basis::Bounds;
use sqlite::{Alter, Connection, Error, Transaction, params};

const FIND_BOUND: &str =
    "SELECT until, prefix FROM bound WHERE org = ?1 AND name = ?2 ORDER BY rowid";

/// The expiry and the prefix of the token with this name.
pub fn find<S: Alter>(
    conn: &mut Connection<S>,
    org: &str,
    name: &str,
) -> Result<Option<Bounds>, Error>
    ensures { Queries S.Store (Equals (bound_of org.now name.now)) conn.old conn.new result }
{
    let row = first_row(conn, FIND_BOUND, params![org, name]);
    read_one(row)
}

const ADD_BOUND: &str = "INSERT INTO bound (org, name, until, prefix) VALUES (?1, ?2, ?3, ?4)";

/// Adds the expiry and the prefix of a token.
pub fn add<'v, S: Alter>(
    tx: &mut Transaction<'_, S>,
    org: &'v str,
    name: &'v str,
    bounds: &'v Bounds,
) -> Result<(), Error>
    ensures { Writes S.Store AnyRows (bound_row_added org.now name.now bounds.now.until bounds.now.prefix) tx.old tx.new result }
{
    let until = optional_seconds(bounds.until);
    let prefix = bounds.prefix.as_str();
    write(tx, ADD_BOUND, params![org, name, until, prefix])
}

const REMOVE_BOUND: &str = "DELETE FROM bound WHERE org = ?1 AND name = ?2";

/// Removes the expiry and the prefix of a token.
pub fn remove<S: Alter>(tx: &mut Transaction<'_, S>, org: &str, name: &str) -> Result<(), Error>
    ensures { Writes S.Store AnyRows (bound_row_removed org.now name.now) tx.old tx.new result }
{
    write(tx, REMOVE_BOUND, params![org, name])
}

const FILL_BOUNDS: &str =
    "INSERT INTO bound (org, name, until, prefix) SELECT org, name, NULL, '' FROM token ORDER BY rowid";

/// Adds a row for each token: no expiry, and the empty prefix, which all workspaces have. The database has
/// the tables of schema 2.
pub(crate) fn fill<S: Alter>(tx: &mut Transaction<'_, S>) -> Result<(), Error>
    ensures { MakesBy S.Store (Moved 2 bounds_filled) tx.old tx.new result }
{
    write(tx, FILL_BOUNDS, &[])
}
