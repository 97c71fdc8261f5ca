//! Statements on the table keeping: the number of versions that each workspace keeps.
ghost use Rattle.statements.specs.Steps.{AnyRows, Equals, Writes, Queries};
ghost use Rattle.statements.specs.Changes.{retention_row_added, retention_changed, retention_row_removed, retentions_filled};
ghost use Rattle.statements.specs.Finds.{retention_of};
ghost use Rattle.statements.specs.Making.{MakesBy};
ghost use Rattle.statements.specs.Inner.Making.{Moved};

use crate::calls::{first_row, read_one, write};
use basis::KeepCount;
use sqlite::{Alter, Connection, Error, Transaction, params};

const FIND_RETENTION: &str = "SELECT keep FROM keeping WHERE org = ?1 AND ws = ?2 ORDER BY rowid";

/// The number of versions that the workspace with this name keeps.
pub fn find<S: Alter>(
    conn: &mut Connection<S>,
    org: &str,
    ws: &str,
) -> Result<Option<KeepCount>, Error>
    ensures { Queries S.Store (Equals (retention_of org.now ws.now)) conn.old conn.new result }
{
    let row = first_row(conn, FIND_RETENTION, params![org, ws]);
    read_one(row)
}

const ADD_RETENTION: &str = "INSERT INTO keeping (org, ws, keep) VALUES (?1, ?2, ?3)";

/// Adds the number of versions that a workspace keeps.
pub fn add<S: Alter>(
    tx: &mut Transaction<'_, S>,
    org: &str,
    ws: &str,
    retention: KeepCount,
) -> Result<(), Error>
    ensures { Writes S.Store AnyRows (retention_row_added org.now ws.now retention) tx.old tx.new result }
{
    let retention = retention.get();
    write(tx, ADD_RETENTION, params![org, ws, retention])
}

const SET_RETENTION: &str = "UPDATE keeping SET keep = ?3 WHERE org = ?1 AND ws = ?2";

/// Sets the number of versions that a workspace keeps.
pub fn set<S: Alter>(
    tx: &mut Transaction<'_, S>,
    org: &str,
    ws: &str,
    retention: KeepCount,
) -> Result<(), Error>
    ensures { Writes S.Store AnyRows (retention_changed retention org.now ws.now) tx.old tx.new result }
{
    let retention = retention.get();
    write(tx, SET_RETENTION, params![org, ws, retention])
}

const REMOVE_RETENTION: &str = "DELETE FROM keeping WHERE org = ?1 AND ws = ?2";

/// Removes the number of versions that a workspace keeps.
pub fn remove<S: Alter>(tx: &mut Transaction<'_, S>, org: &str, ws: &str) -> Result<(), Error>
    ensures { Writes S.Store AnyRows (retention_row_removed org.now ws.now) tx.old tx.new result }
{
    write(tx, REMOVE_RETENTION, params![org, ws])
}

const FILL_RETENTIONS: &str =
    "INSERT INTO keeping (org, ws, keep) SELECT org, name, 100 FROM ws ORDER BY rowid";

/// Adds a row for each workspace, with the number of versions that a new workspace keeps. The database has
/// the tables of schema 3.
pub(crate) fn fill<S: Alter>(tx: &mut Transaction<'_, S>) -> Result<(), Error>
    ensures { MakesBy S.Store (Moved 3 retentions_filled) tx.old tx.new result }
{
    write(tx, FILL_RETENTIONS, &[])
}
