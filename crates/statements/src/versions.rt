//! Statements on the table version.
ghost use Rattle.std.specs.Prelude.{◌≡◌, ◌<◌, ◌^◌, None};
ghost use Rattle.sqlite.specs.Held.{state};
ghost use Rattle.sqlite.specs.State.{Survives};
ghost use Rattle.statements.specs.Steps.{AnyRows, Equals, EqualsWhere, Writes, Reports, Reads, Queries};
ghost use Rattle.statements.specs.Changes.{new_version, version_added, version_removed};
ghost use Rattle.statements.specs.Listings.{version_rows_after, VersionsApart};
ghost use Rattle.statements.specs.Finds.{newest_of, oldest_below, size_of};

use crate::calls::{first_row, first_row_inside, first_rows, read_all, read_one, signed, write};
use crate::encoding::{seconds, signed_serial};
use basis::{Items, Moment, Number, Serial, VersionRow};
use sqlite::{Alter, Connection, Error, Transaction, params};
use std::alloc::Global;

const NEWEST_VERSION: &str =
    "SELECT number, serial, lineage, created, size FROM version WHERE org = ?1 AND ws = ?2 ORDER BY number DESC, rowid DESC LIMIT 1";

/// The version of a workspace with the greatest number.
pub fn newest<S: Alter>(
    conn: &mut Connection<S>,
    org: &str,
    ws: &str,
) -> Result<Option<VersionRow>, Error>
    ensures { Queries S.Store (Equals (newest_of org.now ws.now)) conn.old conn.new result }
{
    let row = first_row(conn, NEWEST_VERSION, params![org, ws]);
    read_one(row)
}

const LIST_VERSIONS: &str =
    "SELECT number, serial, lineage, created, size FROM version WHERE org = ?1 AND ws = ?2 AND number > ?3 ORDER BY number";

/// The versions of a workspace with numbers greater than `after`, without their texts, in the order of their
/// numbers, at most `most`.
pub fn list<S: Alter>(
    alloc: Global,
    conn: &mut Connection<S>,
    org: &str,
    ws: &str,
    after: u32,
    most: usize,
) -> Result<Items<VersionRow>, Error>
    ensures { Queries S.Store (EqualsWhere (VersionsApart org.now ws.now) (version_rows_after org.now ws.now after most)) conn.old conn.new result }
{
    let rows = first_rows(alloc, conn, LIST_VERSIONS, params![org, ws, after], most);
    read_all(alloc, rows)
}

const VERSION_SIZE: &str =
    "SELECT size FROM version WHERE org = ?1 AND ws = ?2 AND number = ?3 ORDER BY rowid";

/// The number of bytes of a version's text; none if there is no such version.
pub fn size<S: Alter>(
    conn: &mut Connection<S>,
    org: &str,
    ws: &str,
    number: Number,
) -> Result<Option<u64>, Error>
    ensures { Queries S.Store (Equals (size_of org.now ws.now number)) conn.old conn.new result }
{
    let number = number.get();
    let row = first_row(conn, VERSION_SIZE, params![org, ws, number]);
    read_one(row)
}

const OLDEST_VERSION_BELOW: &str =
    "SELECT number, serial, lineage, created, size FROM version WHERE org = ?1 AND ws = ?2 AND number < ?3 ORDER BY number, rowid LIMIT 1";

/// The version with the least number among those of a workspace with numbers below `number`, without its
/// text. `number` may be one more than the greatest number.
pub fn oldest_below<S: Alter>(
    tx: &mut Transaction<'_, S>,
    org: &str,
    ws: &str,
    number: u32,
) -> Result<Option<VersionRow>, Error>
    ensures same_reference { tx.new.conn.ghost_name ≡ tx.old.conn.ghost_name }
    ensures reads { Reads (Equals (oldest_below org.now ws.now number)) (state S.Store tx.old.conn.now) (state S.Store tx.new.conn.now) result }
    ensures survives { Survives (state S.Store tx.old.conn.now) (state S.Store tx.new.conn.now) (λ _. ⊥) }
{
    let row = first_row_inside(tx, OLDEST_VERSION_BELOW, params![org, ws, number]);
    read_one(row)
}

const ADD_VERSION: &str =
    "INSERT INTO version (org, ws, number, serial, lineage, created, size) VALUES (?1, ?2, ?3, ?4, ?5, ?6, ?7)";

/// Adds a version whose text has `size` bytes. If this succeeds, there was no version with its number.
pub fn add<'v, S: Alter>(
    tx: &mut Transaction<'_, S>,
    org: &'v str,
    ws: &'v str,
    number: Number,
    serial: Serial,
    lineage: &'v str,
    created: Moment,
    size: u64,
) -> Result<(), Error>
    requires size_fits { size < 2 ^ 63 }
    ensures writes { Writes S.Store AnyRows (version_added org.now ws.now (new_version number serial lineage.now created size)) tx.old tx.new result }
    ensures fresh { Reports (λ _ t. size_of org.now ws.now number t ≡ None) (state S.Store tx.old.conn.now) (state S.Store tx.new.conn.now) result }
{
    let number = number.get();
    let serial = signed_serial(serial);
    let created = seconds(created);
    let size = signed(size);
    write(
        tx,
        ADD_VERSION,
        params![org, ws, number, &serial, lineage, &created, &size],
    )
}

const REMOVE_VERSION: &str = "DELETE FROM version WHERE org = ?1 AND ws = ?2 AND number = ?3";

/// Removes a version. The rows that name the pages of its text are removed separately.
pub fn remove<S: Alter>(
    tx: &mut Transaction<'_, S>,
    org: &str,
    ws: &str,
    number: Number,
) -> Result<(), Error>
    ensures { Writes S.Store AnyRows (version_removed org.now ws.now number) tx.old tx.new result }
{
    let number = number.get();
    write(tx, REMOVE_VERSION, params![org, ws, number])
}
