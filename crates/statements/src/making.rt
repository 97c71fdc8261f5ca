//! Statements that create the tables of the newest schema, statements that upgrade a schema to the next
//! version, and those on the tables edition and meta, which have the version.
ghost use Rattle.std.specs.Prelude.{◌≡◌, ◌≤◌, ◌<◌, ℕ, List, length, IfOk};
ghost use Rattle.std.specs.List.{AllZip};
ghost use Rattle.sqlite_schema.specs.declared.schema.Table.{Table};
ghost use Rattle.sqlite.specs.Held.{state};
ghost use Rattle.sqlite.specs.State.{HasCleanDisk};
ghost use Rattle.statements.specs.Steps.{AnyRows, Equals, Writes, Queries};
ghost use Rattle.statements.specs.Changes.{edition_moved};
ghost use Rattle.statements.specs.declared.making.TheConstants.{SCHEMA_VERSION};
ghost use Rattle.statements.specs.Tables.{count_in, added_by, our_tables};
ghost use Rattle.statements.specs.Making.{MakesBy, HasSchema, Raises, HasMeta, HasEdition, stored_schema_version, schema_version_in, edition_in};
ghost use Rattle.statements.specs.Inner.Making.{Grows, IsMaker, texts_in, all_of, Moved, Reported, schema_version_cleared};
ghost use Rattle.statements.specs.Rows.{Kept};

use crate::calls::{first_row, read_one, write};
use crate::{bounds, retentions};
use sqlite::{Alter, Connection, Error, Transaction, params};

/// The newest version of the schema.
pub const SCHEMA_VERSION: u64 = 3;

/// The names of the tables, in the order of their creation.
pub const TABLES: &[&str] = &[
    "meta", "org", "token", "ws", "version", "run", "page", "vpage", "bound", "edition", "keeping",
];

/// The number of tables of each version, from version 0 on. A version has the first ones of `TABLES`.
pub const TABLE_COUNTS: &[usize] = &[0, 8, 10, 11];

const MAKE_META: &str =
    "CREATE TABLE meta (one INTEGER PRIMARY KEY CHECK (one = 1), version INTEGER NOT NULL CHECK (version = 1)) STRICT";

const MAKE_ORG: &str =
    "CREATE TABLE org (name TEXT NOT NULL PRIMARY KEY, cap INTEGER NOT NULL CHECK (cap BETWEEN 0 AND 100000)) STRICT";

const MAKE_TOKEN: &str =
    "CREATE TABLE token (org TEXT NOT NULL, name TEXT NOT NULL, digest BLOB NOT NULL, role INTEGER NOT NULL CHECK (role BETWEEN 0 AND 2), PRIMARY KEY (org, name), UNIQUE (org, digest)) STRICT";

const MAKE_WS: &str =
    "CREATE TABLE ws (org TEXT NOT NULL, name TEXT NOT NULL, auto INTEGER NOT NULL, kind INTEGER NOT NULL CHECK (kind BETWEEN 0 AND 2), lock_id TEXT CHECK ((lock_id IS NOT NULL) = (kind = 1)), lock_text BLOB CHECK ((lock_text IS NOT NULL) = (kind = 1)), run INTEGER CHECK ((run IS NOT NULL) = (kind = 2)), released TEXT, next_version INTEGER NOT NULL, next_run INTEGER NOT NULL, PRIMARY KEY (org, name)) STRICT";

const MAKE_VERSION: &str =
    "CREATE TABLE version (org TEXT NOT NULL, ws TEXT NOT NULL, number INTEGER NOT NULL, serial INTEGER NOT NULL, lineage TEXT NOT NULL, created INTEGER NOT NULL, size INTEGER NOT NULL, PRIMARY KEY (org, ws, number)) STRICT";

const MAKE_RUN: &str =
    "CREATE TABLE run (org TEXT NOT NULL, ws TEXT NOT NULL, number INTEGER NOT NULL, plan_only INTEGER NOT NULL, rkey TEXT, message TEXT NOT NULL, created INTEGER NOT NULL, status INTEGER NOT NULL CHECK (status BETWEEN 0 AND 8), action INTEGER CHECK (action BETWEEN 0 AND 6), PRIMARY KEY (org, ws, number), UNIQUE (org, ws, rkey)) STRICT";

const MAKE_PAGE: &str =
    "CREATE TABLE page (pkey BLOB NOT NULL, twin INTEGER NOT NULL, bytes BLOB NOT NULL, uses INTEGER NOT NULL CHECK (uses >= 1), PRIMARY KEY (pkey, twin)) STRICT";

const MAKE_VPAGE: &str =
    "CREATE TABLE vpage (org TEXT NOT NULL, ws TEXT NOT NULL, number INTEGER NOT NULL, place INTEGER NOT NULL, pkey BLOB NOT NULL, twin INTEGER NOT NULL, PRIMARY KEY (org, ws, number, place), FOREIGN KEY (pkey, twin) REFERENCES page (pkey, twin) ON DELETE RESTRICT) STRICT";

const MAKE_BOUND: &str =
    "CREATE TABLE bound (org TEXT NOT NULL, name TEXT NOT NULL, until INTEGER, prefix TEXT NOT NULL, PRIMARY KEY (org, name), FOREIGN KEY (org, name) REFERENCES token (org, name) ON DELETE CASCADE) STRICT";

const MAKE_EDITION: &str =
    "CREATE TABLE edition (one INTEGER PRIMARY KEY CHECK (one = 1), version INTEGER NOT NULL CHECK (version >= 2)) STRICT";

const MAKE_KEEPING: &str =
    "CREATE TABLE keeping (org TEXT NOT NULL, ws TEXT NOT NULL, keep INTEGER NOT NULL CHECK (keep BETWEEN 1 AND 1000), PRIMARY KEY (org, ws), FOREIGN KEY (org, ws) REFERENCES ws (org, name) ON DELETE CASCADE) STRICT";

/// The index by which the first waiting run is found.
const MAKE_RUN_INDEX: &str =
    "CREATE INDEX IF NOT EXISTS run_by_status ON run (org, ws, status, number)";

/// The index by which a page that is removed is tested for remaining references.
const MAKE_VPAGE_INDEX: &str = "CREATE INDEX IF NOT EXISTS vpage_page ON vpage (pkey, twin)";

/// The texts that create the tables, in the order in which they are run.
pub const TABLE_TEXTS: &[&str] = &[
    MAKE_META,
    MAKE_ORG,
    MAKE_TOKEN,
    MAKE_WS,
    MAKE_VERSION,
    MAKE_RUN,
    MAKE_PAGE,
    MAKE_VPAGE,
    MAKE_BOUND,
    MAKE_EDITION,
    MAKE_KEEPING,
];

/// The texts that create the tables of schema 1 and their indexes, in the order in which they are run. An
/// index is not created if one that is not ours has its name.
const FIRST: &[&str] = &[
    MAKE_META,
    MAKE_ORG,
    MAKE_TOKEN,
    MAKE_WS,
    MAKE_VERSION,
    MAKE_RUN,
    MAKE_RUN_INDEX,
    MAKE_PAGE,
    MAKE_VPAGE,
    MAKE_VPAGE_INDEX,
];

/// The texts of the tables that schema 2 adds.
const SECOND: &[&str] = &[MAKE_BOUND, MAKE_EDITION];

/// The text of the table that schema 3 adds.
const THIRD: &[&str] = &[MAKE_KEEPING];

/// Creates a table or an index.
fn make<S: Alter>(tx: &mut Transaction<'_, S>, text: &str) -> Result<(), Error>
    ensures { (made : List Table) → IsMaker text.now made → MakesBy S.Store (Grows made) tx.old tx.new result }
{
    write(tx, text, &[])
}

/// Creates tables and indexes, in this order.
fn make_all<S: Alter>(tx: &mut Transaction<'_, S>, texts: &[&str]) -> Result<(), Error>
    ensures { (made : List (List Table)) → AllZip IsMaker (texts_in texts.now) made → 1 ≤ length made → MakesBy S.Store (Grows (all_of made)) tx.old tx.new result }
{
    for text in texts {
        make(tx, text)?;
    }
    Ok(())
}

/// Creates the tables that a version adds, and their indexes. Fails with `InvalidQuery` if there is no such
/// version.
fn make_tables_of<S: Alter>(tx: &mut Transaction<'_, S>, schema_version: u64) -> Result<(), Error>
    ensures { MakesBy S.Store (Grows (added_by schema_version)) tx.old tx.new result }
{
    match schema_version {
        1 => make_all(tx, FIRST),
        2 => make_all(tx, SECOND),
        3 => make_all(tx, THIRD),
        _ => Err(Error::InvalidQuery),
    }
}

/// Creates the tables of all versions, in the order of the versions.
fn make_tables<S: Alter>(tx: &mut Transaction<'_, S>) -> Result<(), Error>
    ensures { MakesBy S.Store (Grows our_tables) tx.old tx.new result }
{
    for schema_version in 0..SCHEMA_VERSION {
        make_tables_of(tx, schema_version + 1)?;
    }
    Ok(())
}

const SET_VERSION: &str = "INSERT INTO edition (one, version) VALUES (1, ?1)";

/// Stores the version of a database that has the tables of that version and no version yet.
fn set_schema_version<S: Alter>(
    tx: &mut Transaction<'_, S>,
    schema_version: u32,
) -> Result<(), Error>
    requires there { 9 < count_in schema_version }
    ensures { MakesBy S.Store (Reported schema_version) tx.old tx.new result }
{
    write(tx, SET_VERSION, params![schema_version])
}

const MOVE_VERSION: &str = "UPDATE edition SET version = ?1";

/// Stores the version of a database that has the tables of that version and the number of another.
fn move_schema_version<S: Alter>(
    tx: &mut Transaction<'_, S>,
    schema_version: u32,
) -> Result<(), Error>
    requires there { 9 < count_in schema_version }
    ensures { MakesBy S.Store (Moved schema_version (edition_moved schema_version)) tx.old tx.new result }
{
    write(tx, MOVE_VERSION, params![schema_version])
}

/// Stores the newest version again. If the database has it already, no row changes, but the row is written.
pub fn touch_schema_version<S: Alter>(tx: &mut Transaction<'_, S>) -> Result<(), Error>
    ensures { Writes S.Store AnyRows (edition_moved SCHEMA_VERSION) tx.old tx.new result }
{
    write(tx, MOVE_VERSION, params![SCHEMA_VERSION as u32])
}

const CLEAR_VERSION: &str = "DELETE FROM meta";

/// Removes the version from meta, in a database that has the tables of schema 2.
fn clear_schema_version<S: Alter>(tx: &mut Transaction<'_, S>) -> Result<(), Error>
    ensures { MakesBy S.Store (Moved 2 schema_version_cleared) tx.old tx.new result }
{
    write(tx, CLEAR_VERSION, &[])
}

/// Creates the newest schema: its tables, and the row with its version.
pub fn make_schema<S: Alter>(tx: &mut Transaction<'_, S>) -> Result<(), Error>
    ensures { MakesBy S.Store HasSchema tx.old tx.new result }
{
    make_tables(tx)?;
    set_schema_version(tx, SCHEMA_VERSION as u32)
}

/// Upgrades schema 1 to schema 2: each token gets its row of bound, and edition has the version in place of
/// meta.
fn raise_first<S: Alter>(tx: &mut Transaction<'_, S>) -> Result<(), Error>
    ensures { MakesBy S.Store (Raises 1) tx.old tx.new result }
{
    make_tables_of(tx, 2)?;
    bounds::fill(tx)?;
    clear_schema_version(tx)?;
    set_schema_version(tx, 2)
}

/// Upgrades schema 2 to schema 3: each workspace gets its row of keeping, and edition has the new version.
fn raise_second<S: Alter>(tx: &mut Transaction<'_, S>) -> Result<(), Error>
    ensures { MakesBy S.Store (Raises 2) tx.old tx.new result }
{
    make_tables_of(tx, 3)?;
    retentions::fill(tx)?;
    move_schema_version(tx, 3)
}

/// Upgrades a schema to the next version. Fails with `InvalidQuery` if there is none.
pub fn raise<S: Alter>(tx: &mut Transaction<'_, S>, from: u64) -> Result<(), Error>
    ensures { MakesBy S.Store (Raises from) tx.old tx.new result }
{
    match from {
        1 => raise_first(tx),
        2 => raise_second(tx),
        _ => Err(Error::InvalidQuery),
    }
}

const VERSION: &str = "SELECT version FROM meta WHERE one = 1 ORDER BY rowid";

/// The version in meta, or none. Only schema 1 has it there.
pub fn schema_version<S: Alter>(conn: &mut Connection<S>) -> Result<Option<u64>, Error>
    ensures reads { Queries S.Store (Equals schema_version_in) conn.old conn.new result }
    ensures reported { HasCleanDisk (state S.Store conn.new) → IfOk result (λ schema_version. (table : Table) (metas : List (Kept ℕ)) → HasMeta (state S.Store conn.old).now table metas → schema_version ≡ stored_schema_version metas) }
{
    let row = first_row(conn, VERSION, &[]);
    read_one(row)
}

const EDITION: &str = "SELECT version FROM edition WHERE one = 1 ORDER BY rowid";

/// The version in edition, or none. Each schema from 2 on has it there.
pub fn edition<S: Alter>(conn: &mut Connection<S>) -> Result<Option<u64>, Error>
    ensures reads { Queries S.Store (Equals edition_in) conn.old conn.new result }
    ensures reported { HasCleanDisk (state S.Store conn.new) → IfOk result (λ schema_version. (table : Table) (editions : List (Kept ℕ)) → HasEdition (state S.Store conn.old).now table editions → schema_version ≡ stored_schema_version editions) }
{
    let row = first_row(conn, EDITION, &[]);
    read_one(row)
}
