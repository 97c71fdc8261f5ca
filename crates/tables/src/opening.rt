//! Prepares a database for a store.
ghost use Rattle.std.specs.Prelude.{◌≡◌, ◌≤◌, ◌<◌, ◌&&◌, true, false, not, is_some, ℕ, List, length, take, drop, slice_get, Option, IfSome, OnOk, OnErr, IfOk, IfErr};
ghost use Rattle.std.specs.List.{list_any, list_all};
ghost use Rattle.std.specs.Str.{bytes_eq};
ghost use Rattle.sqlite.specs.Held.{state};
ghost use Rattle.sqlite.specs.State.{HasCleanDisk, KeepsCommit};
ghost use Rattle.statements.specs.Place.{IsOwn};
ghost use Rattle.statements.specs.Schema.{meta_table, version_table, edition_table};
ghost use Rattle.statements.specs.Tables.{our_tables, table_counts, tables_at};
ghost use Rattle.statements.specs.declared.making.TheConstants.{SCHEMA_VERSION};
ghost use Rattle.tables.specs.Opening.{any_there, all_there, newest_there, has_edition, is_integer_column, is_null, is_plain_column, has_schema_version_columns, is_first_key, has_none, is_meta_table, is_meta, is_edition, have_names, version_names, has_versions, has_our_columns, older_there, has_older, StoresVersionIn, StoredBy, IsOther, GivesBack};
ghost use Rattle.tables.specs.Stores.{is_in_schema};
ghost use Rattle.tables.specs.Inner.Making.{is_there, IsMade, found_in, ReportsFound, FindsOurs, IsClimbed, IsOnWay};
ghost use Rattle.tables.specs.Inner.Steps.{EndsIdle};
ghost use Rattle.tables.specs.Versions.{HoldsSchema, schema_records, KeepsBeside};

use crate::transactions::{self, assert_committed};
use machine::Fault;
use sqlite::{Alter, Connection, Error};
use sqlite_schema::schema::{Column, Kind, Schema, Table};
use sqlite_value::keys::Collation;
use sqlite_value::value::Value;
use statements::making::{self, SCHEMA_VERSION, TABLE_COUNTS, TABLES};

/// The first version of the schema, which is stored in meta. Later versions are stored in edition.
const FIRST: u64 = 1;

/// Which of our tables a database has.
#[derive(Clone, Copy)]
enum Found {
    /// None of the tables.
    Nothing,
    /// The tables of this version.
    Version(u64),
    /// Some of the tables, but not those of a version.
    Other,
}

/// Whether the schema has a table with this name.
fn is_there(schema: &Schema, name: &str) -> bool
    ensures { result ≡ is_there schema.now name.now }
{
    schema.table_named(name.as_bytes()).is_some()
}

/// Whether the schema has a table with each of these names.
fn all_named(schema: &Schema, names: &[&str]) -> bool
    ensures { result ≡ list_all (λ name. is_there schema.now name.now) names.now }
{
    names.iter().all(|name| is_there(schema, name))
}

/// Whether the schema has a table with one of these names.
fn any_named(schema: &Schema, names: &[&str]) -> bool
    ensures { result ≡ list_any (λ name. is_there schema.now name.now) names.now }
{
    names.iter().any(|name| is_there(schema, name))
}

/// Whether the schema has one of our tables.
fn any_there(schema: &Schema) -> bool
    ensures { result ≡ any_there schema.now }
{
    any_named(schema, TABLES)
}

/// Whether a database has one of our tables, of any version. It reads only the schema.
pub fn has_any_of_ours<S: Alter>(conn: &Connection<S>) -> bool
    ensures { result ≡ any_there (state S.Store conn.now).now.schema }
{
    any_there(conn.schema())
}

/// The number of tables of a version; none if there is no such version.
fn count_in(schema_version: u64) -> Option<usize>
    ensures { result ≡ slice_get table_counts schema_version }
{
    TABLE_COUNTS.get(schema_version as usize).copied()
}

/// Whether the first `count` of our tables exist, and none of the others.
fn first_there(schema: &Schema, count: usize) -> bool
    requires within { count ≤ length our_tables }
    ensures { result ≡ (list_all (is_in_schema schema.now) (take count our_tables) && not (list_any (is_in_schema schema.now) (drop count our_tables))) }
{
    let (first, others) = TABLES.split_at(count);
    all_named(schema, first) && !any_named(schema, others)
}

/// Whether all tables of a version exist, and none that a later version added.
fn all_there(schema: &Schema, schema_version: u64) -> bool
    ensures { result ≡ all_there schema_version schema.now }
{
    if schema_version == 0 {
        return false;
    }
    match count_in(schema_version) {
        Some(count) => first_there(schema, count),
        None => false,
    }
}

/// The version, from the second on, whose tables exist, if there is one.
fn later_there(schema: &Schema) -> Option<u64>
    ensures there { IfSome result (λ n. (2 ≤ n) × (all_there n schema.now ≡ true)) }
    ensures reported { is_some result ≡ has_edition schema.now }
{
    for schema_version in FIRST..SCHEMA_VERSION {
        if all_there(schema, schema_version + 1) {
            return Some(schema_version + 1);
        }
    }
    None
}

/// Whether a column has this name and allows only integers.
fn is_integer_column(column: &Column, name: &[u8]) -> bool
    ensures { result ≡ is_integer_column column.now name.now }
{
    column.is_strict && column.kind == Kind::Integer && column.name.as_slice() == name
}

fn is_null(value: &Value) -> bool
    ensures { result ≡ is_null value.now }
{
    match value {
        Value::Null => true,
        Value::Int(_) => false,
        Value::Real(_) => false,
        Value::Text(_) => false,
        Value::Blob(_) => false,
    }
}

/// Whether a column has no default and the binary collation.
fn is_plain_column(column: &Column) -> bool
    ensures { result ≡ is_plain_column column.now }
{
    is_null(&column.default) && column.collation == Collation::Binary
}

/// Whether these are the columns of a table that stores a version.
fn has_schema_version_columns(columns: &[Column]) -> bool
    ensures { result ≡ has_schema_version_columns columns.now }
{
    match columns {
        [one, schema_version] => {
            (is_integer_column(one, b"one".as_slice()) && is_plain_column(one) && !one.not_null)
                && (is_integer_column(schema_version, b"version".as_slice())
                    && is_plain_column(schema_version)
                    && schema_version.not_null)
        }
        _ => false,
    }
}

fn is_first_key(key: Option<usize>) -> bool
    ensures { result ≡ is_first_key key }
{
    match key {
        None => false,
        Some(at) => at == 0,
    }
}

fn has_none(places: &[usize]) -> bool
    ensures { result ≡ has_none places.now }
{
    match places {
        [] => true,
        _ => false,
    }
}

/// Whether a table has the columns of one that stores a version.
fn is_meta_table(table: &Table) -> bool
    ensures { result ≡ is_meta_table table.now }
{
    is_first_key(table.key)
        && has_none(table.computed.as_slice())
        && has_schema_version_columns(table.columns.as_slice())
}

/// Whether the table meta has the columns of ours.
fn is_meta(schema: &Schema) -> bool
    ensures exact { result ≡ is_meta schema.now }
    ensures own { IsOwn schema.now meta_table → result ≡ true }
{
    match schema.table_named(b"meta".as_slice()) {
        Some(at) => match schema.tables.as_slice().get(at) {
            Some(table) => is_meta_table(table),
            None => false,
        },
        None => false,
    }
}

/// Whether the table edition has the columns of ours, which are those of meta.
fn is_edition(schema: &Schema) -> bool
    ensures exact { result ≡ is_edition schema.now }
    ensures own { IsOwn schema.now edition_table → result ≡ true }
{
    match schema.table_named(b"edition".as_slice()) {
        Some(at) => match schema.tables.as_slice().get(at) {
            Some(table) => is_meta_table(table),
            None => false,
        },
        None => false,
    }
}

/// Whether a column has this name.
fn is_named(column: &Column, name: &[u8]) -> bool
    ensures { result ≡ bytes_eq column.now.name name.now }
{
    column.name.as_slice() == name
}

/// Whether these are the columns of the table of versions, by their names.
fn has_version_names(columns: &[Column]) -> bool
    ensures { result ≡ have_names version_names columns.now }
{
    match columns {
        [org, ws, number, serial, lineage, created, size] => {
            is_named(org, b"org".as_slice())
                && is_named(ws, b"ws".as_slice())
                && is_named(number, b"number".as_slice())
                && is_named(serial, b"serial".as_slice())
                && is_named(lineage, b"lineage".as_slice())
                && is_named(created, b"created".as_slice())
                && is_named(size, b"size".as_slice())
        }
        _ => false,
    }
}

/// Whether the table version has the columns of ours.
fn has_versions(schema: &Schema) -> bool
    ensures exact { result ≡ has_versions schema.now }
    ensures own { IsOwn schema.now version_table → result ≡ true }
{
    match schema.table_named(b"version".as_slice()) {
        Some(at) => match schema.tables.as_slice().get(at) {
            Some(table) => has_version_names(table.columns.as_slice()),
            None => false,
        },
        None => false,
    }
}

/// Whether the tables that store the version, and the table version, have the columns of ours.
fn has_our_columns(schema: &Schema) -> bool
    ensures { result ≡ has_our_columns schema.now }
{
    (is_meta(schema) && has_versions(schema))
        && (later_there(schema).is_none() || is_edition(schema))
}

/// The version before the newest whose tables exist, if there is one.
fn older_there(schema: &Schema) -> Option<u64>
    ensures there { IfSome result (λ n. (n < SCHEMA_VERSION) × (all_there n schema.now ≡ true)) }
    ensures reported { is_some result ≡ older_there SCHEMA_VERSION schema.now }
{
    for schema_version in FIRST..SCHEMA_VERSION {
        if all_there(schema, schema_version) {
            return Some(schema_version);
        }
    }
    None
}

/// The version before the newest whose tables a database has, with our columns. An open upgrades it if the database states this
/// version. It reads only the schema.
pub fn older_version<S: Alter>(conn: &Connection<S>) -> Option<u64>
    ensures there { IfSome result (λ n. (n < SCHEMA_VERSION) × (all_there n (state S.Store conn.now).now.schema ≡ true)) }
    ensures reported { is_some result ≡ has_older (state S.Store conn.now).now.schema }
{
    let schema = conn.schema();
    if !has_our_columns(schema) {
        return None;
    }
    older_there(schema)
}

/// What is found if the tables of a version exist and this version, or none, is stored.
fn found_in(schema_version: u64, reported: Option<u64>) -> Found
    ensures { result ≡ found_in schema_version reported }
{
    match reported {
        None => Found::Other,
        Some(reported) => {
            if reported == schema_version {
                Found::Version(schema_version)
            } else {
                Found::Other
            }
        }
    }
}

/// Whether meta has the first version, if the tables of that version exist.
fn find_first<S: Alter>(conn: &mut Connection<S>) -> Result<Found, Error>
    requires idle { conn.old.in_transaction ≡ false }
    requires there { all_there 1 (state S.Store conn.old).now.schema ≡ true }
    ensures ends { EndsIdle S.Store conn.old conn.new }
    ensures found { HasCleanDisk (state S.Store conn.new) → IfOk result (λ found. ReportsFound found (state S.Store conn.old) (state S.Store conn.new)) }
    ensures err { HasCleanDisk (state S.Store conn.new) → OnErr result (KeepsCommit (state S.Store conn.old) (state S.Store conn.new)) }
{
    assert_committed(conn);
    match making::schema_version(conn) {
        Ok(reported) => Ok(found_in(FIRST, reported)),
        Err(error) => Err(error),
    }
}

/// Whether edition has this version, if the tables of that version exist.
fn find_later<S: Alter>(conn: &mut Connection<S>, schema_version: u64) -> Result<Found, Error>
    requires idle { conn.old.in_transaction ≡ false }
    requires there { all_there schema_version (state S.Store conn.old).now.schema ≡ true }
    requires later { 2 ≤ schema_version }
    ensures ends { EndsIdle S.Store conn.old conn.new }
    ensures found { HasCleanDisk (state S.Store conn.new) → IfOk result (λ found. ReportsFound found (state S.Store conn.old) (state S.Store conn.new)) }
    ensures err { HasCleanDisk (state S.Store conn.new) → OnErr result (KeepsCommit (state S.Store conn.old) (state S.Store conn.new)) }
{
    assert_committed(conn);
    match making::edition(conn) {
        Ok(reported) => Ok(found_in(schema_version, reported)),
        Err(error) => Err(error),
    }
}

/// The version whose tables exist, and whether it is stored.
fn find_schema_version<S: Alter>(conn: &mut Connection<S>) -> Result<Found, Error>
    requires idle { conn.old.in_transaction ≡ false }
    ensures ends { EndsIdle S.Store conn.old conn.new }
    ensures found { HasCleanDisk (state S.Store conn.new) → IfOk result (λ found. ReportsFound found (state S.Store conn.old) (state S.Store conn.new)) }
    ensures err { HasCleanDisk (state S.Store conn.new) → OnErr result (KeepsCommit (state S.Store conn.old) (state S.Store conn.new)) }
    ensures edition { has_edition (state S.Store conn.old).now.schema ≡ true → is_edition (state S.Store conn.old).now.schema ≡ false → IfOk result (λ found. found ≡ Found.Other) × IfErr result (λ _. ⊥) }
    ensures missing { all_there 1 (state S.Store conn.old).now.schema ≡ false → has_edition (state S.Store conn.old).now.schema ≡ false → IfOk result (λ found. found ≡ Found.Other) × IfErr result (λ _. ⊥) }
{
    let later = later_there(conn.schema());
    match later {
        Some(schema_version) => {
            if !is_edition(conn.schema()) {
                return Ok(Found::Other);
            }
            find_later(conn, schema_version)
        }
        None => {
            if !all_there(conn.schema(), FIRST) {
                return Ok(Found::Other);
            }
            find_first(conn)
        }
    }
}

/// Finds which of our tables a database has.
fn find<S: Alter>(conn: &mut Connection<S>) -> Result<Found, Error>
    requires idle { conn.old.in_transaction ≡ false }
    ensures ends { EndsIdle S.Store conn.old conn.new }
    ensures found { HasCleanDisk (state S.Store conn.new) → IfOk result (λ found. FindsOurs found (state S.Store conn.old) (state S.Store conn.new)) }
    ensures err { HasCleanDisk (state S.Store conn.new) → OnErr result (KeepsCommit (state S.Store conn.old) (state S.Store conn.new)) }
    ensures nothing { HasCleanDisk (state S.Store conn.new) → IfOk result (λ found. found ≡ Found.Nothing → conn.new ≡ conn.old) }
    ensures foreign { any_there (state S.Store conn.old).now.schema ≡ true → is_meta (state S.Store conn.old).now.schema ≡ false → IfOk result (λ found. found ≡ Found.Other) × IfErr result (λ _. ⊥) }
    ensures edition { any_there (state S.Store conn.old).now.schema ≡ true → has_edition (state S.Store conn.old).now.schema ≡ true → is_edition (state S.Store conn.old).now.schema ≡ false
        → IfOk result (λ found. found ≡ Found.Other) × IfErr result (λ _. ⊥) }
    ensures missing { any_there (state S.Store conn.old).now.schema ≡ true → all_there 1 (state S.Store conn.old).now.schema ≡ false → has_edition (state S.Store conn.old).now.schema ≡ false
        → IfOk result (λ found. found ≡ Found.Other) × IfErr result (λ _. ⊥) }
    ensures older { any_there (state S.Store conn.old).now.schema ≡ true → has_versions (state S.Store conn.old).now.schema ≡ false → IfOk result (λ found. found ≡ Found.Other) × IfErr result (λ _. ⊥) }
{
    if !any_there(conn.schema()) {
        return Ok(Found::Nothing);
    }
    if !is_meta(conn.schema()) {
        return Ok(Found::Other);
    }
    if !has_versions(conn.schema()) {
        return Ok(Found::Other);
    }
    find_schema_version(conn)
}

/// Upgrades a database to the newest version, one version at a time, each in one transaction.
fn climb<S: Alter>(conn: &mut Connection<S>, from: u64) -> Result<(), Error>
    requires idle { conn.old.in_transaction ≡ false }
    ensures ends { EndsIdle S.Store conn.old conn.new }
    ensures climbed { HasCleanDisk (state S.Store conn.new) → OnOk result (IsClimbed from (state S.Store conn.old) (state S.Store conn.new)) × OnErr result (IsOnWay from (state S.Store conn.old) (state S.Store conn.new)) }
    ensures newest { from ≡ SCHEMA_VERSION → (conn.new ≡ conn.old) × IfErr result (λ _. ⊥) }
{
    for at in from..SCHEMA_VERSION {
        transactions::raise(conn, at)?;
    }
    Ok(())
}

/// Creates the newest version if none of the tables exists; otherwise upgrades the version that exists.
pub(crate) fn ready<S: Alter>(conn: &mut Connection<S>) -> Result<(), Fault>
    requires idle { conn.old.in_transaction ≡ false }
    ensures ends { EndsIdle S.Store conn.old conn.new }
    ensures made { HasCleanDisk (state S.Store conn.new) → OnOk result (any_there (state S.Store conn.old).now.schema ≡ false → IsMade (state S.Store conn.old) (state S.Store conn.new)) }
    ensures reported { HasCleanDisk (state S.Store conn.new) → OnOk result ((n : ℕ) → all_there n (state S.Store conn.old).now.schema ≡ true
        → StoresVersionIn n (state S.Store conn.old).now × StoredBy n (state S.Store conn.old).now) }
    ensures stays { HasCleanDisk (state S.Store conn.new) → OnOk result (newest_there (state S.Store conn.old).now.schema ≡ true → (state S.Store conn.new).committed ≡ (state S.Store conn.old).now) }
    ensures beside { HasCleanDisk (state S.Store conn.new) → OnOk result ((n : ℕ) → all_there n (state S.Store conn.old).now.schema ≡ true → KeepsBeside n SCHEMA_VERSION (state S.Store conn.old).now (state S.Store conn.new).committed) }
    ensures climbed { HasCleanDisk (state S.Store conn.new) → OnOk result ((n : ℕ) → HoldsSchema n (state S.Store conn.old).now
        → HoldsSchema SCHEMA_VERSION (state S.Store conn.new).committed × ((o : List ℕ) → schema_records SCHEMA_VERSION (state S.Store conn.new).committed o ≡ schema_records n (state S.Store conn.old).now o)
        × ((tables_at SCHEMA_VERSION (state S.Store conn.new).committed).pages ≡ (tables_at n (state S.Store conn.old).now).pages)) }
    ensures err { HasCleanDisk (state S.Store conn.new) → OnErr result (GivesBack (state S.Store conn.old) (state S.Store conn.new)) }
    ensures other { HasCleanDisk (state S.Store conn.new) → IfErr result (λ fault. fault ≡ Fault.Schema → (any_there (state S.Store conn.old).now.schema ≡ true) × IsOther (state S.Store conn.old)) }
    ensures kept { HasCleanDisk (state S.Store conn.new) → IfErr result (λ fault. fault ≡ Fault.Schema → KeepsCommit (state S.Store conn.old) (state S.Store conn.new)) }
    ensures foreign { any_there (state S.Store conn.old).now.schema ≡ true → is_meta (state S.Store conn.old).now.schema ≡ false → IfErr result (λ fault. fault ≡ Fault.Schema) × IfOk result (λ _. ⊥) }
    ensures edition { any_there (state S.Store conn.old).now.schema ≡ true → has_edition (state S.Store conn.old).now.schema ≡ true → is_edition (state S.Store conn.old).now.schema ≡ false
        → IfErr result (λ fault. fault ≡ Fault.Schema) × IfOk result (λ _. ⊥) }
    ensures missing { any_there (state S.Store conn.old).now.schema ≡ true → all_there 1 (state S.Store conn.old).now.schema ≡ false → has_edition (state S.Store conn.old).now.schema ≡ false
        → IfErr result (λ fault. fault ≡ Fault.Schema) × IfOk result (λ _. ⊥) }
    ensures older { any_there (state S.Store conn.old).now.schema ≡ true → has_versions (state S.Store conn.old).now.schema ≡ false → IfErr result (λ fault. fault ≡ Fault.Schema) × IfOk result (λ _. ⊥) }
{
    match find(conn) {
        Ok(Found::Nothing) => match transactions::make(conn) {
            Ok(()) => Ok(()),
            Err(_) => Err(Fault::Down),
        },
        Ok(Found::Version(schema_version)) => match climb(conn, schema_version) {
            Ok(()) => Ok(()),
            Err(_) => Err(Fault::Down),
        },
        Ok(Found::Other) => Err(Fault::Schema),
        Err(_) => Err(Fault::Down),
    }
}
