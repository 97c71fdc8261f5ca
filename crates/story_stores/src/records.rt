//! All contents of the tables, as bytes to compare.
use crate::laws::count_of;
use sqlite::types::ValueRef;
use sqlite::{Alter, Connection, Error, Row};
use std::alloc::{AllocError, Global};
use story_runner::failures::Failure;

/// The tables of the first version.
const FIRST: &[&str] = &[
    "SELECT * FROM meta",
    "SELECT * FROM org",
    "SELECT * FROM token",
    "SELECT * FROM ws",
    "SELECT * FROM version",
    "SELECT * FROM run",
    "SELECT * FROM vpage",
    "SELECT * FROM page",
];

/// What the second version has beside them.
const SECOND: &[&str] = &["SELECT * FROM bound", "SELECT * FROM edition"];

/// What the third version has beside these.
const THIRD: &[&str] = &["SELECT * FROM keeping"];

/// Whether there are tables of the second version.
const HAS_SECOND: &str = "SELECT count(*) FROM sqlite_schema WHERE name = 'edition'";

// A mark, and so many bytes.
fn put_bytes(all: &mut Vec<u8>, mark: u8, bytes: &[u8]) -> Result<(), AllocError> {
    all.push(mark)?;
    all.extend_from_slice(&bytes.len().to_le_bytes())?;
    all.extend_from_slice(bytes)
}

fn put_value(all: &mut Vec<u8>, value: ValueRef<'_>) -> Result<(), AllocError> {
    match value {
        ValueRef::Int(number) => put_bytes(all, b'i', &number.to_le_bytes()),
        ValueRef::Text(text) => put_bytes(all, b't', text),
        ValueRef::Blob(bytes) => put_bytes(all, b'b', bytes),
        ValueRef::Null => put_bytes(all, b'n', b""),
        ValueRef::Real(_) => put_bytes(all, b'r', b""),
    }
}

fn put_row(all: &mut Vec<u8>, row: &Row) -> Result<(), Error> {
    all.push(b'\n')?;
    for at in 0..row.column_count() {
        put_value(all, row.get_ref(at)?)?;
    }
    Ok(())
}

fn put_table<S: Alter>(
    all: &mut Vec<u8>,
    conn: &mut Connection<S>,
    sql: &str,
) -> Result<(), Error> {
    all.push(b'#')?;
    let rows = conn.query_all(sql, &[])?;
    for row in rows.as_slice() {
        put_row(all, row)?;
    }
    Ok(())
}

fn put_tables<S: Alter>(
    all: &mut Vec<u8>,
    conn: &mut Connection<S>,
    tables: &[&str],
) -> Result<(), Error> {
    for sql in tables {
        put_table(all, conn, sql)?;
    }
    Ok(())
}

fn put_record<S: Alter>(all: &mut Vec<u8>, conn: &mut Connection<S>) -> Result<(), Error> {
    put_tables(all, conn, FIRST)?;
    put_tables(all, conn, SECOND)?;
    put_tables(all, conn, THIRD)
}

fn put_earlier<S: Alter>(all: &mut Vec<u8>, conn: &mut Connection<S>) -> Result<(), Error> {
    put_tables(all, conn, FIRST)?;
    match count_of(conn, HAS_SECOND)? {
        0 => Ok(()),
        _ => put_tables(all, conn, SECOND),
    }
}

/// The contents of the tables over a connection.
pub fn record_of<S: Alter>(
    alloc: Global,
    line: usize,
    conn: &mut Connection<S>,
) -> Result<Vec<u8>, Failure> {
    let mut all = Vec::new(alloc);
    match put_record(&mut all, conn) {
        Ok(()) => Ok(all),
        Err(_) => Err(Failure::refused(line, "the tables don't answer")),
    }
}

/// The contents of tables of the first schema version, or of the second.
pub fn earlier_record_of<S: Alter>(
    alloc: Global,
    conn: &mut Connection<S>,
) -> Result<Vec<u8>, Failure> {
    let mut all = Vec::new(alloc);
    match put_earlier(&mut all, conn) {
        Ok(()) => Ok(all),
        Err(_) => Err(Failure::refused(0, "the file has no tables of an earlier version")),
    }
}
