//! A workspace read completely: all its rows in each table, and its organization's, by one query each. Loops find the rest
//! in them, without further queries, and need no order but that of a text's pages.
use sqlite::types::ValueRef;
use sqlite::{Alter, Connection, Error, Row, params};
use std::alloc::{AllocError, Global};
use story_runner::failures::Failure;

/// The positions of a workspace's tables among all that are read, and after them those of its organization's.
pub const WORKSPACE: usize = 0;

pub const RETENTION: usize = 1;

pub const VERSIONS: usize = 2;

const PAGES: usize = 3;

pub const RUNS: usize = 4;

pub const ORGANIZATION: usize = 5;

pub const NAMES: usize = 6;

pub const RETENTIONS: usize = 7;

pub const NUMBERS: usize = 8;

pub const TOKENS: usize = 9;

const OF_WORKSPACE: &[&str] = &[
    "SELECT auto, kind, lock_id, lock_text, run, released, next_version, next_run FROM ws WHERE org = ?1 AND name = ?2",
    "SELECT keep FROM keeping WHERE org = ?1 AND ws = ?2",
    "SELECT number, serial, lineage, created, size FROM version WHERE org = ?1 AND ws = ?2",
    "SELECT number, bytes FROM vpage, page WHERE org = ?1 AND ws = ?2 AND page.pkey = vpage.pkey AND page.twin = vpage.twin ORDER BY number, place",
    "SELECT number, plan_only, rkey, message, created, status, action FROM run WHERE org = ?1 AND ws = ?2",
];

const OF_ORGANIZATION: &[&str] = &[
    "SELECT cap FROM org WHERE name = ?1",
    "SELECT name, auto, kind, lock_id, run FROM ws WHERE org = ?1",
    "SELECT ws, keep FROM keeping WHERE org = ?1",
    "SELECT ws, number FROM version WHERE org = ?1",
    "SELECT token.role, token.digest, token.name, bound.until, bound.prefix FROM token LEFT JOIN bound ON bound.org = ?1 AND bound.name = token.name WHERE token.org = ?1",
];

/// The rows of a workspace and of its organization, table by table.
#[derive(Drop)]
pub struct AllRows {
    tables: Vec<Vec<Row>>,
}

fn push_tables<S: Alter>(
    tables: &mut Vec<Vec<Row>>,
    conn: &mut Connection<S>,
    queries: &[&str],
    params: &[ValueRef<'_>],
) -> Result<(), Error> {
    for sql in queries {
        let rows = conn.query_all(sql, params)?;
        tables.push(rows)?;
    }
    Ok(())
}

fn push_all<S: Alter>(
    tables: &mut Vec<Vec<Row>>,
    conn: &mut Connection<S>,
    org: &str,
    ws: &str,
) -> Result<(), Error> {
    push_tables(tables, conn, OF_WORKSPACE, params![org, ws])?;
    push_tables(tables, conn, OF_ORGANIZATION, params![org])
}

/// All rows of a workspace and of its organization.
pub fn read_all_rows<S: Alter>(
    alloc: Global,
    line: usize,
    conn: &mut Connection<S>,
    org: &str,
    ws: &str,
) -> Result<AllRows, Failure> {
    let mut tables = Vec::new(alloc);
    match push_all(&mut tables, conn, org, ws) {
        Ok(()) => Ok(AllRows { tables }),
        Err(_) => Err(Failure::refused(line, "the tables don't answer")),
    }
}

impl AllRows {
    /// The rows of a table.
    pub fn rows(&self, table: usize) -> &[Row] {
        match self.tables.get(table) {
            Some(rows) => rows.as_slice(),
            None => &[],
        }
    }

    /// The workspace's own row.
    pub fn workspace(&self) -> Option<&Row> {
        self.rows(WORKSPACE).first()
    }

    /// The text of the version of a number, of its pages.
    pub fn text(&self, alloc: Global, number: u64) -> Result<Vec<u8>, AllocError> {
        let mut text = Vec::new(alloc);
        for row in self.rows(PAGES) {
            if number_of(row) == number {
                text.extend_from_slice(bytes_at(row, 1).unwrap_or(b""))?;
            }
        }
        Ok(text)
    }

    /// Whether this is the text of the version of a number.
    pub fn has_text(&self, number: u64, text: &[u8]) -> bool {
        let mut rest = text;
        for row in self.rows(PAGES) {
            if number_of(row) == number {
                match behind_page(rest, row) {
                    Some(behind) => rest = behind,
                    None => return false,
                }
            }
        }
        rest.is_empty()
    }
}

// What follows a page with which a text begins.
fn behind_page<'t>(text: &'t [u8], row: &Row) -> Option<&'t [u8]> {
    match bytes_at(row, 1) {
        Some(page) if text.starts_with(page) => text.get(page.len()..),
        _ => None,
    }
}

/// The whole number in a column.
pub fn number_at(row: &Row, at: usize) -> Option<u64> {
    match row.get_ref(at) {
        Ok(ValueRef::Int(number)) => u64::try_from(number).ok(),
        _ => None,
    }
}

/// The text in a column, as bytes.
pub fn text_at(row: &Row, at: usize) -> Option<&[u8]> {
    match row.get_ref(at) {
        Ok(ValueRef::Text(text)) => Some(text),
        _ => None,
    }
}

/// The bytes in a column.
pub fn bytes_at(row: &Row, at: usize) -> Option<&[u8]> {
    match row.get_ref(at) {
        Ok(ValueRef::Blob(bytes)) => Some(bytes),
        _ => None,
    }
}

pub fn has_number(row: &Row, at: usize, number: u64) -> bool {
    number_at(row, at) == Some(number)
}

pub fn has_text(row: &Row, at: usize, text: &str) -> bool {
    match text_at(row, at) {
        Some(found) => found == text.as_bytes(),
        None => false,
    }
}

pub fn has_flag(row: &Row, at: usize, flag: bool) -> bool {
    has_number(row, at, u64::from(flag))
}

/// Whether a row has this text, or none if there is none.
pub fn has_optional(row: &Row, at: usize, text: Option<&str>) -> bool {
    match text {
        Some(text) => has_text(row, at, text),
        None => matches!(row.get_ref(at), Ok(ValueRef::Null)),
    }
}

/// The first number in a row; 0 if there is none.
pub fn number_of(row: &Row) -> u64 {
    number_at(row, 0).unwrap_or(0)
}

/// The row of a number.
pub fn row_of(rows: &[Row], number: u64) -> Option<&Row> {
    for row in rows {
        if number_of(row) == number {
            return Some(row);
        }
    }
    None
}

/// The row whose text in a column is this one.
pub fn row_with<'r>(rows: &'r [Row], at: usize, text: &str) -> Option<&'r Row> {
    for row in rows {
        if has_text(row, at, text) {
            return Some(row);
        }
    }
    None
}

/// The greatest number; 0 if there is no row.
pub fn greatest(rows: &[Row]) -> u64 {
    let mut found = 0;
    for row in rows {
        if number_of(row) > found {
            found = number_of(row);
        }
    }
    found
}

/// The least number above this one; 0 if there is none.
pub fn least_above(rows: &[Row], above: u64) -> u64 {
    let mut found = 0;
    for row in rows {
        let number = number_of(row);
        if number > above && (found == 0 || number < found) {
            found = number;
        }
    }
    found
}

/// How many rows have a greater number.
pub fn count_above(rows: &[Row], number: u64) -> usize {
    let mut count: usize = 0;
    for row in rows {
        if number_of(row) > number {
            count = count.saturating_add(1);
        }
    }
    count
}
