//! A text put into tables as pages, read, compared and taken away again.
use crate::keys::FirstByte;
use crate::ways::{Sql, TablesBy, ask};
use basis::Number;
use pages::{PageKey, ShaKey};
use sqlite::{Connection, Error, MemStore};
use std::alloc::{AllocError, Global};
use story_runner::failures::Failure;
use story_runner::stores::Makes;
use texts::{add_text, remove_text, same_text};

/// The version whose text it is.
const ORG: &str = "acme";

const WS: &str = "net";

const NUMBER: u64 = 1;

/// What is reported of the tables, and how it is asked.
const COUNTS: &[(&str, &str)] = &[
    ("places", "SELECT count(*) FROM vpage"),
    ("pages", "SELECT count(*) FROM page"),
    ("most uses", "SELECT max(uses) FROM page"),
    ("last twin", "SELECT max(twin) FROM page"),
];

const LEFT: &[&str] = &["SELECT count(*) FROM vpage", "SELECT count(*) FROM page"];

type Tables = Connection<MemStore>;

fn number() -> Result<Number, Error> {
    match Number::new(NUMBER) {
        Some(number) => Ok(number),
        None => Err(Error::IntegralValueOutOfRange(0)),
    }
}

fn put<K: PageKey>(conn: &mut Tables, number: Number, text: &[u8]) -> Result<(), Error> {
    if !conn.is_autocommit() {
        return Err(Error::QueryReturnedNoRows);
    }
    let mut tx = conn.transaction();
    add_text::<K, MemStore>(&mut tx, ORG, WS, number, None, text)?;
    tx.commit()
}

fn take_away(conn: &mut Tables, number: Number, size: usize) -> Result<(), Error> {
    if !conn.is_autocommit() {
        return Err(Error::QueryReturnedNoRows);
    }
    let mut tx = conn.transaction();
    remove_text(&mut tx, ORG, WS, number, size as u64)?;
    tx.commit()
}

fn add_counts(alloc: Global, conn: &mut Tables, reported: &mut String) -> Result<(), Error> {
    for (name, sql) in COUNTS {
        let count = ask(alloc, conn, sql)?;
        reported.push_str(name)?;
        reported.push(' ')?;
        reported.push_str(count.as_str())?;
        reported.push('\n')?;
    }
    Ok(())
}

// The text with another last byte.
fn turned(alloc: Global, text: &[u8]) -> Result<Vec<u8>, AllocError> {
    let mut turned = Vec::from_slice(alloc, text)?;
    if let Some(last) = turned.last_mut() {
        *last ^= 1;
    }
    Ok(turned)
}

// Whether the text is read as it is, and is the same as itself, and not as another of its size.
fn is_kept(alloc: Global, conn: &mut Tables, number: Number, due: &[u8]) -> Result<bool, Error> {
    let read = texts::text(alloc, conn, ORG, WS, number, due.len() as u64)?;
    let turned = turned(alloc, due)?;
    Ok(
        read.as_slice() == due
            && same_text(conn, ORG, WS, number, due)?
            && !same_text(conn, ORG, WS, number, turned.as_slice())?,
    )
}

fn is_left(alloc: Global, conn: &mut Tables) -> Result<bool, Error> {
    for sql in LEFT {
        let count = ask(alloc, conn, sql)?;
        if count.as_str() != "0" {
            return Ok(true);
        }
    }
    Ok(false)
}

fn reported_of<K: PageKey>(alloc: Global, conn: &mut Tables, due: &[u8]) -> Result<String, Error> {
    let number = number()?;
    put::<K>(conn, number, due)?;
    let mut reported = String::new(alloc);
    add_counts(alloc, conn, &mut reported)?;
    let is_kept = is_kept(alloc, conn, number, due)?;
    reported.push_str(if is_kept { "kept\n" } else { "not kept\n" })?;
    take_away(conn, number, due.len())?;
    let is_left = is_left(alloc, conn)?;
    reported.push_str(if is_left { "left" } else { "gone" })?;
    Ok(reported)
}

fn show_by<K: PageKey>(alloc: Global, due: &[u8]) -> Result<String, Failure> {
    let keep: TablesBy<K> = Sql.made(alloc)?;
    let mut conn = keep.close();
    match reported_of::<K>(alloc, &mut conn, due) {
        Ok(reported) => Ok(reported),
        Err(_) => Err(Failure::refused(0, "the tables don't answer")),
    }
}

/// What becomes of a text in tables, with pages by the key of this name.
pub fn show_kept(alloc: Global, key: &str, text: &[u8]) -> Result<String, Failure> {
    match key {
        "sha" => show_by::<ShaKey>(alloc, text),
        "first-byte" => show_by::<FirstByte>(alloc, text),
        _ => Err(Failure::refused(0, "the keys are sha and first-byte")),
    }
}
