//! The ways on which a story of a store is run: over which store, and how.
use crate::keys::FirstByte;
use crate::laws::check_laws;
use crate::records::record_of;
use basis::Down;
use machine::PlainKeep;
use pages::{PageKey, ShaKey};
use sqlite::{Alter, Connection, Error, MemStore, Row};
use std::alloc::Global;
use story_runner::breaking;
use story_runner::breaking::run_broken;
use story_runner::devices::ALL;
use story_runner::failures::{Failure, compare_bytes};
use story_runner::keyed::Keyed;
use story_runner::modes::{Counts, Modes};
use story_runner::plays::{Play, Question};
use story_runner::stores::{Inspects, Makes, played_over};
use story_runner::taking::{Way, taken_to};
use tables::SqlKeep;

#[derive(Clone, Copy)]
enum Store {
    Values,
    Tables(Keyed),
}

const IN_MEMORY: &[(Store, Way, &str)] = &[
    (Store::Values, Way::Replay, "values, replayed"),
    (Store::Values, Way::Exchange(1), "values, 1 byte a read"),
    (Store::Values, Way::Exchange(7), "values, 7 bytes a read"),
    (
        Store::Values,
        Way::Exchange(ALL),
        "values, all bytes in one read",
    ),
    (Store::Tables(Keyed::Sha), Way::Replay, "tables, replayed"),
    (
        Store::Tables(Keyed::Sha),
        Way::Exchange(1),
        "tables, 1 byte a read",
    ),
    (
        Store::Tables(Keyed::Sha),
        Way::Exchange(7),
        "tables, 7 bytes a read",
    ),
    (
        Store::Tables(Keyed::Sha),
        Way::Exchange(ALL),
        "tables, all bytes in one read",
    ),
    (
        Store::Tables(Keyed::FirstByte),
        Way::Replay,
        "tables by first bytes, replayed",
    ),
    (
        Store::Tables(Keyed::FirstByte),
        Way::Exchange(ALL),
        "tables by first bytes, all bytes in one read",
    ),
];

/// The ways of a large story.
const FEW_IN_MEMORY: &[(Store, Way, &str)] = &[
    (
        Store::Values,
        Way::Exchange(ALL),
        "values, all bytes in one read",
    ),
    (
        Store::Tables(Keyed::Sha),
        Way::Exchange(ALL),
        "tables, all bytes in one read",
    ),
];

/// A store over tables in memory, with pages by this key.
pub type TablesBy<K> = SqlKeep<MemStore, K>;

/// Stores over tables.
pub struct Sql;

impl<K: PageKey> Makes<TablesBy<K>> for Sql {
    fn made(&self, alloc: Global) -> Result<TablesBy<K>, Down> {
        SqlKeep::in_memory(alloc)
    }
}

// The first value of a row, as text.
fn first_of(alloc: Global, row: &Row) -> Result<String, Error> {
    match row.get::<i64>(0) {
        Ok(number) => Ok(format!(in alloc; "{number}")?),
        Err(_) => row.get::<String>(0),
    }
}

/// The first value of the first row, as text.
pub fn ask<S: Alter>(alloc: Global, conn: &mut Connection<S>, sql: &str) -> Result<String, Error> {
    match conn.query_row(sql, &[]) {
        Ok(row) => first_of(alloc, &row),
        Err(error) => Err(error),
    }
}

// That the tables answer a question as is due.
fn check_answer<S: Alter>(
    alloc: Global,
    conn: &mut Connection<S>,
    question: &Question,
) -> Result<(), Failure> {
    match ask(alloc, conn, question.sql.as_str()) {
        Ok(answer) => compare_bytes(
            alloc,
            question.line,
            question.answer.as_slice(),
            answer.as_str().as_bytes(),
        ),
        Err(_) => Err(Failure::refused(question.line, "the tables don't answer")),
    }
}

fn lawful_record<S: Alter>(
    alloc: Global,
    line: usize,
    conn: &mut Connection<S>,
    is_lawful: bool,
) -> Result<Vec<u8>, Failure> {
    if is_lawful {
        check_laws(line, conn)?;
    }
    record_of(alloc, line, conn)
}

// The store over tables that were asked.
pub(crate) fn reopened<S: Alter + Drop, K: PageKey>(
    line: usize,
    conn: Connection<S>,
) -> Result<SqlKeep<S, K>, Failure> {
    if !conn.is_autocommit() {
        return Err(Failure::refused(line, "the question began a transaction"));
    }
    match SqlKeep::open(conn) {
        Ok(keep) => Ok(keep),
        Err(_) => Err(Failure::refused(line, "the tables don't open again")),
    }
}

impl<S: Alter + Drop, K: PageKey> Inspects<SqlKeep<S, K>> for Sql {
    fn recorded(
        &self,
        alloc: Global,
        keep: SqlKeep<S, K>,
        line: usize,
        is_lawful: bool,
    ) -> Result<(SqlKeep<S, K>, Vec<u8>), Failure> {
        let mut conn = keep.close();
        let record = lawful_record(alloc, line, &mut conn, is_lawful);
        let keep = reopened(line, conn)?;
        match record {
            Ok(record) => Ok((keep, record)),
            Err(failure) => Err(failure),
        }
    }

    fn asked(
        &self,
        alloc: Global,
        keep: SqlKeep<S, K>,
        question: &Question,
    ) -> Result<SqlKeep<S, K>, Failure> {
        let mut conn = keep.close();
        let answered = check_answer(alloc, &mut conn, question);
        let keep = reopened(question.line, conn)?;
        match answered {
            Ok(()) => Ok(keep),
            Err(failure) => Err(failure),
        }
    }
}

fn in_values(alloc: Global, play: &Play, way: Way) -> Result<(), Failure> {
    let keep = PlainKeep::new(alloc);
    match taken_to(alloc, keep, way, play, 0, play.steps.len()) {
        Ok(_) => Ok(()),
        Err(failure) => Err(failure),
    }
}

fn in_tables<K: PageKey>(
    alloc: Global,
    play: &Play,
    keyed: Keyed,
    way: Way,
) -> Result<(), Failure> {
    let keep: TablesBy<K> = Sql.made(alloc)?;
    match played_over(alloc, &Sql, keep, play, keyed, way) {
        Ok(_) => Ok(()),
        Err(failure) => Err(failure),
    }
}

fn on_way(alloc: Global, play: &Play, store: Store, way: Way) -> Result<(), Failure> {
    match store {
        Store::Values => in_values(alloc, play, way),
        Store::Tables(Keyed::Sha) => in_tables::<ShaKey>(alloc, play, Keyed::Sha, way),
        Store::Tables(Keyed::FirstByte) => {
            in_tables::<FirstByte>(alloc, play, Keyed::FirstByte, way)
        }
    }
}

// Up to the first way on which something else came.
fn run_on(alloc: Global, play: &Play, ways: &[(Store, Way, &'static str)]) -> Result<(), Failure> {
    for (store, way, name) in ways {
        if let Err(failure) = on_way(alloc, play, *store, *way) {
            return Err(failure.on(name));
        }
    }
    Ok(())
}

/// Runs a story on each way in memory.
pub fn run_in_memory(alloc: Global, play: &Play) -> Result<(), Failure> {
    run_on(alloc, play, IN_MEMORY)
}

/// Runs a large story on few ways in memory.
pub fn run_large_in_memory(alloc: Global, play: &Play) -> Result<(), Failure> {
    run_on(alloc, play, FEW_IN_MEMORY)
}

/// Tells a story over links that break, over tables in memory.
pub fn run_in_breaks(
    alloc: Global,
    play: &Play,
    modes: Modes,
    counts: &mut Counts,
) -> Result<(), Failure> {
    match run_broken::<TablesBy<ShaKey>, Sql>(alloc, &Sql, play, modes, counts) {
        Ok(()) => Ok(()),
        Err(failure) => Err(failure.on(breaking::WAY)),
    }
}
