//! Reads a text by one query, one row at a time.
ghost use Rattle.std.specs.Prelude.{◌≡◌, IsTrue, IfOk, OnOk, option_copied};
ghost use Rattle.sqlite_value.specs.declared.value.Value.TheVariants.{Blob};
ghost use Rattle.sqlite_value.specs.Order.{column};
ghost use Rattle.sqlite.specs.Values.{bound};
ghost use Rattle.sqlite.specs.Held.{state};
ghost use Rattle.sqlite.specs.State.{HasCleanDisk};
ghost use Rattle.statements.specs.Rows.{number};
ghost use Rattle.statements.specs.Steps.{Equals, Sees};
ghost use Rattle.statements.specs.Tables.{Tables, Holds};
ghost use Rattle.texts.specs.Texts.{joined, AreThere};
ghost use Rattle.texts.specs.Inner.Calls.{AddsRow, JoinsRows};

use basis::{Bytes, Number};
use sqlite::types::ValueRef;
use sqlite::{Alter, Connection, Error, Row, params};
use std::alloc::Global;

/// The bytes in a row, which has to be that of this place.
fn bytes_at(row: &Row, place: u64) -> Result<&[u8], Error>
    ensures place { OnOk result (column row.now 0 ≡ number place) }
    ensures bytes { IfOk result (λ bytes. column row.now 1 ≡ Blob bytes.now) }
{
    if row.get::<u64>(0)? != place {
        return Err(Error::QueryReturnedNoRows);
    }
    match row.get_ref(1)? {
        ValueRef::Blob(bytes) => Ok(bytes),
        _ => Err(Error::QueryReturnedNoRows),
    }
}

/// Adds the bytes in a row, which has to be that of this place, to the text. Fails if there is no row.
fn add_row(text: &mut Vec<u8>, row: Option<&Row>, place: u64) -> Result<(), Error>
    ensures { OnOk result (AddsRow (option_copied row.entry) place text.old.items text.new.items) }
{
    let Some(row) = row else {
        return Err(Error::QueryReturnedNoRows);
    };
    let bytes = bytes_at(row, place)?;
    text.extend_from_slice(bytes)?;
    Ok(())
}

/// The bytes of all rows of a query, which has to return one row for each place from 0 up to `places`, in
/// order.
fn join_rows<S: Alter>(
    alloc: Global,
    conn: &mut Connection<S>,
    sql: &str,
    params: &[ValueRef<'_>],
    places: u64,
    size: usize,
) -> Result<Bytes, Error>
    ensures { JoinsRows S.Store sql.now (bound params.now) places conn.old conn.new result }
{
    let mut text = Vec::with_capacity(alloc, size)?;
    let mut rows = conn.query(sql, params)?;
    'rows: for place in 0..places {
        let row = rows.next()?;
        add_row(&mut text, row, place)?;
    }
    match rows.next()? {
        None => Ok(Bytes::new(text)),
        Some(_) => Err(Error::QueryReturnedNoRows),
    }
}

const TEXT_PIECES: &str =
    "SELECT place, bytes FROM vpage LEFT JOIN page ON page.pkey = vpage.pkey AND page.twin = vpage.twin WHERE org = ?1 AND ws = ?2 AND number = ?3 ORDER BY place";

/// The bytes of a version's pages, one page after the other. Fails if the version has another number of
/// pages.
pub(crate) fn read_text<S: Alter>(
    alloc: Global,
    conn: &mut Connection<S>,
    org: &str,
    ws: &str,
    number: Number,
    places: u64,
    size: usize,
) -> Result<Bytes, Error>
    ensures queries { Sees S.Store (Equals (joined org.now ws.now number places)) conn.old conn.new result }
    ensures there { HasCleanDisk (state S.Store conn.new) → OnOk result ((t : Tables) → Holds (state S.Store conn.old).now t → AreThere org.now ws.now number places t) }
    ensures was_open { HasCleanDisk (state S.Store conn.new) → OnOk result (IsTrue (state S.Store conn.old).is_open) }
{
    let number = number.get();
    join_rows(
        alloc,
        conn,
        TEXT_PIECES,
        params![org, ws, number],
        places,
        size,
    )
}
