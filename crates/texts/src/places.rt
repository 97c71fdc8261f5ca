//! Statements on the table vpage.
ghost use Rattle.std.specs.Prelude.{◌≡◌, ℕ, ◌<◌, ◌^◌, ◌/◌, pos};
ghost use Rattle.sqlite.specs.Held.{state};
ghost use Rattle.sqlite.specs.State.{Survives};
ghost use Rattle.statements.specs.Steps.{AnyRows, Equals, Writes, Reads, Queries};
ghost use Rattle.pages.specs.Inner.Calls.{SeesInside};
ghost use Rattle.texts.specs.Texts.{place_added, page_at};
ghost use Rattle.texts.specs.Inner.Calls.{places_removed, AreRowsOf};
ghost use Rattle.texts.specs.declared.texts.TheConstants.{PAGE_BYTES};

use crate::texts::PAGE_BYTES;
use basis::Number;
use pages::{PageId, Twin};
use sqlite::{Alter, Connection, Error, Row, Transaction, params};
use statements::calls::{first_row, first_row_inside, read_one, signed, write};
use std::marker::Model;

/// The place of a page in a text; the first page is at 0. Every place fits into SQL's integer.
#[derive(Clone, Copy)]
pub(crate) struct Place {
    value: u64,
}

impl Model for Place {
    ghost Value = { ℕ };

    ghost view = { λ p. p.value };

    ghost invariant = { λ p. p.value < 2 ^ 63 };

    ghost inverse = { λ n. record { value = n } };
}

impl Place {
    /// The place of the page that has the byte at this offset. So a place is far below the greatest offset.
    pub(crate) fn of_byte(offset: u64) -> Place
        ensures { result ≡ offset / PAGE_BYTES }
    {
        Place {
            value: offset / PAGE_BYTES as u64,
        }
    }

    pub(crate) fn get(self) -> u64
        ensures { result ≡ self }
    {
        self.value
    }

    /// The place as SQL's integer.
    pub(crate) fn signed(self) -> i64
        ensures value { result ≡ pos self }
        ensures fits { self < 2 ^ 63 }
    {
        signed(self.value)
    }
}

const ADD_PLACE: &str =
    "INSERT INTO vpage (org, ws, number, place, pkey, twin) VALUES (?1, ?2, ?3, ?4, ?5, ?6)";

/// Adds the row that names the page at a place of a version.
pub(crate) fn add<'v, S: Alter>(
    tx: &mut Transaction<'_, S>,
    org: &'v str,
    ws: &'v str,
    number: Number,
    place: Place,
    key: &'v [u8],
    twin: Twin,
) -> Result<(), Error>
    ensures { Writes S.Store AnyRows (place_added org.now ws.now number place key.now twin) tx.old tx.new result }
{
    let number = number.get();
    let place = place.signed();
    let twin = twin.signed();
    write(tx, ADD_PLACE, params![org, ws, number, &place, key, &twin])
}

const REMOVE_PLACES: &str = "DELETE FROM vpage WHERE org = ?1 AND ws = ?2 AND number = ?3";

/// Removes all rows that name pages of a version.
pub(crate) fn remove_all<S: Alter>(
    tx: &mut Transaction<'_, S>,
    org: &str,
    ws: &str,
    number: Number,
) -> Result<(), Error>
    ensures { Writes S.Store AnyRows (places_removed org.now ws.now number) tx.old tx.new result }
{
    let number = number.get();
    write(tx, REMOVE_PLACES, params![org, ws, number])
}

const PLACES: &str =
    "SELECT pkey, twin, place FROM vpage WHERE org = ?1 AND ws = ?2 AND number = ?3 ORDER BY place";

/// The rows of a version, in the order of their places: the names of its pages, and the places.
pub(crate) fn all<S: Alter>(
    tx: &mut Transaction<'_, S>,
    org: &str,
    ws: &str,
    number: Number,
) -> Result<Vec<Row>, Error>
    ensures { SeesInside S.Store (λ rows t. AreRowsOf org.now ws.now number t rows.items) tx.old tx.new result }
{
    let number = number.get();
    tx.query_all(PLACES, params![org, ws, number])
}

const PAGE_AT: &str =
    "SELECT pkey, twin FROM vpage WHERE org = ?1 AND ws = ?2 AND number = ?3 AND place = ?4 ORDER BY rowid";

/// The page at a place of a version; none if the place has no row.
pub(crate) fn find<S: Alter>(
    conn: &mut Connection<S>,
    org: &str,
    ws: &str,
    number: Number,
    place: Place,
) -> Result<Option<PageId>, Error>
    ensures { Queries S.Store (Equals (page_at org.now ws.now number place)) conn.old conn.new result }
{
    let number = number.get();
    let place = place.signed();
    let row = first_row(conn, PAGE_AT, params![org, ws, number, &place]);
    read_one(row)
}

/// The page at a place of a version, inside a transaction; none if the place has no row.
pub(crate) fn find_inside<S: Alter>(
    tx: &mut Transaction<'_, S>,
    org: &str,
    ws: &str,
    number: Number,
    place: Place,
) -> Result<Option<PageId>, Error>
    ensures same_reference { tx.new.conn.ghost_name ≡ tx.old.conn.ghost_name }
    ensures read { Reads (Equals (page_at org.now ws.now number place)) (state S.Store tx.old.conn.now) (state S.Store tx.new.conn.now) result }
    ensures survives { Survives (state S.Store tx.old.conn.now) (state S.Store tx.new.conn.now) (λ _. ⊥) }
{
    let number = number.get();
    let place = place.signed();
    let row = first_row_inside(tx, PAGE_AT, params![org, ws, number, &place]);
    read_one(row)
}
