//! Adds, removes, reads and compares the text of a version, page by page.
ghost use Rattle.std.specs.Prelude.{◌≡◌, ◌≤◌, ◌*◌, ⊤, ℕ, List, length, IsTrue, IfOk, OnOk};
ghost use Rattle.sqlite_value.specs.Order.{column};
ghost use Rattle.sqlite.specs.Held.{state};
ghost use Rattle.sqlite.specs.State.{HasCleanDisk};
ghost use Rattle.statements.specs.Steps.{Equals, Steps, Reports, Sees};
ghost use Rattle.statements.specs.Tables.{Tables, Holds};
ghost use Rattle.pages.specs.Pages.{Gets, IsKeyFor, PutsUnder};
ghost use Rattle.pages.specs.Inner.Calls.{SeesInside};
ghost use Rattle.statements.specs.Rows.{number};
ghost use Rattle.texts.specs.Inner.Ahead.{AreKeysOf};
ghost use Rattle.texts.specs.Texts.{GoesOn, pages_for, piece_at, AddsText, text_removed, WereThere, AreThere, text_of, are_pieces};
ghost use Rattle.texts.specs.Inner.Calls.{AddsPiece, name_in, released_by, WereReleased, is_piece_of};

use crate::ahead::Ahead;
use crate::places::{Place, add, all, find, find_inside, remove_all};
use crate::reading::read_text;
use basis::{Bytes, Number};
use pages::{PageId, PageKey, put_known, put_own, release, same};
use sqlite::{Alter, Connection, Error, Row, Transaction};
use statements::calls::Read;
use std::alloc::Global;

/// The greatest number of bytes of a page.
pub const PAGE_BYTES: usize = 16_384;

/// The number of pages of a text of this size.
fn pages_for(size: u64) -> u64
    ensures { result ≡ pages_for size }
{
    if size == 0 {
        return 0;
    }
    (size - 1) / PAGE_BYTES as u64 + 1
}

/// The piece of a text at a place.
pub(crate) fn piece_at(text: &[u8], place: u64) -> &[u8]
    requires is_there { place * PAGE_BYTES ≤ length text.now }
    ensures { result.now ≡ piece_at text.now place }
{
    let start = place as usize * PAGE_BYTES;
    let (_, rest) = text.split_at(start);
    if rest.len() <= PAGE_BYTES {
        return rest;
    }
    let (piece, _) = rest.split_at(PAGE_BYTES);
    piece
}

/// How often at most the distance between compared places is doubled.
const MOST_MOVED: u64 = 16;

/// Whether the page at a place is compared with that of the version before, after `moved` compared pages in a
/// row differed. At first every page is compared, then every second, every fourth, and so on: if something
/// was inserted, everything after it has moved. The first page is never compared: it holds the serial.
fn is_looked_at(place: u64, moved: u64) -> bool {
    let last = (1u64 << moved.min(MOST_MOVED)) - 1;
    place != 0 && place & last == last
}

/// The page at a place of the version before, if it is to be compared.
fn look_at<S: Alter>(
    tx: &mut Transaction<'_, S>,
    org: &str,
    ws: &str,
    before: &Option<Number>,
    place: Place,
    moved: u64,
) -> Result<Option<PageId>, Error>
    ensures { SeesInside S.Store (λ _ _. ⊤) tx.old tx.new result }
{
    match before {
        None => Ok(None),
        Some(before) => {
            if is_looked_at(place.get(), moved) {
                find_inside(tx, org, ws, *before, place)
            } else {
                Ok(None)
            }
        }
    }
}

fn key_in(found: &Option<PageId>) -> Option<&[u8; 32]> {
    match found {
        None => None,
        Some(id) => Some(&id.key),
    }
}

/// How many compared pages in a row differ, after this page of the version before and the page that was
/// added.
fn moved_after(moved: u64, found: &Option<PageId>, put: &PageId) -> u64 {
    match found {
        None => moved,
        Some(found) => {
            if found.key == put.key {
                0
            } else {
                moved.saturating_add(1)
            }
        }
    }
}

/// Adds a page of a text by its number: under the known key, if the first page with that key has its bytes,
/// otherwise under its own key. If more pages after it are likely to need keys, theirs are computed together
/// with its own.
fn put_nth<K: PageKey, S: Alter>(
    tx: &mut Transaction<'_, S>,
    known: Option<&[u8; 32]>,
    ahead: &mut Ahead,
    text: &[u8],
    nth: u64,
    more: bool,
) -> Result<PageId, Error>
    requires is_there { nth * PAGE_BYTES ≤ length text.now }
    requires known_ahead { AreKeysOf K.key_of text.now ahead.old }
    ensures puts { (key : List ℕ) × PutsUnder S.Store key (piece_at text.now nth) tx.old tx.new result }
    ensures keyed { HasCleanDisk (state S.Store tx.new.conn.now) → IfOk result (λ id. (t : Tables) → Holds (state S.Store tx.old.conn.now).now t → IsKeyFor K.key_of (piece_at text.now nth) id.key t) }
    ensures known_ahead { AreKeysOf K.key_of text.now ahead.new }
{
    let piece = piece_at(text, nth);
    match known {
        None => {
            let key = ahead.key::<K>(text, nth, more);
            put_own(tx, &key, piece)
        }
        Some(known) => put_known::<K, S>(tx, known, piece),
    }
}

/// Adds a page of a version's text by its number, at a place that has none. No other function adds a row to
/// the table vpage. The page needs no key of its own if it equals the page at the same place of the version
/// before.
fn add_nth<K: PageKey, S: Alter>(
    tx: &mut Transaction<'_, S>,
    org: &str,
    ws: &str,
    number: Number,
    before: &Option<Number>,
    place: Place,
    ahead: &mut Ahead,
    text: &[u8],
    nth: u64,
    moved: &mut u64,
) -> Result<(), Error>
    requires is_there { nth * PAGE_BYTES ≤ length text.now }
    requires known_ahead { AreKeysOf K.key_of text.now ahead.old }
    ensures adds { (key : List ℕ) × AddsPiece S.Store K.key_of key org.now ws.now number place (piece_at text.now nth) tx.old tx.new result }
    ensures known_ahead { AreKeysOf K.key_of text.now ahead.new }
{
    let found = look_at(tx, org, ws, before, place, *moved)?;
    let known = ahead.or_known(nth, key_in(&found));
    let more = before.is_none() || *moved > 1;
    let id = put_nth::<K, S>(tx, known, ahead, text, nth, more)?;
    *moved = moved_after(*moved, &found, &id);
    add(tx, org, ws, number, place, id.key.as_slice(), id.twin)
}

/// Adds the text of a version that has none yet. Pages that equal those of the version before need no key of
/// their own. Fails if a page's number of uses or twin number would exceed 9,223,372,036,854,775,807.
pub fn add_text<K: PageKey, S: Alter>(
    tx: &mut Transaction<'_, S>,
    org: &str,
    ws: &str,
    number: Number,
    before: Option<Number>,
    text: &[u8],
) -> Result<(), Error>
    ensures goes_on { GoesOn S.Store tx.old tx.new }
    ensures adds { (keys : ℕ → List ℕ) × (IsTrue (state S.Store tx.old.conn.now).is_open → AddsText S.Store K.key_of keys org.now ws.now number text.now tx.old tx.new result) }
{
    let pages = pages_for(text.len() as u64);
    let mut ahead = Ahead::new();
    let mut moved = 0;
    'places: for place in 0..pages {
        let at = Place::of_byte(place * PAGE_BYTES as u64);
        add_nth::<K, S>(
            tx, org, ws, number, &before, at, &mut ahead, text, place, &mut moved,
        )?;
    }
    Ok(())
}

/// The page that a row names, if the row is that of this place.
fn named_at(row: &Row, place: u64) -> Result<PageId, Error>
    ensures place { OnOk result (column row.now 2 ≡ number place) }
    ensures name { IfOk result (λ id. id ≡ name_in row.now) }
{
    if row.get::<u64>(2)? != place {
        return Err(Error::QueryReturnedNoRows);
    }
    PageId::of_row(row)
}

/// Removes one use of each page that the rows name. The rows are those of the places from 0 up to the number
/// of rows.
fn release_each<S: Alter>(
    tx: &mut Transaction<'_, S>,
    rows: &[Row],
    places: u64,
) -> Result<(), Error>
    requires as_many { length rows.now ≡ places }
    ensures goes_on { GoesOn S.Store tx.old tx.new }
    ensures steps { IsTrue (state S.Store tx.old.conn.now).is_open → Steps S.Store (released_by rows.now places) tx.old tx.new result }
    ensures there { IsTrue (state S.Store tx.old.conn.now).is_open → Reports (λ _. WereReleased rows.now places) (state S.Store tx.old.conn.now) (state S.Store tx.new.conn.now) result }
{
    let mut shared = false;
    'places: for place in 0..places {
        let id = named_at(&rows[place as usize], place)?;
        release(tx, &id, &mut shared)?;
    }
    Ok(())
}

/// Removes the text of a version, of this size. Fails if one of its pages is missing, or if the version has a
/// page after them. No other function removes a row of the table vpage.
pub fn remove_text<S: Alter>(
    tx: &mut Transaction<'_, S>,
    org: &str,
    ws: &str,
    number: Number,
    size: u64,
) -> Result<(), Error>
    ensures goes_on { GoesOn S.Store tx.old tx.new }
    ensures steps { IsTrue (state S.Store tx.old.conn.now).is_open → Steps S.Store (text_removed org.now ws.now number size) tx.old tx.new result }
    ensures there { IsTrue (state S.Store tx.old.conn.now).is_open → Reports (λ _. WereThere org.now ws.now number (pages_for size)) (state S.Store tx.old.conn.now) (state S.Store tx.new.conn.now) result }
{
    let pages = pages_for(size);
    let rows = all(tx, org, ws, number)?;
    if rows.len() as u64 != pages {
        return Err(Error::QueryReturnedNoRows);
    }
    remove_all(tx, org, ws, number)?;
    release_each(tx, rows.as_slice(), pages)
}

/// The text of a version, of this size. Fails if one of its pages is missing, or if the version has a page
/// after them.
pub fn text<S: Alter>(
    alloc: Global,
    conn: &mut Connection<S>,
    org: &str,
    ws: &str,
    number: Number,
    size: u64,
) -> Result<Bytes, Error>
    ensures queries { Sees S.Store (Equals (text_of org.now ws.now number size)) conn.old conn.new result }
    ensures there { HasCleanDisk (state S.Store conn.new) → OnOk result ((t : Tables) → Holds (state S.Store conn.old).now t → AreThere org.now ws.now number (pages_for size) t) }
    ensures was_open { HasCleanDisk (state S.Store conn.new) → OnOk result (IsTrue (state S.Store conn.old).is_open) }
{
    read_text(alloc, conn, org, ws, number, pages_for(size), size as usize)
}

/// Whether the page at a place of a version's text has these bytes. Fails if there is no such page.
fn same_piece<S: Alter>(
    conn: &mut Connection<S>,
    org: &str,
    ws: &str,
    number: Number,
    place: Place,
    piece: &[u8],
) -> Result<bool, Error>
    ensures { Gets S.Store (is_piece_of org.now ws.now number place piece.now) conn.old conn.new result }
{
    let found = find(conn, org, ws, number, place)?;
    match found {
        Some(id) => same(conn, &id, piece),
        None => Err(Error::QueryReturnedNoRows),
    }
}

/// Whether a version has this text, if its text has the same size. The pages after the first that differs are
/// not read. Fails if a page that is read is missing. So the answer is never true for a version that lacks a
/// page.
pub fn same_text<S: Alter>(
    conn: &mut Connection<S>,
    org: &str,
    ws: &str,
    number: Number,
    text: &[u8],
) -> Result<bool, Error>
    ensures queries { Sees S.Store (Equals (are_pieces org.now ws.now number text.now (pages_for (length text.now)))) conn.old conn.new result }
    ensures there { HasCleanDisk (state S.Store conn.new) → IfOk result (λ same. IsTrue same → (t : Tables) → Holds (state S.Store conn.old).now t → AreThere org.now ws.now number (pages_for (length text.now)) t) }
{
    let pages = pages_for(text.len() as u64);
    'places: for place in 0..pages {
        let piece = piece_at(text, place);
        let at = Place::of_byte(place * PAGE_BYTES as u64);
        if !same_piece(conn, org, ws, number, at, piece)? {
            return Ok(false);
        }
    }
    Ok(true)
}
