//! Reads all pages, one at a time, and keeps what is said of each without its bytes. Hashes four of them at once.
ghost use Rattle.std.specs.Prelude.{◌≡◌, ◌<◌, ◌≤◌, [], ◌∷◌, ◌++◌, map, take, length, Some, None, OnOk};
ghost use Rattle.statements.specs.Steps.{Equals, Queries, Sees};
ghost use Rattle.pages.specs.Rows.{equal_page};
ghost use Rattle.pages.specs.Heads.{has_twin, head_in};
ghost use Rattle.pages.specs.Inner.Scans.{IsPageRow, page_row_behind, unhashed_of, unhashed_behind, head_under, hashed};

use crate::keys::PageKey;
use crate::rows::{EQUAL_PAGE, PageUse};
use basis::{Bytes, Items};
use sqlite::{Alter, Connection, Error, Row, params};
use statements::calls::{Read, first_row, read_one};
use statements::rows::PageHead;
use std::alloc::Global;

/// A row of page, with its rowid.
#[derive(Drop)]
pub(crate) struct PageRow {
    pub id: i64,
    pub key: Bytes,
    pub twin: u64,
    pub bytes: Bytes,
    pub uses: u64,
}

/// A row of page, with the first page that has its key and its bytes. It is not hashed yet.
#[derive(Drop)]
pub(crate) struct Unhashed {
    pub page: PageRow,
    pub found: Option<PageUse>,
}

impl Read for PageRow {
    ghost is_in = { IsPageRow };

    fn of_row(row: &Row) -> Result<PageRow, Error> {
        Ok(PageRow {
            id: row.get(0)?,
            key: Bytes::new(row.get(1)?),
            twin: row.get(2)?,
            bytes: Bytes::new(row.get(3)?),
            uses: row.get(4)?,
        })
    }
}

const FIRST_ROW: &str = "SELECT rowid, pkey, twin, bytes, uses FROM page ORDER BY rowid LIMIT 1";

/// The first row of page.
fn lowest<S: Alter>(conn: &mut Connection<S>) -> Result<Option<PageRow>, Error>
    ensures { Queries S.Store (Equals (page_row_behind None)) conn.old conn.new result }
{
    let row = first_row(conn, FIRST_ROW, params![]);
    read_one(row)
}

const ROW_AFTER: &str =
    "SELECT rowid, pkey, twin, bytes, uses FROM page WHERE rowid > ?1 ORDER BY rowid LIMIT 1";

/// The first row of page with a rowid greater than this one.
fn after<S: Alter>(conn: &mut Connection<S>, id: i64) -> Result<Option<PageRow>, Error>
    ensures { Queries S.Store (Equals (page_row_behind (Some id))) conn.old conn.new result }
{
    let row = first_row(conn, ROW_AFTER, params![id]);
    read_one(row)
}

/// The first row of page, or the first one after the row with this rowid.
fn row_behind<S: Alter>(conn: &mut Connection<S>, id: Option<i64>) -> Result<Option<PageRow>, Error>
    ensures { Queries S.Store (Equals (page_row_behind id)) conn.old conn.new result }
{
    match id {
        None => lowest(conn),
        Some(id) => after(conn, id),
    }
}

/// The page with this key and these bytes.
fn equal<S: Alter>(
    conn: &mut Connection<S>,
    key: &[u8],
    bytes: &[u8],
) -> Result<Option<PageUse>, Error>
    ensures { Queries S.Store (Equals (equal_page key.now bytes.now)) conn.old conn.new result }
{
    let row = first_row(conn, EQUAL_PAGE, params![key, bytes]);
    read_one(row)
}

fn has_twin(found: Option<PageUse>, twin: u64) -> bool
    ensures { result ≡ has_twin found twin }
{
    match found {
        None => false,
        Some(found) => found.twin.get() == twin,
    }
}

/// Finds the first page that has a row's key and bytes.
fn look_up<S: Alter>(conn: &mut Connection<S>, page: PageRow) -> Result<Unhashed, Error>
    ensures { Queries S.Store (Equals (unhashed_of page)) conn.old conn.new result }
{
    match equal(conn, page.key.as_slice(), page.bytes.as_slice()) {
        Ok(found) => Ok(Unhashed { page, found }),
        Err(error) => Err(error),
    }
}

/// The first row of page, or the first one after the row with this rowid, and the first page that has its key and its bytes.
fn next_behind<S: Alter>(
    conn: &mut Connection<S>,
    id: Option<i64>,
) -> Result<Option<Unhashed>, Error>
    ensures { Sees S.Store (Equals (unhashed_behind id)) conn.old conn.new result }
{
    let found = row_behind(conn, id)?;
    match found {
        None => Ok(None),
        Some(page) => {
            let row = look_up(conn, page)?;
            Ok(Some(row))
        }
    }
}

/// The head of a page whose bytes have this key.
fn head_under(row: Unhashed, key: &[u8; 32]) -> PageHead
    ensures { result ≡ head_under key.now row }
{
    let page = row.page;
    let is_keyed = key.as_slice() == page.key.as_slice();
    PageHead {
        key: page.key,
        twin: page.twin,
        size: page.bytes.as_slice().len() as u64,
        uses: page.uses,
        is_keyed,
        is_first: has_twin(row.found, page.twin),
    }
}

/// The keys of four pages. At once they cost what two of the longest cost one by one.
fn four_keys<K: PageKey>(a: &[u8], b: &[u8], c: &[u8], d: &[u8]) -> [[u8; 32]; 4]
    ensures { result ≡ K.key_of a.now ∷ K.key_of b.now ∷ K.key_of c.now ∷ K.key_of d.now ∷ [] }
{
    let longest = a.len().max(b.len()).max(c.len()).max(d.len());
    let front = a.len().saturating_add(b.len());
    let all = front.saturating_add(c.len()).saturating_add(d.len());
    if all / 2 > longest {
        K::keys([a, b, c, d])
    } else {
        [K::key(a), K::key(b), K::key(c), K::key(d)]
    }
}

/// The keys of the bytes of the first four rows, as far as there are rows.
fn keys_of<K: PageKey>(rows: &[Unhashed]) -> [[u8; 32]; 4]
    ensures { take (length rows.now) result ≡ take 4 (map (λ row. K.key_of row.page.bytes) rows.now) }
{
    match rows {
        [] => [[0; 32]; 4],
        [a] => four_keys::<K>(a.page.bytes.as_slice(), &[], &[], &[]),
        [a, b] => { four_keys::<K>(a.page.bytes.as_slice(), b.page.bytes.as_slice(), &[], &[]) }
        [a, b, c] => four_keys::<K>(
            a.page.bytes.as_slice(),
            b.page.bytes.as_slice(),
            c.page.bytes.as_slice(),
            &[],
        ),
        [a, b, c, d, ..] => four_keys::<K>(
            a.page.bytes.as_slice(),
            b.page.bytes.as_slice(),
            c.page.bytes.as_slice(),
            d.page.bytes.as_slice(),
        ),
    }
}

/// Adds the heads of the window's rows, at most four, after the others, and empties the window.
fn flush<K: PageKey>(heads: &mut Vec<PageHead>, window: &mut Vec<Unhashed>) -> Result<(), Error>
    requires few { length window.old.items ≤ 4 }
    ensures heads { OnOk result (heads.new.items ≡ heads.old.items ++ map (hashed K.key_of) window.old.items) }
    ensures window { OnOk result (window.new.items ≡ []) }
{
    let keys = keys_of::<K>(window.as_slice());
    let count = window.len();
    'rows: for at in 0..count {
        let row = window.remove(0);
        let head = head_under(row, &keys[at]);
        heads.push(head)?;
    }
    Ok(())
}

/// Adds a row to the window, which is flushed once it has four.
fn add_row<K: PageKey>(
    heads: &mut Vec<PageHead>,
    window: &mut Vec<Unhashed>,
    row: Unhashed,
) -> Result<(), Error>
    requires few { length window.old.items < 4 }
    ensures heads { OnOk result (heads.new.items ++ map (hashed K.key_of) window.new.items ≡ heads.old.items ++ map (hashed K.key_of) window.old.items ++ hashed K.key_of row ∷ []) }
    ensures few { OnOk result (length window.new.items < 4) }
{
    window.push(row)?;
    if window.len() < 4 {
        return Ok(());
    }
    flush::<K>(heads, window)
}

/// The heads of all pages, in the order of their rowids. At most four pages are in memory at a time.
pub fn heads<S: Alter, K: PageKey>(
    alloc: Global,
    conn: &mut Connection<S>,
) -> Result<Items<PageHead>, Error>
    ensures { Sees S.Store (Equals (λ t. map (head_in K.key_of t) t.pages)) conn.old conn.new result }
{
    let mut heads = Vec::new(alloc);
    let mut window = Vec::new(alloc);
    let mut behind: Option<i64> = None;
    'pages: for count in 0..u64::MAX {
        let found = next_behind::<S>(conn, behind)?;
        match found {
            None => {
                flush::<K>(&mut heads, &mut window)?;
                return Ok(Items::new(heads));
            }
            Some(row) => {
                let id = row.page.id;
                behind = Some(id);
                add_row::<K>(&mut heads, &mut window, row)?;
            }
        }
    }
    Err(Error::QueryReturnedNoRows)
}
