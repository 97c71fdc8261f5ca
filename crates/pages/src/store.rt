//! Adds, reads, compares and releases pages.
ghost use Rattle.std.specs.Prelude.{◌≡◌, ◌+◌, ℕ, List, None, IsSome, IfOk, OnOk};
ghost use Rattle.sqlite_value.specs.declared.value.Value.TheVariants.{Blob};
ghost use Rattle.sqlite_value.specs.Order.{column};
ghost use Rattle.sqlite.specs.Held.{state};
ghost use Rattle.sqlite.specs.State.{HasCleanDisk};
ghost use Rattle.statements.specs.Steps.{Equals, Steps};
ghost use Rattle.statements.specs.Tables.{Tables, Holds};
ghost use Rattle.pages.specs.Rows.{page_added, page_used, page_bytes, page_uses, IsPageName};
ghost use Rattle.pages.specs.Puts.{free_twin, twin_found, twin_for, put_found, page_put, lessened, released_found, page_released, is_bytes_of};
ghost use Rattle.pages.specs.Pages.{IsKeyFor, PutsUnder, ReleasesBy, SparesNamed, Gets};
ghost use Rattle.pages.specs.Inner.Calls.{SeesInside, ReportsBy, put_with, twin_with, alike};

use crate::keys::PageKey;
use crate::rows::{
    FirstPage, PageUse, add, bytes, equal, first, first_twin, remove, remove_last, set_uses, uses,
};
use crate::twins::{MAX_TWIN, Twin, twin_in};
use basis::Bytes;
use sqlite::types::{Type, ValueRef};
use sqlite::{Alter, Connection, Error, Row, Transaction};
use statements::calls::Read;

/// The name of a page: its key, and the number that distinguishes it from other pages with that key.
#[derive(Clone, Copy, PartialEq, Eq)]
pub struct PageId {
    pub key: [u8; 32],
    pub twin: Twin,
}

/// The key in a row: 32 bytes.
fn key_in(row: &Row) -> Result<[u8; 32], Error>
    ensures { IfOk result (λ key. column row.now 0 ≡ Blob key) }
{
    match row.get_ref(0)? {
        ValueRef::Blob(bytes) => match <[u8; 32]>::try_from(bytes) {
            Ok(key) => Ok(key),
            Err(_) => Err(Error::InvalidColumnType(0, Type::Blob)),
        },
        _ => Err(Error::InvalidColumnType(0, Type::Blob)),
    }
}

impl Read for PageId {
    ghost is_in = { IsPageName };

    fn of_row(row: &Row) -> Result<PageId, Error> {
        Ok(PageId {
            key: key_in(row)?,
            twin: twin_in(row, 1)?,
        })
    }
}

/// The greatest number of uses: SQL has no greater integer.
const MOST_USES: u64 = 9_223_372_036_854_775_807;

/// The places of the columns in the table page.
const TWIN_COLUMN: usize = 1;

const USES_COLUMN: usize = 3;

/// The least twin number that no page with this key has.
fn free<S: Alter>(tx: &mut Transaction<'_, S>, key: &[u8]) -> Result<Twin, Error>
    ensures { SeesInside S.Store (Equals (free_twin key.now)) tx.old tx.new result }
{
    let mut number = 0;
    'twins: while let Some(twin) = Twin::new(number) {
        let found = uses(tx, key, twin)?;
        match found {
            None => return Ok(twin),
            Some(_) => number += 1,
        }
    }
    Err(Error::IntegralValueOutOfRange(TWIN_COLUMN))
}

/// Adds a use to an existing page.
fn use_again<S: Alter>(
    tx: &mut Transaction<'_, S>,
    key: &[u8],
    found: PageUse,
) -> Result<Twin, Error>
    ensures steps { Steps S.Store (page_used key.now found.twin (found.uses + 1)) tx.old tx.new result }
    ensures twin { IfOk result (λ twin. twin ≡ found.twin) }
{
    if found.uses >= MOST_USES {
        return Err(Error::IntegralValueOutOfRange(USES_COLUMN));
    }
    set_uses(tx, key, found.twin, found.uses + 1)?;
    Ok(found.twin)
}

/// Adds a page under the least free twin number.
fn add_new<S: Alter>(tx: &mut Transaction<'_, S>, key: &[u8], page: &[u8]) -> Result<Twin, Error>
    ensures steps { Steps S.Store (λ t. page_added key.now (free_twin key.now t) page.now t) tx.old tx.new result }
    ensures twin { ReportsBy (free_twin key.now) (state S.Store tx.old.conn.now) (state S.Store tx.new.conn.now) result }
{
    let twin = free(tx, key)?;
    add(tx, key, twin, page)?;
    Ok(twin)
}

/// Adds the only page with a key, under the twin number 0.
fn add_first<S: Alter>(tx: &mut Transaction<'_, S>, key: &[u8], page: &[u8]) -> Result<Twin, Error>
    ensures steps { Steps S.Store (page_added key.now 0 page.now) tx.old tx.new result }
    ensures twin { IfOk result (λ twin. twin ≡ 0) }
{
    let twin = Twin::first();
    add(tx, key, twin, page)?;
    Ok(twin)
}

fn put_beside<S: Alter>(
    tx: &mut Transaction<'_, S>,
    key: &[u8],
    found: Option<PageUse>,
    page: &[u8],
) -> Result<Twin, Error>
    ensures steps { Steps S.Store (put_found key.now page.now found) tx.old tx.new result }
    ensures twin { ReportsBy (twin_found key.now found) (state S.Store tx.old.conn.now) (state S.Store tx.new.conn.now) result }
{
    match found {
        Some(found) => use_again(tx, key, found),
        None => add_new(tx, key, page),
    }
}

/// Adds a use of a page, or the page, if other pages have its key.
fn put_among<S: Alter>(tx: &mut Transaction<'_, S>, key: &[u8], page: &[u8]) -> Result<Twin, Error>
    ensures steps { Steps S.Store (page_put key.now page.now) tx.old tx.new result }
    ensures twin { ReportsBy (twin_for key.now page.now) (state S.Store tx.old.conn.now) (state S.Store tx.new.conn.now) result }
{
    let found = equal(tx, key, page)?;
    put_beside(tx, key, found, page)
}

/// Adds a use of a page, or the page, given the first page with its key, if there is one.
fn put_with<S: Alter>(
    tx: &mut Transaction<'_, S>,
    key: &[u8],
    first: Option<Twin>,
    page: &[u8],
) -> Result<Twin, Error>
    ensures steps { Steps S.Store (put_with key.now page.now first) tx.old tx.new result }
    ensures twin { ReportsBy (twin_with key.now page.now first) (state S.Store tx.old.conn.now) (state S.Store tx.new.conn.now) result }
{
    match first {
        None => add_first(tx, key, page),
        Some(_) => put_among(tx, key, page),
    }
}

/// Adds a use of a page, or the page. Whether other pages have its key is asked without reading their bytes,
/// since most pages are new.
fn put_under<S: Alter>(tx: &mut Transaction<'_, S>, key: &[u8], page: &[u8]) -> Result<Twin, Error>
    ensures steps { Steps S.Store (page_put key.now page.now) tx.old tx.new result }
    ensures twin { ReportsBy (twin_for key.now page.now) (state S.Store tx.old.conn.now) (state S.Store tx.new.conn.now) result }
{
    let first = first_twin(tx, key)?;
    put_with(tx, key, first, page)
}

/// The first page with a key, if it has the bytes asked for.
fn alike(first: Option<FirstPage>) -> Option<PageUse>
    ensures { result ≡ alike first }
{
    match first {
        Some(page) if page.same => Some(page.found),
        _ => None,
    }
}

/// Adds a use of a page, or the page, under this key, which its caller has computed. Fails if the number of
/// its uses or its twin number would exceed 9,223,372,036,854,775,807.
pub fn put_own<S: Alter>(
    tx: &mut Transaction<'_, S>,
    key: &[u8; 32],
    page: &[u8],
) -> Result<PageId, Error>
    ensures { PutsUnder S.Store key.now page.now tx.old tx.new result }
{
    let twin = put_under(tx, key.as_slice(), page)?;
    prove!(twin.get() <= MAX_TWIN);
    Ok(PageId { key: *key, twin })
}

/// Adds a use of a page, or the page, under the key of its bytes. Fails as `put_own` does.
pub fn put<K: PageKey, S: Alter>(tx: &mut Transaction<'_, S>, page: &[u8]) -> Result<PageId, Error>
    ensures { PutsUnder S.Store (K.key_of page.now) page.now tx.old tx.new result }
{
    let key = K::key(page);
    put_own(tx, &key, page)
}

/// Adds a use to an existing page with a known key.
fn use_known<S: Alter>(
    tx: &mut Transaction<'_, S>,
    known: &[u8; 32],
    found: PageUse,
) -> Result<PageId, Error>
    ensures steps { Steps S.Store (page_used known.now found.twin (found.uses + 1)) tx.old tx.new result }
    ensures named { IfOk result (λ id. (id.key ≡ known.now) × (id.twin ≡ found.twin)) }
{
    let twin = use_again(tx, known.as_slice(), found)?;
    Ok(PageId { key: *known, twin })
}

/// Adds a use of a page, or the page: under a known key, if the first page with that key has its bytes,
/// otherwise under its own key. Comparing the bytes costs less than computing a key.
pub fn put_known<K: PageKey, S: Alter>(
    tx: &mut Transaction<'_, S>,
    known: &[u8; 32],
    page: &[u8],
) -> Result<PageId, Error>
    ensures puts { (key : List ℕ) × PutsUnder S.Store key page.now tx.old tx.new result }
    ensures keyed { HasCleanDisk (state S.Store tx.new.conn.now) → IfOk result (λ id. (t : Tables) → Holds (state S.Store tx.old.conn.now).now t → IsKeyFor K.key_of page.now id.key t) }
{
    let first = first(tx, known.as_slice(), page)?;
    let found = alike(first);
    match found {
        None => put::<K, S>(tx, page),
        Some(found) => {
            prove!(found.twin.get() <= MAX_TWIN);
            use_known(tx, known, found)
        }
    }
}

/// The bytes of a page. Fails if there is no such page.
pub fn get<S: Alter>(conn: &mut Connection<S>, id: &PageId) -> Result<Bytes, Error>
    ensures { Gets S.Store (page_bytes id.now.key id.now.twin) conn.old conn.new result }
{
    match bytes(conn, id.key.as_slice(), id.twin)? {
        Some(bytes) => Ok(bytes),
        None => Err(Error::QueryReturnedNoRows),
    }
}

/// Whether a page has these bytes. Fails if there is no such page.
pub fn same<S: Alter>(conn: &mut Connection<S>, id: &PageId, page: &[u8]) -> Result<bool, Error>
    ensures { Gets S.Store (is_bytes_of id.now.key id.now.twin page.now) conn.old conn.new result }
{
    let bytes = get(conn, id)?;
    Ok(bytes.as_slice() == page)
}

/// Removes one of `uses` uses of a page. With the last use the page is removed.
fn lessen<S: Alter>(
    tx: &mut Transaction<'_, S>,
    key: &[u8],
    twin: Twin,
    uses: u64,
) -> Result<(), Error>
    ensures steps { Steps S.Store (lessened key.now twin uses) tx.old tx.new result }
    ensures spares { SparesNamed (state S.Store tx.old.conn.now) (state S.Store tx.new.conn.now) result }
{
    if uses > MOST_USES {
        return Err(Error::IntegralValueOutOfRange(USES_COLUMN));
    }
    if uses > 1 {
        set_uses(tx, key, twin, uses - 1)
    } else {
        remove(tx, key, twin)
    }
}

fn release_found<S: Alter>(
    tx: &mut Transaction<'_, S>,
    key: &[u8],
    twin: Twin,
    uses: Option<u64>,
) -> Result<(), Error>
    ensures steps { Steps S.Store (released_found key.now twin uses) tx.old tx.new result }
    ensures found { OnOk result (IsSome uses) }
    ensures spares { SparesNamed (state S.Store tx.old.conn.now) (state S.Store tx.new.conn.now) result }
{
    match uses {
        Some(uses) => lessen(tx, key, twin, uses),
        None => Err(Error::QueryReturnedNoRows),
    }
}

/// Whether a page is kept if one of its uses is removed.
fn stays(uses: Option<u64>) -> bool {
    match uses {
        None => false,
        Some(uses) => uses > 1,
    }
}

/// Removes one use of a page after reading the number of its uses. Sets `shared` to whether it has others.
fn release_counted<S: Alter>(
    tx: &mut Transaction<'_, S>,
    key: &[u8],
    twin: Twin,
    shared: &mut bool,
) -> Result<(), Error>
    ensures steps { Steps S.Store (page_released key.now twin) tx.old tx.new result }
    ensures releases { ReleasesBy key.now twin (state S.Store tx.old.conn.now) (state S.Store tx.new.conn.now) result }
    ensures spares { SparesNamed (state S.Store tx.old.conn.now) (state S.Store tx.new.conn.now) result }
{
    let found = uses(tx, key, twin)?;
    *shared = stays(found);
    release_found(tx, key, twin, found)
}

/// Fails unless there is no page with this name.
fn none_left<S: Alter>(tx: &mut Transaction<'_, S>, key: &[u8], twin: Twin) -> Result<(), Error>
    ensures { SeesInside S.Store (λ _ t. page_uses key.now twin t ≡ None) tx.old tx.new result }
{
    let found = uses(tx, key, twin)?;
    match found {
        None => Ok(()),
        Some(_) => Err(Error::QueryReturnedNoRows),
    }
}

/// Removes a page that has one use without reading its row first. Otherwise removes one of its uses.
fn release_alone<S: Alter>(
    tx: &mut Transaction<'_, S>,
    key: &[u8],
    twin: Twin,
    shared: &mut bool,
) -> Result<(), Error>
    ensures steps { Steps S.Store (page_released key.now twin) tx.old tx.new result }
    ensures releases { ReleasesBy key.now twin (state S.Store tx.old.conn.now) (state S.Store tx.new.conn.now) result }
    ensures spares { SparesNamed (state S.Store tx.old.conn.now) (state S.Store tx.new.conn.now) result }
{
    let gone = remove_last(tx, key, twin)?;
    if gone {
        none_left(tx, key, twin)
    } else {
        release_counted(tx, key, twin, shared)
    }
}

/// Removes one use of a page; with the last use, the page. Fails if there is no such page, or if the page
/// would be removed while a row of vpage names it. `shared` is whether the page released before was kept, and
/// is set to whether this one is. If it is true, the number of uses is read first. So a page with one use,
/// whose row is long, is read once, and a page with more uses twice.
pub fn release<S: Alter>(
    tx: &mut Transaction<'_, S>,
    id: &PageId,
    shared: &mut bool,
) -> Result<(), Error>
    ensures steps { Steps S.Store (page_released id.now.key id.now.twin) tx.old tx.new result }
    ensures releases { ReleasesBy id.now.key id.now.twin (state S.Store tx.old.conn.now) (state S.Store tx.new.conn.now) result }
    ensures spares { SparesNamed (state S.Store tx.old.conn.now) (state S.Store tx.new.conn.now) result }
{
    let twin = id.twin;
    let key = id.key.as_slice();
    if *shared {
        release_counted(tx, key, twin, shared)
    } else {
        release_alone(tx, key, twin, shared)
    }
}
