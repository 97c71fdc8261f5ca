//! Statements on the table page.
ghost use Rattle.std.specs.Prelude.{◌≡◌, ◌<◌, ◌^◌};
ghost use Rattle.sqlite.specs.Held.{state};
ghost use Rattle.sqlite.specs.State.{Survives};
ghost use Rattle.statements.specs.Steps.{AnyRows, Equals, Writes, Reports, Reads, Queries};
ghost use Rattle.pages.specs.Rows.{page_added, page_used, page_removed, last_removed, has_last, page_bytes, page_uses, equal_page, first_page, first_twin};
ghost use Rattle.pages.specs.Pages.{SparesNamed};
ghost use Rattle.pages.specs.Inner.Calls.{IsPageUse, IsFirstPage};

use crate::twins::{Twin, twin_in};
use basis::Bytes;
use sqlite::{Alter, Connection, Error, Row, Transaction, params};
use statements::calls::{Read, first_row, first_row_inside, read_one, signed, update, write};

/// The twin number of a page, and the number of its uses.
#[derive(Clone, Copy)]
pub(crate) struct PageUse {
    pub twin: Twin,
    pub uses: u64,
}

impl Read for PageUse {
    ghost is_in = { IsPageUse };

    fn of_row(row: &Row) -> Result<PageUse, Error> {
        Ok(PageUse {
            twin: twin_in(row, 0)?,
            uses: row.get(1)?,
        })
    }
}

const ADD_PAGE: &str = "INSERT INTO page (pkey, twin, bytes, uses) VALUES (?1, ?2, ?3, 1)";

/// Adds a page with one use.
pub(crate) fn add<'v, S: Alter>(
    tx: &mut Transaction<'_, S>,
    key: &'v [u8],
    twin: Twin,
    bytes: &'v [u8],
) -> Result<(), Error>
    ensures { Writes S.Store AnyRows (page_added key.now twin bytes.now) tx.old tx.new result }
{
    let twin = twin.signed();
    write(tx, ADD_PAGE, params![key, &twin, bytes])
}

const SET_PAGE_USES: &str = "UPDATE page SET uses = ?3 WHERE pkey = ?1 AND twin = ?2";

/// Sets the number of a page's uses.
pub(crate) fn set_uses<'v, S: Alter>(
    tx: &mut Transaction<'_, S>,
    key: &'v [u8],
    twin: Twin,
    uses: u64,
) -> Result<(), Error>
    requires uses_fit { uses < 2 ^ 63 }
    ensures writes { Writes S.Store AnyRows (page_used key.now twin uses) tx.old tx.new result }
    ensures spares { SparesNamed (state S.Store tx.old.conn.now) (state S.Store tx.new.conn.now) result }
{
    let twin = twin.signed();
    let uses = signed(uses);
    write(tx, SET_PAGE_USES, params![key, &twin, &uses])
}

const REMOVE_PAGE: &str = "DELETE FROM page WHERE pkey = ?1 AND twin = ?2";

/// Removes a page.
pub(crate) fn remove<'v, S: Alter>(
    tx: &mut Transaction<'_, S>,
    key: &'v [u8],
    twin: Twin,
) -> Result<(), Error>
    ensures writes { Writes S.Store AnyRows (page_removed key.now twin) tx.old tx.new result }
    ensures spares { SparesNamed (state S.Store tx.old.conn.now) (state S.Store tx.new.conn.now) result }
{
    let twin = twin.signed();
    write(tx, REMOVE_PAGE, params![key, &twin])
}

const REMOVE_LAST_PAGE: &str = "DELETE FROM page WHERE pkey = ?1 AND twin = ?2 AND uses < 2";

/// Removes a page that has at most one use. Returns whether there was such a page.
pub(crate) fn remove_last<'v, S: Alter>(
    tx: &mut Transaction<'_, S>,
    key: &'v [u8],
    twin: Twin,
) -> Result<bool, Error>
    ensures writes { Writes S.Store AnyRows (last_removed key.now twin) tx.old tx.new result }
    ensures found { Reports (Equals (has_last key.now twin)) (state S.Store tx.old.conn.now) (state S.Store tx.new.conn.now) result }
    ensures spares { SparesNamed (state S.Store tx.old.conn.now) (state S.Store tx.new.conn.now) result }
{
    let twin = twin.signed();
    update(tx, REMOVE_LAST_PAGE, params![key, &twin])
}

const FIND_PAGE_BYTES: &str = "SELECT bytes FROM page WHERE pkey = ?1 AND twin = ?2 ORDER BY rowid";

/// The bytes of a page; none if there is no such page.
pub(crate) fn bytes<'v, S: Alter>(
    conn: &mut Connection<S>,
    key: &'v [u8],
    twin: Twin,
) -> Result<Option<Bytes>, Error>
    ensures { Queries S.Store (Equals (page_bytes key.now twin)) conn.old conn.new result }
{
    let twin = twin.signed();
    let row = first_row(conn, FIND_PAGE_BYTES, params![key, &twin]);
    read_one(row)
}

const FIND_PAGE_USES: &str = "SELECT uses FROM page WHERE pkey = ?1 AND twin = ?2 ORDER BY rowid";

/// The number of a page's uses; none if there is no such page.
pub(crate) fn uses<'v, S: Alter>(
    tx: &mut Transaction<'_, S>,
    key: &'v [u8],
    twin: Twin,
) -> Result<Option<u64>, Error>
    ensures same_reference { tx.new.conn.ghost_name ≡ tx.old.conn.ghost_name }
    ensures read { Reads (Equals (page_uses key.now twin)) (state S.Store tx.old.conn.now) (state S.Store tx.new.conn.now) result }
    ensures survives { Survives (state S.Store tx.old.conn.now) (state S.Store tx.new.conn.now) (λ _. ⊥) }
{
    let twin = twin.signed();
    let row = first_row_inside(tx, FIND_PAGE_USES, params![key, &twin]);
    read_one(row)
}

const FIRST_TWIN: &str = "SELECT twin FROM page WHERE pkey = ?1 ORDER BY rowid";

/// The twin number of the first page with this key.
pub(crate) fn first_twin<S: Alter>(
    tx: &mut Transaction<'_, S>,
    key: &[u8],
) -> Result<Option<Twin>, Error>
    ensures same_reference { tx.new.conn.ghost_name ≡ tx.old.conn.ghost_name }
    ensures read { Reads (Equals (first_twin key.now)) (state S.Store tx.old.conn.now) (state S.Store tx.new.conn.now) result }
    ensures survives { Survives (state S.Store tx.old.conn.now) (state S.Store tx.new.conn.now) (λ _. ⊥) }
{
    let row = first_row_inside(tx, FIRST_TWIN, params![key]);
    read_one(row)
}

/// The first page with a key, in the order of their rows, and whether it has the bytes asked for.
#[derive(Clone, Copy)]
pub(crate) struct FirstPage {
    pub found: PageUse,
    pub same: bool,
}

impl Read for FirstPage {
    ghost is_in = { IsFirstPage };

    fn of_row(row: &Row) -> Result<FirstPage, Error> {
        Ok(FirstPage {
            found: PageUse {
                twin: twin_in(row, 0)?,
                uses: row.get(1)?,
            },
            same: row.get(2)?,
        })
    }
}

const FIRST_PAGE: &str = "SELECT twin, uses, bytes = ?2 FROM page WHERE pkey = ?1 ORDER BY rowid";

/// The first page with this key, compared with these bytes.
pub(crate) fn first<S: Alter>(
    tx: &mut Transaction<'_, S>,
    key: &[u8],
    bytes: &[u8],
) -> Result<Option<FirstPage>, Error>
    ensures same_reference { tx.new.conn.ghost_name ≡ tx.old.conn.ghost_name }
    ensures read { Reads (Equals (first_page key.now bytes.now)) (state S.Store tx.old.conn.now) (state S.Store tx.new.conn.now) result }
    ensures survives { Survives (state S.Store tx.old.conn.now) (state S.Store tx.new.conn.now) (λ _. ⊥) }
{
    let row = first_row_inside(tx, FIRST_PAGE, params![key, bytes]);
    read_one(row)
}

pub(crate) const EQUAL_PAGE: &str =
    "SELECT twin, uses FROM page WHERE pkey = ?1 AND bytes = ?2 ORDER BY rowid";

/// The page with this key and these bytes.
pub(crate) fn equal<S: Alter>(
    tx: &mut Transaction<'_, S>,
    key: &[u8],
    bytes: &[u8],
) -> Result<Option<PageUse>, Error>
    ensures same_reference { tx.new.conn.ghost_name ≡ tx.old.conn.ghost_name }
    ensures read { Reads (Equals (equal_page key.now bytes.now)) (state S.Store tx.old.conn.now) (state S.Store tx.new.conn.now) result }
    ensures survives { Survives (state S.Store tx.old.conn.now) (state S.Store tx.new.conn.now) (λ _. ⊥) }
{
    let row = first_row_inside(tx, EQUAL_PAGE, params![key, bytes]);
    read_one(row)
}
