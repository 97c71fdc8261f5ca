//! The store of all organizations over one connection to a database.
ghost use Rattle.std.specs.Prelude.{◌≡◌, false, not, ◌≢◌, ◌<◌, ℕ, List, None, Ok, IsTrue, IfOk, IfErr, OnErr};
ghost use Rattle.sqlite.specs.Held.{state};
ghost use Rattle.sqlite.specs.State.{HasCleanDisk};
ghost use Rattle.tables.specs.Stores.{records_of};
ghost use Rattle.statements.specs.Tables.{Tables, Holds};
ghost use Rattle.tables.specs.Opened.{IsOpened, IsLeft, RefusesOthers};
ghost use Rattle.tables.specs.Opening.{IsFresh};
ghost use Rattle.machine.specs.StoreCalls.{Unchanged, Lasts, LastsWhere};
ghost use Rattle.tables.specs.Copying.{IsCopied};
ghost use Rattle.tables.specs.Defined.{ReportsTables};
ghost use Rattle.tables.specs.Scans.{AreRowsOf};
ghost use Rattle.tables.specs.Logs.{CopiesLog};
ghost use Rattle.tables.specs.declared.store.TheConstants.{LONG_LOG};

use crate::memo::Memo;
use crate::opening::ready;
use crate::{comparisons, operators, points, scans, transactions};
use basis::{Down, Items, OrgName, Text};
use machine::{AdminAnswer, Fault, Keep};
use pages::PageKey;
use sqlite::{Alter, Connection, MemStore};
use statements::rows::Rows;
use std::alloc::Global;
use std::marker::PhantomData;
use std::snapshot::Snapshot;

// A WAL is long if it has this many bytes of texts. Together with its other contents these are the 4,096,000
// bytes from which on a write copies the WAL into the file first.
const LONG_LOG: u64 = 4_000_000;

/// The store of all organizations in the tables of a database. `K` computes the keys of the pages of texts.
#[derive(Drop)]
pub struct SqlKeep<S: Alter, K: PageKey> {
    pub(crate) conn: Connection<S>,
    // The connection when its rows were last seen. A store that a disk error has closed has the records of
    // those rows.
    pub(crate) seen: Snapshot<Connection<S>>,
    // What is kept of the rows, so that it is not looked up again.
    pub(crate) memo: Memo,
    // The number of bytes of texts that were written since the WAL was last known to be copied into the file.
    pub(crate) logged: u64,
    // computes the keys of the pages of texts
    key: PhantomData<K>,
    ghost idle: { conn.in_transaction ≡ false },
}

impl<K: PageKey> SqlKeep<MemStore, K> {
    /// The promises of a store in memory always hold, and it is always shielded.
    pub fn is_always_clean(&self)
        ensures clean { ⟦<SqlKeep<MemStore, K> as Keep>⟧.clean self.now }
        ensures shielded { ⟦<SqlKeep<MemStore, K> as Keep>⟧.shielded self.now }
    {}

    /// A store in memory without organizations.
    pub fn in_memory(alloc: Global) -> Result<SqlKeep<MemStore, K>, Down>
        ensures empty { IfOk result (λ keep. (o : List ℕ) → ⟦<SqlKeep<MemStore, K> as Keep>⟧.rows keep o ≡ None) }
        ensures sound { IfOk result (λ keep. ⟦<SqlKeep<MemStore, K> as Keep>⟧.sound keep) }
        ensures shielded { IfOk result (λ keep. ⟦<SqlKeep<MemStore, K> as Keep>⟧.shielded keep) }
        ensures keyed { IfOk result (λ keep. ⟦<SqlKeep<MemStore, K> as Keep>⟧.keyed keep) }
    {
        let conn = Connection::open_in_memory(alloc)?;
        match SqlKeep::open(conn) {
            Ok(keep) => Ok(keep),
            Err(_) => Err(Down),
        }
    }
}

/// A database that was not opened, and why.
#[derive(Drop)]
pub struct Unopened<S: Alter> {
    pub fault: Fault,
    pub conn: Connection<S>,
}

impl<S: Alter, K: PageKey> SqlKeep<S, K> {
    /// Opens a database. If it has none of our tables, they are all created, in one transaction; its other
    /// tables are unchanged. If it has those of the newest version, it is unchanged. If it has those of an
    /// earlier version, it is upgraded to the newest, one version at a time, each in one transaction. If
    /// other tables have some of our names, the connection is returned and the database is unchanged. The
    /// same holds if an error prevents opening, except during an upgrade: then the database may have a
    /// version in between. In both cases a shielded connection stays shielded.
    pub fn open(mut conn: Connection<S>) -> Result<SqlKeep<S, K>, Unopened<S>>
        requires idle { conn.in_transaction ≡ false }
        ensures so_far { IfOk result (λ keep. ⟦<SqlKeep<S, K> as Keep>⟧.clean keep → HasCleanDisk (state S.Store conn)) }
        ensures shield { IfOk result (λ keep. (state S.Store conn).IsShielded → ⟦<SqlKeep<S, K> as Keep>⟧.shielded keep) }
        ensures left_shielded { IfErr result (λ unopened. (state S.Store conn).IsShielded → (state S.Store unopened.conn).IsShielded) }
        ensures opened { IfOk result (λ keep. ⟦<SqlKeep<S, K> as Keep>⟧.clean keep
            → IsOpened K.key_of (⟦<SqlKeep<S, K> as Keep>⟧.rows keep) (⟦<SqlKeep<S, K> as Keep>⟧.sound keep) (⟦<SqlKeep<S, K> as Keep>⟧.keyed keep) (state S.Store conn) (state S.Store keep.conn)) }
        ensures left { IfErr result (λ unopened. HasCleanDisk (state S.Store unopened.conn) → IsLeft (unopened.fault ≡ Fault.Schema) (state S.Store conn) (state S.Store unopened.conn)) }
        ensures refuses { RefusesOthers (state S.Store conn).now.schema (IfErr result (λ unopened. unopened.fault ≡ Fault.Schema) × IfOk result (λ _. ⊥)) }
        ensures idle { IfErr result (λ unopened. unopened.conn.in_transaction ≡ false) }
        ensures as_opened { IfOk result (λ keep. ⟦<SqlKeep<S, K> as Keep>⟧.clean keep → IsFresh (state S.Store keep.seen.value).committed keep.memo (state S.Store keep.conn)) }
    {
        match ready(&mut conn) {
            Ok(()) => {
                let seen = Snapshot::of(&conn);
                Ok(SqlKeep {
                    conn,
                    seen,
                    memo: Memo::new(),
                    logged: 0,
                    key: PhantomData,
                })
            }
            Err(fault) => Err(Unopened { fault, conn }),
        }
    }

    /// Whether a disk error has closed the store, so that it refuses every call. Fails if memory is refused.
    pub fn is_shut(&mut self) -> Result<bool, Down>
        ensures reported { HasCleanDisk (state S.Store self.new.conn) → IfOk result (λ is_shut. (state S.Store self.old.conn).is_open ≡ not is_shut) }
        ensures unchanged { Unchanged ⟦<SqlKeep<S, K> as Keep>⟧.rows ⟦<SqlKeep<S, K> as Keep>⟧.clean ⟦<SqlKeep<S, K> as Keep>⟧.sound ⟦<SqlKeep<S, K> as Keep>⟧.keyed ⟦<SqlKeep<S, K> as Keep>⟧.shielded self.old self.new }
    {
        match points::is_shut(&mut self.conn) {
            Ok(is_shut) => Ok(is_shut),
            Err(_) => Err(Down),
        }
    }

    /// The names of our tables that the database lacks or defines differently. Fails if memory or the store
    /// refuses.
    pub fn other_tables(&mut self, alloc: Global) -> Result<Items<Text>, Down>
        ensures reported { HasCleanDisk (state S.Store self.new.conn) → IfOk result (ReportsTables (state S.Store self.old.conn) (state S.Store self.new.conn)) }
        ensures unchanged { Unchanged ⟦<SqlKeep<S, K> as Keep>⟧.rows ⟦<SqlKeep<S, K> as Keep>⟧.clean ⟦<SqlKeep<S, K> as Keep>⟧.sound ⟦<SqlKeep<S, K> as Keep>⟧.keyed ⟦<SqlKeep<S, K> as Keep>⟧.shielded self.old self.new }
    {
        match points::other_tables(&mut self.conn, alloc) {
            Ok(names) => Ok(names),
            Err(_) => Err(Down),
        }
    }

    /// If the WAL is long, copies it into the file, so that the next change need not. It does so by a write,
    /// which copies a long WAL first: it stores the schema's version again. No record of a sound store
    /// changes. Fails if memory or the store refuses.
    pub fn checkpoint(&mut self) -> Result<(), Down>
        ensures short { self.old.logged < LONG_LOG → result ≡ Ok tt }
        ensures log { CopiesLog self.old.logged self.new.logged self.old self.new }
        ensures lasts { Lasts ⟦<SqlKeep<S, K> as Keep>⟧.clean ⟦<SqlKeep<S, K> as Keep>⟧.sound ⟦<SqlKeep<S, K> as Keep>⟧.keyed ⟦<SqlKeep<S, K> as Keep>⟧.shielded self.old self.new }
        ensures same { ⟦<SqlKeep<S, K> as Keep>⟧.clean self.new → ⟦<SqlKeep<S, K> as Keep>⟧.sound self.old → (o : List ℕ) → ⟦<SqlKeep<S, K> as Keep>⟧.rows self.new o ≡ ⟦<SqlKeep<S, K> as Keep>⟧.rows self.old o }
    {
        if self.logged < LONG_LOG {
            return Ok(());
        }
        self.logged = 0;
        match transactions::touch_version(&mut self.conn) {
            Ok(()) => {
                self.seen = Snapshot::of(&self.conn);
                Ok(())
            }
            Err(_) => {
                self.memo = Memo::new();
                Err(Down)
            }
        }
    }

    /// The rows of all tables, each with its rowid; of pages, their heads. Fails if memory or the store
    /// refuses.
    pub fn scan(&mut self, alloc: Global) -> Result<Rows, Down>
        ensures reported { HasCleanDisk (state S.Store self.new.conn) → IfOk result (λ rows. (t : Tables) → Holds (state S.Store self.old.conn).committed t → AreRowsOf K.key_of t rows) }
        ensures unchanged { Unchanged ⟦<SqlKeep<S, K> as Keep>⟧.rows ⟦<SqlKeep<S, K> as Keep>⟧.clean ⟦<SqlKeep<S, K> as Keep>⟧.sound ⟦<SqlKeep<S, K> as Keep>⟧.keyed ⟦<SqlKeep<S, K> as Keep>⟧.shielded self.old self.new }
    {
        match scans::scan::<S, K>(&mut self.conn, alloc) {
            Ok(rows) => Ok(rows),
            Err(_) => Err(Down),
        }
    }

    /// Copies an organization with everything in it from another store, in one transaction of this store.
    /// Nothing changes if the other store lacks it, or if this one has it. Fails if memory or a store
    /// refuses.
    pub fn copy_from<T: Alter>(
        &mut self,
        alloc: Global,
        org: &OrgName,
        from: &mut SqlKeep<T, K>,
    ) -> Result<AdminAnswer, Down>
        ensures source { Unchanged ⟦<SqlKeep<T, K> as Keep>⟧.rows ⟦<SqlKeep<T, K> as Keep>⟧.clean ⟦<SqlKeep<T, K> as Keep>⟧.sound ⟦<SqlKeep<T, K> as Keep>⟧.keyed ⟦<SqlKeep<T, K> as Keep>⟧.shielded from.old from.new }
        ensures lasts { LastsWhere (⟦<SqlKeep<T, K> as Keep>⟧.clean from.new × ⟦<SqlKeep<T, K> as Keep>⟧.sound from.old) ⟦<SqlKeep<S, K> as Keep>⟧.clean ⟦<SqlKeep<S, K> as Keep>⟧.sound ⟦<SqlKeep<S, K> as Keep>⟧.keyed ⟦<SqlKeep<S, K> as Keep>⟧.shielded self.old self.new }
        ensures own { ⟦<SqlKeep<S, K> as Keep>⟧.clean self.new → ⟦<SqlKeep<S, K> as Keep>⟧.sound self.old → ⟦<SqlKeep<T, K> as Keep>⟧.clean from.new → ⟦<SqlKeep<T, K> as Keep>⟧.sound from.old
            → IfOk result (λ answer. IsCopied answer (⟦<SqlKeep<T, K> as Keep>⟧.rows from.old org.now) (⟦<SqlKeep<S, K> as Keep>⟧.rows self.old org.now) (⟦<SqlKeep<S, K> as Keep>⟧.rows self.new org.now)) }
        ensures others { ⟦<SqlKeep<S, K> as Keep>⟧.clean self.new → ⟦<SqlKeep<S, K> as Keep>⟧.sound self.old → ⟦<SqlKeep<T, K> as Keep>⟧.clean from.new → ⟦<SqlKeep<T, K> as Keep>⟧.sound from.old
            → (o : List ℕ) → o ≢ org.now → ⟦<SqlKeep<S, K> as Keep>⟧.rows self.new o ≡ ⟦<SqlKeep<S, K> as Keep>⟧.rows self.old o }
        ensures err { ⟦<SqlKeep<S, K> as Keep>⟧.clean self.new → OnErr result ((o : List ℕ) → ⟦<SqlKeep<S, K> as Keep>⟧.rows self.new o ≡ ⟦<SqlKeep<S, K> as Keep>⟧.rows self.old o) }
    {
        self.memo = Memo::new();
        match operators::copy::<T, K, S>(&mut self.conn, alloc, &mut from.conn, org.as_str()) {
            Ok(answer) => {
                self.seen = Snapshot::of(&self.conn);
                Ok(answer)
            }
            Err(_) => Err(Down),
        }
    }

    /// Whether an organization has the same record in another store, or is in neither. Changes nothing. Fails if
    /// memory or a store refuses.
    pub fn is_same_in(
        &mut self,
        alloc: Global,
        org: &OrgName,
        other: &mut SqlKeep<S, K>,
    ) -> Result<bool, Down>
        ensures unchanged { Unchanged ⟦<SqlKeep<S, K> as Keep>⟧.rows ⟦<SqlKeep<S, K> as Keep>⟧.clean ⟦<SqlKeep<S, K> as Keep>⟧.sound ⟦<SqlKeep<S, K> as Keep>⟧.keyed ⟦<SqlKeep<S, K> as Keep>⟧.shielded self.old self.new }
        ensures there { Unchanged ⟦<SqlKeep<S, K> as Keep>⟧.rows ⟦<SqlKeep<S, K> as Keep>⟧.clean ⟦<SqlKeep<S, K> as Keep>⟧.sound ⟦<SqlKeep<S, K> as Keep>⟧.keyed ⟦<SqlKeep<S, K> as Keep>⟧.shielded other.old other.new }
        ensures same { ⟦<SqlKeep<S, K> as Keep>⟧.clean self.new → ⟦<SqlKeep<S, K> as Keep>⟧.sound self.old → ⟦<SqlKeep<S, K> as Keep>⟧.clean other.new → ⟦<SqlKeep<S, K> as Keep>⟧.sound other.old
            → IfOk result (λ same. IsTrue same → ⟦<SqlKeep<S, K> as Keep>⟧.rows self.old org.now ≡ ⟦<SqlKeep<S, K> as Keep>⟧.rows other.old org.now) }
    {
        match comparisons::same_organization(alloc, &mut self.conn, &mut other.conn, org.as_str()) {
            Ok(same) => Ok(same),
            Err(_) => Err(Down),
        }
    }

    /// Returns the connection.
    pub fn close(self) -> Connection<S>
        ensures same { result ≡ self.conn }
        ensures rows { ⟦<SqlKeep<S, K> as Keep>⟧.sound self → IsTrue (state S.Store result).is_open
            → (o : List ℕ) → records_of (state S.Store result).committed o ≡ ⟦<SqlKeep<S, K> as Keep>⟧.rows self o }
        ensures idle { result.in_transaction ≡ false }
    {
        let SqlKeep {
            conn,
            seen: _,
            memo: _,
            logged: _,
            key: _,
        } = self;
        conn
    }
}
