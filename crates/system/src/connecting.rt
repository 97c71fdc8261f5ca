//! A connection to the database in two files, which is begun where there is none.
ghost use Rattle.std.specs.Prelude.{◌≡◌, ◌+◌, true, false, IsTrue, IfOk, IfErr};
ghost use Rattle.sqlite_pool.specs.Stored.{used_size};
ghost use Rattle.sqlite_wal.specs.Files.{seen_image};
ghost use Rattle.sqlite_wal.specs.Reads.{AreClean};
ghost use Rattle.sqlite_store.specs.FileStore.{state, view};
ghost use Rattle.sqlite.specs.Files.{file_state, image_of, IsOpened, IsEmpty, IsBlankAs};
ghost use Rattle.sqlite.specs.Start.{FindsIn};
ghost use Rattle.sqlite.specs.State.{HasCleanDisk};
ghost use Rattle.system.specs.Begun.{MayBegin, FailsToBegin, IsBegun, tally_since};
ghost use Rattle.system.specs.Causes.{begun_cause, is_open_cause};
ghost use Rattle.system.specs.declared.connecting.TheConstants.{NEW_PAGE_BYTES};

use crate::causes::database_cause;
use program::reasons::Cause;
use sqlite::Connection;
use sqlite_disk::{Disk, Files, Tally};
use sqlite_pager::{Options, Pager};
use sqlite_store::{FileStore, OpenError, Unopened};
use sqlite_wal::PageSize;
use std::alloc::Global;

/// The page size of a new file, in bytes. SQLite's default is 4,096. A change writes every page that it touches whole, to the WAL
/// and later to the file.
pub const NEW_PAGE_BYTES: usize = 1_024;

/// Why a database was not begun, by the disk errors before and since.
pub fn begun_cause(error: OpenError, before: Tally, since: Tally) -> Cause
    ensures cause { result ≡ begun_cause error before since }
    ensures open { is_open_cause result ≡ true }
{
    match error {
        OpenError::OutOfMemory => Cause::NoMemory,
        OpenError::Io if since.refused > before.refused => Cause::NoRoom,
        _ => Cause::Disk,
    }
}

/// The disk errors so far, once the files were opened.
pub fn tally_since<D: Disk + Drop>(before: Tally, left: Option<Unopened<D>>) -> Tally
    ensures { result ≡ tally_since before left }
{
    match left {
        None => before,
        Some(left) => left.tally(),
    }
}

/// Begins an empty database in files that hold none, or in which one was begun and not finished. Its pages have 1,024 bytes, and
/// each ends with SQLite's checksum (cksumvfs). Refuses files that hold a database, and leaves them as they are.
pub fn begin<D: Disk + Drop>(
    alloc: Global,
    files: Files<D>,
    options: Options,
) -> Result<FileStore<D>, (OpenError, Option<Unopened<D>>)>
    requires log { IsTrue (D.Disk.is_usable files.log) }
    requires db { IsTrue (D.Disk.is_usable files.db) }
    ensures pages { IfOk result (λ store. IsTrue (state store).is_clean → (state store).page_size + 8 ≡ NEW_PAGE_BYTES) }
    ensures begun { IfOk result (λ store. IsTrue (state store).is_clean → ∥ MayBegin (used_size NEW_PAGE_BYTES true) (seen_image D.Disk files.log files.db) ∥₁) }
    ensures fresh { IfOk result (λ store. IsTrue (view store).is_clean → IsBegun store) }
    ensures honest { IfOk result (λ store. IsTrue (view store).is_clean → AreClean D.Disk files.log files.db) }
    ensures cause { IfErr result (λ e. FailsToBegin NEW_PAGE_BYTES (seen_image D.Disk files.log files.db) e.0 e.1) }
{
    let size = PageSize::new(NEW_PAGE_BYTES).unwrap();
    let pager = match Pager::new(alloc, files, size, options) {
        Ok(pager) => pager,
        Err(_) => return Err((OpenError::OutOfMemory, None)),
    };
    let unbegun = match Unopened::with_sums(alloc, pager, &[], true) {
        Ok(unbegun) => unbegun,
        Err(_) => return Err((OpenError::OutOfMemory, None)),
    };
    match unbegun.create() {
        Ok(store) => Ok(store),
        Err((error, left)) => Err((error, Some(left))),
    }
}

/// Begins a database in files, and opens it empty.
fn connect_new<D: Disk + Drop>(
    alloc: Global,
    files: Files<D>,
    options: Options,
) -> Result<Connection<FileStore<D>>, Cause>
    requires log { IsTrue (D.Disk.is_usable files.log) }
    requires db { IsTrue (D.Disk.is_usable files.db) }
    ensures opened { IfOk result (λ conn. HasCleanDisk (file_state conn) → IsOpened conn) }
    ensures empty { IfOk result (λ conn. HasCleanDisk (file_state conn) → IsEmpty (file_state conn).committed.trees) }
    ensures guarded { IfOk result (λ conn. HasCleanDisk (file_state conn) → (file_state conn).IsShielded) }
    ensures sums { IfOk result (λ conn. HasCleanDisk (file_state conn) → (view conn.store).has_sums ≡ true) }
    ensures honest { IfOk result (λ conn. HasCleanDisk (file_state conn) → AreClean D.Disk files.log files.db) }
    ensures idle { IfOk result (λ conn. conn.in_transaction ≡ false) }
    ensures why { IfErr result (λ cause. is_open_cause cause ≡ true) }
{
    let before = files.tally();
    let store = match begin(alloc, files, options) {
        Ok(store) => store,
        Err((error, left)) => return Err(begun_cause(error, before, tally_since(before, left))),
    };
    match Connection::over(alloc, store) {
        Ok(conn) => Ok(conn),
        Err((error, _)) => Err(database_cause(error)),
    }
}

/// Opens the database in two files, the database file and its WAL. If the database file is empty and may be created, a database
/// is begun there, and nobody else has the files until it is open. Each page of a new database ends with SQLite's checksum
/// (cksumvfs), and a page with a wrong checksum is refused. An existing database has checksums or not, as it was created.
pub fn connect<D: Disk + Drop>(
    alloc: Global,
    files: Files<D>,
    options: Options,
    may_begin: bool,
) -> Result<Connection<FileStore<D>>, Cause>
    requires log { IsTrue (D.Disk.is_usable files.log) }
    requires db { IsTrue (D.Disk.is_usable files.db) }
    ensures opened { IfOk result (λ conn. HasCleanDisk (file_state conn) → IsOpened conn) }
    ensures found { IfOk result (λ conn. HasCleanDisk (file_state conn) → FindsIn (image_of D.Disk files) (file_state conn)) }
    ensures guarded { IfOk result (λ conn. HasCleanDisk (file_state conn) → (file_state conn).IsShielded) }
    ensures sums { IfOk result (λ conn. HasCleanDisk (file_state conn) → IsBlankAs true (image_of D.Disk files) → (view conn.store).has_sums ≡ true) }
    ensures idle { IfOk result (λ conn. conn.in_transaction ≡ false) }
    ensures why { IfErr result (λ cause. is_open_cause cause ≡ true) }
{
    let mut files = files;
    match files.db.len() {
        Ok(0) if may_begin => connect_new(alloc, files, options),
        Ok(0) => Err(Cause::Missing),
        Ok(_) => match Connection::open_files_with(alloc, files, options, true) {
            Ok(conn) => Ok(conn),
            Err((error, _)) => Err(database_cause(error)),
        },
        Err(_) => Err(Cause::Disk),
    }
}
