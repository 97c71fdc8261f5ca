//! Databases in files.
ghost use Rattle.std.specs.Prelude.{◌≡◌, ◌<◌, true, false, not, ⊤, is_some, [], None, IfSome, IfOk, IfErr};
ghost use Rattle.sqlite.specs.Held.{state};
ghost use Rattle.tables.specs.Opening.{any_there, has_older};
ghost use Rattle.sqlite_store.specs.FileStore.{view};
ghost use Rattle.sqlite_wal.specs.Files.{image_at};
ghost use Rattle.sqlite.specs.Files.{file_state, IsOpened, IsBlankAs};
ghost use Rattle.sqlite.specs.Start.{FindsIn};
ghost use Rattle.sqlite.specs.State.{HasCleanDisk};
ghost use Rattle.sqlite_disk.specs.Modelled.{calls_of, start_of};
ghost use Rattle.statements.specs.Tables.{tables_of};
ghost use Rattle.statements.specs.declared.making.TheConstants.{SCHEMA_VERSION};
ghost use Rattle.tables.specs.Logs.{CopiesLog};
ghost use Rattle.tables.specs.Opening.{IsFresh};
ghost use Rattle.checks.specs.Standing.{HaveRows};
ghost use Rattle.program.specs.Paths.{makes, raises};
ghost use Rattle.system.specs.Causes.{IsFileFault, IsOtherSchema, is_open_cause};
ghost use Rattle.system.specs.Files.{OpensOn, HadTables, IsAsFound, IsClosedOn};
ghost use Rattle.system.specs.Shields.{AreCleanOrCollided};
ghost use Rattle.system.specs.Totals.{ReportsOf, found_totals};

use crate::causes::{pair_cause, system_cause};
use crate::connecting::connect;
use crate::copies::copy_between;
use crate::lone_logs::admit;
use crate::making::make;
use crate::old_logs::refuse_old;
use crate::pairs::Pair;
use crate::replays::replayed;
use crate::tuning::{file_bytes, options};
use basis::{Bytes, Down, Moment, OrgName};
use machine::{AdminAnswer, Fault, Keep};
use pages::ShaKey;
use program::environment::{CopyTask, Files, Opening};
use program::reasons::{Cause, OpenFault, OtherSchema};
use program::totals::{Findings, Totals};
use serve::Step;
use sqlite::{Alter, Connection, Error, Row};
use sqlite_disk::{Calls, Disk, Start};
use sqlite_std_file::{FileFrom, Host};
use sqlite_store::FileStore;
use statements::making::SCHEMA_VERSION;
use std::alloc::Global;
use std::os::unix::fs::MetadataExt;
use std::rt::HostRuntime;
use std::{fs, io};
use tables::{SqlKeep, Unopened, has_any_of_ours, older_version};

/// The store in a file, its pages named by SHA-256, which `start` stands for as it is opened.
pub type FileKeep<S> = SqlKeep<FileStore<FileFrom<S>>, ShaKey>;

/// By which of these bits of a file's mode others than its owner may read it.
const OTHERS_READ: u32 = 0o044;

fn is_readable(rt: &HostRuntime, path: &str) -> bool {
    match fs::metadata(rt, path) {
        Ok(found) => found.mode() & OTHERS_READ != 0,
        Err(_) => false,
    }
}

/// Whether others than its owner may read the file where a path leads, or its log.
fn is_any_readable(rt: &HostRuntime, path: &str) -> io::Result<bool> {
    let real = fs::canonicalize(rt, path)?;
    let log = format!(in rt.alloc(); "{}-wal", real.as_str())?;
    Ok(is_readable(rt, real.as_str()) || is_readable(rt, log.as_str()))
}

/// Opens the database in a file; where the file is empty one is begun there, if one is to be made.
fn open_database<S: Start>(
    rt: &HostRuntime,
    path: &str,
    opening: Opening,
    start: S,
) -> Result<Connection<FileStore<FileFrom<S>>>, Cause>
    ensures opened { IfOk result (λ conn. HasCleanDisk (file_state conn) → IsOpened conn) }
    ensures found { IfOk result (λ conn. HasCleanDisk (file_state conn) → FindsIn (image_at S.Start) (file_state conn)) }
    ensures guarded { IfOk result (λ conn. HasCleanDisk (file_state conn) → (file_state conn).IsShielded) }
    ensures sums { IfOk result (λ conn. HasCleanDisk (file_state conn) → IsBlankAs true (image_at S.Start) → (view conn.store).has_sums ≡ true) }
    ensures idle { IfOk result (λ conn. conn.in_transaction ≡ false) }
    ensures why { IfErr result (λ cause. is_open_cause cause ≡ true) }
{
    let options = match options(rt, path) {
        Ok(options) => options,
        Err(error) => return Err(system_cause(error.kind())),
    };
    let files = match sqlite_std_file::open(rt, path, start) {
        Ok(files) => files,
        Err(error) => return Err(pair_cause(error)),
    };
    connect(rt.alloc(), files, options, opening.makes())
}

/// The version that a row tells.
fn version_in(row: &Row) -> OtherSchema
    ensures { IsOtherSchema result }
{
    match row.get::<i64>(0) {
        Ok(version) => OtherSchema::Version(version.unsigned_abs()),
        Err(_) => OtherSchema::Unversioned,
    }
}

/// What a database of another schema has: the version that its first row of edition tells, or of meta, where no table has
/// that name.
fn other_in<S: Alter>(conn: &mut Connection<S>) -> OtherSchema
    ensures { IsOtherSchema result }
{
    match conn.query_row("SELECT version FROM edition", &[]) {
        Ok(row) => version_in(&row),
        Err(Error::SqlInputError(_)) => match conn.query_row("SELECT version FROM meta", &[]) {
            Ok(row) => version_in(&row),
            Err(_) => OtherSchema::Unversioned,
        },
        Err(_) => OtherSchema::Unversioned,
    }
}

/// Why a database isn't one of ours.
fn unopened_fault<S: Alter + Drop>(unopened: Unopened<S>) -> OpenFault
    ensures { IsFileFault result }
{
    let mut unopened = unopened;
    match unopened.fault {
        Fault::Schema => OpenFault::Schema(other_in(&mut unopened.conn)),
        Fault::Down => OpenFault::Down(Cause::Store),
    }
}

// Why a file wasn't opened; for want of memory its size is told.
fn opening_fault(cause: Cause, bytes: u64) -> OpenFault
    ensures { is_open_cause cause ≡ true → IsFileFault result }
{
    match cause {
        Cause::NoMemory => OpenFault::Memory(bytes),
        _ => OpenFault::Down(cause),
    }
}

// Makes the file, where one is to be made. A file beside a WAL of another time is refused.
fn make_for(rt: &HostRuntime, path: &str, opening: Opening) -> Result<(), Cause>
    ensures why { IfErr result (λ cause. is_open_cause cause ≡ true) }
{
    admit(rt, path, opening)?;
    refuse_old(rt, path)?;
    if opening.makes() {
        make(rt, path)
    } else {
        Ok(())
    }
}

// A database that is to be there already has our tables.
fn admit_tables<S: Alter>(conn: &Connection<S>, opening: Opening) -> bool
    ensures { result ≡ true → makes opening ≡ false → any_there (state S.Store conn.now).now.schema ≡ true }
{
    opening.makes() || has_any_of_ours(conn)
}

// The older version whose tables a database has, if it is only read. It is refused then, because a read raises nothing.
fn refused_version<S: Alter>(conn: &Connection<S>, opening: Opening) -> Option<u64>
    ensures older { IfSome result (λ version. version < SCHEMA_VERSION) }
    ensures none { result ≡ None → raises opening ≡ false → has_older (state S.Store conn.now).now.schema ≡ false }
{
    if opening.raises() {
        None
    } else {
        older_version(conn)
    }
}

// Why a database with the tables of an older version is not read: it has that version, unless it states another.
fn older_fault<S: Alter + Drop>(conn: Connection<S>, version: u64) -> OpenFault
    ensures { version < SCHEMA_VERSION → IsFileFault result }
{
    let mut conn = conn;
    match other_in(&mut conn) {
        OtherSchema::Version(stated) if stated == version => {
            OpenFault::Schema(OtherSchema::Older(version))
        }
        other => OpenFault::Schema(other),
    }
}

/// Opens the store in a file. A file that isn't there is made, if one is to be made there, for its owner alone and with no
/// organization; one of another schema stays as it is. Nothing ties what is found to the path, but to what `start` stands for.
/// Where no file is to be made, the database that was found had our tables. If it is only read, one of an older version is refused, and the store
/// has committed what was committed there.
/// Where the disk answered the open's own reads as it should, the store is shielded from then on. That memory was refused is told with
/// the file's size.
pub fn open_file<S: Start>(
    rt: &HostRuntime,
    path: &str,
    opening: Opening,
    start: S,
) -> Result<FileKeep<S>, OpenFault>
    ensures opens { IfOk result (λ keep. ⟦<FileKeep<S> as Keep>⟧.clean keep → OpensOn (image_at S.Start) (⟦<FileKeep<S> as Keep>⟧.rows keep) (⟦<FileKeep<S> as Keep>⟧.sound keep)) }
    ensures tabled { makes opening ≡ false → IfOk result (λ keep. ⟦<FileKeep<S> as Keep>⟧.clean keep → HadTables (image_at S.Start)) }
    ensures unraised { raises opening ≡ false → IfOk result (λ keep. ⟦<FileKeep<S> as Keep>⟧.clean keep → IsAsFound (image_at S.Start) (file_state keep.conn).committed) }
    ensures guarded { IfOk result (λ keep. ⟦<FileKeep<S> as Keep>⟧.clean keep → ⟦<FileKeep<S> as Keep>⟧.shielded keep) }
    ensures as_opened { IfOk result (λ keep. ⟦<FileKeep<S> as Keep>⟧.clean keep → IsFresh (file_state keep.seen.value).committed keep.memo (file_state keep.conn)) }
    ensures why { IfErr result IsFileFault }
{
    let bytes = file_bytes(rt, path).unwrap_or(0);
    match make_for(rt, path, opening) {
        Ok(()) => {}
        Err(cause) => return Err(opening_fault(cause, bytes)),
    }
    let conn = match open_database(rt, path, opening, start) {
        Ok(conn) => conn,
        Err(cause) => return Err(opening_fault(cause, bytes)),
    };
    if !admit_tables(&conn, opening) {
        return Err(OpenFault::Down(Cause::NoTables));
    }
    match refused_version(&conn, opening) {
        Some(version) => Err(older_fault(conn, version)),
        None => match SqlKeep::open(conn) {
            Ok(keep) => Ok(keep),
            Err(unopened) => Err(unopened_fault(unopened)),
        },
    }
}

/// Closes the store, its log copied into the file, and gives the two files back. After an error all that
/// was committed stands in the file and its log together. The files of a shielded store are clean, or a digest has collided.
pub fn close_file<S: Start>(keep: FileKeep<S>) -> Result<sqlite_disk::Files<FileFrom<S>>, Down>
    ensures closes { IfOk result (λ files. IsClosedOn ⟦<FileFrom<S> as Disk>⟧ files (⟦<FileKeep<S> as Keep>⟧.rows keep) (⟦<FileKeep<S> as Keep>⟧.sound keep)) }
    ensures ends { IfOk result (λ files. ⟦<FileKeep<S> as Keep>⟧.shielded keep → AreCleanOrCollided ⟦<FileFrom<S> as Disk>⟧ (start_of S.Start) (λ file. ⟦<Host as Calls>⟧.history (calls_of file)) files) }
{
    match keep.close().close_files() {
        Ok(files) => Ok(files),
        Err((_, store)) => {
            drop(store.close());
            Err(Down)
        }
    }
}

// What a check over the tables found, in the program's words.
fn reported(findings: checks::Findings) -> Findings
    ensures faults { result.faults ≡ findings.faults }
    ensures totals { found_totals result.totals ≡ findings.totals }
{
    let checks::Findings { faults, totals } = findings;
    Findings {
        faults,
        totals: Totals {
            organizations: totals.organizations,
            workspaces: totals.workspaces,
            versions: totals.versions,
            runs: totals.runs,
            newest: totals.newest,
            made: totals.made,
        },
    }
}

// Refuses what would open the first file or its log once more.
fn refuse_first(rt: &HostRuntime, first: &Option<Pair>, path: &str) -> Result<(), Cause>
    ensures why { IfErr result (λ cause. is_open_cause cause ≡ true) }
{
    let Some(first) = first else {
        return Err(Cause::Disk);
    };
    match first.is_opened_by(rt, path) {
        Ok(false) => Ok(()),
        Ok(true) => Err(Cause::InUse),
        Err(error) => Err(system_cause(error.kind())),
    }
}

// Opens a second file, beside the first.
fn open_other<S: Start>(
    rt: &HostRuntime,
    first: &Option<Pair>,
    path: &str,
    opening: Opening,
    other: S,
) -> Result<FileKeep<S>, OpenFault>
    ensures why { IfErr result IsFileFault }
{
    match refuse_first(rt, first, path) {
        Ok(()) => open_file(rt, path, opening, other),
        Err(cause) => Err(opening_fault(cause, file_bytes(rt, path).unwrap_or(0))),
    }
}

/// The files of the system. One of them is opened, which `start` stands for, and then another, by `other`. A third is
/// refused, and so is the first once more, by whatever path.
#[derive(Drop)]
pub struct DiskFiles<'a, S: Start> {
    rt: &'a HostRuntime,
    start: Option<S>,
    other: Option<S>,
    // The first file and its log, where they could be looked at.
    first: Option<Pair>,
}

impl<'a, S: Start> DiskFiles<'a, S> {
    pub fn new(rt: &'a HostRuntime, start: S, other: S) -> DiskFiles<'a, S> {
        DiskFiles {
            rt,
            start: Some(start),
            other: Some(other),
            first: None,
        }
    }
}

impl<S: Start> Files<FileKeep<S>> for DiskFiles<'_, S> {
    // Nothing ties what is found to the path: until a file is opened, whatever path it has, it is that of `start`. Of
    // what lies at paths afterwards, and so of a second file, nothing is said here.
    ghost holds = { λ files _ store. is_some files.start ≡ true → ⟦<FileKeep<S> as Keep>⟧.clean store → OpensOn (image_at S.Start) (⟦<FileKeep<S> as Keep>⟧.rows store) (⟦<FileKeep<S> as Keep>⟧.sound store) × ⟦<FileKeep<S> as Keep>⟧.shielded store × IsFresh (file_state store.seen.value).committed store.memo (file_state store.conn) };

    ghost copied = { λ _ _ store. (closed : _) × IsClosedOn ⟦<FileFrom<S> as Disk>⟧ closed (⟦<FileKeep<S> as Keep>⟧.rows store) (⟦<FileKeep<S> as Keep>⟧.sound store) };

    // Which fault comes when isn't told, but that memory is told with the file's size, and no cause but one of files.
    ghost refuses = { λ _ _ fault. IsFileFault fault };

    // Nothing ties a path to what lies there: none is known to be without a file.
    ghost vacant = { λ _ _. ⊥ };

    // Until a file is opened, it is that of `start`, whatever path it has.
    ghost bare = { λ files _. (is_some files.start ≡ true) × ¬ HadTables (image_at S.Start) };

    // Until a file is opened, it is that of `start`, whatever path it has.
    ghost unraised = { λ files _ store. is_some files.start ≡ true → ⟦<FileKeep<S> as Keep>⟧.clean store → IsAsFound (image_at S.Start) (file_state store.conn).committed };

    // Nothing ties a path to what lies there.
    ghost lacks = { λ _ _ _. ⊤ };

    // Nothing ties a path to the modes that are looked at.
    ghost reads = { λ _ _ _. ⊤ };

    // A store is shut where its connection is, while its disk kept what it promised.
    ghost shuts = { λ store said after. ⟦<FileKeep<S> as Keep>⟧.clean after → IfOk said (λ is_shut. (file_state store.conn).is_open ≡ not is_shut) };

    // Nothing ties a path to what is looked at there.
    ghost places = { λ _ _. ⊤ };

    // What was written is counted, and no longer once a long log was copied. How long the log is, and where its pages lie, no
    // clause of the kit tells.
    ghost checkpoints = { λ old new. CopiesLog old.logged new.logged old new };

    // No fault is found exactly if the tables are ours and sound, each page's key is the SHA-256 of its bytes, and no run is
    // missing, while the disk kept what it promised; and the numbers are those of their rows.
    ghost finds = { λ store said after. ⟦<FileKeep<S> as Keep>⟧.clean after → IfOk said (ReportsOf (file_state store.conn).committed) };

    ghost newest = { SCHEMA_VERSION };

    // The store is as it was opened, and the rows of our tables are those of values.
    ghost is_ours = { λ store. IsFresh (file_state store.seen.value).committed store.memo (file_state store.conn) × HaveRows (file_state store.seen.value).committed (tables_of (file_state store.seen.value).committed) };

    // What can't be looked at counts as there: the open behind it tells why.
    fn is_absent(&self, path: &str) -> bool {
        match fs::exists(self.rt, path) {
            Ok(is_there) => !is_there,
            Err(_) => false,
        }
    }

    // What can't be looked at counts as read by nobody else: the open behind it tells why.
    fn others_may_read(&self, path: &str) -> bool {
        is_any_readable(self.rt, path).unwrap_or(false)
    }

    fn newest_schema(&self) -> u64 {
        SCHEMA_VERSION
    }

    fn open(&mut self, path: &str, opening: Opening) -> Result<FileKeep<S>, OpenFault> {
        match self.start.take() {
            Some(start) => {
                let opened = open_file(self.rt, path, opening, start);
                self.first = Pair::at(self.rt, path).ok();
                opened
            }
            None => match self.other.take() {
                Some(other) => open_other(self.rt, &self.first, path, opening, other),
                None => Err(OpenFault::Down(Cause::InUse)),
            },
        }
    }

    fn is_shut(&self, store: &mut FileKeep<S>) -> Result<bool, Down> {
        store.is_shut()
    }

    // Files that could not be looked at when they were opened count as in place.
    fn is_in_place(&self, _at: Moment) -> bool {
        match &self.first {
            Some(first) => first.is_in_place(self.rt),
            None => true,
        }
    }

    fn checkpoint(&self, store: &mut FileKeep<S>) -> Result<(), Down> {
        store.checkpoint()
    }

    fn check(&self, alloc: Global, store: &mut FileKeep<S>) -> Result<Findings, Down> {
        match checks::check(store, alloc) {
            Ok(findings) => Ok(reported(findings)),
            Err(refused) => Err(refused),
        }
    }

    fn copy(
        &self,
        alloc: Global,
        task: CopyTask,
        org: &OrgName,
        from: &mut FileKeep<S>,
        to: &mut FileKeep<S>,
    ) -> Result<AdminAnswer, Down> {
        copy_between(alloc, task, org, from, to)
    }

    fn close(&mut self, _path: &str, store: FileKeep<S>) -> Result<(), Down> {
        self.start = None;
        match close_file(store) {
            Ok(files) => {
                drop(files);
                Ok(())
            }
            Err(down) => Err(down),
        }
    }

    fn replay(&self, alloc: Global, steps: &[Step]) -> Result<Vec<Bytes>, Down> {
        replayed(alloc, steps)
    }
}
