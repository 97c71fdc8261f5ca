//! The two files of a database in memory, and what is left of them if the power is cut at one of their calls.
use crate::keys::FirstByte;
use crate::records::earlier_record_of;
use crate::ways::Sql;
use machine::Fault;
use pages::{PageKey, ShaKey};
use sqlite::{Alter, Connection, FileStore, Files, Options};
use sqlite_disk::{Crash, Disk, Fuse, Memory};
use std::alloc::{AllocError, Global};
use std::io;
use story_runner::failures::Failure;
use story_runner::keyed::Keyed;
use story_runner::plays::Play;
use story_runner::recovering::{Done, Ended, Work, work_over};
use tables::{SqlKeep, Unopened};

// A file in memory whose calls fail from one on.
type Fused = Fuse<Memory>;

// The log of a database and its file.
type Pair = Files<Fused>;

/// More calls than a story makes.
pub const NEVER: u64 = u64::MAX;

/// After how many calls of each file the power is cut.
#[derive(Clone, Copy)]
pub struct Cuts {
    pub log: u64,
    pub db: u64,
}

/// The power is not cut.
pub const NO_CUTS: Cuts = Cuts {
    log: NEVER,
    db: NEVER,
};

/// How many pages that were read are kept in memory: more than a story's database has.
const PAGES_KEPT: usize = 100;

/// How many pages a change has in memory: fewer than a state's change has, so that the power is also cut where some are in
/// the log before it is committed.
const PAGES_HELD: usize = 6;

/// How long the log grows before it is copied into the file: it is copied in the midst of a story, too.
const FRAMES_KEPT: usize = 24;

/// Where the log's random numbers begin.
const SEED: u64 = 1;

/// So many bytes of a file are written together, or lost together.
const SECTOR: usize = 512;

/// The contents of the two files.
#[derive(Drop)]
pub struct Image {
    pub log: Vec<u8>,
    pub db: Vec<u8>,
}

// A file with these bytes, all of them on the disk.
fn file_of(alloc: Global, bytes: &[u8], calls: u64) -> io::Result<Fused> {
    let mut file = Memory::new(alloc);
    file.write_at(0, bytes)?;
    file.sync()?;
    Ok(Fuse::new(file, calls))
}

// The bytes of a file if the power is cut between two syncs: every other sector that was written has neither the old
// bytes nor the new ones.
fn torn(alloc: Global, written: &[u8], synced: &[u8]) -> Result<Vec<u8>, AllocError> {
    let mut bytes = Vec::new(alloc);
    for (index, byte) in written.iter().enumerate() {
        let is_torn = index / SECTOR % 2 == 1 && synced.get(index) != Some(byte);
        bytes.push(if is_torn { !*byte } else { *byte })?;
    }
    Ok(bytes)
}

impl Image {
    /// There is no file.
    pub fn new(alloc: Global) -> Image {
        Image {
            log: Vec::new(alloc),
            db: Vec::new(alloc),
        }
    }

    fn of(alloc: Global, files: &Pair) -> Result<Image, AllocError> {
        Ok(Image {
            log: Vec::from_slice(alloc, files.log.inner().bytes())?,
            db: Vec::from_slice(alloc, files.db.inner().bytes())?,
        })
    }

    /// Whether both files are the same.
    pub fn is_same(&self, other: &Image) -> bool {
        self.log.as_slice() == other.log.as_slice() && self.db.as_slice() == other.db.as_slice()
    }

    fn torn(&self, alloc: Global, synced: &Image) -> Result<Image, AllocError> {
        Ok(Image {
            log: torn(alloc, self.log.as_slice(), synced.log.as_slice())?,
            db: torn(alloc, self.db.as_slice(), synced.db.as_slice())?,
        })
    }

    fn files(&self, alloc: Global, cuts: Cuts) -> io::Result<Pair> {
        Ok(Files {
            log: file_of(alloc, self.log.as_slice(), cuts.log)?,
            db: file_of(alloc, self.db.as_slice(), cuts.db)?,
        })
    }
}

fn push_image(alloc: Global, images: &mut Vec<Image>, files: &Pair) -> Result<(), AllocError> {
    images.push(Image::of(alloc, files)?)?;
    Ok(())
}

// Behind what was written and what was synced, or in place of the latter where both are the same.
fn push_third(alloc: Global, images: &mut Vec<Image>) -> Result<(), AllocError> {
    let [written, synced] = images.as_slice() else {
        return Ok(());
    };
    if written.is_same(synced) {
        images.truncate(1);
        return Ok(());
    }
    let torn = written.torn(alloc, synced)?;
    images.push(torn)?;
    Ok(())
}

fn push_images(alloc: Global, images: &mut Vec<Image>, files: &mut Pair) -> Result<(), AllocError> {
    push_image(alloc, images, files)?;
    files.log.crash();
    files.db.crash();
    push_image(alloc, images, files)?;
    push_third(alloc, images)
}

// What the disk may have once the power is cut: all that was written; only what was synced; every other sector of
// what was not synced. One image, if all was synced.
fn images_of(alloc: Global, files: Pair) -> Result<Vec<Image>, AllocError> {
    let mut files = files;
    let mut images = Vec::new(alloc);
    match push_images(alloc, &mut images, &mut files) {
        Ok(()) => Ok(images),
        Err(error) => Err(error),
    }
}

fn options() -> Options {
    Options {
        cache_pages: PAGES_KEPT,
        spill_pages: PAGES_HELD,
        checkpoint_frames: FRAMES_KEPT,
        seed: SEED,
    }
}

/// What work over files left.
#[derive(Drop)]
pub struct Left {
    pub done: Done,
    /// What the disk may have.
    pub images: Vec<Image>,
}

// The contents of tables of an earlier schema version.
fn inspected_at<S: Alter>(alloc: Global, conn: &mut Connection<S>) -> Result<Done, Failure> {
    let mut done = Done::new(alloc, Ended::Completed);
    let record = earlier_record_of(alloc, conn)?;
    done.records.push(record)?;
    Ok(done)
}

// Works over a store, which is closed.
fn work_in<S: Alter + Drop, K: PageKey>(
    alloc: Global,
    keep: SqlKeep<S, K>,
    play: &Play,
    work: Work<'_>,
) -> Result<(Connection<S>, Done), Failure> {
    let (keep, done) = work_over(alloc, &Sql, keep, play, work)?;
    Ok((keep.close(), done))
}

// A store that didn't open is down, or its tables are of another schema.
fn left_unopened<S: Alter + Drop>(
    alloc: Global,
    unopened: Unopened<S>,
) -> Result<(Connection<S>, Done), Failure> {
    let Unopened { fault, conn } = unopened;
    match fault {
        Fault::Down => Ok((conn, Done::new(alloc, Ended::Unopened))),
        Fault::Schema => Err(Failure::refused(0, "the tables are those of another schema")),
    }
}

// Opens the store over a connection, and gives it back after the work.
fn worked_by<S: Alter + Drop, K: PageKey>(
    alloc: Global,
    conn: Connection<S>,
    play: &Play,
    work: Work<'_>,
) -> Result<(Connection<S>, Done), Failure> {
    if !conn.is_autocommit() {
        return Err(Failure::refused(0, "a transaction is open"));
    }
    match SqlKeep::<S, K>::open(conn) {
        Ok(keep) => work_in::<S, K>(alloc, keep, play, work),
        Err(unopened) => left_unopened(alloc, unopened),
    }
}

// The same, with pages by the key that the story asks for.
fn worked<S: Alter + Drop>(
    alloc: Global,
    conn: Connection<S>,
    play: &Play,
    work: Work<'_>,
) -> Result<(Connection<S>, Done), Failure> {
    match play.keyed {
        Keyed::Sha => worked_by::<S, ShaKey>(alloc, conn, play, work),
        Keyed::FirstByte => worked_by::<S, FirstByte>(alloc, conn, play, work),
    }
}

fn work_at<S: Alter + Drop>(
    alloc: Global,
    conn: Connection<S>,
    play: &Play,
    work: Work<'_>,
) -> Result<(Connection<S>, Done), Failure> {
    let mut conn = conn;
    match work {
        Work::QueryEarlier => match inspected_at(alloc, &mut conn) {
            Ok(done) => Ok((conn, done)),
            Err(failure) => Err(failure),
        },
        _ => worked(alloc, conn, play, work),
    }
}

// Copies the log into the file. Where the power is cut, or was, the files as they are.
fn closed<D: Disk + Drop>(conn: Connection<FileStore<D>>, ended: Ended) -> (Files<D>, Ended) {
    if ended != Ended::Completed {
        return (conn.into_store().close(), ended);
    }
    match conn.close_files() {
        Ok(files) => (files, Ended::Completed),
        Err((_, store)) => (store.close(), Ended::Unclosed),
    }
}

// Opens files, works over them and closes them.
fn over<D: Disk + Drop>(
    alloc: Global,
    files: Files<D>,
    play: &Play,
    work: Work<'_>,
) -> Result<(Files<D>, Done), Failure> {
    if !files.log.may_be_used() || !files.db.may_be_used() {
        return Err(Failure::refused(0, "memory was refused"));
    }
    match Connection::open_files(alloc, files, options()) {
        Ok(conn) => match work_at(alloc, conn, play, work) {
            Ok((conn, done)) => {
                let (files, ended) = closed(conn, done.ended);
                let records = done.records;
                Ok((files, Done { ended, records }))
            }
            Err(failure) => Err(failure),
        },
        Err((_, left)) => Ok((left.into_files(), Done::new(alloc, Ended::Unopened))),
    }
}

/// Works over files with these contents, with the power cut after so many calls.
pub fn over_image(
    alloc: Global,
    image: &Image,
    cuts: Cuts,
    play: &Play,
    work: Work<'_>,
) -> Result<Left, Failure> {
    let Ok(files) = image.files(alloc, cuts) else {
        return Err(Failure::refused(0, "memory was refused"));
    };
    let (files, done) = over(alloc, files, play, work)?;
    let images = images_of(alloc, files)?;
    Ok(Left { done, images })
}

/// The same, with the power not cut.
pub fn over_all_rows(
    alloc: Global,
    line: usize,
    image: &Image,
    play: &Play,
    work: Work<'_>,
) -> Result<Left, Failure> {
    let left = over_image(alloc, image, NO_CUTS, play, work)?;
    match left.done.ended {
        Ended::Completed => Ok(left),
        Ended::Unopened => Err(Failure::refused(line, "the files don't open")),
        Ended::Unclosed => Err(Failure::refused(line, "the files don't close")),
        Ended::Stopped(_) => Err(Failure::refused(
            line,
            "the store is down, and the power wasn't cut",
        )),
    }
}
