//! A file that is new: made for its owner alone. One in which a database was begun and not ended: begun again.
ghost use Rattle.std.specs.Prelude.{◌≡◌, true, IfErr};
ghost use Rattle.system.specs.Causes.{is_open_cause};

use crate::causes::{pair_cause, system_cause};
use crate::connecting::{NEW_PAGE_BYTES, begin, begun_cause, tally_since};
use crate::tuning::first_options;
use program::reasons::Cause;
use sqlite_disk::Unknown;
use sqlite_store::OpenError;
use std::fs;
use std::fs::OpenOptions;
use std::io::ErrorKind;
use std::os::unix::fs::OpenOptionsExt;
use std::rt::HostRuntime;

/// The mode of a new file: only its owner may read and write it.
const OWNER_ALONE: u32 = 0o600;

/// Creates the file, for its owner alone, if there is nothing at the path. Its WAL gets the file's mode. If this fails, the store
/// is down, because the later open would create a file that others may read. So it is if SQLite's programs do not read the path
/// as a file's name.
fn make_private(rt: &HostRuntime, path: &str) -> Result<(), Cause>
    ensures why { IfErr result (λ cause. is_open_cause cause ≡ true) }
{
    if path == ":memory:" || path.starts_with("file:") {
        return Err(Cause::NoFile);
    }
    let made = OpenOptions::new()
        .write(true)
        .create_new(true)
        .mode(OWNER_ALONE)
        .open(rt, path);
    match made {
        Ok(file) => {
            drop(file);
            Ok(())
        }
        Err(error) => match error.kind() {
            ErrorKind::AlreadyExists => Ok(()),
            kind => Err(system_cause(kind)),
        },
    }
}

/// Whether a file may hold a database that was begun and not finished: it has some bytes, but no more than the first page.
fn may_be_half(rt: &HostRuntime, path: &str) -> bool {
    match fs::metadata(rt, path) {
        Ok(found) => { found.is_file() && 0 < found.len() && found.len() <= NEW_PAGE_BYTES as u64 }
        Err(_) => false,
    }
}

fn begin_at(rt: &HostRuntime, path: &str) -> Result<(), Cause>
    ensures why { IfErr result (λ cause. is_open_cause cause ≡ true) }
{
    let options = match first_options(rt) {
        Ok(options) => options,
        Err(error) => return Err(system_cause(error.kind())),
    };
    let files = match sqlite_std_file::open(rt, path, Unknown) {
        Ok(files) => files,
        Err(error) => return Err(pair_cause(error)),
    };
    let before = files.tally();
    match begin(rt.alloc(), files, options) {
        Ok(begun) => {
            drop(begun);
            Ok(())
        }
        Err((OpenError::Refused, _)) => Ok(()),
        Err((error, left)) => Err(begun_cause(error, before, tally_since(before, left))),
    }
}

/// Creates an empty database file, for its owner alone, if there is none. A database that was begun there and not finished is
/// begun again. Anything else at the path is not changed.
pub fn make(rt: &HostRuntime, path: &str) -> Result<(), Cause>
    ensures why { IfErr result (λ cause. is_open_cause cause ≡ true) }
{
    make_private(rt, path)?;
    if may_be_half(rt, path) {
        begin_at(rt, path)
    } else {
        Ok(())
    }
}
