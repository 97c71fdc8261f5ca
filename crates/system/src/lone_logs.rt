//! A path at which no file lies, or an empty one, and the log beside it, which what is made there would drop.
ghost use Rattle.std.specs.Prelude.{◌≡◌, true, IfErr};
ghost use Rattle.system.specs.Causes.{is_open_cause};

use program::environment::Opening;
use program::reasons::Cause;
use std::path::PathBuf;
use std::rt::HostRuntime;
use std::{fs, io};

/// The smallest WAL that can hold a page, in bytes: a header of 32, a frame header of 24, and a page of at least 512 (SQLite's
/// file format, section 4).
const LEAST_LOG: u64 = 32 + 24 + 512;

/// Whether there is no file at a path, or an empty one. A path that cannot be examined counts as a file: the later open says why.
fn is_vacant(rt: &HostRuntime, path: &str) -> bool {
    match fs::metadata(rt, path) {
        Ok(found) => found.is_file() && found.len() == 0,
        Err(_) => matches!(fs::exists(rt, path), Ok(false)),
    }
}

/// The path with all symbolic links resolved, or the path itself if nothing is there. Fails if the path cannot be examined:
/// beside the link, neither the WAL would be found nor that the file is already open.
pub fn real_path(rt: &HostRuntime, path: &str) -> io::Result<PathBuf> {
    match fs::canonicalize(rt, path) {
        Ok(real) => Ok(real),
        Err(error) if error.kind() == io::ErrorKind::NotFound => {
            Ok(PathBuf::from_str(rt.alloc(), path)?)
        }
        Err(error) => Err(error),
    }
}

/// Whether the WAL beside a path may hold committed changes.
fn has_log(rt: &HostRuntime, path: &str) -> io::Result<bool> {
    let real = real_path(rt, path)?;
    let log = format!(in rt.alloc(); "{}-wal", real.as_str())?;
    match fs::metadata(rt, log.as_str()) {
        Ok(found) => Ok(found.len() >= LEAST_LOG),
        Err(error) if error.kind() == io::ErrorKind::NotFound => Ok(false),
        Err(error) => Err(error),
    }
}

/// The folder of a path.
fn folder_of(path: &str) -> &str {
    match path.rsplit_once('/') {
        Some(("", _)) => "/",
        Some((folder, _)) => folder,
        None => ".",
    }
}

/// Why no file may be created at a path that has none.
fn missing(rt: &HostRuntime, path: &str) -> Cause
    ensures { is_open_cause result ≡ true }
{
    match fs::exists(rt, folder_of(path)) {
        Ok(false) => Cause::NoFolder,
        _ => Cause::Missing,
    }
}

/// Refuses a path with no file, or an empty one, if the WAL beside it may hold committed changes, or if no database may be
/// created there. Nothing is changed.
pub fn admit(rt: &HostRuntime, path: &str, opening: Opening) -> Result<(), Cause>
    ensures why { IfErr result (λ cause. is_open_cause cause ≡ true) }
{
    if !is_vacant(rt, path) {
        return Ok(());
    }
    match has_log(rt, path) {
        Ok(true) => Err(Cause::LogAlone),
        Ok(false) if opening.makes() => Ok(()),
        Ok(false) => Err(missing(rt, path)),
        Err(error) => Err(crate::causes::system_cause(error.kind())),
    }
}
