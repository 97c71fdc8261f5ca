//! Why files aren't opened, in the program's words.
ghost use Rattle.std.specs.Prelude.{◌≡◌, true};
ghost use Rattle.system.specs.Causes.{system_cause, pair_cause, database_cause, is_open_cause};

use program::reasons::Cause;
use sqlite::{Error, ErrorCode};
use sqlite_std_file::OpenError;
use std::io::ErrorKind;

/// Why the system refused a file.
pub fn system_cause(kind: ErrorKind) -> Cause
    ensures cause { result ≡ system_cause kind }
    ensures open { is_open_cause result ≡ true }
{
    match kind {
        ErrorKind::PermissionDenied | ErrorKind::ReadOnlyFilesystem => Cause::NotPermitted,
        ErrorKind::Unsupported | ErrorKind::IsADirectory => Cause::NoFile,
        ErrorKind::NotFound | ErrorKind::NotADirectory => Cause::NoFolder,
        ErrorKind::StorageFull | ErrorKind::QuotaExceeded => Cause::NoRoom,
        ErrorKind::OutOfMemory => Cause::NoMemory,
        _ => Cause::Disk,
    }
}

/// Why a file and its log weren't had.
pub fn pair_cause(error: OpenError) -> Cause
    ensures cause { result ≡ pair_cause error }
    ensures open { is_open_cause result ≡ true }
{
    match error {
        OpenError::Io(error) => system_cause(error.kind()),
        OpenError::OutOfMemory => Cause::NoMemory,
        OpenError::Busy => Cause::InUse,
        OpenError::HotJournal => Cause::Journal,
    }
}

/// Why a database in files wasn't opened.
pub fn database_cause(error: Error) -> Cause
    ensures cause { result ≡ database_cause error }
    ensures open { is_open_cause result ≡ true }
{
    match error {
        Error::SqliteFailure(ErrorCode::OutOfMemory) => Cause::NoMemory,
        Error::SqliteFailure(ErrorCode::DiskFull) => Cause::NoRoom,
        Error::SqliteFailure(ErrorCode::DatabaseCorrupt) => Cause::Corrupt,
        Error::SqliteFailure(ErrorCode::NotADatabase) => Cause::Unsound,
        _ => Cause::Disk,
    }
}
