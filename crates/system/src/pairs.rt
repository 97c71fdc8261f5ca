//! The file of a database and its log, by what they are and not by a path.
use crate::lone_logs::real_path;
use std::fs::Metadata;
use std::io::ErrorKind;
use std::os::unix::fs::MetadataExt;
use std::path::PathBuf;
use std::rt::HostRuntime;
use std::{fs, io};

/// A file, whatever path leads to it: its device and inode.
#[derive(Clone, Copy, PartialEq, Eq)]
struct FileId {
    device: u64,
    number: u64,
}

impl FileId {
    fn of(found: &Metadata) -> FileId {
        FileId {
            device: found.dev(),
            number: found.ino(),
        }
    }

    // Whether this file was found. What could not be looked at counts as found, unless nothing is there: an error that passes,
    // such as of memory, moves no file.
    fn is_at(self, found: io::Result<Metadata>) -> bool {
        match found {
            Ok(found) => FileId::of(&found) == self,
            Err(error) => !matches!(error.kind(), ErrorKind::NotFound | ErrorKind::NotADirectory),
        }
    }
}

fn id_of(rt: &HostRuntime, path: &str) -> io::Result<FileId> {
    let found = fs::metadata(rt, path)?;
    Ok(FileId::of(&found))
}

/// The paths that an open uses: the file with links resolved, its WAL, and a rollback journal.
const OPENED: &[&str] = &["", "-wal", "-journal"];

/// The file of an open database, and its WAL.
#[derive(Drop)]
pub struct Pair {
    file: FileId,
    log: FileId,
    // The path that was opened, and where it led: the file with links resolved, and its WAL.
    path: PathBuf,
    file_path: PathBuf,
    log_path: String,
}

impl Pair {
    /// The file that a path leads to, and its WAL.
    pub fn at(rt: &HostRuntime, path: &str) -> io::Result<Pair> {
        let real = fs::canonicalize(rt, path)?;
        let log = format!(in rt.alloc(); "{}-wal", real.as_str())?;
        Ok(Pair {
            file: id_of(rt, real.as_str())?,
            log: id_of(rt, log.as_str())?,
            path: PathBuf::from_str(rt.alloc(), path)?,
            file_path: real,
            log_path: log,
        })
    }

    // Whether the path leads to the file. If it has no link, this is one call less.
    fn is_led_to(&self, rt: &HostRuntime) -> bool {
        self.path.as_str() == self.file_path.as_str()
            || self.file.is_at(fs::metadata(rt, self.path.as_str()))
    }

    /// Whether the path still leads to the file, which is still where it was opened, and its WAL beside it. A link that was put
    /// there leads to the file, but the next open would take the WAL beside the link's target. Allocates nothing.
    pub fn is_in_place(&self, rt: &HostRuntime) -> bool {
        self.is_led_to(rt)
            && self
                .file
                .is_at(fs::symlink_metadata(rt, self.file_path.as_str()))
            && self.log.is_at(fs::metadata(rt, self.log_path.as_str()))
    }

    fn has(&self, rt: &HostRuntime, path: &str) -> bool {
        match id_of(rt, path) {
            Ok(id) => id == self.file || id == self.log,
            Err(_) => false,
        }
    }

    /// Whether an open of this path would open the file or its log once more: by the same path, by a link or a hard link,
    /// or as the log of another file. Nothing is opened to find out, since a process gives up its locks on a file as it
    /// closes any descriptor of it. That open has to be refused: a process isn't kept off by its own locks, so two stores
    /// would write one file.
    pub fn is_opened_by(&self, rt: &HostRuntime, path: &str) -> io::Result<bool> {
        let real = real_path(rt, path)?;
        for ending in OPENED {
            let one = format!(in rt.alloc(); "{}{}", real.as_str(), *ending)?;
            if self.has(rt, one.as_str()) {
                return Ok(true);
            }
        }
        Ok(false)
    }
}
