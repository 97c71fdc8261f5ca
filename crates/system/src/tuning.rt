//! What an open file keeps in memory, and how long its log grows, by the bytes of its pages.
use crate::connecting::NEW_PAGE_BYTES;
use sqlite_pager::Options;
use std::hash::{BuildHasher, RandomState};
use std::io::Read;
use std::rt::HostRuntime;
use std::{fs, io};

/// How many bytes a page has where the file doesn't tell: the kit's own number.
const DB_PAGE_BYTES: u64 = 4_096;

/// The fewest bytes a page may have.
const LEAST_PAGE: u64 = 512;

/// How many bytes of pages have room in memory, at the least.
const FEWEST_BYTES: u64 = 20_480_000;

/// A file of at most so many bytes has room in memory whole, since an open reads each page several times: that halves its time.
const MOST_WHOLE: u64 = 536_870_912;

/// How many bytes of pages of a larger file have room.
const MOST_BYTES: u64 = 134_217_728;

/// How many bytes of changed pages a change has in memory. Behind them all go to the log, which they come to anyway.
const MOST_HELD: u64 = 1_048_576;

/// How many bytes of pages the log has when it is copied into the file: SQLite's 1,000 of its own.
const LOG_BYTES: u64 = 4_096_000;

// How many bytes a page of a file has, as the bytes 16 and 17 of its header tell, where 65,536 don't fit. An empty file gets those of a new one. What isn't a file isn't
// read. Only before the file is opened: who closes it gives up the locks that its process has on it.
fn page_bytes(rt: &HostRuntime, path: &str) -> io::Result<u64> {
    let found = fs::metadata(rt, path)?;
    if !found.is_file() {
        return Ok(DB_PAGE_BYTES);
    }
    if found.len() == 0 {
        return Ok(NEW_PAGE_BYTES as u64);
    }
    let mut head = [0u8; 18];
    fs::open(rt, path)?.read_exact(&mut head)?;
    match u16::from_be_bytes([head[16], head[17]]) {
        0 => Ok(DB_PAGE_BYTES),
        1 => Ok(65_536),
        bytes => Ok(u64::from(bytes)),
    }
}

/// How many bytes a file has.
pub fn file_bytes(rt: &HostRuntime, path: &str) -> io::Result<u64> {
    Ok(fs::metadata(rt, path)?.len())
}

/// What is kept in memory while a database is begun, which has one page.
pub fn first_options(rt: &HostRuntime) -> io::Result<Options> {
    let mut options = Options::new(RandomState::new(rt)?.hash_one(&0u8));
    options.cache_pages = 1;
    Ok(options)
}

// How many bytes of pages of a file with so many bytes have room in memory.
fn cached_bytes(bytes: u64) -> u64 {
    if bytes <= MOST_WHOLE {
        bytes.max(FEWEST_BYTES)
    } else {
        MOST_BYTES
    }
}

/// What is kept in memory of the file at a path.
pub fn options(rt: &HostRuntime, path: &str) -> io::Result<Options> {
    let mut options = Options::new(RandomState::new(rt)?.hash_one(&0u8));
    let page = page_bytes(rt, path)
        .unwrap_or(DB_PAGE_BYTES)
        .max(LEAST_PAGE);
    let bytes = file_bytes(rt, path).unwrap_or(0);
    options.cache_pages = (cached_bytes(bytes) / page) as usize;
    options.spill_pages = (MOST_HELD / page) as usize;
    options.checkpoint_frames = (LOG_BYTES / page) as usize;
    Ok(options)
}
