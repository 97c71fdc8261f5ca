//! A WAL that lies beside a file of another time, as far as the two show it.
ghost use Rattle.std.specs.Prelude.{◌≡◌, true, IfErr};
ghost use Rattle.system.specs.Causes.{is_open_cause};

use crate::lone_logs::real_path;
use program::reasons::Cause;
use sqlite_wal::checksum_of;
use std::rt::HostRuntime;
use std::{fs, io};

/// The bytes of a WAL's header, and of each frame's header (SQLite's file format, section 4).
const HEADER: usize = 32;

const FRAME_HEADER: usize = 24;

/// The last byte of a WAL's magic number, if its checksums are of big-endian words.
const BIG: u8 = 0x83;

/// The fewest and the most bytes of a page.
const LEAST_PAGE: usize = 512;

const MOST_PAGE: usize = 65_536;

/// The number in four bytes, the most significant first.
fn number(bytes: &[u8]) -> u32 {
    match bytes {
        [first, second, third, fourth] => u32::from_be_bytes([*first, *second, *third, *fourth]),
        _ => 0,
    }
}

/// The checksum up to a frame, and the number in its header that is not 0 if it ends a commit: how many pages the database has
/// then. None if the frame is not the next one of its WAL, or not whole.
fn after(head: &[u8; HEADER], before: (u32, u32), frame: &[u8]) -> Option<((u32, u32), u32)> {
    if frame.len() < FRAME_HEADER {
        return None;
    }
    if frame[8..16] != head[16..24] {
        return None;
    }
    let big = head[3] == BIG;
    let sum = checksum_of(
        big,
        checksum_of(big, before, &frame[..8]),
        &frame[FRAME_HEADER..],
    );
    if sum != (number(&frame[16..20]), number(&frame[20..24])) {
        return None;
    }
    Some((sum, number(&frame[4..8])))
}

/// Whether a file of this many bytes has more pages than the database after the last commit of a WAL. A database never shrinks,
/// so no such WAL belongs to the file. One without a commit does not show it.
fn is_behind(log: &[u8], bytes: u64) -> bool {
    if log.len() < HEADER {
        return false;
    }
    let mut head = [0u8; HEADER];
    head.copy_from_slice(&log[..HEADER]);
    let page = number(&head[8..12]) as usize;
    if page < LEAST_PAGE || page > MOST_PAGE {
        return false;
    }
    let mut sum = checksum_of(head[3] == BIG, (0, 0), &head[..24]);
    if sum != (number(&head[24..28]), number(&head[28..32])) {
        return false;
    }
    let mut count = None;
    for frame in log[HEADER..].chunks_exact(FRAME_HEADER + page) {
        match after(&head, sum, frame) {
            Some((next, pages)) => {
                sum = next;
                if pages != 0 {
                    count = Some(pages);
                }
            }
            None => break,
        }
    }
    match count {
        Some(pages) => bytes / page as u64 > u64::from(pages),
        None => false,
    }
}

// The file is measured first: what another process writes meanwhile only adds pages. The WAL is read only before it is opened,
// because a process that closes a file gives up its locks on it.
fn has_old_log(rt: &HostRuntime, path: &str) -> io::Result<bool> {
    let real = real_path(rt, path)?;
    let bytes = fs::metadata(rt, real.as_str())?.len();
    let log = format!(in rt.alloc(); "{}-wal", real.as_str())?;
    if !fs::metadata(rt, log.as_str())?.is_file() {
        return Ok(false);
    }
    let log = fs::read(rt, log.as_str())?;
    Ok(is_behind(log.as_slice(), bytes))
}

/// Refuses a file if the WAL beside it is known to be older, or lacks a part. Nothing is changed. What cannot be read is not
/// refused: the later open says why.
pub fn refuse_old(rt: &HostRuntime, path: &str) -> Result<(), Cause>
    ensures why { IfErr result (λ cause. is_open_cause cause ≡ true) }
{
    match has_old_log(rt, path) {
        Ok(true) => Err(Cause::OldLog),
        Ok(false) => Ok(()),
        Err(error) if error.kind() == io::ErrorKind::OutOfMemory => Err(Cause::NoMemory),
        Err(_) => Ok(()),
    }
}
