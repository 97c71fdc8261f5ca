//! Where the environment names a folder: the files that stops leave, written there, so that SQLite's own library can read
//! them (`tools/stops.py`).
use crate::cuts::Image;
use std::{env, fs, io};

/// The variable of the environment that names the folder.
const FOLDER: &str = "STOPS_FOLDER";

/// Of so many stops one is written.
const EVERY: usize = 10;

/// What may be left, by its place among the images of a stop.
const WAYS: &[&str] = &["written", "synced", "torn"];

// Writes a file whose path ends so.
fn write_at(rt: &HostRuntime, path: &str, end: &str, bytes: &[u8]) -> io::Result<()> {
    let path = format!(in rt.alloc(); "{path}{end}")?;
    fs::write(rt, path.as_str(), bytes)
}

fn write_image(rt: &HostRuntime, path: &str, way: &str, image: &Image) -> io::Result<()> {
    let path = format!(in rt.alloc(); "{path}-{way}")?;
    write_at(rt, path.as_str(), ".db", image.db.as_slice())?;
    write_at(rt, path.as_str(), ".db-wal", image.log.as_slice())
}

fn write_each(
    rt: &HostRuntime,
    path: &str,
    images: &[Image],
    around: (&[u8], &[u8]),
) -> io::Result<()> {
    for (way, image) in WAYS.iter().zip(images.iter()) {
        write_image(rt, path, way, image)?;
    }
    write_at(rt, path, ".before", around.0)?;
    write_at(rt, path, ".after", around.1)
}

fn write_all(
    rt: &HostRuntime,
    folder: &str,
    line: usize,
    stop: usize,
    images: &[Image],
    around: (&[u8], &[u8]),
) -> io::Result<()> {
    let path = format!(in rt.alloc(); "{folder}/{line}-{stop}")?;
    write_each(rt, path.as_str(), images, around)
}

/// Writes what a stop leaves, and the contents of the tables before its step and after it; of every tenth stop, if the
/// environment names a folder.
pub fn write_images(
    rt: &HostRuntime,
    line: usize,
    stop: usize,
    images: &[Image],
    around: (&[u8], &[u8]),
) -> io::Result<()> {
    if stop % EVERY != 0 {
        return Ok(());
    }
    match env::var(rt, FOLDER) {
        Ok(folder) => write_all(rt, folder.as_str(), line, stop, images, around),
        Err(_) => Ok(()),
    }
}
