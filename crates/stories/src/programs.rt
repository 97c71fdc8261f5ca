//! The program's words, over files beside the stories, and these files.
use program::streams::CountedErrors;
use std::alloc::{AllocError, Global};
use std::fs;
use story_runner::failures::Failure;
use system::run_here;

/// Takes a file away, and its log.
pub fn forget(rt: &HostRuntime, path: &str) -> Result<(), AllocError> {
    let log = format!(in rt.alloc(); "{path}-wal")?;
    let _ = fs::remove_file(rt, path);
    let _ = fs::remove_file(rt, log.as_str());
    Ok(())
}

// The words, parted by single blanks.
fn split(alloc: Global, words: &str) -> Result<Vec<String>, AllocError> {
    let mut all = Vec::new(alloc);
    for word in words.split(' ') {
        all.push(String::from_str(alloc, word)?)?;
    }
    Ok(all)
}

// The program's exit status on these words.
fn status_of(rt: &HostRuntime, words: &[String]) -> u8 {
    let mut input: &[u8] = b"";
    let mut output = Vec::new(rt.alloc());
    let mut errors = CountedErrors::new(Vec::new(rt.alloc()));
    run_here(rt, words, &mut input, &mut output, &mut errors)
}

/// Whether the program does what these words ask.
pub fn is_done(rt: &HostRuntime, words: &str) -> Result<bool, AllocError> {
    let words = split(rt.alloc(), words)?;
    Ok(status_of(rt, words.as_slice()) == 0)
}

/// The bytes of a file.
pub fn bytes_of(rt: &HostRuntime, path: &str) -> Result<Vec<u8>, Failure> {
    match fs::read(rt, path) {
        Ok(bytes) => Ok(bytes),
        Err(_) => Err(Failure::refused(0, "a file can't be read")),
    }
}
