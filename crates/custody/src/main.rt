//! The program `custody`: Terraform state for organizations that share one database.
#![tactic(auto)]

use program::exits::{Exit, unread};
use program::reasons::Cause;
use program::replies::{refuse, refuse_usage};
use program::streams::CountedErrors;
use std::fs::{File, OpenOptions};
use std::io::{BufWriter, Stderr};
use std::process::ExitCode;
use std::{env, io};
use system::{run_here, take_stack};

fn read_arguments(rt: &HostRuntime) -> io::Result<Vec<String>> {
    let words = env::args(rt)?.skip(1).collect(rt.alloc())?;
    Ok(words)
}

fn error_stream(rt: &HostRuntime) -> CountedErrors<Stderr> {
    CountedErrors::new(rt.stderr())
}

fn refuse_for(rt: &HostRuntime, cause: Cause) -> u8 {
    refuse(&mut rt.stdout(), &mut error_stream(rt), cause).status()
}

fn run_buffered(rt: &HostRuntime, words: &[String]) -> u8 {
    match BufWriter::new(rt.alloc(), rt.stdout()) {
        Ok(mut output) => run_here(
            rt,
            words,
            &mut rt.stdin(),
            &mut output,
            &mut error_stream(rt),
        ),
        Err(_) => refuse_for(rt, Cause::NoMemory),
    }
}

fn run(rt: &HostRuntime) -> u8 {
    match read_arguments(rt) {
        Ok(words) => run_buffered(rt, words.as_slice()),
        Err(error) => match unread(error.kind()) {
            Exit::Down => refuse_for(rt, Cause::NoMemory),
            _ => refuse_usage(&mut rt.stdout(), &mut error_stream(rt), Cause::Encoding).status(),
        },
    }
}

fn open_null(rt: &HostRuntime) -> io::Result<File> {
    OpenOptions::new()
        .read(true)
        .write(true)
        .open(rt, "/dev/null")
}

// A file is opened at the least descriptor that is free. So where standard input, output or error is closed, one of three that are
// opened first stands there, and no database or peer.
fn hold_streams(rt: &HostRuntime) -> io::Result<(File, File, File)> {
    Ok((open_null(rt)?, open_null(rt)?, open_null(rt)?))
}

fn main(rt: HostRuntime) -> ExitCode {
    let status = match hold_streams(&rt) {
        Ok(mut held) => {
            take_stack(&mut held.0);
            let status = run(&rt);
            drop(held);
            status
        }
        Err(_) => refuse_for(&rt, Cause::NoNull),
    };
    ExitCode::from(status)
}
