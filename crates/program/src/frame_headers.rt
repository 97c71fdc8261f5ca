//! The first line of a frame.
ghost use Rattle.std.specs.Prelude.{◌≡◌, Some, None, IfOk, IfErr, IsErrOf};
ghost use Rattle.serve.specs.Words.{bytes_of};

use basis::numbers::whole_number;
use basis::{Moment, Unfit};
use serve::Admin;
use serve::bounds::read_moment;
use serve::words::{
    read_org_add, read_org_limit, read_org_list, read_token_add, read_token_revoke,
};
use std::alloc::Global;

/// The most bytes of a request in a frame.
pub const MAX_REQUEST: u64 = 20_000_000;

/// What the first line of a frame says.
#[derive(Drop)]
pub enum FrameHeader {
    /// A request of this many bytes follows.
    Request { at: Moment, len: usize },
    Command { at: Moment, command: Admin },
}

impl FrameHeader {
    ghost use Rattle.serve.specs.Bounds.{moment_of};
    ghost use Rattle.program.specs.FrameHeaders.{length_of, command_of, request_at, heading_at, heading_of};

    fn read_moment(word: &str) -> Result<Moment, Unfit>
        ensures ok { IfOk result (λ at. moment_of word.now ≡ Some at) }
        ensures syntax { IfErr result (λ unfit. (unfit ≡ Unfit.Syntax) × (moment_of word.now ≡ None)) }
    {
        match read_moment(word) {
            Some(at) => Ok(at),
            None => Err(Unfit::Syntax),
        }
    }

    fn read_length(word: &str) -> Result<usize, Unfit>
        ensures ok { IfOk result (λ len. length_of word.now ≡ Some len) }
        ensures syntax { IfErr result (λ unfit. (unfit ≡ Unfit.Syntax) × (length_of word.now ≡ None)) }
    {
        match whole_number(word) {
            Some(len) if len <= MAX_REQUEST => Ok(len as usize),
            _ => Err(Unfit::Syntax),
        }
    }

    fn read_command(alloc: Global, words: &[&str]) -> Result<Admin, Unfit>
        ensures ok { IfOk result (λ command. command_of (bytes_of words.now) ≡ Some command) }
        ensures syntax { IsErrOf result Unfit.Syntax → command_of (bytes_of words.now) ≡ None }
    {
        let [name, words @ ..] = words else {
            return Err(Unfit::Syntax);
        };
        match *name {
            "org-add" => read_org_add(alloc, words),
            "org-limit" => read_org_limit(alloc, words),
            "org-list" => read_org_list(words),
            "token-add" => read_token_add(alloc, words),
            "token-revoke" => read_token_revoke(alloc, words),
            _ => Err(Unfit::Syntax),
        }
    }

    fn read_request(at: Moment, words: &[&str]) -> Result<FrameHeader, Unfit>
        ensures ok { IfOk result (λ header. request_at at (bytes_of words.now) ≡ Some header) }
        ensures syntax { IsErrOf result Unfit.Syntax → request_at at (bytes_of words.now) ≡ None }
    {
        match *words {
            [len] => Ok(FrameHeader::Request {
                at,
                len: FrameHeader::read_length(len)?,
            }),
            _ => Err(Unfit::Syntax),
        }
    }

    fn read_at(alloc: Global, at: Moment, kind: &str, words: &[&str]) -> Result<FrameHeader, Unfit>
        ensures ok { IfOk result (λ header. heading_at at kind.now (bytes_of words.now) ≡ Some header) }
        ensures syntax { IsErrOf result Unfit.Syntax → heading_at at kind.now (bytes_of words.now) ≡ None }
    {
        match kind {
            "http" => FrameHeader::read_request(at, words),
            "admin" => Ok(FrameHeader::Command {
                at,
                command: FrameHeader::read_command(alloc, words)?,
            }),
            _ => Err(Unfit::Syntax),
        }
    }

    /// What the words of a line say.
    pub fn read(alloc: Global, words: &[&str]) -> Result<FrameHeader, Unfit>
        ensures ok { IfOk result (λ header. heading_of (bytes_of words.now) ≡ Some header) }
        ensures syntax { IsErrOf result Unfit.Syntax → heading_of (bytes_of words.now) ≡ None }
    {
        let [word, seconds, kind, words @ ..] = words else {
            return Err(Unfit::Syntax);
        };
        if *word != "at" {
            return Err(Unfit::Syntax);
        }
        let at = FrameHeader::read_moment(seconds)?;
        FrameHeader::read_at(alloc, at, kind, words)
    }
}
