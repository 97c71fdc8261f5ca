//! The bounds of a new token, from words.
ghost use Rattle.std.specs.Prelude.{◌≡◌, Some, None, IfOk, IsErrOf, option_map};
ghost use Rattle.serve.specs.Bounds.{moment_of, prefix_of, behind, until_word, prefix_word, either_bound, both_bounds, bounds_of};
ghost use Rattle.serve.specs.Words.{bytes_of};

use basis::numbers::whole_number;
use basis::{Bounds, Moment, Unfit, WsPrefix};
use std::alloc::Global;

/// Reads a time in seconds since 1970.
pub fn read_moment(word: &str) -> Option<Moment>
    ensures { result ≡ moment_of word.now }
{
    whole_number(word).and_then(Moment::new)
}

/// Reads a prefix.
pub fn read_prefix(alloc: Global, word: &str) -> Result<WsPrefix, Unfit>
    ensures ok { IfOk result (λ prefix. prefix_of word.now ≡ Some prefix) }
    ensures syntax { IsErrOf result Unfit.Syntax → prefix_of word.now ≡ None }
{
    WsPrefix::read(alloc, word)
}

fn behind<'a>(mark: &str, word: &'a str) -> Option<&'a str>
    ensures { option_map (λ rest. rest.now) result ≡ behind mark.now word.now }
{
    word.strip_prefix(mark)
}

/// Reads the word `until=SECONDS`.
pub fn until_word(word: &str) -> Option<Moment>
    ensures { result ≡ until_word word.now }
{
    read_moment(behind("until=", word)?)
}

fn prefix_word(alloc: Global, word: &str) -> Result<WsPrefix, Unfit>
    ensures ok { IfOk result (λ prefix. prefix_word word.now ≡ Some prefix) }
    ensures syntax { IsErrOf result Unfit.Syntax → prefix_word word.now ≡ None }
{
    match behind("prefix=", word) {
        Some(text) => read_prefix(alloc, text),
        None => Err(Unfit::Syntax),
    }
}

fn either_bound(alloc: Global, word: &str) -> Result<Bounds, Unfit>
    ensures ok { IfOk result (λ bounds. either_bound (until_word word.now) (prefix_word word.now) ≡ Some bounds) }
    ensures syntax { IsErrOf result Unfit.Syntax → either_bound (until_word word.now) (prefix_word word.now) ≡ None }
{
    match until_word(word) {
        Some(until) => Ok(Bounds {
            until: Some(until),
            prefix: WsPrefix::new(alloc),
        }),
        None => Ok(Bounds {
            until: None,
            prefix: prefix_word(alloc, word)?,
        }),
    }
}

fn both_bounds(alloc: Global, first: &str, second: &str) -> Result<Bounds, Unfit>
    ensures ok { IfOk result (λ bounds. both_bounds (until_word first.now) (prefix_word second.now) ≡ Some bounds) }
    ensures syntax { IsErrOf result Unfit.Syntax → both_bounds (until_word first.now) (prefix_word second.now) ≡ None }
{
    match until_word(first) {
        Some(until) => Ok(Bounds {
            until: Some(until),
            prefix: prefix_word(alloc, second)?,
        }),
        None => Err(Unfit::Syntax),
    }
}

/// The bounds that words may give after a secret: `until=SECONDS` and `prefix=TEXT`, in this order, each optional.
pub fn read_bounds(alloc: Global, words: &[&str]) -> Result<Bounds, Unfit>
    ensures ok { IfOk result (λ bounds. bounds_of (bytes_of words.now) ≡ Some bounds) }
    ensures syntax { IsErrOf result Unfit.Syntax → bounds_of (bytes_of words.now) ≡ None }
{
    match *words {
        [] => Ok(Bounds {
            until: None,
            prefix: WsPrefix::new(alloc),
        }),
        [word] => either_bound(alloc, word),
        [first, second] => both_bounds(alloc, first, second),
        _ => Err(Unfit::Syntax),
    }
}
