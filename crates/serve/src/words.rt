//! The operator's commands as text: a line, its words, and the command that they form.
ghost use Rattle.std.specs.Prelude.{◌≡◌, Some, None, IfOk, IsErrOf, option_map};
ghost use Rattle.serve.specs.Words.{text_of, words_in, words_of, bytes_of, org_add_of, org_limit_of, forced_of, org_remove_of, org_list_of, token_add_of, token_list_of, token_revoke_of, command_of, command_in_line};

use crate::bounds::read_bounds;
use crate::parts;
use crate::steps::Admin;
use basis::numbers::FIRST_LIMIT;
use basis::{Limit, Unfit};
use std::alloc::{AllocError, Global};

/// A line, if it is UTF-8.
pub fn read_text(line: &[u8]) -> Option<&str>
    ensures { option_map (λ text. text.now) result ≡ text_of line.now }
{
    str::from_utf8(line).ok()
}

fn split_text(alloc: Global, text: &str) -> Result<Vec<&str>, AllocError>
    ensures { IfOk result (λ words. bytes_of words.items ≡ words_in text.now) }
{
    text.split(' ').collect(alloc)
}

/// The words of a line, separated by single spaces.
pub fn split_words(alloc: Global, line: &[u8]) -> Result<Vec<&str>, Unfit>
    ensures ok { IfOk result (λ words. words_of line.now ≡ Some (bytes_of words.items)) }
    ensures syntax { IsErrOf result Unfit.Syntax → words_of line.now ≡ None }
{
    let Some(text) = read_text(line) else {
        return Err(Unfit::Syntax);
    };
    let words = split_text(alloc, text)?;
    Ok(words)
}

/// The command of the words after `org-add`.
pub fn read_org_add(alloc: Global, words: &[&str]) -> Result<Admin, Unfit>
    ensures ok { IfOk result (λ command. org_add_of (bytes_of words.now) ≡ Some command) }
    ensures syntax { IsErrOf result Unfit.Syntax → org_add_of (bytes_of words.now) ≡ None }
{
    match *words {
        [org] => parts::org_add(alloc, org, Limit::new(FIRST_LIMIT)),
        [org, limit] => parts::org_add(alloc, org, parts::read_limit(limit)),
        _ => Err(Unfit::Syntax),
    }
}

/// The command of the words after `org-limit`.
pub fn read_org_limit(alloc: Global, words: &[&str]) -> Result<Admin, Unfit>
    ensures ok { IfOk result (λ command. org_limit_of (bytes_of words.now) ≡ Some command) }
    ensures syntax { IsErrOf result Unfit.Syntax → org_limit_of (bytes_of words.now) ≡ None }
{
    match *words {
        [org, limit] => parts::org_limit(alloc, org, parts::read_limit(limit)),
        _ => Err(Unfit::Syntax),
    }
}

fn read_forced(alloc: Global, org: &str, word: &str) -> Result<Admin, Unfit>
    ensures ok { IfOk result (λ command. forced_of org.now word.now ≡ Some command) }
    ensures syntax { IsErrOf result Unfit.Syntax → forced_of org.now word.now ≡ None }
{
    if word == "force" {
        parts::org_remove(alloc, org, true)
    } else {
        Err(Unfit::Syntax)
    }
}

fn read_org_remove(alloc: Global, words: &[&str]) -> Result<Admin, Unfit>
    ensures ok { IfOk result (λ command. org_remove_of (bytes_of words.now) ≡ Some command) }
    ensures syntax { IsErrOf result Unfit.Syntax → org_remove_of (bytes_of words.now) ≡ None }
{
    match *words {
        [org] => parts::org_remove(alloc, org, false),
        [org, word] => read_forced(alloc, org, word),
        _ => Err(Unfit::Syntax),
    }
}

/// The command of the words after `org-list`.
pub fn read_org_list(words: &[&str]) -> Result<Admin, Unfit>
    ensures ok { IfOk result (λ command. org_list_of (bytes_of words.now) ≡ Some command) }
    ensures syntax { IsErrOf result Unfit.Syntax → org_list_of (bytes_of words.now) ≡ None }
{
    match words {
        [] => Ok(Admin::OrgList),
        [_, ..] => Err(Unfit::Syntax),
    }
}

/// The command of the words after `token-add`.
pub fn read_token_add(alloc: Global, words: &[&str]) -> Result<Admin, Unfit>
    ensures ok { IfOk result (λ command. token_add_of (bytes_of words.now) ≡ Some command) }
    ensures syntax { IsErrOf result Unfit.Syntax → token_add_of (bytes_of words.now) ≡ None }
{
    let [org, name, role, secret, words @ ..] = words else {
        return Err(Unfit::Syntax);
    };
    let bounds = read_bounds(alloc, words)?;
    parts::token_add(alloc, org, name, role, secret, bounds)
}

fn read_token_list(alloc: Global, words: &[&str]) -> Result<Admin, Unfit>
    ensures ok { IfOk result (λ command. token_list_of (bytes_of words.now) ≡ Some command) }
    ensures syntax { IsErrOf result Unfit.Syntax → token_list_of (bytes_of words.now) ≡ None }
{
    match *words {
        [org] => parts::token_list(alloc, org),
        _ => Err(Unfit::Syntax),
    }
}

/// The command of the words after `token-revoke`.
pub fn read_token_revoke(alloc: Global, words: &[&str]) -> Result<Admin, Unfit>
    ensures ok { IfOk result (λ command. token_revoke_of (bytes_of words.now) ≡ Some command) }
    ensures syntax { IsErrOf result Unfit.Syntax → token_revoke_of (bytes_of words.now) ≡ None }
{
    match *words {
        [org, name] => parts::token_revoke(alloc, org, name),
        _ => Err(Unfit::Syntax),
    }
}

/// The command that words form: its name, and its own words.
pub fn read_command(alloc: Global, words: &[&str]) -> Result<Admin, Unfit>
    ensures ok { IfOk result (λ command. command_of (bytes_of words.now) ≡ Some command) }
    ensures syntax { IsErrOf result Unfit.Syntax → command_of (bytes_of words.now) ≡ None }
{
    let [name, words @ ..] = words else {
        return Err(Unfit::Syntax);
    };
    match *name {
        "org-add" => read_org_add(alloc, words),
        "org-limit" => read_org_limit(alloc, words),
        "org-remove" => read_org_remove(alloc, words),
        "org-list" => read_org_list(words),
        "token-add" => read_token_add(alloc, words),
        "token-list" => read_token_list(alloc, words),
        "token-revoke" => read_token_revoke(alloc, words),
        _ => Err(Unfit::Syntax),
    }
}

/// The command that a line is.
pub fn read_command_line(alloc: Global, line: &[u8]) -> Result<Admin, Unfit>
    ensures ok { IfOk result (λ command. command_in_line line.now ≡ Some command) }
    ensures syntax { IsErrOf result Unfit.Syntax → command_in_line line.now ≡ None }
{
    let words = split_words(alloc, line)?;
    read_command(alloc, words.as_slice())
}
