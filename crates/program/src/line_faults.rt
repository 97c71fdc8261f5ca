//! Why a line is neither skipped nor a command of an operator, or is no operator.
ghost use Rattle.std.specs.Prelude.{◌≡◌, IfOk};
ghost use Rattle.basis.specs.Names.{is_org_name, is_secret};
ghost use Rattle.serve.specs.Words.{bytes_of, words_of};
ghost use Rattle.program.specs.LineFaults.{fault_text, has_return, org_or, org_add_fault, org_limit_fault, org_remove_fault, bound_fault, is_bound, second_fault, both_faults, bounds_fault, secret_fault, role_fault, name_fault, token_add_fault, token_list_fault, token_revoke_fault, words_fault, read_fault, line_fault};

use basis::{Down, OrgName, Secret, Unfit};
use command_line::Argument;
use serve::bounds::read_bounds;
use serve::lines::MAX_LINE;
use serve::parts::read_role;
use serve::words::split_words;
use std::alloc::Global;

/// Why a line is neither skipped nor a command, or is no operator of the door: what is at fault in it.
#[derive(Clone, Copy)]
pub enum LineFault {
    /// It ends with CR, as a line that ends with CR LF does.
    Return,
    /// It has more than `MAX_LINE` bytes.
    Long,
    /// It is not UTF-8.
    Encoding,
    /// Its first word is not the name of a command.
    Command,
    /// Its other words are not those of this command: too few, too many, or one that must be another.
    OrgAdd,
    OrgLimit,
    OrgRemove,
    OrgList,
    TokenAdd,
    TokenList,
    TokenRevoke,
    /// Its words are not those of an operator of the door: too few, too many, or one that must be another.
    Operator,
    /// A line before it has its name.
    SameName,
    /// A line before it has its secret.
    SameSecret,
    /// There are as many operators before it as there may be.
    ManyOperators,
    /// There is no line.
    NoOperator,
    /// The value of this word.
    Org,
    Name,
    Role,
    Secret,
    Limit,
    NewLimit,
    Until,
    Prefix,
}

impl LineFault {
    /// The line on the error stream that says what is at fault.
    pub fn line(self) -> &'static str
        ensures { result.now ≡ fault_text self }
    {
        match self {
            LineFault::Return => {
                "custody: the line ends with a carriage return: each line must end with LF, not with CR LF\n"
            }
            LineFault::Long => "custody: the line has more than 4096 bytes\n",
            LineFault::Encoding => "custody: the line is not UTF-8\n",
            LineFault::Command => {
                "custody: the line does not begin with a command that admin --help lists\n"
            }
            LineFault::OrgAdd => {
                "custody: the line must be: org-add ORG [LIMIT], with one space between words\n"
            }
            LineFault::OrgLimit => {
                "custody: the line must be: org-limit ORG N, with one space between words\n"
            }
            LineFault::OrgRemove => {
                "custody: the line must be: org-remove ORG [force], with one space between words\n"
            }
            LineFault::OrgList => "custody: the line must be: org-list, without other words\n",
            LineFault::TokenAdd => {
                "custody: the line must be: token-add ORG NAME ROLE SECRET [until=SECONDS] [prefix=TEXT], with one space between words\n"
            }
            LineFault::TokenList => {
                "custody: the line must be: token-list ORG, with one space between words\n"
            }
            LineFault::TokenRevoke => {
                "custody: the line must be: token-revoke ORG NAME, with one space between words\n"
            }
            LineFault::Operator => {
                "custody: the line must be: NAME SECRET [until=SECONDS] [list], or SECRET alone, with one space between words\n"
            }
            LineFault::SameName => "custody: a line before has the same NAME\n",
            LineFault::SameSecret => "custody: a line before has the same SECRET\n",
            LineFault::ManyOperators => "custody: there are more than 100 operators\n",
            LineFault::NoOperator => "custody: there is no operator\n",
            LineFault::Org => Argument::Org.line(),
            LineFault::Name => Argument::Name.line(),
            LineFault::Role => Argument::Role.line(),
            LineFault::Secret => {
                "custody: the value of SECRET must be 16 to 64 ASCII letters or digits\n"
            }
            LineFault::Limit => {
                "custody: the value of LIMIT must be 0 to 100000 without a leading zero\n"
            }
            LineFault::NewLimit => Argument::NewLimit.line(),
            LineFault::Until => {
                "custody: the value of until= must be 0 to 253402300799 without a leading zero\n"
            }
            LineFault::Prefix => {
                "custody: the value of prefix= must be 0 to 90 ASCII letters, digits, '-' and '_'\n"
            }
        }
    }
}

/// Whether a line ends with CR.
pub fn has_return(line: &[u8]) -> bool
    ensures { result ≡ has_return line.now }
{
    line.ends_with(b"\r")
}

fn is_org_name(alloc: Global, word: &str) -> Result<bool, Down>
    ensures { IfOk result (λ fits. fits ≡ is_org_name word.now) }
{
    match OrgName::read(alloc, word) {
        Ok(_) => Ok(true),
        Err(Unfit::Syntax) => Ok(false),
        Err(Unfit::Down) => Err(Down),
    }
}

fn is_secret(alloc: Global, word: &str) -> Result<bool, Down>
    ensures { IfOk result (λ fits. fits ≡ is_secret word.now) }
{
    match Secret::read(alloc, word) {
        Ok(_) => Ok(true),
        Err(Unfit::Syntax) => Ok(false),
        Err(Unfit::Down) => Err(Down),
    }
}

fn org_or(alloc: Global, org: &str, fault: LineFault) -> Result<LineFault, Down>
    ensures { IfOk result (λ found. found ≡ org_or org.now fault) }
{
    if is_org_name(alloc, org)? {
        Ok(fault)
    } else {
        Ok(LineFault::Org)
    }
}

fn org_add_fault(alloc: Global, words: &[&str]) -> Result<LineFault, Down>
    ensures { IfOk result (λ fault. fault ≡ org_add_fault (bytes_of words.now)) }
{
    match *words {
        [_] => Ok(LineFault::Org),
        [org, _] => org_or(alloc, org, LineFault::Limit),
        _ => Ok(LineFault::OrgAdd),
    }
}

fn org_limit_fault(alloc: Global, words: &[&str]) -> Result<LineFault, Down>
    ensures { IfOk result (λ fault. fault ≡ org_limit_fault (bytes_of words.now)) }
{
    match *words {
        [org, _] => org_or(alloc, org, LineFault::NewLimit),
        _ => Ok(LineFault::OrgLimit),
    }
}

fn org_remove_fault(alloc: Global, words: &[&str]) -> Result<LineFault, Down>
    ensures { IfOk result (λ fault. fault ≡ org_remove_fault (bytes_of words.now)) }
{
    match *words {
        [_] => Ok(LineFault::Org),
        [org, _] => org_or(alloc, org, LineFault::OrgRemove),
        _ => Ok(LineFault::OrgRemove),
    }
}

fn bound_fault(word: &str) -> LineFault
    ensures { result ≡ bound_fault word.now }
{
    if word.as_bytes().starts_with(b"until=") {
        LineFault::Until
    } else if word.as_bytes().starts_with(b"prefix=") {
        LineFault::Prefix
    } else {
        LineFault::TokenAdd
    }
}

fn is_bound(alloc: Global, word: &str) -> Result<bool, Down>
    ensures { IfOk result (λ fits. fits ≡ is_bound word.now) }
{
    match read_bounds(alloc, &[word]) {
        Ok(_) => Ok(true),
        Err(Unfit::Syntax) => Ok(false),
        Err(Unfit::Down) => Err(Down),
    }
}

fn second_fault(alloc: Global, word: &str) -> Result<LineFault, Down>
    ensures { IfOk result (λ fault. fault ≡ second_fault word.now) }
{
    if is_bound(alloc, word)? {
        Ok(LineFault::TokenAdd)
    } else {
        Ok(bound_fault(word))
    }
}

fn both_faults(alloc: Global, first: &str, second: &str) -> Result<LineFault, Down>
    ensures { IfOk result (λ fault. fault ≡ both_faults first.now second.now) }
{
    if is_bound(alloc, first)? {
        second_fault(alloc, second)
    } else {
        Ok(bound_fault(first))
    }
}

fn bounds_fault(alloc: Global, words: &[&str]) -> Result<LineFault, Down>
    ensures { IfOk result (λ fault. fault ≡ bounds_fault (bytes_of words.now)) }
{
    match *words {
        [word] => Ok(bound_fault(word)),
        [first, second] => both_faults(alloc, first, second),
        _ => Ok(LineFault::TokenAdd),
    }
}

fn secret_fault(alloc: Global, secret: &str, words: &[&str]) -> Result<LineFault, Down>
    ensures { IfOk result (λ fault. fault ≡ secret_fault secret.now (bytes_of words.now)) }
{
    if is_secret(alloc, secret)? {
        bounds_fault(alloc, words)
    } else {
        Ok(LineFault::Secret)
    }
}

fn role_fault(alloc: Global, role: &str, secret: &str, words: &[&str]) -> Result<LineFault, Down>
    ensures { IfOk result (λ fault. fault ≡ role_fault role.now secret.now (bytes_of words.now)) }
{
    match read_role(role) {
        Some(_) => secret_fault(alloc, secret, words),
        None => Ok(LineFault::Role),
    }
}

// The name of a token, and what follows it.
fn name_fault(
    alloc: Global,
    name: &str,
    role: &str,
    secret: &str,
    words: &[&str],
) -> Result<LineFault, Down>
    ensures { IfOk result (λ fault. fault ≡ name_fault name.now role.now secret.now (bytes_of words.now)) }
{
    if is_org_name(alloc, name)? {
        role_fault(alloc, role, secret, words)
    } else {
        Ok(LineFault::Name)
    }
}

fn token_add_fault(alloc: Global, words: &[&str]) -> Result<LineFault, Down>
    ensures { IfOk result (λ fault. fault ≡ token_add_fault (bytes_of words.now)) }
{
    let [org, name, role, secret, words @ ..] = words else {
        return Ok(LineFault::TokenAdd);
    };
    if is_org_name(alloc, org)? {
        name_fault(alloc, name, role, secret, words)
    } else {
        Ok(LineFault::Org)
    }
}

fn token_list_fault(words: &[&str]) -> LineFault
    ensures { result ≡ token_list_fault (bytes_of words.now) }
{
    match *words {
        [_] => LineFault::Org,
        _ => LineFault::TokenList,
    }
}

fn token_revoke_fault(alloc: Global, words: &[&str]) -> Result<LineFault, Down>
    ensures { IfOk result (λ fault. fault ≡ token_revoke_fault (bytes_of words.now)) }
{
    match *words {
        [org, _] => org_or(alloc, org, LineFault::Name),
        _ => Ok(LineFault::TokenRevoke),
    }
}

fn words_fault(alloc: Global, words: &[&str]) -> Result<LineFault, Down>
    ensures { IfOk result (λ fault. fault ≡ words_fault (bytes_of words.now)) }
{
    let [name, words @ ..] = words else {
        return Ok(LineFault::Command);
    };
    match *name {
        "org-add" => org_add_fault(alloc, words),
        "org-limit" => org_limit_fault(alloc, words),
        "org-remove" => org_remove_fault(alloc, words),
        "org-list" => Ok(LineFault::OrgList),
        "token-add" => token_add_fault(alloc, words),
        "token-list" => Ok(token_list_fault(words)),
        "token-revoke" => token_revoke_fault(alloc, words),
        _ => Ok(LineFault::Command),
    }
}

fn read_fault(alloc: Global, line: &[u8]) -> Result<LineFault, Down>
    ensures { IfOk result (λ fault. fault ≡ read_fault (words_of line.now)) }
{
    match split_words(alloc, line) {
        Ok(words) => words_fault(alloc, words.as_slice()),
        Err(Unfit::Syntax) => Ok(LineFault::Encoding),
        Err(Unfit::Down) => Err(Down),
    }
}

/// What is at fault in a line that is neither skipped nor a command.
pub fn line_fault(alloc: Global, line: &[u8]) -> Result<LineFault, Down>
    ensures { IfOk result (λ fault. fault ≡ line_fault line.now) }
{
    if has_return(line) {
        return Ok(LineFault::Return);
    }
    if line.len() > MAX_LINE {
        return Ok(LineFault::Long);
    }
    read_fault(alloc, line)
}
