//! The operators of the door, from standard input: one line for each.
ghost use Rattle.std.specs.Prelude.{◌≡◌, ◌<◌, ◌≤◌, [], None, IfSome, IfOk, length, bytes_eq};
ghost use Rattle.std.specs.Io.KnownBytes.{IsAtEnd};
ghost use Rattle.std.specs.List.{list_any};
ghost use Rattle.serve.specs.Words.{bytes_of, words_of};
ghost use Rattle.program.specs.Operators.{ReadsAs, after, name_word, secret_word, until_fault, until_or_fault, terms_of, lone, named, operator_of, apart, words_line, operator_line, end_fault, AreOperators};

use crate::batches::split_first;
use crate::line_faults::{LineFault, has_return};
use basis::{Down, Moment, OrgName, Secret, Unfit};
use serve::bounds::until_word;
use serve::lines::MAX_LINE;
use serve::words::split_words;
use serve::{Operator, Operators};
use std::alloc::Global;
use std::io::Read;

/// The most operators of a door.
pub const MAX_OPERATORS: usize = 100;

/// The most bytes of standard input that say who they are.
pub const MAX_INPUT: usize = 65_536;

// How many bytes are read at once.
const CHUNK: usize = 4096;

/// All of the input, if it has at most `MAX_INPUT` bytes. Of more it reads at most `CHUNK` further.
pub fn read_input<I: Read>(alloc: Global, input: &mut I) -> Result<Option<Vec<u8>>, Down>
    ensures whole { IfOk result (λ read. IfSome read (λ bytes. IfSome (I.remaining input.old) (λ known. bytes.items ≡ known))) }
    ensures few { IfOk result (λ read. IfSome read (λ bytes. length bytes.items ≤ 65_536)) }
    ensures end { IfOk result (λ read. IfSome read (λ bytes. IsAtEnd (I.remaining input.new))) }
    ensures many { IfOk result (λ read. read ≡ None → IfSome (I.remaining input.old) (λ known. 65_536 < length known)) }
{
    let mut bytes = Vec::new(alloc);
    let mut chunk = [0; CHUNK];
    'reading: while bytes.len() <= MAX_INPUT {
        let Ok(count) = input.read(&mut chunk) else {
            return Err(Down);
        };
        if count == 0 {
            return Ok(Some(bytes));
        }
        bytes.extend_from_slice(&chunk[..count])?;
    }
    Ok(None)
}

/// Why a line is not read.
#[derive(Clone, Copy)]
pub enum OperatorUnread {
    /// It is no operator: what is at fault in it.
    Fault(LineFault),
    Down,
}

fn read_name(alloc: Global, word: &str) -> Result<OrgName, OperatorUnread>
    ensures { ReadsAs result (name_word word.now) }
{
    match OrgName::read(alloc, word) {
        Ok(name) => Ok(name),
        Err(Unfit::Syntax) => Err(OperatorUnread::Fault(LineFault::Name)),
        Err(Unfit::Down) => Err(OperatorUnread::Down),
    }
}

fn read_secret(alloc: Global, word: &str) -> Result<Secret, OperatorUnread>
    ensures { ReadsAs result (secret_word word.now) }
{
    match Secret::read(alloc, word) {
        Ok(secret) => Ok(secret),
        Err(Unfit::Syntax) => Err(OperatorUnread::Fault(LineFault::Secret)),
        Err(Unfit::Down) => Err(OperatorUnread::Down),
    }
}

fn until_fault(word: &str) -> LineFault
    ensures { result ≡ until_fault word.now }
{
    if word.as_bytes().starts_with(b"until=") {
        LineFault::Until
    } else {
        LineFault::Operator
    }
}

/// What stands behind an operator's secret.
#[derive(Clone, Copy)]
pub struct Terms {
    /// The moment from which the secret doesn't count, if it ends.
    pub until: Option<Moment>,
    /// Whether only lists may be asked for.
    pub lists_only: bool,
}

fn until_or_fault(word: &str, lists_only: bool) -> Result<Terms, LineFault>
    ensures { result ≡ until_or_fault word.now lists_only }
{
    match until_word(word) {
        Some(until) => Ok(Terms {
            until: Some(until),
            lists_only,
        }),
        None => Err(until_fault(word)),
    }
}

fn read_terms(words: &[&str]) -> Result<Terms, LineFault>
    ensures { result ≡ terms_of (bytes_of words.now) }
{
    match words {
        [] => Ok(Terms {
            until: None,
            lists_only: false,
        }),
        [word] => {
            if *word == "list" {
                Ok(Terms {
                    until: None,
                    lists_only: true,
                })
            } else {
                until_or_fault(word, false)
            }
        }
        [first, second] => {
            if *second == "list" {
                until_or_fault(first, true)
            } else {
                Err(LineFault::Operator)
            }
        }
        [_, _, _, ..] => Err(LineFault::Operator),
    }
}

// A secret alone.
fn read_lone(alloc: Global, word: &str) -> Result<Operator, OperatorUnread>
    ensures { ReadsAs result (lone word.now) }
{
    let secret = read_secret(alloc, word)?;
    match Operator::alone(alloc, &secret) {
        Ok(operator) => Ok(operator),
        Err(Down) => Err(OperatorUnread::Down),
    }
}

fn read_named(
    alloc: Global,
    name: &str,
    secret: &str,
    words: &[&str],
) -> Result<Operator, OperatorUnread>
    ensures { ReadsAs result (named name.now secret.now (bytes_of words.now)) }
{
    let name = read_name(alloc, name)?;
    let secret = read_secret(alloc, secret)?;
    match read_terms(words) {
        Ok(terms) => Ok(Operator::new(name, &secret, terms.until, terms.lists_only)),
        Err(fault) => Err(OperatorUnread::Fault(fault)),
    }
}

fn read_operator(alloc: Global, words: &[&str]) -> Result<Operator, OperatorUnread>
    ensures { ReadsAs result (operator_of (bytes_of words.now)) }
{
    match words {
        [] => Err(OperatorUnread::Fault(LineFault::Operator)),
        [secret] => read_lone(alloc, secret),
        [name, secret, words @ ..] => read_named(alloc, name, secret, words),
    }
}

fn is_name_taken(before: &[Operator], name: &OrgName) -> bool
    ensures { result ≡ list_any (λ o. bytes_eq o.name name.now) before.now }
{
    before
        .iter()
        .any(|operator| operator.name.as_str() == name.as_str())
}

fn is_secret_taken(before: &[Operator], digest: &[u8; 32]) -> bool
    ensures { result ≡ list_any (λ o. bytes_eq o.digest digest.now) before.now }
{
    before.iter().any(|operator| operator.digest == *digest)
}

// The operator, if there is room behind those before, and none of them has the same name or the same secret.
fn apart(before: &[Operator], operator: Operator) -> Result<Operator, LineFault>
    ensures { result ≡ apart before.now operator }
{
    if before.len() >= MAX_OPERATORS {
        return Err(LineFault::ManyOperators);
    }
    if is_name_taken(before, &operator.name) {
        return Err(LineFault::SameName);
    }
    if is_secret_taken(before, &operator.digest) {
        return Err(LineFault::SameSecret);
    }
    Ok(operator)
}

// The operator of these words, apart from those before.
fn read_apart(
    alloc: Global,
    before: &[Operator],
    words: &[&str],
) -> Result<Operator, OperatorUnread>
    ensures { ReadsAs result (after (operator_of (bytes_of words.now)) (apart before.now)) }
{
    let operator = read_operator(alloc, words)?;
    match apart(before, operator) {
        Ok(operator) => Ok(operator),
        Err(fault) => Err(OperatorUnread::Fault(fault)),
    }
}

fn read_words(alloc: Global, before: &[Operator], line: &[u8]) -> Result<Operator, OperatorUnread>
    ensures { ReadsAs result (words_line before.now (words_of line.now)) }
{
    match split_words(alloc, line) {
        Ok(words) => read_apart(alloc, before, words.as_slice()),
        Err(Unfit::Syntax) => Err(OperatorUnread::Fault(LineFault::Encoding)),
        Err(Unfit::Down) => Err(OperatorUnread::Down),
    }
}

fn read_line(alloc: Global, before: &[Operator], line: &[u8]) -> Result<Operator, OperatorUnread>
    ensures { ReadsAs result (operator_line before.now line.now) }
{
    if has_return(line) {
        return Err(OperatorUnread::Fault(LineFault::Return));
    }
    if line.len() > MAX_LINE {
        return Err(OperatorUnread::Fault(LineFault::Long));
    }
    read_words(alloc, before, line)
}

/// The operators before the first line that is none.
#[derive(Drop)]
pub struct OperatorsRead {
    pub operators: Operators,
    /// What is at fault in that line, if there is one; or that there is no line at all.
    pub fault: Option<LineFault>,
}

// What is at fault behind the last line: that there was none.
fn end_fault(operators: &Operators) -> Option<LineFault>
    ensures { result ≡ end_fault operators.now }
{
    if operators.as_slice().is_empty() {
        Some(LineFault::NoOperator)
    } else {
        None
    }
}

/// Reads operators up to the first line that is none. That line's number, from 1, is one more than the number of operators.
pub fn read_operators(alloc: Global, bytes: &[u8]) -> Result<OperatorsRead, Down>
    ensures { IfOk result (λ read. AreOperators [] bytes.now read.operators read.fault) }
{
    let mut operators = Operators::new(alloc);
    let mut rest = bytes;
    'lines: while let Some((line, left)) = split_first(rest) {
        match read_line(alloc, operators.as_slice(), line) {
            Ok(operator) => {
                operators.push(operator)?;
                rest = left;
            }
            Err(OperatorUnread::Fault(fault)) => {
                return Ok(OperatorsRead {
                    operators,
                    fault: Some(fault),
                });
            }
            Err(OperatorUnread::Down) => return Err(Down),
        }
    }
    let fault = end_fault(&operators);
    Ok(OperatorsRead { operators, fault })
}
