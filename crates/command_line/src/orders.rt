//! What the words of the program ask for, once `clap` has parted them.
ghost use Rattle.std.specs.Prelude.{◌≡◌, ◌≤◌, Option, Some, None, IfOk, IsErrOf, option_map, option_and_then, IfSome};
ghost use Rattle.basis.specs.Numbers.{whole_of, within};
ghost use Rattle.clap.specs.Words.{found_of};
ghost use Rattle.command_line.specs.Orders.{limit_or_first, command_on, command_in, token_in, token_asked, seconds_or, timeouts_asked, serving_asked, address_asked, site_of, copy_in, copying_asked, removal_asked, removing_asked, compacting_asked, adds_token, file_asked, asked_with, flag_of, given_found, given_of, text_in, said_by, with_secret, port_of, count_asked, carries};
ghost use Rattle.command_line.specs.Bounds.{bounds_given};
ghost use Rattle.serve.specs.Parts.{limit_of, limit_command, revoke_command};

use crate::addresses::Address;
use crate::bounds::give_bounds;
use crate::timeouts::{IDLE_SECONDS, MOST_SECONDS, Seconds, Timeouts};
use basis::numbers::{FIRST_LIMIT, whole_number};
use basis::{Bounds, Limit, OrgName, Role, Secret, Unfit};
use clap::ArgMatches;
use serve::{Admin, parts};
use std::alloc::Global;

/// The greatest TCP port.
pub const MAX_PORT: u64 = 65_535;

/// The greatest value of `--count`.
pub const MAX_COUNT: u64 = 1_000_000;

/// The number of connections that `--unlimited` stands for. At a million a second they last for half a million years.
pub const UNLIMITED: u64 = u64::MAX;

/// A new token whose secret has not been read yet.
#[derive(Drop)]
pub struct NewToken {
    pub org: OrgName,
    pub name: OrgName,
    pub role: Role,
    pub bounds: Bounds,
}

impl NewToken {
    fn make(
        alloc: Global,
        org: &str,
        name: &str,
        role: Option<Role>,
        until: Option<&str>,
        prefix: Option<&str>,
    ) -> Result<NewToken, Unfit>
        ensures ok { IfOk result (λ token. token_in org.now name.now role (bounds_given (text_in until.entry) (text_in prefix.entry)) ≡ Some token) }
        ensures syntax { IsErrOf result Unfit.Syntax → token_in org.now name.now role (bounds_given (text_in until.entry) (text_in prefix.entry)) ≡ None }
    {
        let Some(role) = role else {
            return Err(Unfit::Syntax);
        };
        let org = OrgName::read(alloc, org)?;
        let name = OrgName::read(alloc, name)?;
        let bounds = give_bounds(alloc, until, prefix)?;
        Ok(NewToken {
            org,
            name,
            role,
            bounds,
        })
    }

    /// The command that adds the token with this secret.
    pub fn with_secret(self, secret: Secret) -> Admin
        ensures { result ≡ with_secret self secret }
    {
        let NewToken {
            org,
            name,
            role,
            bounds,
        } = self;
        Admin::TokenAdd {
            org,
            name,
            role,
            secret,
            bounds,
        }
    }
}

/// What the words ask for. A database file is named by its path.
#[derive(Drop)]
pub enum Order<'a> {
    /// Carry out an operator's command on a file.
    Carry {
        db: &'a str,
        command: Admin,
    },
    /// Add a token in a file, once its secret is read.
    AddToken {
        db: &'a str,
        token: NewToken,
    },
    /// Check the tables of a file.
    Check {
        db: &'a str,
    },
    /// Copy an organization from one file to another.
    Copy {
        from: &'a str,
        to: &'a str,
        org: OrgName,
    },
    /// Remove an organization from one file, if another file has the same.
    RemoveCopied {
        db: &'a str,
        copy: &'a str,
        org: OrgName,
        is_forced: bool,
    },
    /// Copy every organization from one file to another.
    Compact {
        from: &'a str,
        to: &'a str,
    },
    /// To answer so many connections from a file, at an address; `UNLIMITED` where no number is asked for.
    /// Where `logs` is true, a line is printed for each exchange. Where `checks` is true, faults in
    /// the file's tables are looked for first. Where `operates` is true, the operators of the door
    /// are read first.
    Serve {
        db: &'a str,
        address: Address<'a>,
        count: u64,
        timeouts: Timeouts,
        logs: bool,
        checks: bool,
        operates: bool,
    },
    /// To carry out the operator's commands on standard input, one per line, on a file.
    CarryAll {
        db: &'a str,
    },
    /// Answer frames over a database in memory.
    Replay,
    /// Print the version of the program.
    Version,
}

/// The values among the words, by argument; None if the argument is absent. `unlimited`, `logs`, `checks`, `operates` and
/// `forces` say whether `--unlimited`, `--log`, `--check`, `--operator` and `--force` are given.
#[derive(Drop)]
pub struct Values<'a> {
    pub db: Option<&'a str>,
    pub to: Option<&'a str>,
    pub copied: Option<&'a str>,
    pub org: Option<&'a str>,
    pub limit: Option<&'a str>,
    pub name: Option<&'a str>,
    pub role: Option<&'a str>,
    pub until: Option<&'a str>,
    pub prefix: Option<&'a str>,
    pub port: Option<&'a str>,
    pub socket: Option<&'a str>,
    pub count: Option<&'a str>,
    pub idle: Option<&'a str>,
    pub most: Option<&'a str>,
    pub unlimited: bool,
    pub logs: bool,
    pub checks: bool,
    pub operates: bool,
    pub forces: bool,
}

impl<'a> Values<'a> {
    pub fn of(matches: &ArgMatches<'a>) -> Values<'a>
        ensures { given_of result ≡ given_found (found_of matches.now) }
    {
        Values {
            db: matches.get_str("db"),
            to: matches.get_str("to"),
            copied: matches.get_str("copied-to"),
            org: matches.get_str("org"),
            limit: matches.get_str("limit"),
            name: matches.get_str("name"),
            role: matches.get_str("role"),
            until: matches.get_str("until"),
            prefix: matches.get_str("prefix"),
            port: matches.get_str("port"),
            socket: matches.get_str("socket"),
            count: matches.get_str("count"),
            idle: matches.get_str("idle"),
            most: matches.get_str("most"),
            unlimited: flag_of(matches.get_str("unlimited")),
            logs: flag_of(matches.get_str("log")),
            checks: flag_of(matches.get_str("check")),
            operates: flag_of(matches.get_str("operator")),
            forces: flag_of(matches.get_str("force")),
        }
    }
}

// Whether a flag is there: `clap` gives it the value `true` where it is, and `false` where it isn't.
fn flag_of(value: Option<&str>) -> bool
    ensures { result ≡ flag_of (text_in value.entry) }
{
    match value {
        Some(word) => word == "true",
        None => false,
    }
}

/// Reads a number from 1 to `most`.
pub fn number_up_to(value: &str, most: u64) -> Option<u64>
    ensures number { result ≡ option_and_then (within 1 most) (whole_of value.now) }
    ensures most { IfSome result (λ n. n ≤ most) }
{
    match whole_number(value) {
        Some(number) if 1 <= number && number <= most => Some(number),
        _ => None,
    }
}

fn limit_or_first(value: Option<&str>) -> Option<Limit>
    ensures { result ≡ limit_or_first (text_in value.entry) }
{
    match value {
        Some(value) => parts::read_limit(value),
        None => Limit::new(FIRST_LIMIT),
    }
}

fn limit_command(alloc: Global, org: &str, limit: Option<&str>) -> Result<Admin, Unfit>
    ensures ok { IfOk result (λ command. option_and_then (λ text. limit_command org.now (limit_of text)) (text_in limit.entry) ≡ Some command) }
    ensures syntax { IsErrOf result Unfit.Syntax → option_and_then (λ text. limit_command org.now (limit_of text)) (text_in limit.entry) ≡ None }
{
    match limit {
        Some(limit) => parts::org_limit(alloc, org, parts::read_limit(limit)),
        None => Err(Unfit::Syntax),
    }
}

fn revoke_command(alloc: Global, org: &str, name: Option<&str>) -> Result<Admin, Unfit>
    ensures ok { IfOk result (λ command. option_and_then (λ text. revoke_command org.now text) (text_in name.entry) ≡ Some command) }
    ensures syntax { IsErrOf result Unfit.Syntax → option_and_then (λ text. revoke_command org.now text) (text_in name.entry) ≡ None }
{
    match name {
        Some(name) => parts::token_revoke(alloc, org, name),
        None => Err(Unfit::Syntax),
    }
}

fn command_on(alloc: Global, command: &str, org: &str, values: &Values<'_>) -> Result<Admin, Unfit>
    ensures ok { IfOk result (λ asked. command_on command.now org.now (given_of values.now) ≡ Some asked) }
    ensures syntax { IsErrOf result Unfit.Syntax → command_on command.now org.now (given_of values.now) ≡ None }
{
    match command {
        "org-add" => parts::org_add(alloc, org, limit_or_first(values.limit)),
        "org-limit" => limit_command(alloc, org, values.limit),
        "token-list" => parts::token_list(alloc, org),
        "token-revoke" => revoke_command(alloc, org, values.name),
        _ => Err(Unfit::Syntax),
    }
}

fn command_in(alloc: Global, command: &str, values: &Values<'_>) -> Result<Admin, Unfit>
    ensures ok { IfOk result (λ asked. command_in command.now (given_of values.now) ≡ Some asked) }
    ensures syntax { IsErrOf result Unfit.Syntax → command_in command.now (given_of values.now) ≡ None }
{
    if command == "org-list" {
        return Ok(Admin::OrgList);
    }
    match values.org {
        Some(org) => command_on(alloc, command, org, values),
        None => Err(Unfit::Syntax),
    }
}

fn new_token(alloc: Global, values: &Values<'_>) -> Result<NewToken, Unfit>
    ensures ok { IfOk result (λ token. token_asked (given_of values.now) ≡ Some token) }
    ensures syntax { IsErrOf result Unfit.Syntax → token_asked (given_of values.now) ≡ None }
{
    match (values.org, values.name, values.role) {
        (Some(org), Some(name), Some(role)) => {
            let role = parts::read_role(role);
            NewToken::make(alloc, org, name, role, values.until, values.prefix)
        }
        _ => Err(Unfit::Syntax),
    }
}

fn port_of(value: Option<&str>) -> Option<u16>
    ensures { result ≡ option_and_then port_of (text_in value.entry) }
{
    let number = number_up_to(value?, MAX_PORT)?;
    Some(number as u16)
}

fn address_of<'a>(port: Option<&'a str>, socket: Option<&'a str>) -> Option<Address<'a>>
    ensures { option_map site_of result ≡ address_asked (text_in port.entry) (text_in socket.entry) }
{
    match (port, socket) {
        (Some(_), None) => Some(Address::Port(port_of(port)?)),
        (None, Some(path)) => Some(Address::Socket(path)),
        _ => None,
    }
}

fn count_of(value: Option<&str>, unlimited: bool) -> Option<u64>
    ensures { result ≡ count_asked (text_in value.entry) unlimited }
{
    match (value, unlimited) {
        (Some(word), false) => number_up_to(word, MAX_COUNT),
        (None, true) => Some(UNLIMITED),
        _ => None,
    }
}

fn seconds_or(value: Option<&str>, usual: Seconds) -> Option<Seconds>
    ensures { result ≡ seconds_or usual (text_in value.entry) }
{
    match value {
        Some(value) => whole_number(value).and_then(Seconds::new),
        None => Some(usual),
    }
}

fn timeouts_of(values: &Values<'_>) -> Option<Timeouts>
    ensures { result ≡ timeouts_asked (given_of values.now) }
{
    let idle = seconds_or(values.idle, Seconds::new(IDLE_SECONDS).unwrap())?;
    let most = seconds_or(values.most, Seconds::new(MOST_SECONDS).unwrap())?;
    Some(Timeouts { idle, most })
}

fn serving<'a>(db: &'a str, values: &Values<'a>) -> Option<Order<'a>>
    ensures { option_map said_by result ≡ serving_asked db.entry.now (given_of values.now) }
{
    let address = address_of(values.port, values.socket)?;
    let count = count_of(values.count, values.unlimited)?;
    let timeouts = timeouts_of(values)?;
    Some(Order::Serve {
        db,
        address,
        count,
        timeouts,
        logs: values.logs,
        checks: values.checks,
        operates: values.operates,
    })
}

fn carrying<'a>(
    alloc: Global,
    command: &str,
    db: &'a str,
    values: &Values<'a>,
) -> Result<Order<'a>, Unfit>
    ensures ok { IfOk result (λ order. option_map (λ c. carries db.entry.now c) (command_in command.now (given_of values.now)) ≡ Some (said_by order)) }
    ensures syntax { IsErrOf result Unfit.Syntax → option_map (λ c. carries db.entry.now c) (command_in command.now (given_of values.now)) ≡ None }
{
    match command_in(alloc, command, values) {
        Ok(command) => Ok(Order::Carry { db, command }),
        Err(unfit) => Err(unfit),
    }
}

fn copy_in<'a>(alloc: Global, from: &'a str, to: &'a str, org: &str) -> Result<Order<'a>, Unfit>
    ensures ok { IfOk result (λ order. copy_in from.entry.now to.entry.now org.now ≡ Some (said_by order)) }
    ensures syntax { IsErrOf result Unfit.Syntax → copy_in from.entry.now to.entry.now org.now ≡ None }
{
    let org = OrgName::read(alloc, org)?;
    Ok(Order::Copy { from, to, org })
}

fn copying<'a>(alloc: Global, db: &'a str, values: &Values<'a>) -> Result<Order<'a>, Unfit>
    ensures ok { IfOk result (λ order. copying_asked db.entry.now (given_of values.now) ≡ Some (said_by order)) }
    ensures syntax { IsErrOf result Unfit.Syntax → copying_asked db.entry.now (given_of values.now) ≡ None }
{
    match (values.to, values.org) {
        (Some(to), Some(org)) => copy_in(alloc, db, to, org),
        _ => Err(Unfit::Syntax),
    }
}

fn removal<'a>(
    alloc: Global,
    db: &'a str,
    copy: Option<&'a str>,
    org: &str,
    is_forced: bool,
) -> Result<Order<'a>, Unfit>
    ensures ok { IfOk result (λ order. removal_asked db.entry.now (text_in copy.entry) org.now is_forced ≡ Some (said_by order)) }
    ensures syntax { IsErrOf result Unfit.Syntax → removal_asked db.entry.now (text_in copy.entry) org.now is_forced ≡ None }
{
    match copy {
        None => {
            let command = parts::org_remove(alloc, org, is_forced)?;
            Ok(Order::Carry { db, command })
        }
        Some(copy) => {
            let org = OrgName::read(alloc, org)?;
            Ok(Order::RemoveCopied {
                db,
                copy,
                org,
                is_forced,
            })
        }
    }
}

fn removing<'a>(alloc: Global, db: &'a str, values: &Values<'a>) -> Result<Order<'a>, Unfit>
    ensures ok { IfOk result (λ order. removing_asked db.entry.now (given_of values.now) ≡ Some (said_by order)) }
    ensures syntax { IsErrOf result Unfit.Syntax → removing_asked db.entry.now (given_of values.now) ≡ None }
{
    match values.org {
        Some(org) => removal(alloc, db, values.copied, org, values.forces),
        None => Err(Unfit::Syntax),
    }
}

fn compacting<'a>(db: &'a str, to: Option<&'a str>) -> Option<Order<'a>>
    ensures { option_map said_by result ≡ compacting_asked db.entry.now (text_in to.entry) }
{
    let to = to?;
    Some(Order::Compact { from: db, to })
}

fn adding<'a>(alloc: Global, db: &'a str, values: &Values<'a>) -> Result<Order<'a>, Unfit>
    ensures ok { IfOk result (λ order. option_map (λ token. adds_token db.entry.now token.org token.name token.role token.bounds) (token_asked (given_of values.now)) ≡ Some (said_by order)) }
    ensures syntax { IsErrOf result Unfit.Syntax → option_map (λ token. adds_token db.entry.now token.org token.name token.role token.bounds) (token_asked (given_of values.now)) ≡ None }
{
    let token = new_token(alloc, values)?;
    Ok(Order::AddToken { db, token })
}

fn on_file<'a>(
    alloc: Global,
    command: &str,
    db: &'a str,
    values: &Values<'a>,
) -> Result<Order<'a>, Unfit>
    ensures ok { IfOk result (λ order. file_asked command.now db.entry.now (given_of values.now) ≡ Some (said_by order)) }
    ensures syntax { IsErrOf result Unfit.Syntax → file_asked command.now db.entry.now (given_of values.now) ≡ None }
{
    match command {
        "serve" => serving(db, values).ok_or(Unfit::Syntax),
        "check" => Ok(Order::Check { db }),
        "admin" => Ok(Order::CarryAll { db }),
        "org-copy" => copying(alloc, db, values),
        "compact" => compacting(db, values.to).ok_or(Unfit::Syntax),
        "token-add" => adding(alloc, db, values),
        "org-remove" => removing(alloc, db, values),
        _ => carrying(alloc, command, db, values),
    }
}

impl<'a> Order<'a> {
    /// What a command of this name asks for with these values.
    pub fn read(alloc: Global, command: &str, values: &Values<'a>) -> Result<Order<'a>, Unfit>
        ensures ok { IfOk result (λ order. asked_with command.now (given_of values.now) ≡ Some (said_by order)) }
        ensures syntax { IsErrOf result Unfit.Syntax → asked_with command.now (given_of values.now) ≡ None }
    {
        if command == "replay" {
            return Ok(Order::Replay);
        }
        match values.db {
            Some(db) => on_file(alloc, command, db, values),
            None => Err(Unfit::Syntax),
        }
    }
}
