//! Which argument is to blame where a command's values ask for nothing.
ghost use Rattle.std.specs.Prelude.{◌≡◌, true, false, None, IfOk, IfErr, Some, is_some};
ghost use Rattle.std.specs.Option.{option_map_or};
ghost use Rattle.basis.specs.Names.{is_org_name, is_prefix};
ghost use Rattle.command_line.specs.Arguments.{arguments_of, fits, first_misfit};
ghost use Rattle.serve.specs.Bounds.{moment_of};
ghost use Rattle.serve.specs.Parts.{limit_of, role_of};
ghost use Rattle.command_line.specs.Orders.{asked_with, connections_of, given_of, port_of, said_by, seconds_of, text_in};
ghost use Rattle.command_line.specs.Inner.Misfits.{IsUnread};

use crate::arguments::Argument;
use crate::orders::{MAX_COUNT, MAX_PORT, Order, Values, number_up_to};
use crate::timeouts::MAX_SECONDS;
use basis::{Down, OrgName, Unfit};
use serve::bounds::{read_moment, read_prefix};
use serve::parts::{read_limit, read_role};
use std::alloc::Global;

/// Why a command's values are not accepted.
#[derive(Clone, Copy)]
pub enum Unread {
    /// The value of this argument is not valid.
    Value(Argument),
    Down,
}

fn is_organization(alloc: Global, value: Option<&str>) -> Result<bool, Down>
    ensures { IfOk result (λ fits. fits ≡ option_map_or is_org_name (text_in value.entry) false) }
{
    let Some(word) = value else {
        return Ok(false);
    };
    match OrgName::read(alloc, word) {
        Ok(_) => Ok(true),
        Err(Unfit::Syntax) => Ok(false),
        Err(Unfit::Down) => Err(Down),
    }
}

fn is_prefix(alloc: Global, value: Option<&str>) -> Result<bool, Down>
    ensures { IfOk result (λ fits. fits ≡ option_map_or is_prefix (text_in value.entry) true) }
{
    let Some(word) = value else {
        return Ok(true);
    };
    match read_prefix(alloc, word) {
        Ok(_) => Ok(true),
        Err(Unfit::Syntax) => Ok(false),
        Err(Unfit::Down) => Err(Down),
    }
}

fn is_role(value: Option<&str>) -> bool
    ensures { result ≡ option_map_or (λ word. is_some (role_of word)) (text_in value.entry) false }
{
    match value {
        Some(word) => read_role(word).is_some(),
        None => false,
    }
}

fn is_limit(value: Option<&str>, without: bool) -> bool
    ensures { result ≡ option_map_or (λ word. is_some (limit_of word)) (text_in value.entry) without }
{
    match value {
        Some(word) => read_limit(word).is_some(),
        None => without,
    }
}

fn is_moment(value: Option<&str>) -> bool
    ensures { result ≡ option_map_or (λ word. is_some (moment_of word)) (text_in value.entry) true }
{
    match value {
        Some(word) => read_moment(word).is_some(),
        None => true,
    }
}

fn is_port(value: Option<&str>) -> bool
    ensures { result ≡ option_map_or (λ word. is_some (port_of word)) (text_in value.entry) true }
{
    match value {
        Some(word) => number_up_to(word, MAX_PORT).is_some(),
        None => true,
    }
}

fn is_count(value: Option<&str>) -> bool
    ensures { result ≡ option_map_or (λ word. is_some (connections_of word)) (text_in value.entry) true }
{
    match value {
        Some(word) => number_up_to(word, MAX_COUNT).is_some(),
        None => true,
    }
}

fn are_seconds(value: Option<&str>) -> bool
    ensures { result ≡ option_map_or (λ word. is_some (seconds_of word)) (text_in value.entry) true }
{
    match value {
        Some(word) => number_up_to(word, MAX_SECONDS).is_some(),
        None => true,
    }
}

fn fits(alloc: Global, values: &Values<'_>, argument: Argument) -> Result<bool, Down>
    ensures { IfOk result (λ it. it ≡ fits (given_of values.now) argument) }
{
    match argument {
        Argument::Command => Ok(false),
        Argument::Db => Ok(values.db.is_some()),
        Argument::To => Ok(values.to.is_some()),
        Argument::Org => is_organization(alloc, values.org),
        Argument::Name => is_organization(alloc, values.name),
        Argument::Role => Ok(is_role(values.role)),
        Argument::Limit => Ok(is_limit(values.limit, true)),
        Argument::NewLimit => Ok(is_limit(values.limit, false)),
        Argument::Until => Ok(is_moment(values.until)),
        Argument::Prefix => is_prefix(alloc, values.prefix),
        Argument::Listening => Ok(values.port.is_some() != values.socket.is_some()),
        Argument::Port => Ok(is_port(values.port)),
        Argument::Counting => Ok(values.count.is_some() != values.unlimited),
        Argument::Count => Ok(is_count(values.count)),
        Argument::Idle => Ok(are_seconds(values.idle)),
        Argument::Most => Ok(are_seconds(values.most)),
    }
}

fn arguments_of(command: &str) -> &'static [Argument]
    ensures { result.now ≡ arguments_of command.now }
{
    match command {
        "replay" => &[],
        "serve" => &[
            Argument::Db,
            Argument::Listening,
            Argument::Port,
            Argument::Counting,
            Argument::Count,
            Argument::Idle,
            Argument::Most,
        ],
        "check" => &[Argument::Db],
        "admin" => &[Argument::Db],
        "org-copy" => &[Argument::Db, Argument::To, Argument::Org],
        "compact" => &[Argument::Db, Argument::To],
        "token-add" => &[
            Argument::Db,
            Argument::Org,
            Argument::Name,
            Argument::Role,
            Argument::Until,
            Argument::Prefix,
        ],
        "org-remove" => &[Argument::Db, Argument::Org],
        "org-list" => &[Argument::Db],
        "org-add" => &[Argument::Db, Argument::Org, Argument::Limit],
        "org-limit" => &[Argument::Db, Argument::Org, Argument::NewLimit],
        "token-list" => &[Argument::Db, Argument::Org],
        "token-revoke" => &[Argument::Db, Argument::Org, Argument::Name],
        _ => &[Argument::Command],
    }
}

fn first_misfit(alloc: Global, command: &str, values: &Values<'_>) -> Result<Option<Argument>, Down>
    ensures { IfOk result (λ found. found ≡ first_misfit command.now (given_of values.now)) }
{
    for argument in arguments_of(command) {
        match fits(alloc, values, *argument) {
            Ok(true) => {}
            Ok(false) => return Ok(Some(*argument)),
            Err(_) => return Err(Down),
        }
    }
    Ok(None)
}

fn blamed(alloc: Global, command: &str, values: &Values<'_>) -> Unread
    requires { asked_with command.now (given_of values.now) ≡ None }
    ensures { IsUnread command.now (given_of values.now) result }
{
    match first_misfit(alloc, command, values) {
        Ok(Some(argument)) => Unread::Value(argument),
        Ok(None) => unreachable!(),
        Err(_) => Unread::Down,
    }
}

/// What a command of this name asks for with these values, or which argument is not valid.
pub fn read_order<'a>(
    alloc: Global,
    command: &str,
    values: &Values<'a>,
) -> Result<Order<'a>, Unread>
    ensures ok { IfOk result (λ order. asked_with command.now (given_of values.now) ≡ Some (said_by order)) }
    ensures why { IfErr result (IsUnread command.now (given_of values.now)) }
{
    match Order::read(alloc, command, values) {
        Ok(order) => Ok(order),
        Err(Unfit::Syntax) => Err(blamed(alloc, command, values)),
        Err(Unfit::Down) => Err(Unread::Down),
    }
}
