//! The words of the program, by `clap`. Its types stay here.

ghost use Rattle.std.specs.Prelude.{◌≡◌, ◌<◌, ◌⊎◌, IfOk, IfErr, Some, codes, length, string_bytes, ℕ, List};
ghost use Rattle.clap.specs.Words.{app_of, subcommand_of, subcommand_rows_of, HasKind, FailsBy, IsAmong, kind_of, App, Rule, new_app, with_rule, with_subcommand};
ghost use Rattle.command_line.specs.Orders.{said_by};
ghost use Rattle.command_line.specs.Words.{words_bytes, database, target, organization, option_rule, value_rule, flag_rule, org_add, org_limit, org_copy, org_remove, org_list, token_add, token_list, token_revoke, serve, check, compact, admin, replay, bare, custody, with_sites, faults, asked_by_command, asked_in, with_organizations, with_tokens, with_running, with_bounds, with_counts, with_timeouts, with_flags, IsWhy, IsArg, IsCommand};
ghost use Rattle.command_line.specs.Inner.Misfits.{IsUnreadOf};

use crate::arguments::Argument;
use crate::misfits::{Unread, read_order};
use crate::orders::{Order, Values};
use basis::Down;
use clap::error::ErrorKind;
use clap::{Arg, ArgAction, ArgMatches, Command, Error};
use std::alloc::{AllocError, Global};

/// The version of the program.
pub const VERSION: &str = "1.0.0";

/// Why the words ask for nothing to carry out.
#[derive(Drop)]
pub enum Unasked {
    /// They ask for help; this is its text.
    Help(String),
    /// They are not those of a command; this text says why.
    Words(String),
    /// The value of this argument is not valid.
    Value(Argument),
    Down,
}

fn option<'a>(alloc: Global, id: &'a str, required: bool, value: &'a str, help: &'a str) -> Arg<'a>
    ensures { IsArg result (option_rule id.entry.now required) }
{
    Arg::new(alloc, id)
        .long(id)
        .value_name(value)
        .required(required)
        .help(help)
}

fn value<'a>(alloc: Global, id: &'a str, value: &'a str, help: &'a str) -> Arg<'a>
    ensures { IsArg result (value_rule id.entry.now) }
{
    Arg::new(alloc, id)
        .value_name(value)
        .required(true)
        .help(help)
}

fn flag<'a>(alloc: Global, id: &'a str, help: &'a str) -> Arg<'a>
    ensures { IsArg result (flag_rule id.entry.now) }
{
    Arg::new(alloc, id)
        .long(id)
        .action(ArgAction::SetTrue)
        .help(help)
}

/// The help of `--db` for a command that creates no file.
const OLD_FILE: &str = "The database file. It must exist";

/// The usage of `serve`: one of `--port` and `--socket` is required, and one of `--count` and `--unlimited`.
const SERVE_USAGE: &str =
    "custody serve [OPTIONS] --db <PATH> <--port <P>|--socket <PATH>> <--count <N>|--unlimited>";

/// The end of the help of `admin`: the lines that it reads.
const ADMIN_LINES: &str =
    "Skips empty lines and lines that begin with #. Other lines, with one space between words:
  org-add ORG [LIMIT]
  org-limit ORG N
  org-remove ORG [force]
  org-list
  token-add ORG NAME ROLE SECRET [until=SECONDS] [prefix=TEXT]
  token-list ORG
  token-revoke ORG NAME

Example: custody admin --db custody.db < lines";

fn database<'a>(alloc: Global, help: &'a str) -> Arg<'a>
    ensures { IsArg result database }
{
    option(alloc, "db", true, "PATH", help)
}

fn target<'a>(alloc: Global) -> Arg<'a>
    ensures { IsArg result target }
{
    let help = "The target file. Created if it does not exist";
    option(alloc, "to", true, "PATH", help)
}

fn organization<'a>(alloc: Global) -> Arg<'a>
    ensures { IsArg result organization }
{
    let help = "The organization's name: 1 to 40 of a-z, 0-9 and '-', starting with a letter";
    value(alloc, "org", "ORG", help)
}

fn token_name<'a>(alloc: Global) -> Arg<'a>
    ensures { IsArg result (value_rule (codes "name")) }
{
    let help = "The token's name: 1 to 40 of a-z, 0-9 and '-', starting with a letter";
    value(alloc, "name", "NAME", help)
}

// A command, with an example of its words at the end of its help.
fn command<'a>(
    alloc: Global,
    name: &'a str,
    about: &'a str,
    example: &'a str,
) -> Result<Command<'a>, AllocError>
    ensures { IfOk result (λ made. IsCommand made (new_app name.entry.now)) }
{
    Ok(Command::new(alloc, name).about(about).after_help(example))
}

// Commands are handed on as results: where there was no memory for one it stays so, and only the next two functions let go of anything.
fn with_arg<'a>(
    command: Result<Command<'a>, AllocError>,
    arg: Arg<'a>,
) -> Result<Command<'a>, AllocError>
    ensures { (app : App) (rule : Rule) → IfOk command.entry (λ it. IsCommand it app) → IsArg arg.entry rule → IfOk result (λ whole. IsCommand whole (with_rule app rule)) }
{
    command?.arg(arg)
}

// Replaces the usage line, which cannot say that one of two options is required.
fn with_usage<'a>(
    command: Result<Command<'a>, AllocError>,
    usage: &'a str,
) -> Result<Command<'a>, AllocError>
    ensures { (app : App) → IfOk command.entry (λ it. IsCommand it app) → IfOk result (λ whole. IsCommand whole app) }
{
    Ok(command?.override_usage(usage))
}

fn with_command<'a>(
    command: Result<Command<'a>, AllocError>,
    one: Result<Command<'a>, AllocError>,
) -> Result<Command<'a>, AllocError>
    ensures { (app : App) (sub : App) → IfOk command.entry (λ it. IsCommand it app) → IfOk one.entry (λ it. IsCommand it sub) → IfOk result (λ whole. IsCommand whole (with_subcommand app sub.top)) }
{
    command?.subcommand(one?)
}

fn org_add<'a>(alloc: Global) -> Result<Command<'a>, AllocError>
    ensures { IfOk result (λ command. IsCommand command org_add) }
{
    let file_help = "The database file. Created if it does not exist";
    let help = "How many workspaces it may have: 0 to 100000 [default: 200]";
    let example = "Example: custody org-add --db custody.db --limit 500 acme";
    let bare = command(alloc, "org-add", "Adds an organization", example);
    let on_file = with_arg(bare, database(alloc, file_help));
    let limited = with_arg(on_file, option(alloc, "limit", false, "N", help));
    with_arg(limited, organization(alloc))
}

fn org_limit<'a>(alloc: Global) -> Result<Command<'a>, AllocError>
    ensures { IfOk result (λ command. IsCommand command org_limit) }
{
    let about = "Sets how many workspaces an organization may have";
    let help = "How many workspaces it may have: 0 to 100000. Existing ones stay";
    let example = "Example: custody org-limit --db custody.db acme 500";
    let bare = command(alloc, "org-limit", about, example);
    let on_file = with_arg(bare, database(alloc, OLD_FILE));
    let of_one = with_arg(on_file, organization(alloc));
    with_arg(of_one, value(alloc, "limit", "N", help))
}

fn org_copy<'a>(alloc: Global) -> Result<Command<'a>, AllocError>
    ensures { IfOk result (λ command. IsCommand command org_copy) }
{
    let about =
        "Checks the file's tables, then copies an organization and everything in it to another file";
    let example = "Example: custody org-copy --db custody.db --to acme.db acme";
    let bare = command(alloc, "org-copy", about, example);
    let on_file = with_arg(bare, database(alloc, OLD_FILE));
    let to_another = with_arg(on_file, target(alloc));
    with_arg(to_another, organization(alloc))
}

fn org_remove<'a>(alloc: Global) -> Result<Command<'a>, AllocError>
    ensures { IfOk result (λ command. IsCommand command org_remove) }
{
    let about = "Removes an organization and everything in it";
    let copied_help =
        "Check this file's tables, and remove the organization only if this file holds the same with everything in it";
    let help = "Remove it even if a workspace is locked or a run is open";
    let example = "Example: custody org-remove --db custody.db --copied-to acme.db acme";
    let bare = command(alloc, "org-remove", about, example);
    let on_file = with_arg(bare, database(alloc, OLD_FILE));
    let copied = with_arg(
        on_file,
        option(alloc, "copied-to", false, "PATH", copied_help),
    );
    let forcing = with_arg(copied, flag(alloc, "force", help));
    with_arg(forcing, organization(alloc))
}

fn org_list<'a>(alloc: Global) -> Result<Command<'a>, AllocError>
    ensures { IfOk result (λ command. IsCommand command org_list) }
{
    let about = "Lists all organizations, one line each: ORG WORKSPACES LIMIT";
    let example = "Example: custody org-list --db custody.db";
    let bare = command(alloc, "org-list", about, example);
    with_arg(bare, database(alloc, OLD_FILE))
}

fn token_add<'a>(alloc: Global) -> Result<Command<'a>, AllocError>
    ensures { IfOk result (λ command. IsCommand command token_add) }
{
    let about =
        "Adds a token. Its secret is read from standard input: one line of 16 to 64 ASCII letters or digits";
    let help = "What the token may do: read, write or admin";
    let example = "Example: custody token-add --db custody.db --prefix net- acme ci write < secret";
    let bare = command(alloc, "token-add", about, example);
    let on_file = with_arg(bare, database(alloc, OLD_FILE));
    let bounded = with_bounds(alloc, on_file);
    let of_one = with_arg(bounded, organization(alloc));
    let named = with_arg(of_one, token_name(alloc));
    with_arg(named, value(alloc, "role", "ROLE", help))
}

fn with_bounds<'a>(
    alloc: Global,
    bare: Result<Command<'a>, AllocError>,
) -> Result<Command<'a>, AllocError>
    ensures { (app : App) → IfOk bare.entry (λ it. IsCommand it app) → IfOk result (λ whole. IsCommand whole (with_bounds app)) }
{
    let until_help =
        "When the token expires, in seconds since 1970-01-01 UTC: 0 to 253402300799 [default: never]";
    let prefix_help =
        "Only workspaces whose names start with this may be used: 0 to 90 ASCII letters, digits, '-' and '_' [default: all]";
    let ending = with_arg(bare, option(alloc, "until", false, "SECONDS", until_help));
    with_arg(ending, option(alloc, "prefix", false, "TEXT", prefix_help))
}

fn token_list<'a>(alloc: Global) -> Result<Command<'a>, AllocError>
    ensures { IfOk result (λ command. IsCommand command token_list) }
{
    let about =
        "Lists an organization's tokens, one line each: NAME ROLE UNTIL PREFIX. '-' stands for never, and for all workspaces";
    let example = "Example: custody token-list --db custody.db acme";
    let bare = command(alloc, "token-list", about, example);
    let on_file = with_arg(bare, database(alloc, OLD_FILE));
    with_arg(on_file, organization(alloc))
}

fn token_revoke<'a>(alloc: Global) -> Result<Command<'a>, AllocError>
    ensures { IfOk result (λ command. IsCommand command token_revoke) }
{
    let example = "Example: custody token-revoke --db custody.db acme ci";
    let bare = command(alloc, "token-revoke", "Revokes a token", example);
    let on_file = with_arg(bare, database(alloc, OLD_FILE));
    let of_one = with_arg(on_file, organization(alloc));
    with_arg(of_one, token_name(alloc))
}

fn serve<'a>(alloc: Global) -> Result<Command<'a>, AllocError>
    ensures { IfOk result (λ command. IsCommand command serve) }
{
    let about = "Serves Terraform and runners on 127.0.0.1, or at a Unix socket";
    let file_help = "The database file. Created if it does not exist; with --check it must exist";
    let example = "Example: custody serve --db custody.db --port 8090 --unlimited --log";
    let bare = command(alloc, "serve", about, example);
    let used = with_usage(bare, SERVE_USAGE);
    let on_file = with_arg(used, database(alloc, file_help));
    let sited = with_sites(alloc, on_file);
    let counted = with_counts(alloc, sited);
    let timed = with_timeouts(alloc, counted);
    with_flags(alloc, timed)
}

// `clap` accepts neither and both here, and in `with_counts`: its contracts don't cover arguments that exclude each other.
// `address_of` and `count_of` refuse them.
fn with_sites<'a>(
    alloc: Global,
    bare: Result<Command<'a>, AllocError>,
) -> Result<Command<'a>, AllocError>
    ensures { (app : App) → IfOk bare.entry (λ it. IsCommand it app) → IfOk result (λ whole. IsCommand whole (with_sites app)) }
{
    let port_help = "Listen at this TCP port of 127.0.0.1: 1 to 65535. Give this or --socket";
    let socket_help =
        "Listen at a Unix socket of this path, which is made with mode 0660. Give this or --port";
    let at_port = with_arg(bare, option(alloc, "port", false, "P", port_help));
    with_arg(at_port, option(alloc, "socket", false, "PATH", socket_help))
}

fn with_counts<'a>(
    alloc: Global,
    bare: Result<Command<'a>, AllocError>,
) -> Result<Command<'a>, AllocError>
    ensures { (app : App) → IfOk bare.entry (λ it. IsCommand it app) → IfOk result (λ whole. IsCommand whole (with_counts app)) }
{
    let count_help = "Stop after this many connections: 1 to 1000000. Give this or --unlimited";
    let unlimited_help = "Serve any number of connections. Give this or --count";
    let counted = with_arg(bare, option(alloc, "count", false, "N", count_help));
    with_arg(counted, flag(alloc, "unlimited", unlimited_help))
}

fn with_flags<'a>(
    alloc: Global,
    bare: Result<Command<'a>, AllocError>,
) -> Result<Command<'a>, AllocError>
    ensures { (app : App) → IfOk bare.entry (λ it. IsCommand it app) → IfOk result (λ whole. IsCommand whole (with_flags app)) }
{
    let log_help = "Print one line of JSON per exchange to standard output";
    let check_help = "Check the file's tables first, and refuse to start if they have faults";
    let operator_help =
        "Accept operators' commands at /operator. The operators are read from standard input, one per line: NAME SECRET [until=SECONDS] [list], or SECRET alone";
    let logging = with_arg(bare, flag(alloc, "log", log_help));
    let checking = with_arg(logging, flag(alloc, "check", check_help));
    with_arg(checking, flag(alloc, "operator", operator_help))
}

fn with_timeouts<'a>(
    alloc: Global,
    bare: Result<Command<'a>, AllocError>,
) -> Result<Command<'a>, AllocError>
    ensures { (app : App) → IfOk bare.entry (λ it. IsCommand it app) → IfOk result (λ whole. IsCommand whole (with_timeouts app)) }
{
    let idle_help =
        "Close a connection when a read or a write makes no progress for this long: 1 to 3600 [default: 10]";
    let most_help = "Close a connection that lasts longer than this: 1 to 3600 [default: 120]";
    let waiting = with_arg(bare, option(alloc, "idle", false, "SECONDS", idle_help));
    with_arg(waiting, option(alloc, "most", false, "SECONDS", most_help))
}

fn check<'a>(alloc: Global) -> Result<Command<'a>, AllocError>
    ensures { IfOk result (λ command. IsCommand command check) }
{
    let about =
        "Checks the file's tables. Prints one line per fault, at most 50, or `ok` and the numbers of organizations, workspaces, versions and runs";
    let example = "Example: custody check --db custody.db";
    let bare = command(alloc, "check", about, example);
    with_arg(bare, database(alloc, OLD_FILE))
}

fn compact<'a>(alloc: Global) -> Result<Command<'a>, AllocError>
    ensures { IfOk result (λ command. IsCommand command compact) }
{
    let about =
        "Checks the file's tables, then copies every organization to a new file. Refuses a target that has organizations";
    let example = "Example: custody compact --db custody.db --to smaller.db";
    let bare = command(alloc, "compact", about, example);
    let on_file = with_arg(bare, database(alloc, OLD_FILE));
    with_arg(on_file, target(alloc))
}

fn admin<'a>(alloc: Global) -> Result<Command<'a>, AllocError>
    ensures { IfOk result (λ command. IsCommand command admin) }
{
    let about =
        "Carries out the operator's commands on standard input, one per line. Stops at the first that fails";
    let file_help =
        "The database file. Created if it does not exist and the first command is org-add";
    let bare = command(alloc, "admin", about, ADMIN_LINES);
    with_arg(bare, database(alloc, file_help))
}

fn replay<'a>(alloc: Global) -> Result<Command<'a>, AllocError>
    ensures { IfOk result (λ command. IsCommand command replay) }
{
    let about = "Answers the frames on standard input over a database in memory";
    let example = "Example: custody replay < frames";
    command(alloc, "replay", about, example)
}

fn bare<'a>(alloc: Global) -> Result<Command<'a>, AllocError>
    ensures { IfOk result (λ whole. IsCommand whole bare) }
{
    Command::new(alloc, "custody")
        .about("Keeps Terraform state and decides who may change which state, and when")
        .no_binary_name(true)
        .subcommand_required(true)
        .arg_required_else_help(true)
        .version(VERSION)
        .bin_name("custody")
}

fn with_organizations<'a>(
    alloc: Global,
    bare: Result<Command<'a>, AllocError>,
) -> Result<Command<'a>, AllocError>
    ensures { (app : App) → IfOk bare.entry (λ it. IsCommand it app) → IfOk result (λ whole. IsCommand whole (with_organizations app)) }
{
    let adding = with_command(bare, org_add(alloc));
    let limiting = with_command(adding, org_limit(alloc));
    let copying = with_command(limiting, org_copy(alloc));
    let removing = with_command(copying, org_remove(alloc));
    with_command(removing, org_list(alloc))
}

fn with_tokens<'a>(
    alloc: Global,
    bare: Result<Command<'a>, AllocError>,
) -> Result<Command<'a>, AllocError>
    ensures { (app : App) → IfOk bare.entry (λ it. IsCommand it app) → IfOk result (λ whole. IsCommand whole (with_tokens app)) }
{
    let adding = with_command(bare, token_add(alloc));
    let listing = with_command(adding, token_list(alloc));
    with_command(listing, token_revoke(alloc))
}

fn with_running<'a>(
    alloc: Global,
    bare: Result<Command<'a>, AllocError>,
) -> Result<Command<'a>, AllocError>
    ensures { (app : App) → IfOk bare.entry (λ it. IsCommand it app) → IfOk result (λ whole. IsCommand whole (with_running app)) }
{
    let serving = with_command(bare, serve(alloc));
    let checking = with_command(serving, check(alloc));
    let compacting = with_command(checking, compact(alloc));
    let carrying = with_command(compacting, admin(alloc));
    with_command(carrying, replay(alloc))
}

fn custody<'a>(alloc: Global) -> Result<Command<'a>, AllocError>
    ensures { IfOk result (λ whole. app_of whole ≡ custody) }
{
    let bare = bare(alloc);
    let organizations = with_organizations(alloc, bare);
    let tokens = with_tokens(alloc, organizations);
    with_running(alloc, tokens)
}

fn matched<'a>(alloc: Global, words: &'a [String]) -> Result<ArgMatches<'a>, Error>
    ensures kinds { FailsBy (faults (words_bytes words.entry.now)) result }
    ensures found { IfOk result (λ matches. subcommand_rows_of matches ≡ subcommand_of custody (words_bytes words.entry.now)) }
{
    let command = custody(alloc)?;
    command.try_get_matches_from(words)
}

// The text of an error; there is some.
fn text_of(alloc: Global, error: &Error) -> Result<String, Down>
    ensures { IfOk result (λ text. 0 < length (string_bytes text)) }
{
    match format!(in alloc; "{error}") {
        Ok(text) if !text.is_empty() => Ok(text),
        _ => Err(Down),
    }
}

fn why(kind: ErrorKind, text: String) -> Unasked
    ensures { (words : List (List ℕ)) → (kind ≡ ErrorKind.OutOfMemory) ⊎ IsAmong kind (faults words) → (kind ≡ ErrorKind.DisplayVersion → ⊥) → 0 < length (string_bytes text) → IsWhy words result }
{
    match kind {
        ErrorKind::DisplayHelp => Unasked::Help(text),
        ErrorKind::OutOfMemory => Unasked::Down,
        _ => Unasked::Words(text),
    }
}

fn reported(alloc: Global, error: &Error) -> Unasked
    ensures { (words : List (List ℕ)) → HasKind (faults words) error.now → (kind_of error.now ≡ ErrorKind.DisplayVersion → ⊥) → IsWhy words result }
{
    match text_of(alloc, error) {
        Ok(text) => why(error.kind(), text),
        Err(_) => Unasked::Down,
    }
}

fn unmatched<'a>(alloc: Global, error: &Error) -> Result<Order<'a>, Unasked>
    ensures asked { (words : List (List ℕ)) → HasKind (faults words) error.now → IfOk result (λ order. asked_in words ≡ Some (said_by order)) }
    ensures why { (words : List (List ℕ)) → HasKind (faults words) error.now → IfErr result (IsWhy words) }
{
    match error.kind() {
        ErrorKind::DisplayVersion => Ok(Order::Version),
        _ => Err(reported(alloc, error)),
    }
}

fn ordered<'a>(alloc: Global, matches: &ArgMatches<'a>) -> Result<Order<'a>, Unread>
    ensures ok { IfOk result (λ order. asked_by_command (subcommand_rows_of matches.now) ≡ Some (said_by order)) }
    ensures why { IfErr result (IsUnreadOf (subcommand_rows_of matches.now)) }
{
    match matches.subcommand() {
        Some((name, inner)) => read_order(alloc, name, &Values::of(inner)),
        None => Err(Unread::Value(Argument::Command)),
    }
}

/// Reads the words, which come without the program's name.
pub fn read_words<'a>(alloc: Global, words: &'a [String]) -> Result<Order<'a>, Unasked>
    ensures asked { IfOk result (λ order. asked_in (words_bytes words.entry.now) ≡ Some (said_by order)) }
    ensures why { IfErr result (IsWhy (words_bytes words.entry.now)) }
{
    let found = match matched(alloc, words) {
        Ok(matches) => ordered(alloc, &matches),
        Err(error) => return unmatched(alloc, &error),
    };
    match found {
        Ok(order) => Ok(order),
        Err(Unread::Value(argument)) => Err(Unasked::Value(argument)),
        Err(Unread::Down) => Err(Unasked::Down),
    }
}
