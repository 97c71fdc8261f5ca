//! What a store over tables says by its queries of the workspace that a request names, or of the organization that a command
//! names, compared with what is found in all rows: before acts of each kind, text by text and list by list, after each of a
//! story's own steps that may have changed it. The rows are those of a second store that takes the same steps. So the first one
//! is never closed, and answers from what its changes left in its memory.
use crate::all_rows::{
    AllRows, NAMES, ORGANIZATION, RUNS, VERSIONS, greatest, read_all_rows, row_of, text_at,
};
use crate::asks::{PLACES, acts_on, making, number_about};
use crate::callers::{Digest, add_digests, are_callers};
use crate::keys::FirstByte;
use crate::listed::{are_runs, are_versions, are_workspaces};
use crate::parts::{difference, is_unmade};
use crate::ways::{Sql, TablesBy, reopened};
use basis::{Down, Number, OrgName, WsName, WsPrefix};
use machine::{Act, Keep};
use pages::PageKey;
use serve::{Admin, Step};
use sqlite::Alter;
use std::alloc::Global;
use story_runner::devices::ALL;
use story_runner::failures::Failure;
use story_runner::plays::Play;
use story_runner::stores::Makes;
use story_runner::taking::{Way, taken_to};
use tables::SqlKeep;

/// The name of this way.
const WAY: &str = "all rows and the queries, asked before each act";

/// How steps are taken.
const EACH: Way = Way::Exchange(ALL);

/// The name of a workspace that no story makes.
const NO_WORKSPACE: &str = "none-has-this-name";

/// The path of the operator's door.
const DOOR: &str = "/operator";

/// A workspace of an organization.
#[derive(Drop)]
struct Named {
    line: usize,
    org: OrgName,
    ws: WsName,
}

// The target of a request, up to its query.
fn path_in(bytes: &[u8]) -> Option<&str> {
    let text = str::from_utf8(bytes).ok()?;
    let (_, rest) = text.split_once(' ')?;
    let (target, _) = rest.split_once(' ')?;
    match target.split_once('?') {
        Some((path, _)) => Some(path),
        None => Some(target),
    }
}

// The organization and the workspace in a path.
fn parts_in(path: &str) -> Option<(&str, &str)> {
    let rest = path.strip_prefix("/v1/")?;
    let (org, rest) = rest.split_once('/')?;
    let (_, rest) = rest.split_once('/')?;
    match rest.split_once('/') {
        Some((ws, _)) => Some((org, ws)),
        None => Some((org, rest)),
    }
}

fn named_in(alloc: Global, line: usize, bytes: &[u8]) -> Option<Named> {
    let (org, ws) = parts_in(path_in(bytes)?)?;
    let org = OrgName::read(alloc, org).ok()?;
    let ws = WsName::read(alloc, ws).ok()?;
    Some(Named { line, org, ws })
}

// No workspace of an organization.
fn none_of(alloc: Global, line: usize, org: &str) -> Option<Named> {
    let org = OrgName::read(alloc, org).ok()?;
    let ws = WsName::read(alloc, NO_WORKSPACE).ok()?;
    Some(Named { line, org, ws })
}

// The organization that a command names.
fn org_of(command: &Admin) -> Option<&str> {
    match command {
        Admin::OrgAdd { org, .. } => Some(org.as_str()),
        Admin::OrgLimit { org, .. } => Some(org.as_str()),
        Admin::OrgRemove { org, .. } => Some(org.as_str()),
        Admin::OrgList => None,
        Admin::TokenAdd { org, .. } => Some(org.as_str()),
        Admin::TokenList { org } => Some(org.as_str()),
        Admin::TokenRevoke { org, .. } => Some(org.as_str()),
    }
}

// A text up to a character, if it has it.
fn front_of(text: &str, end: char) -> &str {
    match text.split_once(end) {
        Some((front, _)) => front,
        None => text,
    }
}

// The word after the first one of a command at the operator's door: it names an organization.
fn org_at_door(bytes: &[u8]) -> Option<&str> {
    if path_in(bytes)? != DOOR {
        return None;
    }
    let text = str::from_utf8(bytes).ok()?;
    let (_, words) = text.split_once("\r\n\r\n")?;
    let (_, words) = words.split_once(' ')?;
    let line = front_of(words, '\n');
    Some(front_of(line, ' '))
}

// Whether a request was accepted and may have changed something.
fn may_change(sent: &[u8], due: &[u8]) -> bool {
    let is_accepted = due.starts_with(b"HTTP/1.1 200 ") || due.starts_with(b"HTTP/1.1 100 ");
    is_accepted && !sent.starts_with(b"GET ")
}

// The workspace that a request names; of a command at the door, none of the organization that it names.
fn named_by(alloc: Global, line: usize, bytes: &[u8]) -> Option<Named> {
    match org_at_door(bytes) {
        Some(org) => none_of(alloc, line, org),
        None => named_in(alloc, line, bytes),
    }
}

// What a step names, if the step may have changed it.
fn changed_by(alloc: Global, play: &Play, index: usize) -> Option<Named> {
    match (play.steps.get(index)?, play.due.get(index)?) {
        (Step::Request { bytes, .. }, due) if may_change(bytes.as_slice(), due.bytes.as_slice()) =>
            { named_by(alloc, due.line, bytes.as_slice()) }
        (Step::Command { command, .. }, due) => none_of(alloc, due.line, org_of(command)?),
        _ => None,
    }
}

// What a store reports differently before an act.
fn act_differs<K: Keep>(
    alloc: Global,
    keep: &mut K,
    named: &Named,
    all_rows: &AllRows,
    act: &Act,
) -> Option<&'static str> {
    match keep.unit(alloc, &named.org, &named.ws, act) {
        Ok(unit) => difference(all_rows, &act.needs(), &unit),
        Err(_) => Some("memory or the store refused, at the act"),
    }
}

fn compare_acts<K: Keep>(
    alloc: Global,
    keep: &mut K,
    named: &Named,
    all_rows: &AllRows,
    acts: &[Act],
) -> Result<(), Failure> {
    for (index, act) in acts.iter().enumerate() {
        if let Some(what) = act_differs(alloc, keep, named, all_rows, act) {
            return Err(Failure::broken(named.line, what, index));
        }
    }
    Ok(())
}

// Whether the text of a number is that of its pages; none if no version has the number.
fn is_text<K: Keep>(
    alloc: Global,
    keep: &mut K,
    named: &Named,
    all_rows: &AllRows,
    number: Number,
) -> Result<bool, Down> {
    let value = u64::from(number.get());
    let is_there = row_of(all_rows.rows(VERSIONS), value).is_some();
    match keep.text(alloc, &named.org, &named.ws, number)? {
        Some(text) => Ok(is_there && all_rows.has_text(value, text.as_slice())),
        None => Ok(!is_there),
    }
}

// Whether the workspaces that a prefix admits are listed after this one, or from the first on.
fn lists_after<K: Keep>(
    alloc: Global,
    keep: &mut K,
    named: &Named,
    all_rows: &AllRows,
    after: Option<&WsName>,
    prefix: &WsPrefix,
) -> Result<bool, Down> {
    let name = match after {
        Some(ws) => ws.as_str(),
        None => "",
    };
    match keep.workspaces(alloc, &named.org, after, prefix) {
        Ok(list) => Ok(are_workspaces(all_rows, name, prefix, &list)),
        Err(down) => Err(down),
    }
}

// Whether the workspaces that a prefix admits are listed, from the first on and after the one that is named.
fn lists_workspaces<K: Keep>(
    alloc: Global,
    keep: &mut K,
    named: &Named,
    all_rows: &AllRows,
    prefix: &WsPrefix,
) -> Result<bool, Down> {
    if !lists_after(alloc, keep, named, all_rows, None, prefix)? {
        return Ok(false);
    }
    lists_after(alloc, keep, named, all_rows, Some(&named.ws), prefix)
}

// The same with the prefix that admits all, and with the first letter of the workspace that is named.
fn has_workspaces<K: Keep>(
    alloc: Global,
    keep: &mut K,
    named: &Named,
    all_rows: &AllRows,
) -> Result<bool, Down> {
    let all = WsPrefix::new(alloc);
    if !lists_workspaces(alloc, keep, named, all_rows, &all)? {
        return Ok(false);
    }
    let letter = named.ws.as_str().get(..1).unwrap_or("");
    match WsPrefix::read(alloc, letter) {
        Ok(prefix) => lists_workspaces(alloc, keep, named, all_rows, &prefix),
        Err(_) => Err(Down),
    }
}

fn has_texts<K: Keep>(
    alloc: Global,
    keep: &mut K,
    named: &Named,
    all_rows: &AllRows,
) -> Result<bool, Down> {
    let newest = greatest(all_rows.rows(VERSIONS));
    for place in 0..PLACES {
        if let Some(number) = Number::new(number_about(newest, place)) {
            if !is_text(alloc, keep, named, all_rows, number)? {
                return Ok(false);
            }
        }
    }
    Ok(true)
}

fn has_versions<K: Keep>(
    alloc: Global,
    keep: &mut K,
    named: &Named,
    all_rows: &AllRows,
) -> Result<bool, Down> {
    let newest = greatest(all_rows.rows(VERSIONS));
    for place in 0..PLACES {
        let after = number_about(newest, place).saturating_sub(1);
        let list = keep.versions(alloc, &named.org, &named.ws, after)?;
        if !are_versions(all_rows, after, &list) {
            return Ok(false);
        }
    }
    Ok(true)
}

fn has_runs<K: Keep>(
    alloc: Global,
    keep: &mut K,
    named: &Named,
    all_rows: &AllRows,
) -> Result<bool, Down> {
    let last = greatest(all_rows.rows(RUNS));
    for place in 0..PLACES {
        let after = number_about(last, place).saturating_sub(1);
        let list = keep.runs(alloc, &named.org, &named.ws, after)?;
        if !are_runs(all_rows, after, &list) {
            return Ok(false);
        }
    }
    Ok(true)
}

fn compare_lists<K: Keep>(
    alloc: Global,
    keep: &mut K,
    named: &Named,
    all_rows: &AllRows,
) -> Result<(), Failure> {
    let why = if !has_workspaces(alloc, keep, named, all_rows)? {
        "a list of workspaces differs from the rows"
    } else if !has_versions(alloc, keep, named, all_rows)? {
        "a list of versions differs from the rows"
    } else if !has_runs(alloc, keep, named, all_rows)? {
        "a list of runs differs from the rows"
    } else if !has_texts(alloc, keep, named, all_rows)? {
        "a text differs from the pages"
    } else {
        return Ok(());
    };
    Err(Failure::refused(named.line, why))
}

fn is_room_for<K: Keep>(
    alloc: Global,
    keep: &mut K,
    named: &Named,
    all_rows: &AllRows,
    ws: &WsName,
    act: &Act,
) -> Result<bool, Down> {
    match keep.unit(alloc, &named.org, ws, act) {
        Ok(unit) => Ok(is_unmade(all_rows, &unit)),
        Err(down) => Err(down),
    }
}

// Whether a store says before a further workspace is created what the rows say: how many there are, which it may remember, and
// the limit.
fn is_room<K: Keep>(
    alloc: Global,
    keep: &mut K,
    named: &Named,
    all_rows: &AllRows,
) -> Result<bool, Down> {
    match WsName::read(alloc, NO_WORKSPACE) {
        Ok(ws) => is_room_for(alloc, keep, named, all_rows, &ws, &making()),
        Err(_) => Err(Down),
    }
}

fn compare_room<K: Keep>(
    alloc: Global,
    keep: &mut K,
    named: &Named,
    all_rows: &AllRows,
) -> Result<(), Failure> {
    if is_room(alloc, keep, named, all_rows)? {
        return Ok(());
    }
    Err(Failure::refused(
        named.line,
        "the count or the limit of workspaces differs from the rows",
    ))
}

// All that a store says of a workspace, if its organization exists.
fn compare_all<K: Keep>(
    alloc: Global,
    keep: &mut K,
    named: &Named,
    all_rows: &AllRows,
) -> Result<(), Failure> {
    if all_rows.rows(ORGANIZATION).is_empty() {
        return Ok(());
    }
    compare_room(alloc, keep, named, all_rows)?;
    let acts = acts_on(alloc, all_rows)?;
    compare_acts(alloc, keep, named, all_rows, acts.as_slice())?;
    compare_lists(alloc, keep, named, all_rows)
}

/// Reads all rows of a workspace in stores. Each call gives the store back.
trait ReadsRows<K: Keep + Drop> {
    fn rows_of(&self, alloc: Global, keep: K, named: &Named) -> Result<(K, AllRows), Failure>;
}

impl<S: Alter + Drop, K: PageKey> ReadsRows<SqlKeep<S, K>> for Sql {
    // The store is closed, and opened again.
    fn rows_of(
        &self,
        alloc: Global,
        keep: SqlKeep<S, K>,
        named: &Named,
    ) -> Result<(SqlKeep<S, K>, AllRows), Failure> {
        let (line, org, ws) = (named.line, named.org.as_str(), named.ws.as_str());
        let mut conn = keep.close();
        let read = read_all_rows(alloc, line, &mut conn, org, ws);
        let keep = reopened(line, conn)?;
        match read {
            Ok(all_rows) => Ok((keep, all_rows)),
            Err(failure) => Err(failure),
        }
    }
}

// The first workspace of the same organization.
fn first_of(alloc: Global, named: &Named, all_rows: &AllRows) -> Option<Named> {
    let row = all_rows.rows(NAMES).first()?;
    let ws = WsName::read(alloc, str::from_utf8(text_at(row, 0)?).ok()?).ok()?;
    let org = OrgName::read(alloc, named.org.as_str()).ok()?;
    Some(Named {
        line: named.line,
        org,
        ws,
    })
}

// The first workspace of the same organization, if the named one does not exist.
fn other_than(alloc: Global, named: &Named, all_rows: &AllRows) -> Option<Named> {
    match all_rows.workspace() {
        Some(_) => None,
        None => first_of(alloc, named, all_rows),
    }
}

// Compares the tokens that a store finds, also by the digests of those that are gone.
fn compare_callers<K: Keep>(
    alloc: Global,
    keep: &mut K,
    named: &Named,
    all_rows: &AllRows,
    digests: &mut Vec<Digest>,
) -> Result<(), Failure> {
    add_digests(digests, all_rows)?;
    if are_callers(alloc, keep, &named.org, all_rows, digests)? {
        return Ok(());
    }
    Err(Failure::refused(named.line, "a token differs from the rows"))
}

// Compares the open store with the rows of the other one, which is given back. If the named workspace does not exist, so is the
// first one that does.
fn compared<K: Keep + Drop, R: ReadsRows<K>>(
    alloc: Global,
    reads: &R,
    open: &mut K,
    read: K,
    digests: &mut Vec<Digest>,
    named: &Named,
) -> Result<K, Failure> {
    let (read, all_rows) = reads.rows_of(alloc, read, named)?;
    compare_callers(alloc, open, named, &all_rows, digests)?;
    compare_all(alloc, open, named, &all_rows)?;
    match other_than(alloc, named, &all_rows) {
        Some(other) => compared_other(alloc, reads, open, read, &other),
        None => Ok(read),
    }
}

fn compared_other<K: Keep + Drop, R: ReadsRows<K>>(
    alloc: Global,
    reads: &R,
    open: &mut K,
    read: K,
    other: &Named,
) -> Result<K, Failure> {
    let (read, all_rows) = reads.rows_of(alloc, read, other)?;
    compare_all(alloc, open, other, &all_rows)?;
    Ok(read)
}

// Takes steps over a store that is never closed, and over one whose rows are read.
fn compare_behind_each<K: Keep + Drop, R: ReadsRows<K>>(
    alloc: Global,
    reads: &R,
    open: K,
    read: K,
    play: &Play,
) -> Result<(), Failure> {
    let mut open = taken_to(alloc, open, EACH, play, 0, play.own)?;
    let mut read = taken_to(alloc, read, EACH, play, 0, play.own)?;
    // Of all tokens that they had.
    let mut digests = Vec::new(alloc);
    for index in play.own..play.steps.len() {
        let next = index.saturating_add(1);
        open = taken_to(alloc, open, EACH, play, index, next)?;
        read = taken_to(alloc, read, EACH, play, index, next)?;
        if let Some(named) = changed_by(alloc, play, index) {
            read = compared(alloc, reads, &mut open, read, &mut digests, &named)?;
        }
    }
    Ok(())
}

fn run_over<K: Keep + Drop, T: Makes<K> + ReadsRows<K>>(
    alloc: Global,
    tables: &T,
    play: &Play,
) -> Result<(), Failure> {
    let open: K = tables.made(alloc)?;
    let read: K = tables.made(alloc)?;
    compare_behind_each(alloc, tables, open, read, play)
}

/// Takes a story's steps over tables whose pages have their first byte as their key, and compares what the store says with all
/// rows, after each of the story's own steps that may have changed some.
pub fn run_beside(alloc: Global, play: &Play) -> Result<(), Failure> {
    match run_over::<TablesBy<FirstByte>, Sql>(alloc, &Sql, play) {
        Ok(()) => Ok(()),
        Err(failure) => Err(failure.on(WAY)),
    }
}
