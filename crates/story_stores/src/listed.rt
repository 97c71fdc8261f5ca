//! Lists of versions, runs and workspaces beside all rows: each item is that of the next row, and what is said of
//! the rows after the last is true.
use crate::all_rows::{
    AllRows, NAMES, NUMBERS, RETENTIONS, RUNS, VERSIONS, has_flag, has_number, has_text,
    least_above, number_at, row_of, row_with, text_at,
};
use crate::parts::{is_run, value_of};
use basis::numbers::FIRST_KEPT;
use basis::rows::MAX_ITEMS;
use basis::{HolderId, Listing, RunRow, VersionRow, WsPrefix, WsRow};
use sqlite::Row;
use std::cmp::Ordering;

fn is_version(all_rows: &AllRows, number: u64, version: &VersionRow) -> bool {
    match row_of(all_rows.rows(VERSIONS), number) {
        Some(row) => {
            number == u64::from(version.number.get())
                && has_number(row, 1, version.serial.get())
                && has_text(row, 2, version.lineage.as_str())
                && has_number(row, 3, version.created.seconds())
                && has_number(row, 4, version.size)
        }
        None => false,
    }
}

// Whether a list of so many items says what is true of those after it.
fn is_end(count: usize, more: bool, follows: bool) -> bool {
    more == follows && (count == MAX_ITEMS || !more)
}

/// Whether a list has the versions after a number, each in turn.
pub fn are_versions(all_rows: &AllRows, after: u64, list: &Listing<VersionRow>) -> bool {
    let rows = all_rows.rows(VERSIONS);
    let mut last = after;
    for version in list.items.as_slice() {
        last = least_above(rows, last);
        if !is_version(all_rows, last, version) {
            return false;
        }
    }
    is_end(
        list.items.as_slice().len(),
        list.more,
        least_above(rows, last) != 0,
    )
}

fn is_run_of(all_rows: &AllRows, number: u64, run: &RunRow) -> bool {
    match row_of(all_rows.rows(RUNS), number) {
        Some(row) => is_run(row, run),
        None => false,
    }
}

/// Whether a list has the runs after a number, each in turn.
pub fn are_runs(all_rows: &AllRows, after: u64, list: &Listing<RunRow>) -> bool {
    let rows = all_rows.rows(RUNS);
    let mut last = after;
    for run in list.items.as_slice() {
        last = least_above(rows, last);
        if !is_run_of(all_rows, last, run) {
            return false;
        }
    }
    is_end(
        list.items.as_slice().len(),
        list.more,
        least_above(rows, last) != 0,
    )
}

// The first name in a row.
fn name_of(row: &Row) -> &str {
    match str::from_utf8(text_at(row, 0).unwrap_or(b"")) {
        Ok(name) => name,
        Err(_) => "",
    }
}

// The first of the names above this one that a prefix admits, by their bytes; an empty one if there is none.
fn name_above<'w>(rows: &'w [Row], above: &str, prefix: &WsPrefix) -> &'w str {
    let mut found = "";
    for row in rows {
        let name = name_of(row);
        let is_above = name.cmp(above) == Ordering::Greater && prefix.admits(name);
        if is_above && (found.is_empty() || name.cmp(found) == Ordering::Less) {
            found = name;
        }
    }
    found
}

fn has_holder(row: &Row, holder: &Option<HolderId>) -> bool {
    match holder {
        None => has_number(row, 2, 0),
        Some(HolderId::Lock(id)) => has_number(row, 2, 1) && has_text(row, 3, id.as_str()),
        Some(HolderId::Run(number)) => {
            has_number(row, 2, 2) && has_number(row, 4, u64::from(number.get()))
        }
    }
}

fn kept_of(all_rows: &AllRows, name: &str) -> u64 {
    match row_with(all_rows.rows(RETENTIONS), 0, name) {
        Some(row) => number_at(row, 1).unwrap_or(0),
        None => u64::from(FIRST_KEPT),
    }
}

// The greatest number of a workspace's versions; 0 if there is none.
fn newest_of(all_rows: &AllRows, name: &str) -> u64 {
    let mut newest = 0;
    for row in all_rows.rows(NUMBERS) {
        if has_text(row, 0, name) {
            newest = number_at(row, 1).unwrap_or(0).max(newest);
        }
    }
    newest
}

fn is_workspace(all_rows: &AllRows, name: &str, ws: &WsRow) -> bool {
    match row_with(all_rows.rows(NAMES), 0, name) {
        Some(row) => {
            name == ws.name.as_str()
                && has_flag(row, 1, ws.settings.runs.auto_apply)
                && has_holder(row, &ws.holder)
                && u64::from(ws.settings.retention.get()) == kept_of(all_rows, name)
                && value_of(ws.version) == newest_of(all_rows, name)
        }
        None => false,
    }
}

/// Whether a list has the workspaces that a prefix admits after a name, each in turn.
pub fn are_workspaces(
    all_rows: &AllRows,
    after: &str,
    prefix: &WsPrefix,
    list: &Listing<WsRow>,
) -> bool {
    let rows = all_rows.rows(NAMES);
    let mut last = after;
    for ws in list.items.as_slice() {
        last = name_above(rows, last, prefix);
        if !is_workspace(all_rows, last, ws) {
            return false;
        }
    }
    let follows = !name_above(rows, last, prefix).is_empty();
    is_end(list.items.as_slice().len(), list.more, follows)
}
