//! What a store says of a workspace, part by part, beside the rows of the workspace that were read whole.
use crate::all_rows::{
    AllRows, NAMES, ORGANIZATION, RETENTION, RUNS, VERSIONS, bytes_at, count_above, greatest,
    has_flag, has_number, has_optional, has_text, least_above, number_at, number_of, row_of,
    row_with,
};
use basis::numbers::FIRST_KEPT;
use basis::{Holder, Limit, LockId, Number, RunAction, RunRow, RunStatus, Text};
use machine::{Needs, Newest, Staying, Unit, WorkspaceUnit};
use sqlite::Row;

/// The statuses, in the order of the numbers by which rows have them.
const STATUSES: &[RunStatus] = &[
    RunStatus::Pending,
    RunStatus::Planning,
    RunStatus::Planned,
    RunStatus::Applying,
    RunStatus::Applied,
    RunStatus::PlannedAndFinished,
    RunStatus::Errored,
    RunStatus::Discarded,
    RunStatus::Canceled,
];

/// The number of the first status, and that of the last one which is open.
const PENDING: u64 = 0;

const LAST_OPEN: u64 = 3;

/// The actions, in the order of the numbers by which rows have them.
const ACTIONS: &[RunAction] = &[
    RunAction::ReportPlanned,
    RunAction::ReportUnchanged,
    RunAction::Fail,
    RunAction::Confirm,
    RunAction::ReportApplied,
    RunAction::Discard,
    RunAction::Cancel,
];

// The columns of a workspace's row, and of a run's.
const KIND: usize = 1;

const HOLDING_RUN: usize = 4;

const KEY: usize = 2;

const STATUS: usize = 5;

const ACTION: usize = 6;

/// The number; 0 if there is none.
pub fn value_of(number: Option<Number>) -> u64 {
    match number {
        Some(number) => u64::from(number.get()),
        None => 0,
    }
}

fn id_text(id: &Option<LockId>) -> Option<&str> {
    match id {
        Some(id) => Some(id.as_str()),
        None => None,
    }
}

fn key_text(key: &Option<Text>) -> Option<&str> {
    match key {
        Some(key) => Some(key.as_str()),
        None => None,
    }
}

fn is_lock(row: &Row, id: &LockId, text: &[u8]) -> bool {
    match bytes_at(row, 3) {
        Some(found) => found == text && has_text(row, 2, id.as_str()),
        None => false,
    }
}

fn is_holder(row: &Row, holder: &Holder) -> bool {
    match holder {
        Holder::Nobody => has_number(row, KIND, 0),
        Holder::Lock { id, text } => has_number(row, KIND, 1) && is_lock(row, id, text.as_slice()),
        Holder::Run(number) => {
            has_number(row, KIND, 2) && has_number(row, HOLDING_RUN, u64::from(number.get()))
        }
    }
}

// The workspace's own row.
fn is_row(row: &Row, unit: &WorkspaceUnit) -> bool {
    has_flag(row, 0, unit.settings.runs.auto_apply)
        && is_holder(row, &unit.holder)
        && has_optional(row, 5, id_text(&unit.released))
        && has_number(row, 6, unit.next_version)
        && has_number(row, 7, unit.next_run)
}

// How many versions are kept; the initial number if that is not needed.
fn kept(all_rows: &AllRows, is_needed: bool) -> u64 {
    match all_rows.rows(RETENTION).first() {
        Some(row) if is_needed => number_of(row),
        _ => u64::from(FIRST_KEPT),
    }
}

fn has_same(all_rows: &AllRows, number: u64, text: Option<&[u8]>) -> bool {
    match text {
        Some(text) => all_rows.has_text(number, text),
        None => false,
    }
}

fn is_newest_row(all_rows: &AllRows, needs: &Needs<'_>, row: &Row, newest: &Newest) -> bool {
    let number = number_of(row);
    number == u64::from(newest.number.get())
        && has_number(row, 1, newest.serial.get())
        && has_text(row, 2, newest.lineage.as_str())
        && newest.is_same == has_same(all_rows, number, needs.text)
}

fn is_newest(all_rows: &AllRows, needs: &Needs<'_>, newest: &Option<Newest>) -> bool {
    let rows = all_rows.rows(VERSIONS);
    match (row_of(rows, greatest(rows)), newest) {
        (Some(row), Some(newest)) if needs.newest => is_newest_row(all_rows, needs, row, newest),
        (Some(_), None) => !needs.newest,
        (None, None) => true,
        _ => false,
    }
}

// The greatest number of the versions that are not among the last so many; 0 if there is none.
fn last_before(rows: &[Row], staying: usize) -> u64 {
    let mut last = 0;
    for row in rows {
        let number = number_of(row);
        if number > last && count_above(rows, number) >= staying {
            last = number;
        }
    }
    last
}

// The greatest number of the versions that go; 0 where none does.
fn outgoing(all_rows: &AllRows, staying: Staying) -> u64 {
    let rows = all_rows.rows(VERSIONS);
    match staying {
        Staying::StayAll => 0,
        Staying::MakeRoom => last_before(rows, kept(all_rows, true).saturating_sub(1) as usize),
        Staying::StayAtMost(most) => last_before(rows, most.get() as usize),
    }
}

fn has_version(all_rows: &AllRows, number: Option<Number>) -> bool {
    match number {
        Some(number) => row_of(all_rows.rows(VERSIONS), u64::from(number.get())).is_some(),
        None => false,
    }
}

fn are_versions(all_rows: &AllRows, needs: &Needs<'_>, unit: &WorkspaceUnit) -> bool {
    value_of(unit.outgoing) == outgoing(all_rows, needs.outgoing)
        && unit.has_version == has_version(all_rows, needs.version)
}

/// Whether a run's row has this status.
fn has_status(row: &Row, status: RunStatus) -> bool {
    match STATUSES.get(number_at(row, STATUS).unwrap_or(u64::MAX) as usize) {
        Some(found) => *found == status,
        None => false,
    }
}

fn has_action(row: &Row, action: Option<RunAction>) -> bool {
    match (number_at(row, ACTION), action) {
        (Some(number), Some(action)) => match ACTIONS.get(number as usize) {
            Some(found) => *found == action,
            None => false,
        },
        (None, None) => true,
        _ => false,
    }
}

/// Whether a run has what its row has.
pub fn is_run(row: &Row, run: &RunRow) -> bool {
    number_of(row) == u64::from(run.number.get())
        && has_flag(row, 1, run.plan_only)
        && has_optional(row, KEY, key_text(&run.key))
        && has_text(row, 3, run.message.as_str())
        && has_number(row, 4, run.created.seconds())
        && has_status(row, run.status)
        && has_action(row, run.action)
}

// The row of the run that is asked of.
fn asked_row<'w>(rows: &'w [Row], needs: &Needs<'_>) -> Option<&'w Row> {
    match (needs.run, needs.key) {
        (Some(number), _) => row_of(rows, u64::from(number.get())),
        (None, Some(key)) => row_with(rows, KEY, key.as_str()),
        (None, None) => None,
    }
}

fn is_asked(row: Option<&Row>, run: &Option<RunRow>) -> bool {
    match (row, run) {
        (Some(row), Some(run)) => is_run(row, run),
        (None, None) => true,
        _ => false,
    }
}

// The row of the run that holds.
fn holding_row(all_rows: &AllRows) -> Option<&Row> {
    let row = all_rows.workspace()?;
    row_of(all_rows.rows(RUNS), number_at(row, HOLDING_RUN)?)
}

fn is_holder_status(all_rows: &AllRows, needs: &Needs<'_>, status: Option<RunStatus>) -> bool {
    match (holding_row(all_rows), status) {
        (Some(row), Some(status)) => needs.holder_status && has_status(row, status),
        (Some(_), None) => !needs.holder_status,
        (None, None) => true,
        (None, Some(_)) => false,
    }
}

fn is_waiting(row: &Row) -> bool {
    has_number(row, STATUS, PENDING) && has_flag(row, 1, false)
}

// The least number of the queued runs that are pending; 0 if there is none.
fn first_waiting(rows: &[Row]) -> u64 {
    let mut number = least_above(rows, 0);
    for _ in rows {
        match row_of(rows, number) {
            Some(row) if !is_waiting(row) => number = least_above(rows, number),
            _ => return number,
        }
    }
    number
}

fn count_open(rows: &[Row]) -> usize {
    let mut count: usize = 0;
    for row in rows {
        if number_at(row, STATUS).unwrap_or(u64::MAX) <= LAST_OPEN {
            count = count.saturating_add(1);
        }
    }
    count
}

fn are_runs(all_rows: &AllRows, needs: &Needs<'_>, unit: &WorkspaceUnit) -> bool {
    let rows = all_rows.rows(RUNS);
    let waiting = if needs.waiting {
        first_waiting(rows)
    } else {
        0
    };
    let open = if needs.open_runs { count_open(rows) } else { 0 };
    value_of(unit.first_waiting) == waiting
        && unit.open_runs == open
        && is_asked(asked_row(rows, needs), &unit.asked_run)
        && is_holder_status(all_rows, needs, unit.holder_status)
}

// In which parts a workspace that exists differs from its rows.
fn differs_in(
    all_rows: &AllRows,
    needs: &Needs<'_>,
    row: &Row,
    unit: &WorkspaceUnit,
) -> Option<&'static str> {
    if !is_row(row, unit) {
        return Some("the workspace's own row differs, at the act");
    }
    if u64::from(unit.settings.retention.get()) != kept(all_rows, needs.retention) {
        return Some("how many versions are kept differs, at the act");
    }
    if !is_newest(all_rows, needs, &unit.newest) {
        return Some("the newest version differs, at the act");
    }
    if !are_versions(all_rows, needs, unit) {
        return Some("the versions that go differ, at the act");
    }
    if !are_runs(all_rows, needs, unit) {
        return Some("the runs differ, at the act");
    }
    None
}

// How many workspaces the organization has and may have; 0 and 0 if that is not needed.
fn has_room(all_rows: &AllRows, is_needed: bool, workspaces: usize, limit: Limit) -> bool {
    let limit = u64::from(limit.get());
    match all_rows.rows(ORGANIZATION).first() {
        Some(row) if is_needed => {
            number_of(row) == limit && all_rows.rows(NAMES).len() == workspaces
        }
        _ => workspaces == 0 && limit == 0,
    }
}

/// Whether a store says of a workspace that does not exist, before it is created, what the rows of its organization say.
pub fn is_unmade(all_rows: &AllRows, unit: &Unit) -> bool {
    match unit {
        Unit::Absent { workspaces, limit } => has_room(all_rows, true, *workspaces, *limit),
        Unit::Present(_) => false,
    }
}

/// What a store reports before an act differently from the rows.
pub fn difference(all_rows: &AllRows, needs: &Needs<'_>, unit: &Unit) -> Option<&'static str> {
    match (all_rows.workspace(), unit) {
        (Some(row), Unit::Present(unit)) => differs_in(all_rows, needs, row, unit),
        (None, Unit::Absent { workspaces, limit })
            if has_room(all_rows, needs.makes, *workspaces, *limit) => { None }
        (None, Unit::Absent { .. }) => {
            Some("the count or the limit of workspaces differs, at the act")
        }
        _ => Some("the workspace is there by rows or by queries alone, at the act"),
    }
}
