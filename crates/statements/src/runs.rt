//! Statements on the table run.
ghost use Rattle.std.specs.Prelude.{option_map};
ghost use Rattle.statements.specs.Steps.{AnyRows, Equals, EqualsWhere, Writes, Queries};
ghost use Rattle.statements.specs.Changes.{run_changed_to, run_acted, run_added, run_made, runs_removed};
ghost use Rattle.statements.specs.Listings.{run_rows_after, RunsApart};
ghost use Rattle.statements.specs.Finds.{first_waiting_of, status_at_number, run_at_number, keyed_run_of, open_runs_of};

use crate::calls::{count_of, first_row, first_rows, read_all, read_one, write};
use crate::encoding::{action_number, optional_action_number, seconds, status_number};
use basis::{Items, Moment, Number, RunAction, RunRow, RunStatus};
use sqlite::{Alter, Connection, Error, Transaction, params};
use std::alloc::Global;

const FIRST_WAITING: &str =
    "SELECT number FROM run WHERE org = ?1 AND ws = ?2 AND status = 0 AND plan_only = 0 ORDER BY number, rowid LIMIT 1";

/// The least number of the waiting runs of a workspace: queued, and pending.
pub fn first_waiting<S: Alter>(
    conn: &mut Connection<S>,
    org: &str,
    ws: &str,
) -> Result<Option<Number>, Error>
    ensures { Queries S.Store (Equals (first_waiting_of org.now ws.now)) conn.old conn.new result }
{
    let row = first_row(conn, FIRST_WAITING, params![org, ws]);
    read_one(row)
}

const RUN_STATUS: &str =
    "SELECT status FROM run WHERE org = ?1 AND ws = ?2 AND number = ?3 ORDER BY rowid";

/// The status of a run; none if there is no such run.
pub fn status<S: Alter>(
    conn: &mut Connection<S>,
    org: &str,
    ws: &str,
    run: Number,
) -> Result<Option<RunStatus>, Error>
    ensures { Queries S.Store (Equals (status_at_number org.now ws.now run)) conn.old conn.new result }
{
    let run = run.get();
    let row = first_row(conn, RUN_STATUS, params![org, ws, run]);
    read_one(row)
}

const FIND_RUN: &str =
    "SELECT number, plan_only, rkey, message, created, status, action FROM run WHERE org = ?1 AND ws = ?2 AND number = ?3 ORDER BY rowid";

/// The run with this number; none if there is no such run.
pub fn find<S: Alter>(
    conn: &mut Connection<S>,
    org: &str,
    ws: &str,
    number: Number,
) -> Result<Option<RunRow>, Error>
    ensures { Queries S.Store (Equals (run_at_number org.now ws.now number)) conn.old conn.new result }
{
    let number = number.get();
    let row = first_row(conn, FIND_RUN, params![org, ws, number]);
    read_one(row)
}

const LIST_RUNS: &str =
    "SELECT number, plan_only, rkey, message, created, status, action FROM run WHERE org = ?1 AND ws = ?2 AND number > ?3 ORDER BY number";

/// The runs of a workspace with numbers greater than `after`, in the order of their numbers, at most `most`.
pub fn list<S: Alter>(
    alloc: Global,
    conn: &mut Connection<S>,
    org: &str,
    ws: &str,
    after: u32,
    most: usize,
) -> Result<Items<RunRow>, Error>
    ensures { Queries S.Store (EqualsWhere (RunsApart org.now ws.now) (run_rows_after org.now ws.now after most)) conn.old conn.new result }
{
    let rows = first_rows(alloc, conn, LIST_RUNS, params![org, ws, after], most);
    read_all(alloc, rows)
}

const FIND_KEYED_RUN: &str =
    "SELECT number, plan_only, rkey, message, created, status, action FROM run WHERE org = ?1 AND ws = ?2 AND rkey = ?3 ORDER BY rowid";

/// The run with this key; none if there is no such run.
pub fn find_by_key<S: Alter>(
    conn: &mut Connection<S>,
    org: &str,
    ws: &str,
    key: &str,
) -> Result<Option<RunRow>, Error>
    ensures { Queries S.Store (Equals (keyed_run_of org.now ws.now key.now)) conn.old conn.new result }
{
    let row = first_row(conn, FIND_KEYED_RUN, params![org, ws, key]);
    read_one(row)
}

const COUNT_OPEN_RUNS: &str = "SELECT count(*) FROM run WHERE org = ?1 AND ws = ?2 AND status < 4";

/// The number of a workspace's open runs.
pub fn count_open<S: Alter>(conn: &mut Connection<S>, org: &str, ws: &str) -> Result<u64, Error>
    ensures { Queries S.Store (Equals (open_runs_of org.now ws.now)) conn.old conn.new result }
{
    let row = first_row(conn, COUNT_OPEN_RUNS, params![org, ws]);
    count_of(row)
}

const SET_RUN_STATUS: &str =
    "UPDATE run SET status = ?4 WHERE org = ?1 AND ws = ?2 AND number = ?3";

/// Sets the status of a run.
pub fn set_status<S: Alter>(
    tx: &mut Transaction<'_, S>,
    org: &str,
    ws: &str,
    run: Number,
    status: RunStatus,
) -> Result<(), Error>
    ensures { Writes S.Store AnyRows (run_changed_to status org.now ws.now run) tx.old tx.new result }
{
    let run = run.get();
    let status = status_number(status);
    write(tx, SET_RUN_STATUS, params![org, ws, run, status])
}

const RECORD_ACTION: &str =
    "UPDATE run SET status = ?4, action = ?5 WHERE org = ?1 AND ws = ?2 AND number = ?3";

/// Stores a run's last action, and the status that follows it.
pub fn record_action<S: Alter>(
    tx: &mut Transaction<'_, S>,
    org: &str,
    ws: &str,
    run: Number,
    status: RunStatus,
    action: RunAction,
) -> Result<(), Error>
    ensures { Writes S.Store AnyRows (run_acted status action org.now ws.now run) tx.old tx.new result }
{
    let run = run.get();
    let status = status_number(status);
    let action = action_number(action);
    write(tx, RECORD_ACTION, params![org, ws, run, status, action])
}

const ADD_RUN: &str =
    "INSERT INTO run (org, ws, number, plan_only, rkey, message, created, status, action) VALUES (?1, ?2, ?3, ?4, ?5, ?6, ?7, ?8, ?9)";

/// Adds a run, with its last action, if any.
pub fn add<'v, S: Alter>(
    tx: &mut Transaction<'_, S>,
    org: &'v str,
    ws: &'v str,
    number: Number,
    plan_only: bool,
    key: Option<&'v str>,
    message: &'v str,
    created: Moment,
    status: RunStatus,
    action: Option<RunAction>,
) -> Result<(), Error>
    ensures { Writes S.Store AnyRows (run_added org.now ws.now (run_made number plan_only (option_map (λ s. s.now) key.entry) message.now created status action)) tx.old tx.new result }
{
    let number = number.get();
    let created = seconds(created);
    let status = status_number(status);
    let action = optional_action_number(action);
    write(
        tx,
        ADD_RUN,
        params![
            org, ws, number, plan_only, key, message, &created, status, action
        ],
    )
}

const REMOVE_RUNS: &str = "DELETE FROM run WHERE org = ?1 AND ws = ?2";

/// Removes the runs of a workspace.
pub fn remove_all<S: Alter>(tx: &mut Transaction<'_, S>, org: &str, ws: &str) -> Result<(), Error>
    ensures { Writes S.Store AnyRows (runs_removed org.now ws.now) tx.old tx.new result }
{
    write(tx, REMOVE_RUNS, params![org, ws])
}
