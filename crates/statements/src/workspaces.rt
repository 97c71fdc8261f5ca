//! Statements on the table ws. When a workspace is added or removed, so is its row of keeping.
ghost use Rattle.std.specs.Prelude.{◌≡◌, ◌≢◌, [], ◌∷◌, None, IfOk, is_some, string_bytes};
ghost use Rattle.sqlite.specs.Held.{state};
ghost use Rattle.sqlite.specs.Values.{bound};
ghost use Rattle.statements.specs.Steps.{AnyRows, Equals, EqualsWhere, Writes, Reports, Queries};
ghost use Rattle.statements.specs.Changes.{with_run_settings, held_by, released_from, with_next_version, with_next_run, ws_changed, ws_row_added, ws_row_removed, ws_added, ws_removed, HasNoRetention};
ghost use Rattle.statements.specs.Listings.{workspace_rows_after, workspace_names_of, WorkspacesApart, NamesApart, later_of, end_of};
ghost use Rattle.statements.specs.Rows.{run_settings_at, run_settings_cells, bytes_at, holder_at, workspace_in_row};
ghost use Rattle.statements.specs.Calls.{IsHolderIn, IsWorkspaceIn, IsWorkspace, IsNamedRow, IsName};
ghost use Rattle.sqlite_value.specs.declared.value.Value.TheVariants.{Text};
ghost use Rattle.sqlite_value.specs.Order.{column};
ghost use Rattle.statements.specs.Finds.{workspace_of, workspaces_of};
ghost use Rattle.basis.specs.declared.rows.Holder.TheVariants.{Lock};

use crate::calls::{
    Read, all_rows, count_of, first_row, first_rows, read_all, read_one, update, write,
};
use crate::cells::{
    bytes_in, flag_in, lock_id_of, name_of, number_in, optional_lock_id, optional_number,
    optional_retention, unsigned_in,
};
use crate::encoding::limit;
use crate::retentions;
use crate::rows::{NamedWorkspace, Workspace};
use basis::{Holder, Items, KeepCount, LockId, Number, RunSettings, WsName, WsPrefix};
use sqlite::types::{ToSql, ValueRef};
use sqlite::{Alter, Connection, Error, Row, Transaction, params};
use std::alloc::Global;

/// The number of columns that hold the settings of runs.
const RUN_SETTINGS_WIDTH: usize = 1;

/// The first column of a row of ws after those, if the rowid is the first column.
pub(crate) const BEHIND_RUN_SETTINGS: u8 = 3 + RUN_SETTINGS_WIDTH as u8;

/// The settings of runs in a row of a query's result, from this column on.
fn run_settings_in(row: &Row, at: u8) -> Result<RunSettings, Error>
    ensures { IfOk result (λ runs. runs ≡ run_settings_at row.now at) }
{
    let at = usize::from(at);
    Ok(RunSettings {
        auto_apply: flag_in(row, at)?,
    })
}

/// The parameters of a statement that writes the settings of a workspace's runs: the workspace's name, then
/// the settings.
fn params_of<'v>(
    org: &'v str,
    name: &'v str,
    runs: RunSettings,
) -> [ValueRef<'v>; 2 + RUN_SETTINGS_WIDTH]
    ensures { bound result ≡ Text org.now ∷ Text name.now ∷ run_settings_cells runs }
{
    [org.to_sql(), name.to_sql(), runs.auto_apply.to_sql()]
}

fn lock_id_in(row: &Row, at: usize) -> Result<LockId, Error>
    ensures is { IfOk result (λ x. x ≡ bytes_at row.now at) }
    ensures cell { IfOk result (λ x. column row.now at ≡ Text x) }
{
    lock_id_of(row.get(at)?, at)
}

/// The holder of a workspace, from this column on.
fn holder_in(row: &Row, at: u8) -> Result<Holder, Error>
    ensures is { IfOk result (λ x. x ≡ holder_at row.now at) }
    ensures cells { IfOk result (IsHolderIn at row.now) }
{
    let at = usize::from(at);
    match unsigned_in(row, at)? {
        0 => Ok(Holder::Nobody),
        1 => Ok(Holder::Lock {
            id: lock_id_in(row, at + 1)?,
            text: bytes_in(row, at + 2)?,
        }),
        2 => Ok(Holder::Run(number_in(row, at + 3)?)),
        _ => Err(Error::IntegralValueOutOfRange(at)),
    }
}

/// A workspace in a row: its holder from column `at` on, and the settings of its runs from column `settings`
/// on.
pub(crate) fn workspace_in(row: &Row, at: u8, settings: u8) -> Result<Workspace, Error>
    ensures is { IfOk result (λ x. x ≡ workspace_in_row row.now at settings) }
    ensures cells { IfOk result (IsWorkspaceIn at settings row.now) }
{
    let offset = usize::from(at);
    Ok(Workspace {
        runs: run_settings_in(row, settings)?,
        next_version: unsigned_in(row, offset + 5)?,
        next_run: unsigned_in(row, offset + 6)?,
        released: optional_lock_id(row, offset + 4)?,
        holder: holder_in(row, at)?,
    })
}

impl Read for Workspace {
    ghost is_in = { IsWorkspace };

    fn of_row(row: &Row) -> Result<Workspace, Error> {
        workspace_in(row, 0, 7)
    }
}

impl Read for NamedWorkspace {
    ghost is_in = { IsNamedRow };

    fn of_row(row: &Row) -> Result<NamedWorkspace, Error> {
        Ok(NamedWorkspace {
            retention: optional_retention(row, 8)?,
            last: optional_number(row, 9)?,
            name: name_of(row.get(7)?, 7)?,
            it: workspace_in(row, 0, 10)?,
        })
    }
}

impl Read for WsName {
    ghost is_in = { IsName };

    fn of_row(row: &Row) -> Result<WsName, Error> {
        name_of(row.get(0)?, 0)
    }
}

const FIND_WS: &str =
    "SELECT kind, lock_id, lock_text, run, released, next_version, next_run, auto FROM ws WHERE org = ?1 AND name = ?2 ORDER BY rowid";

/// The row of the organization's workspace with this name; none if there is no such workspace.
pub fn find<S: Alter>(
    conn: &mut Connection<S>,
    org: &str,
    name: &str,
) -> Result<Option<Workspace>, Error>
    ensures { Queries S.Store (Equals (workspace_of org.now name.now)) conn.old conn.new result }
{
    let row = first_row(conn, FIND_WS, params![org, name]);
    read_one(row)
}

const LIST_WS: &str =
    "SELECT kind, lock_id, lock_text, run, released, next_version, next_run, name, keep, number, auto FROM ws LEFT JOIN keeping ON keeping.org = ?1 AND keeping.ws = name LEFT JOIN version ON version.org = ?1 AND version.ws = name AND number = next_version - 1 WHERE ws.org = ?1 AND name > ?2 ORDER BY name LIMIT ?3";

fn list_all<S: Alter>(
    alloc: Global,
    conn: &mut Connection<S>,
    org: &str,
    after: &str,
    most: usize,
) -> Result<Items<NamedWorkspace>, Error>
    ensures { Queries S.Store (EqualsWhere WorkspacesApart (workspace_rows_after org.now after.now [] most)) conn.old conn.new result }
{
    let limit = limit(most);
    let rows = first_rows(alloc, conn, LIST_WS, params![org, after, limit], most);
    read_all(alloc, rows)
}

// The scan begins at the second of the two lower bounds.
const LIST_WS_WITHIN: &str =
    "SELECT kind, lock_id, lock_text, run, released, next_version, next_run, name, keep, number, auto FROM ws LEFT JOIN keeping ON keeping.org = ?1 AND keeping.ws = name LEFT JOIN version ON version.org = ?1 AND version.ws = name AND number = next_version - 1 WHERE ws.org = ?1 AND name > ?2 AND name >= ?3 AND name < ?4 ORDER BY name LIMIT ?5";

/// Where a scan for the names with this prefix that come after `after` begins: at the greater of the two.
fn beginning<'v>(after: &'v str, prefix: &'v str) -> &'v str
    ensures { result.now ≡ later_of after.now prefix.now }
{
    if after.as_bytes() < prefix.as_bytes() {
        prefix
    } else {
        after
    }
}

/// The least text that comes after every text with this prefix, which is not empty. The prefix's last byte is
/// increased by one.
fn end_of(alloc: Global, prefix: &WsPrefix) -> Result<String, Error>
    requires some { prefix.now ≢ [] }
    ensures { IfOk result (λ end. string_bytes end ≡ end_of prefix.now) }
{
    let text = prefix.as_str();
    let last = text.len() - 1;
    let mut end = String::from_str(alloc, &text[..last])?;
    end.push(char::from(text.as_bytes()[last] + 1))?;
    Ok(end)
}

fn list_within<'v, S: Alter>(
    alloc: Global,
    conn: &mut Connection<S>,
    org: &'v str,
    after: &'v str,
    prefix: &'v WsPrefix,
    most: usize,
) -> Result<Items<NamedWorkspace>, Error>
    requires some { prefix.now ≢ [] }
    ensures { Queries S.Store (EqualsWhere WorkspacesApart (workspace_rows_after org.now after.now prefix.now most)) conn.old conn.new result }
{
    let end = match end_of(alloc, prefix) {
        Ok(end) => end,
        Err(error) => {
            // The connection is used all the same. So it is left as it is after any query that fails.
            let _looked = count(conn, org);
            return Err(error);
        }
    };
    let from = beginning(after, prefix.as_str());
    let limit = limit(most);
    let rows = first_rows(
        alloc,
        conn,
        LIST_WS_WITHIN,
        params![org, after, from, end.as_str(), limit],
        most,
    );
    read_all(alloc, rows)
}

/// The workspaces of an organization whose names come after `after` and begin with `prefix`, each with the
/// number of versions that it keeps and the number before its next version's. They are in the order of their
/// names' bytes, at most `most`. Every name comes after the empty one. The scan reads no other names.
pub fn list<'v, S: Alter>(
    alloc: Global,
    conn: &mut Connection<S>,
    org: &'v str,
    after: &'v str,
    prefix: &'v WsPrefix,
    most: usize,
) -> Result<Items<NamedWorkspace>, Error>
    ensures { Queries S.Store (EqualsWhere WorkspacesApart (workspace_rows_after org.now after.now prefix.now most)) conn.old conn.new result }
{
    if prefix.as_str().is_empty() {
        return list_all(alloc, conn, org, after, most);
    }
    list_within(alloc, conn, org, after, prefix, most)
}

const LIST_NAMES: &str = "SELECT name FROM ws WHERE org = ?1 ORDER BY name";

/// The names of all workspaces of an organization, in the order of their bytes.
pub fn names<S: Alter>(
    alloc: Global,
    conn: &mut Connection<S>,
    org: &str,
) -> Result<Items<WsName>, Error>
    ensures { Queries S.Store (EqualsWhere NamesApart (workspace_names_of org.now)) conn.old conn.new result }
{
    let rows = all_rows(conn, LIST_NAMES, params![org]);
    read_all(alloc, rows)
}

const COUNT_WS: &str = "SELECT count(*) FROM ws WHERE org = ?1";

/// The number of an organization's workspaces.
pub fn count<S: Alter>(conn: &mut Connection<S>, org: &str) -> Result<u64, Error>
    ensures { Queries S.Store (Equals (workspaces_of org.now)) conn.old conn.new result }
{
    let row = first_row(conn, COUNT_WS, params![org]);
    count_of(row)
}

const ADD_WS: &str =
    "INSERT INTO ws (org, name, auto, kind, next_version, next_run) VALUES (?1, ?2, ?3, 0, 1, 1)";

/// Adds the row of a workspace without a holder; its next version and its next run are 1. If this succeeds,
/// there was no workspace with its name.
fn add_row<S: Alter>(
    tx: &mut Transaction<'_, S>,
    org: &str,
    name: &str,
    runs: RunSettings,
) -> Result<(), Error>
    ensures writes { Writes S.Store AnyRows (ws_row_added org.now name.now runs) tx.old tx.new result }
    ensures fresh { Reports (λ _ t. workspace_of org.now name.now t ≡ None) (state S.Store tx.old.conn.now) (state S.Store tx.new.conn.now) result }
{
    write(tx, ADD_WS, &params_of(org, name, runs))
}

/// Adds a workspace without a holder, and the number of versions that it keeps; its next version and its next
/// run are 1. If this succeeds, there was no workspace with its name.
pub fn add<S: Alter>(
    tx: &mut Transaction<'_, S>,
    org: &str,
    name: &str,
    runs: RunSettings,
    retention: KeepCount,
) -> Result<(), Error>
    ensures writes { Writes S.Store AnyRows (ws_added org.now name.now runs retention) tx.old tx.new result }
    ensures fresh { Reports (λ _ t. workspace_of org.now name.now t ≡ None) (state S.Store tx.old.conn.now) (state S.Store tx.new.conn.now) result }
{
    add_row(tx, org, name, runs)?;
    retentions::add(tx, org, name, retention)
}

const SET_RUN_SETTINGS: &str = "UPDATE ws SET auto = ?3 WHERE org = ?1 AND name = ?2";

/// Sets the settings of a workspace's runs.
pub fn set_run_settings<S: Alter>(
    tx: &mut Transaction<'_, S>,
    org: &str,
    name: &str,
    runs: RunSettings,
) -> Result<(), Error>
    ensures { Writes S.Store AnyRows (ws_changed (with_run_settings runs) org.now name.now) tx.old tx.new result }
{
    write(tx, SET_RUN_SETTINGS, &params_of(org, name, runs))
}

const HOLD: &str =
    "UPDATE ws SET kind = ?3, lock_id = ?4, lock_text = ?5, run = ?6 WHERE org = ?1 AND name = ?2";

/// Makes a lock the holder of a workspace, with the text of its LOCK.
pub fn hold_by_lock<S: Alter>(
    tx: &mut Transaction<'_, S>,
    org: &str,
    name: &str,
    id: &LockId,
    text: &[u8],
) -> Result<(), Error>
    ensures { Writes S.Store AnyRows (ws_changed (held_by (Lock id.now text.now)) org.now name.now) tx.old tx.new result }
{
    let id = id.as_str();
    let none: Option<u32> = None;
    write(tx, HOLD, params![org, name, 1, id, text, none])
}

/// Sets or removes the holder of a workspace. The ID of the last released lock is unchanged.
pub fn hold<S: Alter>(
    tx: &mut Transaction<'_, S>,
    org: &str,
    name: &str,
    holder: &Holder,
) -> Result<(), Error>
    ensures { Writes S.Store AnyRows (ws_changed (held_by holder.now) org.now name.now) tx.old tx.new result }
{
    let none: Option<u32> = None;
    match holder {
        Holder::Nobody => write(tx, HOLD, params![org, name, 0, none, none, none]),
        Holder::Lock { id, text } => hold_by_lock(tx, org, name, id, text.as_slice()),
        Holder::Run(run) => {
            let run = run.get();
            write(tx, HOLD, params![org, name, 2, none, none, run])
        }
    }
}

const RELEASE_LOCK: &str =
    "UPDATE ws SET kind = 0, lock_id = NULL, lock_text = NULL, run = NULL, released = ?3 WHERE org = ?1 AND name = ?2";

/// Removes the holder of a workspace, and stores the ID of the lock that was released.
pub fn release_lock<S: Alter>(
    tx: &mut Transaction<'_, S>,
    org: &str,
    name: &str,
    id: &LockId,
) -> Result<(), Error>
    ensures { Writes S.Store AnyRows (ws_changed (released_from id.now) org.now name.now) tx.old tx.new result }
{
    let id = id.as_str();
    write(tx, RELEASE_LOCK, params![org, name, id])
}

const SET_NEXT_VERSION: &str = "UPDATE ws SET next_version = ?3 WHERE org = ?1 AND name = ?2";

/// Sets the number of the next version of a workspace. Returns whether there is such a workspace.
pub fn set_next_version<S: Alter>(
    tx: &mut Transaction<'_, S>,
    org: &str,
    name: &str,
    next: u32,
) -> Result<bool, Error>
    ensures writes { Writes S.Store AnyRows (ws_changed (with_next_version next) org.now name.now) tx.old tx.new result }
    ensures found { Reports (Equals (λ t. is_some (workspace_of org.now name.now t))) (state S.Store tx.old.conn.now) (state S.Store tx.new.conn.now) result }
{
    update(tx, SET_NEXT_VERSION, params![org, name, next])
}

const SET_NEXT_RUN: &str = "UPDATE ws SET next_run = ?3 WHERE org = ?1 AND name = ?2";

/// Sets the number of the next run of a workspace. Returns whether there is such a workspace.
pub fn set_next_run<S: Alter>(
    tx: &mut Transaction<'_, S>,
    org: &str,
    name: &str,
    next: u32,
) -> Result<bool, Error>
    ensures writes { Writes S.Store AnyRows (ws_changed (with_next_run next) org.now name.now) tx.old tx.new result }
    ensures found { Reports (Equals (λ t. is_some (workspace_of org.now name.now t))) (state S.Store tx.old.conn.now) (state S.Store tx.new.conn.now) result }
{
    update(tx, SET_NEXT_RUN, params![org, name, next])
}

const REMOVE_WS: &str = "DELETE FROM ws WHERE org = ?1 AND name = ?2";

/// Removes the row of a workspace. The contract holds if the workspace has no row of keeping.
fn remove_row<S: Alter>(tx: &mut Transaction<'_, S>, org: &str, name: &str) -> Result<(), Error>
    ensures { Writes S.Store (HasNoRetention org.now name.now) (ws_row_removed org.now name.now) tx.old tx.new result }
{
    write(tx, REMOVE_WS, params![org, name])
}

/// Removes the number of versions that a workspace keeps, and then the workspace. The rows of its versions
/// and runs are removed separately.
pub fn remove<S: Alter>(tx: &mut Transaction<'_, S>, org: &str, name: &str) -> Result<(), Error>
    ensures { Writes S.Store AnyRows (ws_removed org.now name.now) tx.old tx.new result }
{
    retentions::remove(tx, org, name)?;
    remove_row(tx, org, name)
}
