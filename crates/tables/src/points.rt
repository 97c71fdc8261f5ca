//! What is read from the tables outside a transaction, by queries of one row each.
ghost use Rattle.std.specs.Prelude.{◌≡◌, false, not, None, IfOk, OnOk, unwrap_or};
ghost use Rattle.sqlite.specs.Held.{state};
ghost use Rattle.sqlite.specs.State.{HasCleanDisk, IsUnchanged, KeepsCommit};
ghost use Rattle.statements.specs.Finds.{cap_of, workspaces_of};
ghost use Rattle.statements.specs.Steps.{Equals, Sees};
ghost use Rattle.machine.specs.Needs.{needed_of};
ghost use Rattle.machine.specs.declared.acts.Unit.TheVariants.{Absent};
ghost use Rattle.tables.specs.Defined.{ReportsTables};
ghost use Rattle.tables.specs.Inner.Steps.{EndsIdle, ReadsCommitted};
ghost use Rattle.tables.specs.Inner.Points.{absent_in, around_in, unit_from, present_in, unit_read_in};

use crate::runs::{RunsAround, runs_around};
use crate::transactions::assert_committed;
use crate::versions::{
    SizedNewest, VersionSize, asked_version, newest, newest_alone, outgoing, retention, size_by,
};
use basis::{Items, KeepCount, Limit, Number, Settings, Text};
use definitions::others;
use machine::{Needs, Unit, WorkspaceUnit};
use sqlite::{Alter, Connection, Error, ErrorCode};
use statements::rows::Workspace as WorkspaceCells;
use statements::{organizations, workspaces};
use std::alloc::Global;

/// What a decision needs of a workspace, and the version that was read for it, if any.
#[derive(Drop)]
pub(crate) struct UnitRead {
    pub(crate) unit: Unit,
    pub(crate) size: Option<VersionSize>,
}

/// What a decision needs of a workspace besides its row.
#[derive(Drop)]
struct Surroundings {
    newest: Option<SizedNewest>,
    outgoing: Option<Number>,
    asked_version: Option<VersionSize>,
    runs: RunsAround,
}

/// Whether a disk error has closed the connection. It compiles a statement, but does not run it.
pub(crate) fn is_shut<S: Alter>(conn: &mut Connection<S>) -> Result<bool, Error>
    requires idle { conn.old.in_transaction ≡ false }
    ensures ends { EndsIdle S.Store conn.old conn.new }
    ensures reported { HasCleanDisk (state S.Store conn.new) → IfOk result (λ is_shut. (state S.Store conn.old).is_open ≡ not is_shut) }
    ensures kept { HasCleanDisk (state S.Store conn.new) → KeepsCommit (state S.Store conn.old) (state S.Store conn.new) }
{
    match conn.prepare("SELECT 1") {
        Ok(_) => Ok(false),
        Err(Error::SqliteFailure(ErrorCode::Closed)) => Ok(true),
        Err(error) => Err(error),
    }
}

/// Fails if the connection is closed. It compiles a statement, but does not run it.
fn assert_open<S: Alter>(conn: &mut Connection<S>) -> Result<(), Error>
    requires idle { conn.old.in_transaction ≡ false }
    ensures ends { EndsIdle S.Store conn.old conn.new }
    ensures same { HasCleanDisk (state S.Store conn.new) → OnOk result (IsUnchanged (state S.Store conn.old) (state S.Store conn.new)) }
    ensures kept { HasCleanDisk (state S.Store conn.new) → KeepsCommit (state S.Store conn.old) (state S.Store conn.new) }
{
    match conn.prepare("SELECT 1") {
        Ok(_) => Ok(()),
        Err(error) => Err(error),
    }
}

/// The names of our tables that the database lacks or defines differently. Fails if the connection is closed.
pub(crate) fn other_tables<S: Alter>(
    conn: &mut Connection<S>,
    alloc: Global,
) -> Result<Items<Text>, Error>
    requires idle { conn.old.in_transaction ≡ false }
    ensures ends { EndsIdle S.Store conn.old conn.new }
    ensures reported { HasCleanDisk (state S.Store conn.new) → IfOk result (ReportsTables (state S.Store conn.old) (state S.Store conn.new)) }
    ensures kept { HasCleanDisk (state S.Store conn.new) → KeepsCommit (state S.Store conn.old) (state S.Store conn.new) }
{
    assert_committed(conn);
    assert_open(conn)?;
    let Ok(names) = others(alloc, conn.schema()) else {
        return Err(Error::SqliteFailure(ErrorCode::OutOfMemory));
    };
    Ok(names)
}

/// The number of an organization's workspaces. They are counted unless the number is known.
fn count<S: Alter>(conn: &mut Connection<S>, org: &str, known: Option<u64>) -> Result<u64, Error>
    ensures unchanged { Sees S.Store (Equals (λ t. unwrap_or known (workspaces_of org.now t))) conn.old conn.new result }
{
    match known {
        None => workspaces::count(conn, org),
        Some(count) => Ok(count),
    }
}

/// An organization's limit of workspaces, by its row. Without a row it is 0.
fn allowed(cap: Option<Limit>) -> Limit
    ensures { result ≡ unwrap_or cap 0 }
{
    match cap {
        None => Limit::none(),
        Some(limit) => limit,
    }
}

/// An organization's limit of workspaces.
fn limit<S: Alter>(conn: &mut Connection<S>, org: &str) -> Result<Limit, Error>
    ensures unchanged { Sees S.Store (Equals (λ t. unwrap_or (cap_of org.now t) 0)) conn.old conn.new result }
{
    let cap = organizations::cap(conn, org)?;
    Ok(allowed(cap))
}

fn absent_by(workspaces: u64, limit: Limit) -> UnitRead
    ensures { result ≡ record { unit = Absent workspaces limit; size = None } }
{
    UnitRead {
        unit: Unit::Absent {
            workspaces: workspaces as usize,
            limit,
        },
        size: None,
    }
}

/// The number of an organization's workspaces and its limit, if the act creates a workspace.
fn absent<S: Alter>(
    conn: &mut Connection<S>,
    org: &str,
    needs: &Needs<'_>,
    known: Option<u64>,
) -> Result<UnitRead, Error>
    ensures unchanged { Sees S.Store (Equals (absent_in (needed_of needs.now) known org.now)) conn.old conn.new result }
{
    if !needs.makes {
        return Ok(absent_by(0, Limit::none()));
    }
    let count = count(conn, org, known)?;
    let limit = limit(conn, org)?;
    Ok(absent_by(count, limit))
}

/// What a decision needs of a workspace besides its row.
fn around<S: Alter>(
    conn: &mut Connection<S>,
    org: &str,
    ws: &str,
    needs: &Needs<'_>,
    retention: KeepCount,
    workspace: &WorkspaceCells,
) -> Result<Surroundings, Error>
    ensures unchanged { Sees S.Store (Equals (around_in (needed_of needs.now) org.now ws.now retention workspace.now)) conn.old conn.new result }
{
    let newest = newest(conn, org, ws, needs.newest, needs.text)?;
    let outgoing = outgoing(
        conn,
        org,
        ws,
        needs.outgoing,
        retention,
        workspace.next_version,
    )?;
    let asked_version = asked_version(conn, org, ws, needs.version)?;
    let runs = runs_around(conn, org, ws, needs, &workspace.holder)?;
    Ok(Surroundings {
        newest,
        outgoing,
        asked_version,
        runs,
    })
}

fn unit_by(retention: KeepCount, workspace: WorkspaceCells, around: Surroundings) -> UnitRead
    ensures { result ≡ unit_from retention workspace around }
{
    let runs = around.runs;
    let has_version = around.asked_version.is_some();
    let size = size_by(&around.newest, around.asked_version);
    let unit = WorkspaceUnit {
        settings: Settings {
            runs: workspace.runs,
            retention,
        },
        holder: workspace.holder,
        holder_status: runs.holder_status,
        released: workspace.released,
        next_version: workspace.next_version,
        next_run: workspace.next_run,
        newest: newest_alone(around.newest),
        outgoing: around.outgoing,
        first_waiting: runs.first_waiting,
        has_version,
        asked_run: runs.asked_run,
        open_runs: runs.open_runs as usize,
    };
    UnitRead {
        unit: Unit::Present(unit),
        size,
    }
}

fn present<S: Alter>(
    conn: &mut Connection<S>,
    org: &str,
    ws: &str,
    needs: &Needs<'_>,
    workspace: WorkspaceCells,
) -> Result<UnitRead, Error>
    ensures unchanged { Sees S.Store (Equals (present_in (needed_of needs.now) org.now ws.now workspace)) conn.old conn.new result }
{
    let retention = retention(conn, org, ws, needs.retention)?;
    let around = around(conn, org, ws, needs, retention, &workspace)?;
    Ok(unit_by(retention, workspace, around))
}

/// The unit of a workspace for a decision with these needs, and the version that was read. The number of the
/// organization's workspaces may be known.
pub(crate) fn unit<S: Alter>(
    conn: &mut Connection<S>,
    org: &str,
    ws: &str,
    needs: &Needs<'_>,
    known: Option<u64>,
) -> Result<UnitRead, Error>
    requires idle { conn.old.in_transaction ≡ false }
    ensures ends { EndsIdle S.Store conn.old conn.new }
    ensures unchanged { ReadsCommitted (Equals (unit_read_in (needed_of needs.now) known org.now ws.now)) (state S.Store conn.old) (state S.Store conn.new) result }
{
    assert_committed(conn);
    match workspaces::find(conn, org, ws)? {
        None => absent(conn, org, needs, known),
        Some(workspace) => present(conn, org, ws, needs, workspace),
    }
}
