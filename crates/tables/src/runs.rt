//! Runs of a workspace, read from the tables.
ghost use Rattle.std.specs.Prelude.{cond, option_copied};
ghost use Rattle.statements.specs.Finds.{first_waiting_of, open_runs_of};
ghost use Rattle.statements.specs.Steps.{Equals, Sees};
ghost use Rattle.machine.specs.Needs.{needed_of};
ghost use Rattle.machine.specs.Units.{if_needed};
ghost use Rattle.tables.specs.Inner.Units.{holder_status_in, keyed_run_in, asked_run_in};
ghost use Rattle.tables.specs.Inner.Points.{runs_in};

use basis::{Holder, Number, RunRow, RunStatus, Text};
use machine::Needs;
use sqlite::{Alter, Connection, Error};
use statements::runs;

/// What a decision needs of the runs of a workspace.
#[derive(Drop)]
pub(crate) struct RunsAround {
    pub(crate) holder_status: Option<RunStatus>,
    pub(crate) first_waiting: Option<Number>,
    pub(crate) asked_run: Option<RunRow>,
    pub(crate) open_runs: u64,
}

/// The status of the holding run, if it is needed.
fn holder_status<S: Alter>(
    conn: &mut Connection<S>,
    org: &str,
    ws: &str,
    needed: bool,
    holder: &Holder,
) -> Result<Option<RunStatus>, Error>
    ensures unchanged { Sees S.Store (Equals (λ t. if_needed needed (holder_status_in org.now ws.now holder.now t))) conn.old conn.new result }
{
    if !needed {
        return Ok(None);
    }
    match holder {
        Holder::Nobody => Ok(None),
        Holder::Lock { .. } => Ok(None),
        Holder::Run(run) => runs::status(conn, org, ws, *run),
    }
}

/// The run with this key, if a key is given.
fn keyed_run<S: Alter>(
    conn: &mut Connection<S>,
    org: &str,
    ws: &str,
    key: Option<&Text>,
) -> Result<Option<RunRow>, Error>
    ensures unchanged { Sees S.Store (Equals (keyed_run_in (option_copied key.entry) org.now ws.now)) conn.old conn.new result }
{
    match key {
        None => Ok(None),
        Some(key) => runs::find_by_key(conn, org, ws, key.as_str()),
    }
}

/// The run with this number, or, if none is given, the run with this key.
fn asked_run<S: Alter>(
    conn: &mut Connection<S>,
    org: &str,
    ws: &str,
    number: Option<Number>,
    key: Option<&Text>,
) -> Result<Option<RunRow>, Error>
    ensures unchanged { Sees S.Store (Equals (asked_run_in number (option_copied key.entry) org.now ws.now)) conn.old conn.new result }
{
    match number {
        None => keyed_run(conn, org, ws, key),
        Some(number) => runs::find(conn, org, ws, number),
    }
}

/// The number of the first waiting run, if it is needed.
fn first_waiting_if<S: Alter>(
    conn: &mut Connection<S>,
    org: &str,
    ws: &str,
    needed: bool,
) -> Result<Option<Number>, Error>
    ensures unchanged { Sees S.Store (Equals (λ t. if_needed needed (first_waiting_of org.now ws.now t))) conn.old conn.new result }
{
    if needed {
        runs::first_waiting(conn, org, ws)
    } else {
        Ok(None)
    }
}

/// The number of open runs, if it is needed.
fn open_runs_if<S: Alter>(
    conn: &mut Connection<S>,
    org: &str,
    ws: &str,
    needed: bool,
) -> Result<u64, Error>
    ensures unchanged { Sees S.Store (Equals (λ t. cond needed (open_runs_of org.now ws.now t) 0)) conn.old conn.new result }
{
    if needed {
        runs::count_open(conn, org, ws)
    } else {
        Ok(0)
    }
}

/// What a decision needs of the runs of a workspace.
pub(crate) fn runs_around<S: Alter>(
    conn: &mut Connection<S>,
    org: &str,
    ws: &str,
    needs: &Needs<'_>,
    holder: &Holder,
) -> Result<RunsAround, Error>
    ensures unchanged { Sees S.Store (Equals (runs_in (needed_of needs.now) org.now ws.now holder.now)) conn.old conn.new result }
{
    let holder_status = holder_status(conn, org, ws, needs.holder_status, holder)?;
    let first_waiting = first_waiting_if(conn, org, ws, needs.waiting)?;
    let asked_run = asked_run(conn, org, ws, needs.run, needs.key)?;
    let open_runs = open_runs_if(conn, org, ws, needs.open_runs)?;
    Ok(RunsAround {
        holder_status,
        first_waiting,
        asked_run,
        open_runs,
    })
}
