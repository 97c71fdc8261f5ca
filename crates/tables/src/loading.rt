//! Reads a workspace, without the texts of its versions.
ghost use Rattle.statements.specs.Steps.{Sees};
ghost use Rattle.tables.specs.Sound.{IsSound};
ghost use Rattle.tables.specs.Inner.Copies.{IsWhole};

use basis::numbers::{MAX_KEPT, MAX_NUMBER};
use basis::{Items, KeepCount, RunRow, VersionRow};
use sqlite::{Alter, Connection, Error};
use statements::rows::Workspace;
use statements::{retentions, runs, versions, workspaces};
use std::alloc::Global;

/// The greatest number of versions of a workspace.
const MOST_VERSIONS: usize = MAX_KEPT as usize;

/// The greatest number of runs of a workspace: each has its own number.
const MOST_RUNS: usize = MAX_NUMBER as usize;

/// A workspace without the texts of its versions.
#[derive(Drop)]
pub(crate) struct LoadedWorkspace {
    pub it: Workspace,
    pub retention: KeepCount,
    pub versions: Items<VersionRow>,
    pub runs: Items<RunRow>,
}

/// Reads a workspace of an organization. Fails if there is none with this name.
pub(crate) fn load_workspace<S: Alter>(
    alloc: Global,
    conn: &mut Connection<S>,
    org: &str,
    ws: &str,
) -> Result<LoadedWorkspace, Error>
    ensures { Sees S.Store (λ whole f. IsSound f → IsWhole org.now ws.now f whole.it whole.retention whole.versions whole.runs) conn.old conn.new result }
{
    let Some(it) = workspaces::find(conn, org, ws)? else {
        return Err(Error::QueryReturnedNoRows);
    };
    let Some(retention) = retentions::find(conn, org, ws)? else {
        return Err(Error::QueryReturnedNoRows);
    };
    let versions = versions::list(alloc, conn, org, ws, 0, MOST_VERSIONS)?;
    let runs = runs::list(alloc, conn, org, ws, 0, MOST_RUNS)?;
    Ok(LoadedWorkspace {
        it,
        retention,
        versions,
        runs,
    })
}
