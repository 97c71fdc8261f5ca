//! All rows of a table at once, each with its rowid. A row with a value out of range is an error.
ghost use Rattle.std.specs.Prelude.{◌≡◌, IfOk, unsigned_abs};
ghost use Rattle.sqlite_value.specs.Order.{column, Row as SqlRow};
ghost use Rattle.sqlite_value.specs.declared.value.Value.TheVariants.{Int};
ghost use Rattle.sqlite_typed.specs.Columns.{int_of, unless_null};
ghost use Rattle.statements.specs.Calls.{IsNumberOrNull};
ghost use Rattle.statements.specs.Steps.{Equals, Queries};
ghost use Rattle.statements.specs.Rows.{kept_by, org_at, vpage_at, owned_at, token_rest, bound_rest, workspace_in_row, behind_run_settings, version_in_row, run_in_row, number_at, bytes_at, role_at, number, role_code};

use crate::calls::{Read, scan};
use crate::cells::{
    bytes_in, limit_of, optional_moment, retention_of, role_in, run_in, text_in, unsigned_in,
    version_in,
};
use crate::rows::{
    Bound, BoundRow, OrgRow, Owned, RetentionRow, RunRow, Token, TokenRow, VersionRow, VpageRow,
    Workspace, WsRow,
};
use crate::workspaces::{BEHIND_RUN_SETTINGS, workspace_in};
use basis::{Items, KeepCount, Limit, Moment, Role, Text};
use sqlite::{Alter, Connection, Error, Row};
use std::alloc::Global;

/// The rowid, from the first column.
pub fn id_in(row: &Row) -> Result<i64, Error>
    ensures is { IfOk result (λ x. x ≡ int_of (column row.now 0)) }
    ensures cell { IfOk result (λ x. column row.now 0 ≡ Int x) }
{
    row.get(0)
}

fn limit_in(row: &Row, at: usize) -> Result<Limit, Error>
    ensures is { IfOk result (λ x. x ≡ number_at row.now at) }
    ensures cell { IfOk result (λ x. column row.now at ≡ number x) }
{
    limit_of(row.get(at)?, at)
}

fn retention_in(row: &Row, at: usize) -> Result<KeepCount, Error>
    ensures is { IfOk result (λ x. x ≡ number_at row.now at) }
    ensures cell { IfOk result (λ x. column row.now at ≡ number x) }
{
    retention_of(row.get(at)?, at)
}

fn some_moment_in(row: &Row, at: usize) -> Result<Option<Moment>, Error>
    ensures is { IfOk result (λ x. x ≡ unless_null (λ v. unsigned_abs (int_of v)) (column row.now at)) }
    ensures cell { IfOk result (IsNumberOrNull (column row.now at)) }
{
    optional_moment(row, at)
}

fn role_of_row(row: &Row, at: usize) -> Result<Role, Error>
    ensures is { IfOk result (λ x. x ≡ role_at (number_at row.now at)) }
    ensures cell { IfOk result (λ x. column row.now at ≡ number (role_code x)) }
{
    role_in(row, at)
}

/// The rowid, and the columns org and name, or org and ws.
fn head_in(row: &Row) -> Result<(i64, Text, Text), Error>
    ensures { IfOk result (λ x. x ≡ (int_of (column row.now 0), bytes_at row.now 1, bytes_at row.now 2)) }
{
    Ok((id_in(row)?, text_in(row, 1)?, text_in(row, 2)?))
}

// A row of meta or edition: its rowid, and the version.
impl Read for (i64, u64) {
    ghost is_in = { λ row x. x ≡ kept_by (λ r. number_at r 1) row };

    fn of_row(row: &Row) -> Result<(i64, u64), Error> {
        Ok((id_in(row)?, unsigned_in(row, 1)?))
    }
}

impl Read for (i64, OrgRow) {
    ghost is_in = { λ row x. x ≡ kept_by org_at row };

    fn of_row(row: &Row) -> Result<(i64, OrgRow), Error> {
        let id = id_in(row)?;
        let it = OrgRow {
            cap: limit_in(row, 2)?,
            name: text_in(row, 1)?,
        };
        Ok((id, it))
    }
}

/// The columns of a row after its rowid and its names.
trait Rest: Sized + Drop {
    // the value of the columns from the third on
    ghost rest_at: { SqlRow → Self };

    fn rest_in(row: &Row) -> Result<Self, Error>
        ensures { IfOk result (λ x. x ≡ rest_at row.now) };
}

impl Rest for Token {
    ghost rest_at = { token_rest };

    fn rest_in(row: &Row) -> Result<Token, Error> {
        Ok(Token {
            role: role_of_row(row, 4)?,
            digest: bytes_in(row, 3)?,
        })
    }
}

impl Rest for Workspace {
    ghost rest_at = { λ row. workspace_in_row row behind_run_settings 3 };

    fn rest_in(row: &Row) -> Result<Workspace, Error> {
        workspace_in(row, BEHIND_RUN_SETTINGS, 3)
    }
}

impl Rest for basis::VersionRow {
    ghost rest_at = { λ row. version_in_row row 3 };

    fn rest_in(row: &Row) -> Result<basis::VersionRow, Error> {
        version_in(row, 3)
    }
}

impl Rest for basis::RunRow {
    ghost rest_at = { λ row. run_in_row row 3 };

    fn rest_in(row: &Row) -> Result<basis::RunRow, Error> {
        run_in(row, 3)
    }
}

impl Rest for Bound {
    ghost rest_at = { bound_rest };

    fn rest_in(row: &Row) -> Result<Bound, Error> {
        Ok(Bound {
            until: some_moment_in(row, 3)?,
            prefix: text_in(row, 4)?,
        })
    }
}

impl Rest for KeepCount {
    ghost rest_at = { λ row. number_at row 3 };

    fn rest_in(row: &Row) -> Result<KeepCount, Error> {
        retention_in(row, 3)
    }
}

impl<T: Rest> Read for (i64, Owned<T>) {
    ghost is_in = { λ row x. x ≡ kept_by (owned_at T.rest_at) row };

    fn of_row(row: &Row) -> Result<(i64, Owned<T>), Error> {
        let it = T::rest_in(row)?;
        let (id, org, name) = head_in(row)?;
        Ok((id, Owned { org, name, it }))
    }
}

impl Read for (i64, VpageRow) {
    ghost is_in = { λ row x. x ≡ kept_by vpage_at row };

    fn of_row(row: &Row) -> Result<(i64, VpageRow), Error> {
        let number = unsigned_in(row, 3)?;
        let place = unsigned_in(row, 4)?;
        let twin = unsigned_in(row, 6)?;
        let key = bytes_in(row, 5)?;
        let (id, org, ws) = head_in(row)?;
        let it = VpageRow {
            org,
            ws,
            number,
            place,
            key,
            twin,
        };
        Ok((id, it))
    }
}

const ALL_METAS: &str = "SELECT rowid, version FROM meta ORDER BY rowid";

/// All rows of meta, in the order of their rowids: each has the number of a version.
pub fn metas<S: Alter>(alloc: Global, conn: &mut Connection<S>) -> Result<Items<(i64, u64)>, Error>
    ensures { Queries S.Store (Equals (λ t. t.metas)) conn.old conn.new result }
{
    scan(alloc, conn, ALL_METAS)
}

const ALL_ORGS: &str = "SELECT rowid, name, cap FROM org ORDER BY rowid";

/// All rows of org, in the order of their rowids.
pub fn orgs<S: Alter>(
    alloc: Global,
    conn: &mut Connection<S>,
) -> Result<Items<(i64, OrgRow)>, Error>
    ensures { Queries S.Store (Equals (λ t. t.orgs)) conn.old conn.new result }
{
    scan(alloc, conn, ALL_ORGS)
}

const ALL_TOKENS: &str = "SELECT rowid, org, name, digest, role FROM token ORDER BY rowid";

/// All rows of token, in the order of their rowids.
pub fn tokens<S: Alter>(
    alloc: Global,
    conn: &mut Connection<S>,
) -> Result<Items<(i64, TokenRow)>, Error>
    ensures { Queries S.Store (Equals (λ t. t.tokens)) conn.old conn.new result }
{
    scan(alloc, conn, ALL_TOKENS)
}

const ALL_WSS: &str =
    "SELECT rowid, org, name, auto, kind, lock_id, lock_text, run, released, next_version, next_run FROM ws ORDER BY rowid";

/// All rows of ws, in the order of their rowids.
pub fn wss<S: Alter>(alloc: Global, conn: &mut Connection<S>) -> Result<Items<(i64, WsRow)>, Error>
    ensures { Queries S.Store (Equals (λ t. t.wss)) conn.old conn.new result }
{
    scan(alloc, conn, ALL_WSS)
}

const ALL_VERSIONS: &str =
    "SELECT rowid, org, ws, number, serial, lineage, created, size FROM version ORDER BY rowid";

/// All rows of version, in the order of their rowids.
pub fn versions<S: Alter>(
    alloc: Global,
    conn: &mut Connection<S>,
) -> Result<Items<(i64, VersionRow)>, Error>
    ensures { Queries S.Store (Equals (λ t. t.versions)) conn.old conn.new result }
{
    scan(alloc, conn, ALL_VERSIONS)
}

const ALL_RUNS: &str =
    "SELECT rowid, org, ws, number, plan_only, rkey, message, created, status, action FROM run ORDER BY rowid";

/// All rows of run, in the order of their rowids.
pub fn runs<S: Alter>(
    alloc: Global,
    conn: &mut Connection<S>,
) -> Result<Items<(i64, RunRow)>, Error>
    ensures { Queries S.Store (Equals (λ t. t.runs)) conn.old conn.new result }
{
    scan(alloc, conn, ALL_RUNS)
}

const ALL_BOUNDS: &str = "SELECT rowid, org, name, until, prefix FROM bound ORDER BY rowid";

/// All rows of bound, in the order of their rowids.
pub fn bounds<S: Alter>(
    alloc: Global,
    conn: &mut Connection<S>,
) -> Result<Items<(i64, BoundRow)>, Error>
    ensures { Queries S.Store (Equals (λ t. t.bounds)) conn.old conn.new result }
{
    scan(alloc, conn, ALL_BOUNDS)
}

const ALL_EDITIONS: &str = "SELECT rowid, version FROM edition ORDER BY rowid";

/// All rows of edition, in the order of their rowids: each has the number of a version.
pub fn editions<S: Alter>(
    alloc: Global,
    conn: &mut Connection<S>,
) -> Result<Items<(i64, u64)>, Error>
    ensures { Queries S.Store (Equals (λ t. t.editions)) conn.old conn.new result }
{
    scan(alloc, conn, ALL_EDITIONS)
}

const ALL_RETENTIONS: &str = "SELECT rowid, org, ws, keep FROM keeping ORDER BY rowid";

/// All rows of keeping, in the order of their rowids.
pub fn retentions<S: Alter>(
    alloc: Global,
    conn: &mut Connection<S>,
) -> Result<Items<(i64, RetentionRow)>, Error>
    ensures { Queries S.Store (Equals (λ t. t.retentions)) conn.old conn.new result }
{
    scan(alloc, conn, ALL_RETENTIONS)
}
