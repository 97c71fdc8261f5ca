//! The rows of all tables, read one table after the other.
ghost use Rattle.std.specs.Prelude.{◌≡◌, false, map, IsTrue, OnOk};
ghost use Rattle.sqlite.specs.Held.{state};
ghost use Rattle.sqlite.specs.State.{HasCleanDisk};
ghost use Rattle.pages.specs.Heads.{head_in};
ghost use Rattle.statements.specs.Steps.{Sees};
ghost use Rattle.tables.specs.Scans.{AreRowsOf};
ghost use Rattle.tables.specs.Inner.Scans.{no_rows, with_first, with_workspaces, with_others};
ghost use Rattle.tables.specs.Inner.Steps.{EndsIdle, ReadsCommitted};

use crate::transactions::assert_committed;
use basis::Items;
use pages::PageKey;
use sqlite::{Alter, Connection, Error};
use statements::rows::Rows;
use statements::scans;
use std::alloc::Global;

fn no_rows(alloc: Global) -> Rows
    ensures { result ≡ no_rows }
{
    Rows {
        metas: Items::new(Vec::new(alloc)),
        orgs: Items::new(Vec::new(alloc)),
        tokens: Items::new(Vec::new(alloc)),
        wss: Items::new(Vec::new(alloc)),
        versions: Items::new(Vec::new(alloc)),
        runs: Items::new(Vec::new(alloc)),
        pages: Items::new(Vec::new(alloc)),
        vpages: Items::new(Vec::new(alloc)),
        bounds: Items::new(Vec::new(alloc)),
        editions: Items::new(Vec::new(alloc)),
        retentions: Items::new(Vec::new(alloc)),
    }
}

fn read_metas<S: Alter>(
    conn: &mut Connection<S>,
    alloc: Global,
    rows: &mut Rows,
) -> Result<(), Error>
    ensures { Sees S.Store (λ _ t. rows.new ≡ record rows.old { metas = t.metas }) conn.old conn.new result }
{
    rows.metas = scans::metas(alloc, conn)?;
    Ok(())
}

fn read_editions<S: Alter>(
    conn: &mut Connection<S>,
    alloc: Global,
    rows: &mut Rows,
) -> Result<(), Error>
    ensures { Sees S.Store (λ _ t. rows.new ≡ record rows.old { editions = t.editions }) conn.old conn.new result }
{
    rows.editions = scans::editions(alloc, conn)?;
    Ok(())
}

fn read_orgs<S: Alter>(
    conn: &mut Connection<S>,
    alloc: Global,
    rows: &mut Rows,
) -> Result<(), Error>
    ensures { Sees S.Store (λ _ t. rows.new ≡ record rows.old { orgs = t.orgs }) conn.old conn.new result }
{
    rows.orgs = scans::orgs(alloc, conn)?;
    Ok(())
}

fn read_tokens<S: Alter>(
    conn: &mut Connection<S>,
    alloc: Global,
    rows: &mut Rows,
) -> Result<(), Error>
    ensures { Sees S.Store (λ _ t. rows.new ≡ record rows.old { tokens = t.tokens }) conn.old conn.new result }
{
    rows.tokens = scans::tokens(alloc, conn)?;
    Ok(())
}

fn read_bounds<S: Alter>(
    conn: &mut Connection<S>,
    alloc: Global,
    rows: &mut Rows,
) -> Result<(), Error>
    ensures { Sees S.Store (λ _ t. rows.new ≡ record rows.old { bounds = t.bounds }) conn.old conn.new result }
{
    rows.bounds = scans::bounds(alloc, conn)?;
    Ok(())
}

fn read_wss<S: Alter>(conn: &mut Connection<S>, alloc: Global, rows: &mut Rows) -> Result<(), Error>
    ensures { Sees S.Store (λ _ t. rows.new ≡ record rows.old { wss = t.wss }) conn.old conn.new result }
{
    rows.wss = scans::wss(alloc, conn)?;
    Ok(())
}

fn read_retentions<S: Alter>(
    conn: &mut Connection<S>,
    alloc: Global,
    rows: &mut Rows,
) -> Result<(), Error>
    ensures { Sees S.Store (λ _ t. rows.new ≡ record rows.old { retentions = t.retentions }) conn.old conn.new result }
{
    rows.retentions = scans::retentions(alloc, conn)?;
    Ok(())
}

fn read_versions<S: Alter>(
    conn: &mut Connection<S>,
    alloc: Global,
    rows: &mut Rows,
) -> Result<(), Error>
    ensures { Sees S.Store (λ _ t. rows.new ≡ record rows.old { versions = t.versions }) conn.old conn.new result }
{
    rows.versions = scans::versions(alloc, conn)?;
    Ok(())
}

fn read_runs<S: Alter>(
    conn: &mut Connection<S>,
    alloc: Global,
    rows: &mut Rows,
) -> Result<(), Error>
    ensures sees { Sees S.Store (λ _ t. rows.new ≡ record rows.old { runs = t.runs }) conn.old conn.new result }
    ensures is_open { HasCleanDisk (state S.Store conn.new) → OnOk result (IsTrue (state S.Store conn.new).is_open) }
{
    rows.runs = scans::runs(alloc, conn)?;
    Ok(())
}

fn read_vpages<S: Alter>(
    conn: &mut Connection<S>,
    alloc: Global,
    rows: &mut Rows,
) -> Result<(), Error>
    ensures { Sees S.Store (λ _ t. rows.new ≡ record rows.old { vpages = t.vpages }) conn.old conn.new result }
{
    rows.vpages = texts::vpages(alloc, conn)?;
    Ok(())
}

fn read_heads<S: Alter, K: PageKey>(
    conn: &mut Connection<S>,
    alloc: Global,
    rows: &mut Rows,
) -> Result<(), Error>
    ensures { Sees S.Store (λ _ t. rows.new ≡ record rows.old { pages = map (head_in K.key_of t) t.pages }) conn.old conn.new result }
{
    rows.pages = pages::heads::<S, K>(alloc, conn)?;
    Ok(())
}

// Meta, edition, organizations and tokens.
fn read_first<S: Alter>(
    conn: &mut Connection<S>,
    alloc: Global,
    rows: &mut Rows,
) -> Result<(), Error>
    ensures { Sees S.Store (λ _ t. rows.new ≡ with_first t rows.old) conn.old conn.new result }
{
    read_metas(conn, alloc, rows)?;
    read_editions(conn, alloc, rows)?;
    read_orgs(conn, alloc, rows)?;
    read_tokens(conn, alloc, rows)
}

// The bounds of tokens, workspaces, the numbers of versions that they keep, and versions.
fn read_workspaces<S: Alter>(
    conn: &mut Connection<S>,
    alloc: Global,
    rows: &mut Rows,
) -> Result<(), Error>
    ensures { Sees S.Store (λ _ t. rows.new ≡ with_workspaces t rows.old) conn.old conn.new result }
{
    read_bounds(conn, alloc, rows)?;
    read_wss(conn, alloc, rows)?;
    read_retentions(conn, alloc, rows)?;
    read_versions(conn, alloc, rows)
}

// Pages, places of texts, and runs.
fn read_others<S: Alter, K: PageKey>(
    conn: &mut Connection<S>,
    alloc: Global,
    rows: &mut Rows,
) -> Result<(), Error>
    ensures sees { Sees S.Store (λ _ t. rows.new ≡ with_others K.key_of t rows.old) conn.old conn.new result }
    ensures is_open { HasCleanDisk (state S.Store conn.new) → OnOk result (IsTrue (state S.Store conn.new).is_open) }
{
    read_heads::<S, K>(conn, alloc, rows)?;
    read_vpages(conn, alloc, rows)?;
    read_runs(conn, alloc, rows)
}

fn read_all<S: Alter, K: PageKey>(
    conn: &mut Connection<S>,
    alloc: Global,
    rows: &mut Rows,
) -> Result<(), Error>
    ensures sees { Sees S.Store (λ _ t. AreRowsOf K.key_of t rows.new) conn.old conn.new result }
    ensures is_open { HasCleanDisk (state S.Store conn.new) → OnOk result (IsTrue (state S.Store conn.new).is_open) }
{
    read_first(conn, alloc, rows)?;
    read_workspaces(conn, alloc, rows)?;
    read_others::<S, K>(conn, alloc, rows)
}

/// The rows of all tables; of pages, their heads.
pub(crate) fn scan<S: Alter, K: PageKey>(
    conn: &mut Connection<S>,
    alloc: Global,
) -> Result<Rows, Error>
    requires idle { conn.old.in_transaction ≡ false }
    ensures ends { EndsIdle S.Store conn.old conn.new }
    ensures unchanged { ReadsCommitted (λ rows t. AreRowsOf K.key_of t rows) (state S.Store conn.old) (state S.Store conn.new) result }
{
    assert_committed(conn);
    let mut rows = no_rows(alloc);
    read_all::<S, K>(conn, alloc, &mut rows)?;
    Ok(rows)
}
