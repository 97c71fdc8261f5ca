//! Removes an organization with its workspaces and its tokens.
ghost use Rattle.std.specs.Prelude.{◌≡◌, nat_lt, ◌||◌};
ghost use Rattle.std.specs.List.{list_any};
ghost use Rattle.machine.specs.Removal.{is_locked};
ghost use Rattle.statements.specs.Steps.{Equals, Sees};
ghost use Rattle.tables.specs.Inner.Copies.{RelatedSteps, AreMadeBy};
ghost use Rattle.tables.specs.Inner.Removals.{is_used_in, is_kept_back, workspaces_gone, tokens_gone, all_gone_of, AreAllOf};

use crate::steps;
use basis::{Holder, Items, WsName};
use sqlite::{Alter, Connection, Error, Transaction};
use statements::rows::NamedToken;
use statements::{organizations, runs, tokens, workspaces};
use std::alloc::Global;

/// The names of an organization's workspaces, and its tokens.
#[derive(Drop)]
pub(crate) struct Possessions {
    pub names: Items<WsName>,
    pub tokens: Items<NamedToken>,
}

/// The names of the organization's workspaces, and its tokens.
pub(crate) fn read_possessions<S: Alter>(
    alloc: Global,
    conn: &mut Connection<S>,
    org: &str,
) -> Result<Possessions, Error>
    ensures { Sees S.Store (λ all. AreAllOf org.now all.names all.tokens) conn.old conn.new result }
{
    let names = workspaces::names(alloc, conn, org)?;
    let tokens = tokens::list_with_digests(alloc, conn, org)?;
    Ok(Possessions { names, tokens })
}

/// Whether a lock holds the workspace, or a run is open.
fn is_used(holder: &Holder, open_runs: u64) -> bool
    ensures { result ≡ (is_locked holder.now || nat_lt 0 open_runs) }
{
    match holder {
        Holder::Lock { .. } => true,
        Holder::Nobody => open_runs > 0,
        Holder::Run(_) => open_runs > 0,
    }
}

/// Whether a lock holds a workspace, or one of its runs is open.
fn is_in_use<S: Alter>(conn: &mut Connection<S>, org: &str, ws: &str) -> Result<bool, Error>
    ensures unchanged { Sees S.Store (Equals (is_used_in org.now ws.now)) conn.old conn.new result }
{
    match workspaces::find(conn, org, ws)? {
        None => Ok(false),
        Some(workspace) => {
            let open_runs = runs::count_open(conn, org, ws)?;
            Ok(is_used(&workspace.holder, open_runs))
        }
    }
}

/// Whether one of these workspaces is in use.
fn is_one_in_use<S: Alter>(
    conn: &mut Connection<S>,
    org: &str,
    names: &[WsName],
) -> Result<bool, Error>
    ensures unchanged { Sees S.Store (Equals (λ t. list_any (λ ws. is_used_in org.now ws t) names.now)) conn.old conn.new result }
{
    'workspaces: for name in names {
        if is_in_use(conn, org, name.as_str())? {
            return Ok(true);
        }
    }
    Ok(false)
}

/// Whether one of these workspaces prevents the organization's removal. If the removal is forced, none is
/// read.
pub(crate) fn is_kept_back<S: Alter>(
    conn: &mut Connection<S>,
    org: &str,
    is_forced: bool,
    names: &[WsName],
) -> Result<bool, Error>
    ensures unchanged { Sees S.Store (Equals (is_kept_back org.now is_forced names.now)) conn.old conn.new result }
{
    if is_forced {
        Ok(false)
    } else {
        is_one_in_use(conn, org, names)
    }
}

/// Removes workspaces, one after the other.
fn remove_workspaces<S: Alter>(
    tx: &mut Transaction<'_, S>,
    org: &str,
    names: &[WsName],
) -> Result<(), Error>
    ensures { RelatedSteps S.Store (AreMadeBy (workspaces_gone org.now names.now)) tx.old tx.new result }
{
    'workspaces: for name in names {
        steps::remove(tx, org, name.as_str())?;
    }
    Ok(())
}

/// Removes tokens, one after the other.
fn remove_tokens<S: Alter>(
    tx: &mut Transaction<'_, S>,
    org: &str,
    list: &[NamedToken],
) -> Result<(), Error>
    ensures { RelatedSteps S.Store (AreMadeBy (tokens_gone org.now list.now)) tx.old tx.new result }
{
    'tokens: for token in list {
        tokens::remove(tx, org, token.name.as_str())?;
    }
    Ok(())
}

/// Removes an organization that has exactly these workspaces and tokens.
pub(crate) fn leave<S: Alter>(
    tx: &mut Transaction<'_, S>,
    org: &str,
    names: &[WsName],
    list: &[NamedToken],
) -> Result<(), Error>
    ensures { RelatedSteps S.Store (AreMadeBy (all_gone_of org.now names.now list.now)) tx.old tx.new result }
{
    remove_workspaces(tx, org, names)?;
    remove_tokens(tx, org, list)?;
    organizations::remove(tx, org)
}
