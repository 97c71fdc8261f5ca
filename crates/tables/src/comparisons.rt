//! Whether an organization is the same in two databases: read from both, part by part.
ghost use Rattle.std.specs.Prelude.{◌≡◌, false, ⊤};
ghost use Rattle.statements.specs.Steps.{Sees};
ghost use Rattle.tables.specs.Records.{version_at, workspace_by, tokens_at, workspaces_at};
ghost use Rattle.tables.specs.Inner.Comparing.{Agree, AgreeCommitted, AreAlike, AreMappedAlike, entry_of, IsSameRecord};

use crate::loading::load_workspace;
use crate::sames::{are_same, same_bounds, same_bytes, same_loaded};
use crate::transactions::assert_committed;
use basis::{VersionRow, WsName};
use sqlite::{Alter, Connection, Error};
use statements::rows::NamedToken;
use statements::{bounds, organizations, tokens, workspaces};
use std::alloc::Global;

/// Whether a version has the same text in both. It has the same columns there.
fn same_text<S: Alter>(
    alloc: Global,
    one: &mut Connection<S>,
    other: &mut Connection<S>,
    org: &str,
    ws: &str,
    head: &VersionRow,
) -> Result<bool, Error>
    ensures first { Sees S.Store (λ _ _. ⊤) one.old one.new result }
    ensures second { Sees S.Store (λ _ _. ⊤) other.old other.new result }
    ensures same { Agree S.Store (AreAlike (λ t. version_at t org.now ws.now) head.now) one.old one.new other.old other.new result }
{
    let text = texts::text(alloc, one, org, ws, head.number, head.size)?;
    let found = texts::text(alloc, other, org, ws, head.number, head.size)?;
    Ok(same_bytes(&text, &found))
}

/// Whether versions have the same texts in both.
fn same_versions<S: Alter>(
    alloc: Global,
    one: &mut Connection<S>,
    other: &mut Connection<S>,
    org: &str,
    ws: &str,
    heads: &[VersionRow],
) -> Result<bool, Error>
    ensures first { Sees S.Store (λ _ _. ⊤) one.old one.new result }
    ensures second { Sees S.Store (λ _ _. ⊤) other.old other.new result }
    ensures same { Agree S.Store (AreMappedAlike (λ t. version_at t org.now ws.now) heads.now) one.old one.new other.old other.new result }
{
    'items: for head in heads {
        if !same_text(alloc, one, other, org, ws, head)? {
            return Ok(false);
        }
    }
    Ok(true)
}

/// Whether a workspace is the same in both.
fn same_workspace<S: Alter>(
    alloc: Global,
    one: &mut Connection<S>,
    other: &mut Connection<S>,
    org: &str,
    ws: &str,
) -> Result<bool, Error>
    ensures first { Sees S.Store (λ _ _. ⊤) one.old one.new result }
    ensures second { Sees S.Store (λ _ _. ⊤) other.old other.new result }
    ensures same { Agree S.Store (AreAlike (λ t. workspace_by t org.now) ws.now) one.old one.new other.old other.new result }
{
    let loaded = load_workspace(alloc, one, org, ws)?;
    let found = load_workspace(alloc, other, org, ws)?;
    if !same_loaded(&loaded, &found) {
        return Ok(false);
    }
    same_versions(alloc, one, other, org, ws, loaded.versions.as_slice())
}

/// Whether the workspaces of these names are the same in both.
fn same_workspaces<S: Alter>(
    alloc: Global,
    one: &mut Connection<S>,
    other: &mut Connection<S>,
    org: &str,
    names: &[WsName],
) -> Result<bool, Error>
    ensures first { Sees S.Store (λ _ _. ⊤) one.old one.new result }
    ensures second { Sees S.Store (λ _ _. ⊤) other.old other.new result }
    ensures same { Agree S.Store (AreMappedAlike (λ t. workspace_by t org.now) names.now) one.old one.new other.old other.new result }
{
    'items: for name in names {
        if !same_workspace(alloc, one, other, org, name.as_str())? {
            return Ok(false);
        }
    }
    Ok(true)
}

/// Whether a token has the same expiry and prefix in both.
fn same_token<S: Alter>(
    one: &mut Connection<S>,
    other: &mut Connection<S>,
    org: &str,
    token: &NamedToken,
) -> Result<bool, Error>
    ensures first { Sees S.Store (λ _ _. ⊤) one.old one.new result }
    ensures second { Sees S.Store (λ _ _. ⊤) other.old other.new result }
    ensures same { Agree S.Store (AreAlike (entry_of org.now) token.now) one.old one.new other.old other.new result }
{
    let name = token.name.as_str();
    let reach = bounds::find(one, org, name)?;
    let found = bounds::find(other, org, name)?;
    Ok(same_bounds(&reach, &found))
}

fn same_tokens<S: Alter>(
    one: &mut Connection<S>,
    other: &mut Connection<S>,
    org: &str,
    list: &[NamedToken],
) -> Result<bool, Error>
    ensures first { Sees S.Store (λ _ _. ⊤) one.old one.new result }
    ensures second { Sees S.Store (λ _ _. ⊤) other.old other.new result }
    ensures same { Agree S.Store (AreMappedAlike (entry_of org.now) list.now) one.old one.new other.old other.new result }
{
    'items: for token in list {
        if !same_token(one, other, org, token)? {
            return Ok(false);
        }
    }
    Ok(true)
}

/// Whether an organization has the same tokens in both.
fn same_possessed_tokens<S: Alter>(
    alloc: Global,
    one: &mut Connection<S>,
    other: &mut Connection<S>,
    org: &str,
) -> Result<bool, Error>
    ensures first { Sees S.Store (λ _ _. ⊤) one.old one.new result }
    ensures second { Sees S.Store (λ _ _. ⊤) other.old other.new result }
    ensures same { Agree S.Store (AreAlike tokens_at org.now) one.old one.new other.old other.new result }
{
    let list = tokens::list_with_digests(alloc, one, org)?;
    let found = tokens::list_with_digests(alloc, other, org)?;
    if !are_same(list.as_slice(), found.as_slice()) {
        return Ok(false);
    }
    same_tokens(one, other, org, list.as_slice())
}

/// Whether an organization has the same workspaces in both.
fn same_possessed_workspaces<S: Alter>(
    alloc: Global,
    one: &mut Connection<S>,
    other: &mut Connection<S>,
    org: &str,
) -> Result<bool, Error>
    ensures first { Sees S.Store (λ _ _. ⊤) one.old one.new result }
    ensures second { Sees S.Store (λ _ _. ⊤) other.old other.new result }
    ensures same { Agree S.Store (AreAlike workspaces_at org.now) one.old one.new other.old other.new result }
{
    let names = workspaces::names(alloc, one, org)?;
    let found = workspaces::names(alloc, other, org)?;
    if !are_same(names.as_slice(), found.as_slice()) {
        return Ok(false);
    }
    same_workspaces(alloc, one, other, org, names.as_slice())
}

/// Whether an organization has the same tokens and workspaces in both.
fn same_possessions<S: Alter>(
    alloc: Global,
    one: &mut Connection<S>,
    other: &mut Connection<S>,
    org: &str,
) -> Result<bool, Error>
    ensures first { Sees S.Store (λ _ _. ⊤) one.old one.new result }
    ensures second { Sees S.Store (λ _ _. ⊤) other.old other.new result }
    ensures same { Agree S.Store (λ f t. AreAlike tokens_at org.now f t × AreAlike workspaces_at org.now f t) one.old one.new other.old other.new result }
{
    if !same_possessed_tokens(alloc, one, other, org)? {
        return Ok(false);
    }
    same_possessed_workspaces(alloc, one, other, org)
}

/// Whether an organization is the same in both databases. It need not be in either.
pub(crate) fn same_organization<S: Alter>(
    alloc: Global,
    one: &mut Connection<S>,
    other: &mut Connection<S>,
    org: &str,
) -> Result<bool, Error>
    requires idle { one.old.in_transaction ≡ false }
    requires other_idle { other.old.in_transaction ≡ false }
    ensures first { Sees S.Store (λ _ _. ⊤) one.old one.new result }
    ensures second { Sees S.Store (λ _ _. ⊤) other.old other.new result }
    ensures same { AgreeCommitted S.Store (IsSameRecord org.now) one.old one.new other.old other.new result }
{
    assert_committed(one);
    assert_committed(other);
    let cap = organizations::cap(one, org)?;
    let found = organizations::cap(other, org)?;
    if cap != found {
        return Ok(false);
    }
    same_possessions(alloc, one, other, org)
}
