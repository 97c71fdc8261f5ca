//! The lists of a store in memory: workspaces, versions, runs, organizations and tokens.
ghost use Rattle.std.specs.Prelude.{◌≡◌, IfOk, option_copied};
ghost use Rattle.std.specs.Prelude.{map as map_list};
ghost use Rattle.machine.specs.Showing.{comes_after, is_listed, shown_of, row_of, version_row, workspaces_listed, versions_listed, runs_listed};
ghost use Rattle.machine.specs.Tokens.{token_row, tokens_listed};
ghost use Rattle.machine.specs.Inner.Places.{org_row};

use crate::keeps::{OrgRow, TokenRow};
use crate::maps::Entry;
use crate::records::{Organization, Token, Version, Workspace};
use crate::units::number_of_newest;
use crate::workspaces::holder_id;
use basis::{Down, Items, Listing, RunRow, Text, VersionRow, WsName, WsPrefix, WsRow};
use std::alloc::Global;
use std::cmp::Ordering;

// A workspace as a list shows it.
fn workspace_row(alloc: Global, name: &str, workspace: &Workspace) -> Result<WsRow, Down>
    ensures { IfOk result (λ row. row ≡ row_of name.now (shown_of workspace.now)) }
{
    let Ok(name) = WsName::read(alloc, name) else {
        return Err(Down);
    };
    Ok(WsRow {
        settings: workspace.settings,
        holder: holder_id(&workspace.holder)?,
        name,
        version: number_of_newest(workspace.versions.as_slice()),
    })
}

fn comes_after(after: Option<&WsName>, name: &str) -> bool
    ensures { result ≡ comes_after (option_copied after.entry) name.now }
{
    match after {
        None => true,
        Some(after) => matches!(after.as_str().cmp(name), Ordering::Less),
    }
}

// Whether a list that starts after `after` and is filtered by the prefix has a workspace with this name.
fn is_listed(after: Option<&WsName>, prefix: &WsPrefix, name: &str) -> bool
    ensures { result ≡ is_listed (option_copied after.entry) prefix.now name.now }
{
    prefix.admits(name) && comes_after(after, name)
}

pub(crate) fn list_workspaces(
    alloc: Global,
    after: Option<&WsName>,
    prefix: &WsPrefix,
    entries: &[Entry<Workspace>],
) -> Result<Listing<WsRow>, Down>
    ensures { IfOk result (λ list. list ≡ workspaces_listed (option_copied after.entry) prefix.now (map_list (λ e. (e.name, e.value)) entries.now)) }
{
    let mut list = Listing::new(alloc);
    for entry in entries {
        if is_listed(after, prefix, entry.name.as_str()) {
            list.offer(workspace_row(alloc, entry.name.as_str(), &entry.value)?)?;
        }
    }
    Ok(list)
}

fn version_row(version: &Version) -> Result<VersionRow, Down>
    ensures { IfOk result (λ row. row ≡ version_row version.now) }
{
    Ok(VersionRow {
        created: version.created,
        lineage: version.lineage.clone()?,
        number: version.number,
        serial: version.serial,
        size: version.text.as_slice().len() as u64,
    })
}

pub(crate) fn list_versions(
    alloc: Global,
    after: u64,
    versions: &[Version],
) -> Result<Listing<VersionRow>, Down>
    ensures { IfOk result (λ list. list ≡ versions_listed after versions.now) }
{
    let mut list = Listing::new(alloc);
    for version in versions {
        if after < version.number.get() as u64 {
            list.offer(version_row(version)?)?;
        }
    }
    Ok(list)
}

pub(crate) fn list_runs(alloc: Global, after: u64, runs: &[RunRow]) -> Result<Listing<RunRow>, Down>
    ensures { IfOk result (λ list. list ≡ runs_listed after runs.now) }
{
    let mut list = Listing::new(alloc);
    for run in runs {
        if after < run.number.get() as u64 {
            list.offer(run.clone()?)?;
        }
    }
    Ok(list)
}

pub(crate) fn list_organizations(
    alloc: Global,
    entries: &[Entry<Organization>],
) -> Result<Items<OrgRow>, Down>
    ensures { IfOk result (λ rows. rows ≡ map_list (λ e. org_row e.name e.value) entries.now) }
{
    let mut rows = Items::new(Vec::new(alloc));
    for entry in entries {
        rows.push(OrgRow {
            name: entry.name.clone()?,
            workspaces: entry.value.workspaces.entries().len(),
            limit: entry.value.limit,
        })?;
    }
    Ok(rows)
}

pub(crate) fn list_tokens(alloc: Global, entries: &[Entry<Token>]) -> Result<Items<TokenRow>, Down>
    ensures { IfOk result (λ rows. rows ≡ tokens_listed (map_list (λ e. (e.name, e.value)) entries.now)) }
{
    let mut rows = Items::new(Vec::new(alloc));
    for entry in entries {
        rows.push(token_row(&entry.name, &entry.value)?)?;
    }
    Ok(rows)
}

// A token's name and its caller.
pub(crate) fn token_row(name: &Text, token: &Token) -> Result<TokenRow, Down>
    ensures { IfOk result (λ row. row ≡ token_row name.now token.now) }
{
    Ok(TokenRow {
        name: name.clone()?,
        caller: token.caller.clone()?,
    })
}
