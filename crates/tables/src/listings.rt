//! The lists that are read from the tables, outside a transaction.
ghost use Rattle.std.specs.Prelude.{◌≡◌, false, None, List, [], ◌∷◌, ◌++◌, map, IfOk, OnOk};
ghost use Rattle.sqlite.specs.Held.{state};
ghost use Rattle.basis.specs.Listings.{listing_of};
ghost use Rattle.machine.specs.Showing.{holder_id};
ghost use Rattle.statements.specs.Steps.{Equals, EqualsWhere, Sees};
ghost use Rattle.statements.specs.Listings.{OrgsApart, BoundedTokensApart, WorkspacesApart, VersionsApart, RunsApart};
ghost use Rattle.tables.specs.Inner.Lists.{versions_listed_in, runs_listed_in, newest_number_in, newest_by, newest_shown_in, ws_row_in, workspaces_listed_in, token_row_of, tokens_listed_in, token_list_answer_in, org_row_in, organizations_listed_in};
ghost use Rattle.tables.specs.Inner.Steps.{EndsIdle, ReadsCommitted};

use crate::transactions::assert_committed;
use crate::versions::kept;
use basis::rows::MAX_ITEMS;
use basis::{
    Caller, Holder, HolderId, Items, Listing, Number, RunRow, Settings, VersionRow, WsName,
    WsPrefix, WsRow,
};
use machine::{AdminAnswer, OrgRow, TokenRow};
use sqlite::{Alter, Connection, Error, ErrorCode};
use statements::rows::{BoundedRole, NamedWorkspace, Organization as OrganizationCells};
use statements::{organizations, runs, tokens, versions, workspaces};
use std::alloc::Global;

/// The number of rows to ask for: one more than a listing has, which shows whether more follow.
const ASKED_ROWS: usize = MAX_ITEMS + 1;

/// Adds an item after the others; if the listing is full, says that more follow.
fn offer<T: Drop>(list: &mut Listing<T>, item: T) -> Result<(), Error>
    ensures { OnOk result ((xs : List _) → list.old ≡ listing_of xs → list.new ≡ listing_of (xs ++ item ∷ [])) }
{
    match list.offer(item) {
        Ok(()) => Ok(()),
        Err(_) => Err(Error::SqliteFailure(ErrorCode::OutOfMemory)),
    }
}

/// The versions of a workspace with numbers greater than `after`.
pub(crate) fn list_of_versions<S: Alter>(
    conn: &mut Connection<S>,
    alloc: Global,
    org: &str,
    ws: &str,
    after: u32,
) -> Result<Listing<VersionRow>, Error>
    requires idle { conn.old.in_transaction ≡ false }
    ensures ends { EndsIdle S.Store conn.old conn.new }
    ensures unchanged { ReadsCommitted (EqualsWhere (VersionsApart org.now ws.now) (versions_listed_in after org.now ws.now)) (state S.Store conn.old) (state S.Store conn.new) result }
{
    assert_committed(conn);
    let rows = versions::list(alloc, conn, org, ws, after, ASKED_ROWS)?;
    Ok(Listing::of(rows))
}

/// The runs of a workspace with numbers greater than `after`.
pub(crate) fn list_of_runs<S: Alter>(
    conn: &mut Connection<S>,
    alloc: Global,
    org: &str,
    ws: &str,
    after: u32,
) -> Result<Listing<RunRow>, Error>
    requires idle { conn.old.in_transaction ≡ false }
    ensures ends { EndsIdle S.Store conn.old conn.new }
    ensures unchanged { ReadsCommitted (EqualsWhere (RunsApart org.now ws.now) (runs_listed_in after org.now ws.now)) (state S.Store conn.old) (state S.Store conn.new) result }
{
    assert_committed(conn);
    let rows = runs::list(alloc, conn, org, ws, after, ASKED_ROWS)?;
    Ok(Listing::of(rows))
}

/// The number of the newest version.
fn newest_number<S: Alter>(
    conn: &mut Connection<S>,
    org: &str,
    ws: &str,
) -> Result<Option<Number>, Error>
    ensures { Sees S.Store (Equals (newest_number_in org.now ws.now)) conn.old conn.new result }
{
    match versions::newest(conn, org, ws)? {
        None => Ok(None),
        Some(version) => Ok(Some(version.number)),
    }
}

/// The number of the newest version, if no version has the number before the next. It is found by a query,
/// unless no version was ever created.
fn find_newest<S: Alter>(
    conn: &mut Connection<S>,
    org: &str,
    ws: &str,
    next_version: u64,
) -> Result<Option<Number>, Error>
    ensures { Sees S.Store (Equals (λ t. newest_by None next_version (newest_number_in org.now ws.now t))) conn.old conn.new result }
{
    if next_version == 1 {
        return Ok(None);
    }
    newest_number(conn, org, ws)
}

/// The number of the newest version of a workspace.
fn newest_shown<S: Alter>(
    conn: &mut Connection<S>,
    org: &str,
    workspace: &NamedWorkspace,
) -> Result<Option<Number>, Error>
    ensures { Sees S.Store (Equals (newest_shown_in org.now workspace.now)) conn.old conn.new result }
{
    match workspace.last {
        Some(last) => Ok(Some(last)),
        None => find_newest(
            conn,
            org,
            workspace.name.as_str(),
            workspace.it.next_version,
        ),
    }
}

fn holder_id(holder: &Holder) -> Result<Option<HolderId>, Error>
    ensures { IfOk result (λ id. id ≡ holder_id holder.now) }
{
    match holder {
        Holder::Nobody => Ok(None),
        Holder::Lock { id, .. } => Ok(Some(HolderId::Lock(id.clone()?))),
        Holder::Run(run) => Ok(Some(HolderId::Run(*run))),
    }
}

fn copy_of(name: &WsName) -> Result<WsName, Error>
    ensures { IfOk result (λ copy. copy ≡ name.now) }
{
    Ok(name.clone()?)
}

/// A workspace as a list shows it.
fn ws_row<S: Alter>(
    conn: &mut Connection<S>,
    org: &str,
    workspace: &NamedWorkspace,
) -> Result<WsRow, Error>
    ensures { Sees S.Store (Equals (λ t. ws_row_in org.now t workspace.now)) conn.old conn.new result }
{
    let version = newest_shown(conn, org, workspace)?;
    let holder = holder_id(&workspace.it.holder)?;
    let name = copy_of(&workspace.name)?;
    Ok(WsRow {
        settings: Settings {
            runs: workspace.it.runs,
            retention: kept(workspace.retention),
        },
        holder,
        name,
        version,
    })
}

fn list_workspaces<S: Alter>(
    conn: &mut Connection<S>,
    alloc: Global,
    org: &str,
    workspaces: &[NamedWorkspace],
) -> Result<Listing<WsRow>, Error>
    ensures { Sees S.Store (Equals (λ t. listing_of (map (ws_row_in org.now t) workspaces.now))) conn.old conn.new result }
{
    let mut list = Listing::new(alloc);
    for workspace in workspaces {
        let row = ws_row(conn, org, workspace)?;
        offer(&mut list, row)?;
    }
    Ok(list)
}

/// The workspaces of an organization whose names start with a prefix and come after a name. All names come
/// after the empty one.
pub(crate) fn list_of_workspaces<S: Alter>(
    conn: &mut Connection<S>,
    alloc: Global,
    org: &str,
    after: &str,
    prefix: &WsPrefix,
) -> Result<Listing<WsRow>, Error>
    requires idle { conn.old.in_transaction ≡ false }
    ensures ends { EndsIdle S.Store conn.old conn.new }
    ensures unchanged { ReadsCommitted (EqualsWhere WorkspacesApart (workspaces_listed_in after.now prefix.now org.now)) (state S.Store conn.old) (state S.Store conn.new) result }
{
    assert_committed(conn);
    let rows = workspaces::list(alloc, conn, org, after, prefix, ASKED_ROWS)?;
    list_workspaces(conn, alloc, org, rows.as_slice())
}

/// An organization as an operator's list shows it.
fn org_row<S: Alter>(
    conn: &mut Connection<S>,
    organization: &OrganizationCells,
) -> Result<OrgRow, Error>
    ensures { Sees S.Store (Equals (λ t. org_row_in t organization.now)) conn.old conn.new result }
{
    let count = workspaces::count(conn, organization.name.as_str())?;
    let name = organization.name.clone()?;
    Ok(OrgRow {
        name,
        workspaces: count as usize,
        limit: organization.cap,
    })
}

/// Adds an item after the others.
fn push<T: Drop>(items: &mut Items<T>, item: T) -> Result<(), Error>
    ensures { OnOk result (items.new ≡ items.old ++ item ∷ []) }
{
    match items.push(item) {
        Ok(()) => Ok(()),
        Err(_) => Err(Error::SqliteFailure(ErrorCode::OutOfMemory)),
    }
}

fn list_organizations<S: Alter>(
    conn: &mut Connection<S>,
    alloc: Global,
    organizations: &[OrganizationCells],
) -> Result<Items<OrgRow>, Error>
    ensures { Sees S.Store (Equals (λ t. map (org_row_in t) organizations.now)) conn.old conn.new result }
{
    let mut rows = Items::new(Vec::new(alloc));
    for organization in organizations {
        let row = org_row(conn, organization)?;
        push(&mut rows, row)?;
    }
    Ok(rows)
}

/// All organizations, in the order of their names' bytes.
pub(crate) fn list_of_organizations<S: Alter>(
    conn: &mut Connection<S>,
    alloc: Global,
) -> Result<Items<OrgRow>, Error>
    requires idle { conn.old.in_transaction ≡ false }
    ensures ends { EndsIdle S.Store conn.old conn.new }
    ensures unchanged { ReadsCommitted (EqualsWhere OrgsApart organizations_listed_in) (state S.Store conn.old) (state S.Store conn.new) result }
{
    assert_committed(conn);
    let rows = organizations::list(alloc, conn)?;
    list_organizations(conn, alloc, rows.as_slice())
}

/// A token as an operator's list shows it.
fn token_row(token: &BoundedRole) -> Result<TokenRow, Error>
    ensures { IfOk result (λ row. row ≡ token_row_of token.now) }
{
    let name = token.token.name.clone()?;
    let prefix = token.bounds.prefix.clone()?;
    let caller = Caller {
        role: token.token.role,
        until: token.bounds.until,
        prefix,
    };
    Ok(TokenRow { name, caller })
}

fn token_rows(alloc: Global, tokens: &[BoundedRole]) -> Result<Items<TokenRow>, Error>
    ensures { IfOk result (λ rows. rows ≡ map token_row_of tokens.now) }
{
    let mut rows = Items::new(Vec::new(alloc));
    for token in tokens {
        let row = token_row(token)?;
        push(&mut rows, row)?;
    }
    Ok(rows)
}

/// The tokens of an organization, in the order of their names' bytes.
fn list_of_tokens<S: Alter>(
    conn: &mut Connection<S>,
    alloc: Global,
    org: &str,
) -> Result<Items<TokenRow>, Error>
    ensures { Sees S.Store (EqualsWhere BoundedTokensApart (tokens_listed_in org.now)) conn.old conn.new result }
{
    let tokens = tokens::list(alloc, conn, org)?;
    let rows = token_rows(alloc, tokens.as_slice())?;
    Ok(rows)
}

/// The answer to the list of an organization's tokens.
pub(crate) fn token_list_answer<S: Alter>(
    conn: &mut Connection<S>,
    alloc: Global,
    org: &str,
) -> Result<AdminAnswer, Error>
    requires idle { conn.old.in_transaction ≡ false }
    ensures ends { EndsIdle S.Store conn.old conn.new }
    ensures unchanged { ReadsCommitted (EqualsWhere BoundedTokensApart (token_list_answer_in org.now)) (state S.Store conn.old) (state S.Store conn.new) result }
{
    assert_committed(conn);
    let cap = organizations::cap(conn, org)?;
    if cap.is_none() {
        return Ok(AdminAnswer::Absent);
    }
    let rows = list_of_tokens(conn, alloc, org)?;
    Ok(AdminAnswer::Tokens(rows))
}
