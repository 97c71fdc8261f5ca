//! Statements on the table org.
ghost use Rattle.statements.specs.Steps.{AnyRows, Equals, EqualsWhere, Writes, Queries};
ghost use Rattle.statements.specs.Changes.{org_row_added, org_row_removed, org_capped};
ghost use Rattle.statements.specs.Listings.{organizations_in, OrgsApart};
ghost use Rattle.statements.specs.Finds.{cap_of};

use crate::calls::{all_rows, first_row, read_all, read_one, write};
use crate::rows::Organization;
use basis::{Items, Limit};
use sqlite::{Alter, Connection, Error, Transaction, params};
use std::alloc::Global;

const ORG_CAP: &str = "SELECT cap FROM org WHERE name = ?1 ORDER BY rowid";

/// The greatest number of workspaces of an organization; none if there is no organization with this name.
pub fn cap<S: Alter>(conn: &mut Connection<S>, name: &str) -> Result<Option<Limit>, Error>
    ensures { Queries S.Store (Equals (cap_of name.now)) conn.old conn.new result }
{
    let row = first_row(conn, ORG_CAP, params![name]);
    read_one(row)
}

const LIST_ORGS: &str = "SELECT name, cap FROM org ORDER BY name";

/// All organizations, in the order of their names' bytes.
pub fn list<S: Alter>(alloc: Global, conn: &mut Connection<S>) -> Result<Items<Organization>, Error>
    ensures { Queries S.Store (EqualsWhere OrgsApart organizations_in) conn.old conn.new result }
{
    let rows = all_rows(conn, LIST_ORGS, &[]);
    read_all(alloc, rows)
}

const ADD_ORG: &str = "INSERT INTO org (name, cap) VALUES (?1, ?2)";

/// Adds an organization and its limit of workspaces.
pub fn add<S: Alter>(tx: &mut Transaction<'_, S>, name: &str, cap: Limit) -> Result<(), Error>
    ensures { Writes S.Store AnyRows (org_row_added name.now cap) tx.old tx.new result }
{
    let cap = cap.get();
    write(tx, ADD_ORG, params![name, cap])
}

const SET_CAP: &str = "UPDATE org SET cap = ?2 WHERE name = ?1";

/// Sets an organization's limit of workspaces.
pub fn set_cap<S: Alter>(tx: &mut Transaction<'_, S>, name: &str, cap: Limit) -> Result<(), Error>
    ensures { Writes S.Store AnyRows (org_capped name.now cap) tx.old tx.new result }
{
    let cap = cap.get();
    write(tx, SET_CAP, params![name, cap])
}

const REMOVE_ORG: &str = "DELETE FROM org WHERE name = ?1";

/// Removes the row of an organization. Everything in the organization has to be removed first.
pub fn remove<S: Alter>(tx: &mut Transaction<'_, S>, name: &str) -> Result<(), Error>
    ensures { Writes S.Store AnyRows (org_row_removed name.now) tx.old tx.new result }
{
    write(tx, REMOVE_ORG, params![name])
}
