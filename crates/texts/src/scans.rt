//! All rows of vpage at once, each with its rowid.
ghost use Rattle.statements.specs.Steps.{Equals, Queries};

use basis::Items;
use sqlite::{Alter, Connection, Error};
use statements::VpageRow;
use statements::calls::scan;
use std::alloc::Global;

const ALL_PLACES: &str =
    "SELECT rowid, org, ws, number, place, pkey, twin FROM vpage ORDER BY rowid";

/// All rows of vpage, in the order of their rowids.
pub fn vpages<S: Alter>(
    alloc: Global,
    conn: &mut Connection<S>,
) -> Result<Items<(i64, VpageRow)>, Error>
    ensures { Queries S.Store (Equals (λ t. t.vpages)) conn.old conn.new result }
{
    scan(alloc, conn, ALL_PLACES)
}
