//! The caller that a token identifies, and the bounds of the token, read from the tables.
ghost use Rattle.std.specs.Prelude.{◌≡◌, false, OnOk};
ghost use Rattle.sqlite.specs.Held.{state};
ghost use Rattle.sqlite.specs.State.{HasCleanDisk};
ghost use Rattle.statements.specs.Steps.{Equals};
ghost use Rattle.statements.specs.Tables.{Tables, Holds};
ghost use Rattle.tables.specs.Records.{caller_with, IsBound};
ghost use Rattle.tables.specs.Inner.Lists.{asker_in};
ghost use Rattle.tables.specs.Inner.Steps.{EndsIdle, ReadsCommitted};

use crate::transactions::assert_committed;
use basis::{Bounds, Caller, Role};
use machine::TokenRow;
use sqlite::{Alter, Connection, Error};
use statements::tokens;

fn caller_with(role: Role, bounds: Bounds) -> Caller
    ensures { result ≡ caller_with role bounds }
{
    Caller {
        role,
        until: bounds.until,
        prefix: bounds.prefix,
    }
}

/// The caller and the name of the organization's token with this digest. Fails if the token has no row of
/// bound.
pub(crate) fn caller<S: Alter>(
    conn: &mut Connection<S>,
    org: &str,
    digest: &[u8],
) -> Result<Option<TokenRow>, Error>
    requires idle { conn.old.in_transaction ≡ false }
    ensures ends { EndsIdle S.Store conn.old conn.new }
    ensures unchanged { ReadsCommitted (Equals (asker_in org.now digest.now)) (state S.Store conn.old) (state S.Store conn.new) result }
    ensures bound { HasCleanDisk (state S.Store conn.new) → OnOk result ((t : Tables) → Holds (state S.Store conn.old).now t → IsBound org.now digest.now t) }
{
    assert_committed(conn);
    match tokens::find_by_digest(conn, org, digest)? {
        None => Ok(None),
        Some(found) => {
            let name = found.token.name;
            let caller = caller_with(found.token.role, found.bounds);
            Ok(Some(TokenRow { name, caller }))
        }
    }
}
