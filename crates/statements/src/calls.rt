//! How statements are run, and how the rows that queries return are read.
ghost use Rattle.std.specs.Prelude.{◌≡◌, false, ◌^◌, ◌<◌, pos, IsTrue, IfOk};
ghost use Rattle.std.specs.List.{AllZip};
ghost use Rattle.sqlite_value.specs.Order.{Row as SqlRow};
ghost use Rattle.sqlite.specs.Values.{bound};
ghost use Rattle.sqlite.specs.Held.{state};
ghost use Rattle.sqlite.specs.State.{HasCleanDisk, Survives, Shown};
ghost use Rattle.statements.specs.Steps.{Queries};
ghost use Rattle.statements.specs.Calls.{Wrote, WroteAny, IsQuery, FirstRow, FirstRows, IsCalm, AreAllRead, IsRead, IsOnly, AreRead, IsCount};

use basis::Items;
use sqlite::types::ValueRef;
use sqlite::{Alter, Connection, Error, Row, Transaction};
use std::alloc::Global;

/// Runs a write in a transaction.
pub fn write<S: Alter>(
    tx: &mut Transaction<'_, S>,
    sql: &str,
    params: &[ValueRef<'_>],
) -> Result<(), Error>
    ensures same_reference { tx.new.conn.ghost_name ≡ tx.old.conn.ghost_name }
    ensures runs { HasCleanDisk (state S.Store tx.new.conn.now) → IsTrue (state S.Store tx.old.conn.now).in_transaction → Wrote sql.now (bound params.now) (state S.Store tx.old.conn.now) (state S.Store tx.new.conn.now) result }
    ensures survives { Survives (state S.Store tx.old.conn.now) (state S.Store tx.new.conn.now) (λ _. ⊥) }
{
    tx.execute(sql, params)?;
    Ok(())
}

/// Runs a write in a transaction. Returns whether it wrote any rows.
pub fn update<S: Alter>(
    tx: &mut Transaction<'_, S>,
    sql: &str,
    params: &[ValueRef<'_>],
) -> Result<bool, Error>
    ensures same_reference { tx.new.conn.ghost_name ≡ tx.old.conn.ghost_name }
    ensures runs { HasCleanDisk (state S.Store tx.new.conn.now) → IsTrue (state S.Store tx.old.conn.now).in_transaction → WroteAny sql.now (bound params.now) (state S.Store tx.old.conn.now) (state S.Store tx.new.conn.now) result }
    ensures survives { Survives (state S.Store tx.old.conn.now) (state S.Store tx.new.conn.now) (λ _. ⊥) }
{
    let count = tx.execute(sql, params)?;
    Ok(count != 0)
}

/// The first row of a query's result, or none.
pub fn first_row<S: Alter>(
    conn: &mut Connection<S>,
    sql: &str,
    params: &[ValueRef<'_>],
) -> Result<Option<Row>, Error>
    ensures mode { conn.old.in_transaction ≡ false → conn.new.in_transaction ≡ false }
    ensures row { IsQuery sql.now → HasCleanDisk (state S.Store conn.new) → IfOk result (FirstRow sql.now (bound params.now) (state S.Store conn.old) (state S.Store conn.new)) }
    ensures calm { IsQuery sql.now → HasCleanDisk (state S.Store conn.new) → IsCalm (state S.Store conn.old) (state S.Store conn.new) result }
    ensures survives { IsQuery sql.now → Survives (state S.Store conn.old) (state S.Store conn.new) (λ _. ⊥) }
{
    match conn.query_row(sql, params) {
        Ok(row) => Ok(Some(row)),
        Err(Error::QueryReturnedNoRows) => Ok(None),
        Err(error) => Err(error),
    }
}

/// The first row of a query's result inside a transaction, or none.
pub fn first_row_inside<S: Alter>(
    tx: &mut Transaction<'_, S>,
    sql: &str,
    params: &[ValueRef<'_>],
) -> Result<Option<Row>, Error>
    ensures same_reference { tx.new.conn.ghost_name ≡ tx.old.conn.ghost_name }
    ensures row { IsQuery sql.now → HasCleanDisk (state S.Store tx.new.conn.now) → IfOk result (FirstRow sql.now (bound params.now) (state S.Store tx.old.conn.now) (state S.Store tx.new.conn.now)) }
    ensures calm { IsQuery sql.now → HasCleanDisk (state S.Store tx.new.conn.now) → IsCalm (state S.Store tx.old.conn.now) (state S.Store tx.new.conn.now) result }
    ensures survives { Survives (state S.Store tx.old.conn.now) (state S.Store tx.new.conn.now) (λ _. ⊥) }
{
    match tx.query_row(sql, params) {
        Ok(row) => Ok(Some(row)),
        Err(Error::QueryReturnedNoRows) => Ok(None),
        Err(error) => Err(error),
    }
}

/// The first rows of a query's result, at most `most`. The others are not read.
pub(crate) fn first_rows<S: Alter>(
    alloc: Global,
    conn: &mut Connection<S>,
    sql: &str,
    params: &[ValueRef<'_>],
    most: usize,
) -> Result<Items<Row>, Error>
    ensures mode { conn.old.in_transaction ≡ false → conn.new.in_transaction ≡ false }
    ensures rows { IsQuery sql.now → HasCleanDisk (state S.Store conn.new) → IfOk result (FirstRows most sql.now (bound params.now) (state S.Store conn.old) (state S.Store conn.new)) }
    ensures calm { IsQuery sql.now → HasCleanDisk (state S.Store conn.new) → IsCalm (state S.Store conn.old) (state S.Store conn.new) result }
    ensures survives { IsQuery sql.now → Survives (state S.Store conn.old) (state S.Store conn.new) (λ _. ⊥) }
{
    let mut first = Vec::new(alloc);
    let mut rows = conn.query(sql, params)?;
    'rows: for taken in 0..most {
        let Some(row) = rows.next()? else {
            return Ok(Items::new(first));
        };
        first.push(row.copy()?)?;
    }
    Ok(Items::new(first))
}

/// All rows of a query's result.
pub fn all_rows<S: Alter>(
    conn: &mut Connection<S>,
    sql: &str,
    params: &[ValueRef<'_>],
) -> Result<Items<Row>, Error>
    ensures mode { conn.old.in_transaction ≡ false → conn.new.in_transaction ≡ false }
    ensures rows { HasCleanDisk (state S.Store conn.new) → IfOk result (Shown sql.now (bound params.now) (state S.Store conn.old) (state S.Store conn.new)) }
    ensures calm { IsQuery sql.now → HasCleanDisk (state S.Store conn.new) → IsCalm (state S.Store conn.old) (state S.Store conn.new) result }
    ensures survives { IsQuery sql.now → Survives (state S.Store conn.old) (state S.Store conn.new) (λ _. ⊥) }
{
    match conn.query_all(sql, params) {
        Ok(rows) => Ok(Items::new(rows)),
        Err(error) => Err(error),
    }
}

/// A number as SQL's signed integer.
pub fn signed(n: u64) -> i64
    requires { n < 2 ^ 63 }
    ensures { result ≡ pos n }
{
    n as i64
}

/// A value that is read from a row of a query's result.
pub trait Read: Sized {
    // Whether the row has this value.
    ghost is_in: { SqlRow → Self → Type 0 };

    fn of_row(row: &Row) -> Result<Self, Error>
        ensures { IfOk result (is_in row.now) };
}

/// The value in the row; none if there is no row.
pub fn read_one<T: Read + Drop>(row: Result<Option<Row>, Error>) -> Result<Option<T>, Error>
    ensures { IsRead T.Read.is_in row result }
{
    match row? {
        Some(row) => Ok(Some(T::of_row(&row)?)),
        None => Ok(None),
    }
}

/// The value in the only row; none if there is no row. Fails with `InvalidQuery` if there is more than one
/// row.
pub(crate) fn read_only<T: Read + Drop>(rows: Result<Items<Row>, Error>) -> Result<Option<T>, Error>
    ensures { IsOnly T.Read.is_in rows result }
{
    let rows = rows?;
    match rows.as_slice() {
        [] => Ok(None),
        [row] => Ok(Some(T::of_row(row)?)),
        _ => Err(Error::InvalidQuery),
    }
}

fn read_each<T: Read + Drop>(alloc: Global, rows: &[Row]) -> Result<Items<T>, Error>
    ensures { IfOk result (AllZip T.Read.is_in rows.now) }
{
    let mut read = Vec::new(alloc);
    for row in rows {
        read.push(T::of_row(row)?)?;
    }
    Ok(Items::new(read))
}

/// The values in the rows.
pub fn read_all<T: Read + Drop>(
    alloc: Global,
    rows: Result<Items<Row>, Error>,
) -> Result<Items<T>, Error>
    ensures { AreRead T.Read.is_in rows result }
{
    let rows = rows?;
    read_each(alloc, rows.as_slice())
}

/// The values in all rows of a query's result, in their order. The query has no parameters.
pub fn scan<T: Read + Drop, S: Alter>(
    alloc: Global,
    conn: &mut Connection<S>,
    sql: &str,
) -> Result<Items<T>, Error>
    ensures { IsQuery sql.now → Queries S.Store (λ xs _. AreAllRead T.Read.is_in sql.now (state S.Store conn.old) (state S.Store conn.new) xs) conn.old conn.new result }
{
    let rows = all_rows(conn, sql, &[]);
    read_all(alloc, rows)
}

/// The number in the row of a `count` query. It is 0 if there is no row, but such a query always returns one.
pub(crate) fn count_of(row: Result<Option<Row>, Error>) -> Result<u64, Error>
    ensures { IsCount row result }
{
    match row? {
        Some(row) => row.get(0),
        None => Ok(0),
    }
}
