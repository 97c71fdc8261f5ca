//! A store that is looked at.
ghost use Rattle.std.specs.Prelude.{◌≡◌, [], IfOk, map};
ghost use Rattle.sqlite.specs.Held.{state};
ghost use Rattle.sqlite.specs.State.{HasCleanDisk};
ghost use Rattle.machine.specs.StoreCalls.{Unchanged};
ghost use Rattle.statements.specs.Tables.{Tables, Holds, tables_of};
ghost use Rattle.tables.specs.Opening.{IsFresh};
ghost use Rattle.checks.specs.Lines.{fault_line, ReportsFaults};
ghost use Rattle.checks.specs.Standing.{HaveRows, ReportsStore};
ghost use Rattle.checks.specs.Totals.{AreTotalsOf};
ghost use Rattle.checks.specs.Inner.Stores.{ReportsTables, ChecksRows};

use crate::defined::other_tables;
use crate::fault_checks::faults;
use crate::found::Fault;
use crate::lines::fault_line;
use crate::totals::{NOTHING, Totals, totals_of};
use basis::{Down, Items, Text};
use machine::Keep;
use pages::PageKey;
use sqlite::Alter;
use statements::rows::Rows;
use std::alloc::Global;
use tables::SqlKeep;

/// The lines of faults.
fn lines_of(alloc: Global, faults: &[Fault]) -> Result<Items<Text>, Down>
    ensures { IfOk result (λ lines. lines ≡ map fault_line faults.now) }
{
    let mut lines = Vec::new(alloc);
    for fault in faults {
        lines.push(fault_line(alloc, fault)?)?;
    }
    Ok(Items::new(lines))
}

/// The lines of the faults of these rows.
fn report(alloc: Global, rows: &Rows) -> Result<Items<Text>, Down>
    ensures { IfOk result (ReportsFaults rows.now) }
{
    let found = faults(alloc, rows)?;
    lines_of(alloc, found.faults())
}

/// What a check of a store found.
#[derive(Drop)]
pub struct Findings {
    /// One line per fault, at most 50.
    pub faults: Items<Text>,
    /// The numbers of rows. If the tables are not ours, nothing is counted.
    pub totals: Totals,
}

/// One line for each of our tables that is missing or defined differently.
fn report_tables<S: Alter, K: PageKey>(
    keep: &mut SqlKeep<S, K>,
    alloc: Global,
) -> Result<Items<Text>, Down>
    ensures reported { HasCleanDisk (state S.Store keep.new.conn) → IfOk result (ReportsTables (state S.Store keep.old.conn).committed (state S.Store keep.new.conn).committed) }
    ensures unchanged { Unchanged ⟦<SqlKeep<S, K> as Keep>⟧.rows ⟦<SqlKeep<S, K> as Keep>⟧.clean ⟦<SqlKeep<S, K> as Keep>⟧.sound ⟦<SqlKeep<S, K> as Keep>⟧.keyed ⟦<SqlKeep<S, K> as Keep>⟧.shielded keep.old keep.new }
{
    let names = keep.other_tables(alloc)?;
    let found = other_tables(alloc, names.as_slice())?;
    lines_of(alloc, found.faults())
}

/// One line per fault of the rows, and the numbers of rows.
fn check_rows<S: Alter, K: PageKey>(
    keep: &mut SqlKeep<S, K>,
    alloc: Global,
) -> Result<Findings, Down>
    ensures reported { HasCleanDisk (state S.Store keep.new.conn) → IfOk result (ChecksRows K.key_of (state S.Store keep.old.conn).committed) }
    ensures unchanged { Unchanged ⟦<SqlKeep<S, K> as Keep>⟧.rows ⟦<SqlKeep<S, K> as Keep>⟧.clean ⟦<SqlKeep<S, K> as Keep>⟧.sound ⟦<SqlKeep<S, K> as Keep>⟧.keyed ⟦<SqlKeep<S, K> as Keep>⟧.shielded keep.old keep.new }
{
    let rows = keep.scan(alloc)?;
    let totals = totals_of(&rows);
    let faults = report(alloc, &rows)?;
    Ok(Findings { faults, totals })
}

/// Checks a store. Returns one line per fault, at most 50, and the numbers of rows. There is no line exactly if our tables exist
/// as they are defined, are sound, each page's key is that of its bytes, and no run is missing. If tables are defined
/// differently, only they are reported. Fails if an allocation or the store fails.
pub fn check<S: Alter, K: PageKey>(
    keep: &mut SqlKeep<S, K>,
    alloc: Global,
) -> Result<Findings, Down>
    ensures decides { HasCleanDisk (state S.Store keep.new.conn) → IfOk result (λ findings. ReportsStore K.key_of (state S.Store keep.old.conn).committed findings.faults) }
    ensures totals { HasCleanDisk (state S.Store keep.new.conn) → IfOk result (λ findings. (t : Tables) → Holds (state S.Store keep.old.conn).committed t → AreTotalsOf t findings.totals) }
    ensures sound { HasCleanDisk (state S.Store keep.new.conn) → IfOk result (λ findings. findings.faults ≡ [] → IsFresh (state S.Store keep.old.seen.value).committed keep.old.memo (state S.Store keep.old.conn)
        → HaveRows (state S.Store keep.old.seen.value).committed (tables_of (state S.Store keep.old.seen.value).committed) → ⟦<SqlKeep<S, K> as Keep>⟧.sound keep.old × ⟦<SqlKeep<S, K> as Keep>⟧.keyed keep.old) }
    ensures unchanged { Unchanged ⟦<SqlKeep<S, K> as Keep>⟧.rows ⟦<SqlKeep<S, K> as Keep>⟧.clean ⟦<SqlKeep<S, K> as Keep>⟧.sound ⟦<SqlKeep<S, K> as Keep>⟧.keyed ⟦<SqlKeep<S, K> as Keep>⟧.shielded keep.old keep.new }
{
    let others = report_tables(keep, alloc)?;
    if !others.as_slice().is_empty() {
        return Ok(Findings {
            faults: others,
            totals: NOTHING,
        });
    }
    check_rows(keep, alloc)
}
