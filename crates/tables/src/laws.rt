//! A law of tables, as the contract of a function that does nothing.
ghost use Rattle.tables.specs.Laws.{RowsStandInAnyOrder};

/// If the rows of versions and of runs in sound tables are reordered, the tables are sound and denote the
/// same records.
pub fn rows_stand_in_any_order()
    ensures { RowsStandInAnyOrder }
{}
