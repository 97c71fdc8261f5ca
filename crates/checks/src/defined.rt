//! The tables that are defined otherwise than ours.
ghost use Rattle.std.specs.Prelude.{◌≡◌, [], IfOk};
ghost use Rattle.checks.specs.Judging.{OfSome, Decides, AreReported};
ghost use Rattle.checks.specs.Faults.{table_fault};

use crate::found::{FaultKind, Found};
use basis::{Down, Text};
use std::alloc::Global;

/// A fault for each of these tables, for the first `MAX_FAULTS` of them.
pub(crate) fn other_tables(alloc: Global, names: &[Text]) -> Result<Found, Down>
    ensures decides { IfOk result (Decides (names.now ≡ [])) }
    ensures reported { IfOk result (λ found. AreReported (OfSome (λ name f. f ≡ table_fault name) names.now) found.faults) }
{
    let mut found = Found::new(alloc);
    for name in names {
        found.note(alloc, FaultKind::Table, "", name.as_str(), None)?;
    }
    Ok(found)
}
