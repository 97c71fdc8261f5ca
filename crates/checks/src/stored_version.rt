//! Whether the tables tell the newest version of the schema.
ghost use Rattle.std.specs.Prelude.{◌≡◌, pos, true, ◌↔◌, [], ◌∷◌, None, OnOk};
ghost use Rattle.statements.specs.declared.making.TheConstants.{SCHEMA_VERSION};
ghost use Rattle.checks.specs.declared.found.FaultKind.TheVariants.{Version};
ghost use Rattle.checks.specs.Judging.{fault_of, Breaks, Judges};

use crate::found::{FaultKind, Found};
use basis::Down;
use statements::making::SCHEMA_VERSION;
use std::alloc::Global;

/// Whether the rows of `edition` are the one with the newest version.
fn is_newest(editions: &[(i64, u64)]) -> bool
    ensures { (result ≡ true) ↔ (editions.now ≡ (pos 1, SCHEMA_VERSION) ∷ []) }
{
    editions.len() == 1 && editions[0].0 == 1 && editions[0].1 == SCHEMA_VERSION
}

/// Whether `edition` has the newest version, and `meta` has none.
fn is_stored(editions: &[(i64, u64)], metas: &[(i64, u64)]) -> bool
    ensures { (result ≡ true) ↔ ((editions.now ≡ (pos 1, SCHEMA_VERSION) ∷ []) × (metas.now ≡ [])) }
{
    is_newest(editions) && metas.is_empty()
}

/// Checks that `edition` has the newest version, and `meta` has none.
pub fn version_stored(
    alloc: Global,
    editions: &[(i64, u64)],
    metas: &[(i64, u64)],
    found: &mut Found,
) -> Result<(), Down>
    ensures { OnOk result (Judges (Breaks ((editions.now ≡ (pos 1, SCHEMA_VERSION) ∷ []) × (metas.now ≡ [])) (fault_of Version [] [] None)) ((editions.now ≡ (pos 1, SCHEMA_VERSION) ∷ []) × (metas.now ≡ [])) found.old found.new) }
{
    let reported = is_stored(editions, metas);
    found.judge(alloc, reported, FaultKind::Version, "", "", None)
}
