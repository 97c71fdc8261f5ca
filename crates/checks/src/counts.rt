//! Whether no organization has more workspaces than any may have.
ghost use Rattle.std.specs.Prelude.{OnOk};
ghost use Rattle.checks.specs.Judging.{Judges};
ghost use Rattle.checks.specs.Faults.{TooMany};
ghost use Rattle.checks.specs.Inner.Counts.{AreFew};

use crate::firsts::{add_one, count_at};
use crate::found::{FaultKind, Found};
use crate::groups::ws_key;
use basis::Down;
use basis::numbers::MAX_LIMIT;
use statements::rows::WsRow;
use std::alloc::Global;
use std::collections::BTreeMap;

/// One workspace more than any organization may have.
const TOO_MANY: u64 = MAX_LIMIT as u64 + 1;

/// Checks that no organization has more workspaces than the greatest limit. Each that has is reported once.
pub fn judge_counts(alloc: Global, wss: &[(i64, WsRow)], found: &mut Found) -> Result<(), Down>
    ensures { OnOk result (Judges (TooMany wss.now) (AreFew wss.now) found.old found.new) }
{
    let mut counts = BTreeMap::new(alloc);
    for (_, row) in wss {
        let org = row.org.as_str();
        let key = ws_key(org, "");
        add_one(&mut counts, key)?;
        let count = count_at(&counts, &key);
        let within = count != TOO_MANY;
        found.judge(alloc, within, FaultKind::TooMany, org, "", None)?;
    }
    Ok(())
}
