//! Maps that keep the first value of each key.
ghost use Rattle.std.specs.Prelude.{◌≡◌, ◌+◌, ◌<◌, ◌^◌, unwrap_or, OnOk};
ghost use Rattle.std.specs.BTreeMap.{get};
ghost use Rattle.checks.specs.Inner.Firsts.{key_cmp, KeepsFirst, AddsOne};

use crate::keys::RowKey;
use basis::Down;
use std::collections::BTreeMap;

/// Keeps the value of a key that has none yet.
pub(crate) fn keep_first<'a, V: Drop>(
    map: &mut BTreeMap<RowKey<'a>, V>,
    key: RowKey<'a>,
    value: V,
) -> Result<(), Down>
    ensures { OnOk result (KeepsFirst key.entry value map.old map.new) }
{
    if !map.contains_key(&key) {
        let Ok(_) = map.insert(key, value) else {
            return Err(Down);
        };
    }
    Ok(())
}

/// The number at a key, 0 where there is none.
pub(crate) fn count_at<'a>(counts: &BTreeMap<RowKey<'a>, u64>, key: &RowKey<'a>) -> u64
    ensures { result ≡ unwrap_or (get key_cmp counts.now key.now) 0 }
{
    match counts.get(key) {
        Some(count) => *count,
        None => 0,
    }
}

/// Adds one to the number at a key.
pub(crate) fn add_one<'a>(
    counts: &mut BTreeMap<RowKey<'a>, u64>,
    key: RowKey<'a>,
) -> Result<(), Down>
    requires { unwrap_or (get key_cmp counts.old key) 0 + 1 < 2 ^ 64 }
    ensures { OnOk result (AddsOne key.entry counts.old counts.new) }
{
    let count = count_at(counts, &key);
    let Ok(_) = counts.insert(key, count + 1) else {
        return Err(Down);
    };
    Ok(())
}
