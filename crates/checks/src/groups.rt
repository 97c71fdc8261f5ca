//! Rows by the workspace that they belong to.
ghost use Rattle.std.specs.Prelude.{◌≡◌, ◌++◌, ◌∷◌, [], ℕ, List, None, cond, IfOk, OnOk};
ghost use Rattle.std.specs.Ordering.{is_eq};
ghost use Rattle.std.specs.Option.{option_map_or};
ghost use Rattle.std.specs.BTreeMap.{get};
ghost use Rattle.checks.specs.declared.keys.RowKey.{RowKey};
ghost use Rattle.checks.specs.Inner.Firsts.{key_cmp, IsKeyOf};
ghost use Rattle.checks.specs.Inner.Keys.{is_key};
ghost use Rattle.checks.specs.Inner.Groups.{lent, held, group_in, AreGrouped};

use crate::keys::RowKey;
use basis::Down;
use statements::rows::Owned;
use std::alloc::Global;
use std::collections::BTreeMap;

/// What the rows of each workspace hold, in the order of the rows.
pub type Groups<'a, T> = BTreeMap<RowKey<'a>, Vec<&'a T>>;

/// The key of a workspace.
pub(crate) fn ws_key<'a>(org: &'a str, ws: &'a str) -> RowKey<'a>
    ensures { IsKeyOf result org.now ws.now 0 0 }
{
    RowKey {
        place: 0,
        number: 0,
        first: org.as_bytes(),
        second: ws.as_bytes(),
    }
}

fn none<'g, 'a: 'g, T>() -> &'g [&'a T]
    ensures { result.now ≡ [] }
{
    &[]
}

/// What the rows of the workspace of a key hold.
pub(crate) fn rows_at<'g, 'a: 'g, T>(groups: &'g Groups<'a, T>, key: &RowKey<'a>) -> &'g [&'a T]
    ensures { lent result.now ≡ option_map_or held (get key_cmp groups.now key.now) [] }
{
    if let Some(group) = groups.get(key) {
        return group.as_slice();
    }
    none()
}

/// Takes what the map has at a key.
fn take<'a, T>(alloc: Global, groups: &mut Groups<'a, T>, key: &RowKey<'a>) -> Vec<&'a T>
    ensures taken { lent result.items ≡ option_map_or held (get key_cmp groups.old key.now) [] }
    ensures others { (q : RowKey) → get key_cmp groups.new q ≡ cond (is_eq (key_cmp key.now q)) None (get key_cmp groups.old q) }
{
    match groups.remove(key) {
        Some(group) => group,
        None => Vec::new(alloc),
    }
}

/// Adds what a row holds behind what the map has at its key.
fn add<'a, T>(
    alloc: Global,
    groups: &mut Groups<'a, T>,
    key: RowKey<'a>,
    it: &'a T,
) -> Result<(), Down>
    ensures { OnOk result ((org ws : List ℕ) → group_in org ws groups.new ≡ cond (is_key org ws 0 0 key.entry) (group_in org ws groups.old ++ it.now ∷ []) (group_in org ws groups.old)) }
{
    let mut group = take(alloc, groups, &key);
    group.push(it)?;
    let Ok(_) = groups.insert(key, group) else {
        return Err(Down);
    };
    Ok(())
}

/// What rows hold, by the organization and the name that they have.
pub(crate) fn group<'a, T>(
    alloc: Global,
    rows: &'a [(i64, Owned<T>)],
) -> Result<Groups<'a, T>, Down>
    ensures { IfOk result (AreGrouped rows.now) }
{
    let mut groups = BTreeMap::new(alloc);
    for (_, row) in rows {
        let key = ws_key(row.org.as_str(), row.name.as_str());
        add(alloc, &mut groups, key, &row.it)?;
    }
    Ok(groups)
}
