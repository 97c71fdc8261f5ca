//! The tokens that were used last, kept in memory so that they are not looked up each time.
ghost use Rattle.std.specs.Prelude.{◌≡◌, ◌<◌, Some, IfSome, IfOk, All, length, slice_index_or};
ghost use Rattle.machine.specs.Tokens.{asker_of};
ghost use Rattle.statements.specs.Tables.{Tables};
ghost use Rattle.tables.specs.Records.{record_of};
ghost use Rattle.tables.specs.Remembered.{IsAsker, AreAskers};
ghost use Rattle.tables.specs.Inner.Remembering.{IsAskedBy};

use basis::{Down, Items, Text};
use machine::TokenRow;
use std::alloc::Global;

/// The greatest number of tokens that are kept.
const MAX_ASKERS: usize = 8;

/// The token of an organization with this digest, even if it has expired.
#[derive(Drop)]
pub(crate) struct Asked {
    org: Text,
    digest: [u8; 32],
    row: TokenRow,
}

fn copy_of(row: &TokenRow) -> Result<TokenRow, Down>
    ensures { IfOk result (λ copy. copy ≡ row.now) }
{
    let name = row.name.clone()?;
    let caller = row.caller.clone()?;
    Ok(TokenRow { name, caller })
}

/// The place of the organization's token with this digest.
fn place_of(list: &[Asked], org: &str, digest: &[u8; 32]) -> Option<usize>
    ensures { IfSome result (λ place. (place < length list.now) × ((d : _) → IsAskedBy org.now digest.now (slice_index_or list.now place d))) }
{
    for (place, asked) in list.iter().enumerate() {
        if asked.org.as_str() == org && asked.digest.as_slice() == digest.as_slice() {
            return Some(place);
        }
    }
    None
}

/// Makes the token at a place the last one that was used. Returns its caller and name; none if the copy cannot
/// be allocated.
fn renew(list: &mut Items<Asked>, place: usize) -> Option<TokenRow>
    requires { place < length list.old }
    ensures row { IfSome result (λ row. (d : _) → (slice_index_or list.old place d).row ≡ row) }
    ensures kept { (t : Tables) → All (IsAsker t) list.old → All (IsAsker t) list.new }
{
    let asked = list.items.remove(place);
    let row = copy_of(&asked.row).ok();
    let _ = list.push(asked);
    row
}

/// The caller and the name of the organization's token with this digest, if it is among these.
fn known_in(list: &mut Items<Asked>, org: &str, digest: &[u8; 32]) -> Option<TokenRow>
    ensures known { IfSome result (λ row. (t : Tables) → All (IsAsker t) list.old → Some row ≡ asker_of (record_of t org.now) digest.now) }
    ensures kept { (t : Tables) → All (IsAsker t) list.old → All (IsAsker t) list.new }
{
    let place = place_of(list.as_slice(), org, digest)?;
    renew(list, place)
}

/// The caller and the name of the organization's token with this digest, if it is in memory; then it is the last
/// one that was used. None if the copy cannot be allocated.
pub(crate) fn known(
    asked: &mut Option<Items<Asked>>,
    org: &str,
    digest: &[u8; 32],
) -> Option<TokenRow>
    ensures known { IfSome result (λ row. (t : Tables) → AreAskers t asked.old → Some row ≡ asker_of (record_of t org.now) digest.now) }
    ensures kept { (t : Tables) → AreAskers t asked.old → AreAskers t asked.new }
{
    match asked {
        None => None,
        Some(list) => known_in(list, org, digest),
    }
}

fn note(alloc: Global, org: &str, digest: &[u8; 32], row: &TokenRow) -> Option<Asked>
    ensures { IfSome result (λ kept. kept ≡ record { org = org.now; digest = digest.now; row = row.now }) }
{
    let Ok(org) = Text::copy_of(alloc, org) else {
        return None;
    };
    let Ok(row) = copy_of(row) else {
        return None;
    };
    Some(Asked {
        org,
        digest: *digest,
        row,
    })
}

/// Adds a token as the last one that was used. If all places are taken, forgets the least recently used one.
fn add(list: &mut Items<Asked>, asked: Asked)
    ensures { (t : Tables) → All (IsAsker t) list.old → IsAsker t asked → All (IsAsker t) list.new }
{
    let count = list.as_slice().len();
    list.forget_first(count.saturating_sub(MAX_ASKERS - 1));
    let _ = list.push(asked);
}

/// Keeps the token that was found in memory. If allocating fails, it is not kept.
pub(crate) fn cache_asker(
    asked: &mut Option<Items<Asked>>,
    alloc: Global,
    org: &str,
    digest: &[u8; 32],
    found: &Option<TokenRow>,
)
    ensures { (t : Tables) → AreAskers t asked.old → found.now ≡ asker_of (record_of t org.now) digest.now → AreAskers t asked.new }
{
    let Some(row) = found else {
        return;
    };
    let Some(token) = note(alloc, org, digest, row) else {
        return;
    };
    match asked {
        Some(list) => add(list, token),
        None => {
            let mut list = Items::new(Vec::new(alloc));
            add(&mut list, token);
            *asked = Some(list);
        }
    }
}
