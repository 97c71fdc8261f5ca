//! The number of bytes of the text of the version that was read last, kept in memory so that it is not looked
//! up again.
ghost use Rattle.std.specs.Prelude.{◌≡◌, IfSome};
ghost use Rattle.tables.specs.Inner.Remembering.{size_kept, Notes};

use crate::versions::VersionSize;
use basis::{Number, Text};
use std::alloc::Global;

/// The version that was read last.
#[derive(Drop)]
pub(crate) struct SizedVersion {
    org: Text,
    ws: Text,
    number: Number,
    size: u64,
}

/// The number of bytes of a version's text, if it is in memory.
pub(crate) fn known(
    sized: &Option<SizedVersion>,
    org: &str,
    ws: &str,
    number: Number,
) -> Option<u64>
    ensures { result ≡ size_kept sized.now org.now ws.now number }
{
    match sized {
        None => None,
        Some(sized) => {
            if sized.org.as_str() == org && sized.ws.as_str() == ws && sized.number == number {
                Some(sized.size)
            } else {
                None
            }
        }
    }
}

/// What is kept of a version that was found.
fn note_found(alloc: Global, org: &str, ws: &str, found: &VersionSize) -> Option<SizedVersion>
    ensures { IfSome result (λ kept. kept ≡ record { org = org.now; ws = ws.now; number = found.now.number; size = found.now.size }) }
{
    let Ok(org) = Text::copy_of(alloc, org) else {
        return None;
    };
    let Ok(ws) = Text::copy_of(alloc, ws) else {
        return None;
    };
    Some(SizedVersion {
        org,
        ws,
        number: found.number,
        size: found.size,
    })
}

/// What is kept of the version that was found, if its text is read next. If allocating fails, nothing is.
pub(crate) fn note(
    alloc: Global,
    org: &str,
    ws: &str,
    is_read: bool,
    found: &Option<VersionSize>,
) -> Option<SizedVersion>
    ensures { IfSome result (Notes org.now ws.now found.now) }
{
    if !is_read {
        return None;
    }
    match found {
        None => None,
        Some(found) => note_found(alloc, org, ws, found),
    }
}
