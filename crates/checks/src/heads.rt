//! Looks at the head of each page.
ghost use Rattle.std.specs.Prelude.{◌≡◌, find, option_copied, OnOk};
ghost use Rattle.std.specs.List.{AllByRecursion};
ghost use Rattle.texts.specs.Texts.{names_page};
ghost use Rattle.checks.specs.Judging.{noted, Judges};
ghost use Rattle.checks.specs.Faults.{page_fault, OfHead, OfHeads};
ghost use Rattle.checks.specs.Inner.Heads.{IsSoundHead};

use crate::found::{FaultKind, Found};
use basis::Down;
use statements::rows::{PageHead, VpageRow};
use std::alloc::Global;

/// Whether the row names the page.
fn names(row: &(i64, VpageRow), head: &PageHead) -> bool
    ensures { result ≡ names_page head.now.key head.now.twin row.now }
{
    row.1.key.as_slice() == head.key.as_slice() && row.1.twin == head.twin
}

/// The first row that names the page.
fn first_naming<'a>(head: &PageHead, vpages: &'a [(i64, VpageRow)]) -> Option<&'a (i64, VpageRow)>
    ensures { option_copied result ≡ find (names_page head.now.key head.now.twin) vpages.now }
{
    vpages.iter().find(|row| names(row, head))
}

/// Notes a fault of a page, with the version of the first row that names the page, if there is one. Once the list of faults is
/// full, the version is not searched for.
pub(crate) fn note_page(
    alloc: Global,
    kind: FaultKind,
    head: &PageHead,
    vpages: &[(i64, VpageRow)],
    found: &mut Found,
) -> Result<(), Down>
    ensures { OnOk result (found.new.faults ≡ noted (page_fault kind vpages.now head.now) found.old.faults) }
{
    if found.is_full() {
        return found.note(alloc, kind, "", "", None);
    }
    match first_naming(head, vpages) {
        Some((_, row)) => {
            let org = row.org.as_str();
            let ws = row.ws.as_str();
            found.note(alloc, kind, org, ws, Some(row.number))
        }
        None => found.note(alloc, kind, "", "", None),
    }
}

/// Notes a page that is not in use, has a key that is not that of its bytes, or has the same bytes as another page of its key.
fn judge_head(
    alloc: Global,
    head: &PageHead,
    vpages: &[(i64, VpageRow)],
    found: &mut Found,
) -> Result<(), Down>
    ensures { OnOk result (Judges (OfHead vpages.now head.now) (IsSoundHead head.now) found.old found.new) }
{
    if head.uses < 1 {
        return note_page(alloc, FaultKind::Uses, head, vpages, found);
    }
    if !head.is_keyed {
        return note_page(alloc, FaultKind::Key, head, vpages, found);
    }
    if !head.is_first {
        return note_page(alloc, FaultKind::SamePage, head, vpages, found);
    }
    Ok(())
}

/// Notes every page that is not in use, has a key that is not that of its bytes, or has the same bytes as another page of its
/// key.
pub(crate) fn judge_heads(
    alloc: Global,
    heads: &[PageHead],
    vpages: &[(i64, VpageRow)],
    found: &mut Found,
) -> Result<(), Down>
    ensures { OnOk result (Judges (OfHeads vpages.now heads.now) (AllByRecursion IsSoundHead heads.now) found.old found.new) }
{
    for head in heads {
        judge_head(alloc, head, vpages, found)?;
    }
    Ok(())
}
