//! Looks at the places of texts, the uses of pages, and the texts of versions.
ghost use Rattle.std.specs.Prelude.{◌≡◌, ℕ, ◌<◌, ◌↔◌, ◌⊎◌, List, [], map, Some, IsTrue, IfOk, OnOk};
ghost use Rattle.std.specs.List.{AllByRecursion};
ghost use Rattle.statements.specs.Rows.{Kept, VersionRow, VpageRow};
ghost use Rattle.statements.specs.declared.rows.PageHead.{PageHead};
ghost use Rattle.statements.specs.Tables.{Tables};
ghost use Rattle.pages.specs.Heads.{head_in};
ghost use Rattle.texts.specs.Texts.{pages_for, piece_size};
ghost use Rattle.checks.specs.declared.found.FaultKind.TheVariants.{Place as PlaceFault, Text as TextFault, Uses};
ghost use Rattle.checks.specs.Judging.{Breaks, Adds, Judges};
ghost use Rattle.checks.specs.Faults.{version_fault, place_fault, page_fault, PagesMiscounted, PlacesOutside, PagesMissing, TextsBroken, OfPages, OfTexts};
ghost use Rattle.checks.specs.Inner.Firsts.{IsKeyOf};
ghost use Rattle.checks.specs.Pages.{IsPlacedIn, page_size_in, NamesPage, IsCountedIn, piece_in, HasTextIn};
ghost use Rattle.checks.specs.Inner.Places.{HasSizes, HasPageSizes, HasCounts, HasPieces, IsRunOf, AreRuns, AreRowsSound, AreTextsSound};

use crate::firsts::{add_one, count_at, keep_first};
use crate::found::{FaultKind, Found};
use crate::heads::{judge_heads, note_page};
use crate::keys::{RowKey, pages_apart, vpages_apart};
use basis::{Bytes, Down, Text};
use statements::rows::{PageHead, VersionRow, VpageRow};
use std::alloc::Global;
use std::collections::BTreeMap;
use texts::PAGE_BYTES;

/// The key of a place of a version's text; at place 0, of the version, or of a run.
pub(crate) fn place_key<'a>(org: &'a Text, ws: &'a Text, number: u64, place: u64) -> RowKey<'a>
    ensures { IsKeyOf result org.now ws.now number place }
{
    RowKey {
        first: org.as_str().as_bytes(),
        second: ws.as_str().as_bytes(),
        number,
        place,
    }
}

/// The key of a page.
fn page_key<'a>(key: &'a Bytes, twin: u64) -> RowKey<'a>
    ensures { IsKeyOf result key.now [] twin 0 }
{
    RowKey {
        first: key.as_slice(),
        second: &[],
        number: twin,
        place: 0,
    }
}

/// The number of pages of a text of this size.
fn pages_of(size: u64) -> u64
    ensures { result ≡ pages_for size }
{
    if size == 0 {
        return 0;
    }
    (size - 1) / PAGE_BYTES as u64 + 1
}

/// The size in bytes of the page at a place of a text of this size.
fn size_of_piece(size: u64, place: u64) -> u64
    requires { place < pages_for size }
    ensures { result ≡ piece_size size place }
{
    let rest = size - place * PAGE_BYTES as u64;
    rest.min(PAGE_BYTES as u64)
}

/// The sizes of the texts of versions.
fn sizes_of<'a>(
    alloc: Global,
    versions: &'a [(i64, VersionRow)],
) -> Result<BTreeMap<RowKey<'a>, u64>, Down>
    ensures { IfOk result (HasSizes versions.now) }
{
    let mut sizes = BTreeMap::new(alloc);
    for row in versions {
        let version = &row.1;
        let number = u64::from(version.it.number.get());
        keep_first(
            &mut sizes,
            place_key(&version.org, &version.name, number, 0),
            version.it.size,
        )?;
    }
    Ok(sizes)
}

/// Whether the row's version exists and has a page at the row's place.
fn is_placed<'a>(sizes: &BTreeMap<RowKey<'a>, u64>, row: &'a VpageRow) -> bool
    ensures { (versions : List (Kept VersionRow)) → HasSizes versions sizes.now → (IsTrue result ↔ IsPlacedIn versions row.now) }
{
    match sizes.get(&place_key(&row.org, &row.ws, row.number, 0)) {
        Some(size) => row.place < pages_of(*size),
        None => false,
    }
}

/// Notes a row of `vpage` whose version has no such place.
fn judge_place<'a>(
    alloc: Global,
    sizes: &BTreeMap<RowKey<'a>, u64>,
    row: &'a VpageRow,
    found: &mut Found,
) -> Result<(), Down>
    ensures { (versions : List (Kept VersionRow)) → HasSizes versions sizes.now → OnOk result (Judges (Breaks (IsPlacedIn versions row.now) (place_fault PlaceFault row.now)) (IsPlacedIn versions row.now) found.old found.new) }
{
    if is_placed(sizes, row) {
        return Ok(());
    }
    found.note(
        alloc,
        FaultKind::Place,
        row.org.as_str(),
        row.ws.as_str(),
        Some(row.number),
    )
}

/// Notes every row of `vpage` whose version has no such place.
pub(crate) fn judge_places<'a>(
    alloc: Global,
    versions: &'a [(i64, VersionRow)],
    vpages: &'a [(i64, VpageRow)],
    found: &mut Found,
) -> Result<(), Down>
    ensures { OnOk result (Judges (PlacesOutside versions.now vpages.now) (AllByRecursion (λ x. IsPlacedIn versions.now x.1) vpages.now) found.old found.new) }
{
    let sizes = sizes_of(alloc, versions)?;
    for row in vpages {
        judge_place(alloc, &sizes, &row.1, found)?;
    }
    Ok(())
}

/// How often rows name each page.
fn counts_of<'a>(
    alloc: Global,
    vpages: &'a [(i64, VpageRow)],
) -> Result<BTreeMap<RowKey<'a>, u64>, Down>
    ensures { IfOk result (HasCounts vpages.now) }
{
    let mut counts = BTreeMap::new(alloc);
    for row in vpages {
        let vpage = &row.1;
        add_one(&mut counts, page_key(&vpage.key, vpage.twin))?;
    }
    Ok(counts)
}

/// Notes a page whose number of uses is not the number of rows that name it.
fn judge_count<'a>(
    alloc: Global,
    counts: &BTreeMap<RowKey<'a>, u64>,
    head: &'a PageHead,
    rows: &[(i64, VpageRow)],
    found: &mut Found,
) -> Result<(), Down>
    ensures { (vpages : List (Kept VpageRow)) → HasCounts vpages counts.now → OnOk result (Judges (Breaks (IsCountedIn vpages head.now) (page_fault Uses rows.now head.now)) (IsCountedIn vpages head.now) found.old found.new) }
{
    let count = count_at(counts, &page_key(&head.key, head.twin));
    if count == head.uses {
        return Ok(());
    }
    note_page(alloc, FaultKind::Uses, head, rows, found)
}

/// Notes every page whose number of uses is not the number of rows that name it.
pub(crate) fn judge_counts<'a>(
    alloc: Global,
    heads: &'a [PageHead],
    vpages: &'a [(i64, VpageRow)],
    found: &mut Found,
) -> Result<(), Down>
    ensures { OnOk result (Judges (PagesMiscounted vpages.now heads.now) (AllByRecursion (IsCountedIn vpages.now) heads.now) found.old found.new) }
{
    let counts = counts_of(alloc, vpages)?;
    for head in heads {
        judge_count(alloc, &counts, head, vpages, found)?;
    }
    Ok(())
}

/// The sizes of pages.
fn page_sizes_of<'a>(
    alloc: Global,
    heads: &'a [PageHead],
) -> Result<BTreeMap<RowKey<'a>, u64>, Down>
    ensures { IfOk result (HasPageSizes heads.now) }
{
    let mut sizes = BTreeMap::new(alloc);
    for head in heads {
        keep_first(&mut sizes, page_key(&head.key, head.twin), head.size)?;
    }
    Ok(sizes)
}

/// The size of the page that the row names, if there is such a page.
fn page_size<'a>(sizes: &BTreeMap<RowKey<'a>, u64>, row: &'a VpageRow) -> Option<u64>
    ensures { (heads : List PageHead) → HasPageSizes heads sizes.now → result ≡ page_size_in row.now.key row.now.twin heads }
{
    sizes.get(&page_key(&row.key, row.twin)).copied()
}

/// Notes a row that names no page.
fn judge_name<'a>(
    alloc: Global,
    sizes: &BTreeMap<RowKey<'a>, u64>,
    row: &'a VpageRow,
    found: &mut Found,
) -> Result<(), Down>
    ensures { (heads : List PageHead) → HasPageSizes heads sizes.now → OnOk result (Judges (Breaks (NamesPage heads row.now) (place_fault TextFault row.now)) (NamesPage heads row.now) found.old found.new) }
{
    match page_size(sizes, row) {
        Some(_) => Ok(()),
        None => found.note(
            alloc,
            FaultKind::Text,
            row.org.as_str(),
            row.ws.as_str(),
            Some(row.number),
        ),
    }
}

/// Notes each row that names no page.
fn judge_names<'a>(
    alloc: Global,
    sizes: &BTreeMap<RowKey<'a>, u64>,
    vpages: &'a [(i64, VpageRow)],
    found: &mut Found,
) -> Result<(), Down>
    ensures { (heads : List PageHead) → HasPageSizes heads sizes.now → OnOk result (Judges (PagesMissing heads vpages.now) (AllByRecursion (λ x. NamesPage heads x.1) vpages.now) found.old found.new) }
{
    for row in vpages {
        judge_name(alloc, sizes, &row.1, found)?;
    }
    Ok(())
}

/// Of each place of a version how many bytes the page has that it names, if it is there.
fn pieces_of<'a>(
    alloc: Global,
    sizes: &BTreeMap<RowKey<'a>, u64>,
    vpages: &'a [(i64, VpageRow)],
) -> Result<BTreeMap<RowKey<'a>, Option<u64>>, Down>
    ensures { (heads : List PageHead) → HasPageSizes heads sizes.now → IfOk result (HasPieces heads vpages.now) }
{
    let mut pieces = BTreeMap::new(alloc);
    for row in vpages {
        let vpage = &row.1;
        keep_first(
            &mut pieces,
            place_key(&vpage.org, &vpage.ws, vpage.number, vpage.place),
            page_size(sizes, vpage),
        )?;
    }
    Ok(pieces)
}

/// Whether the page that the place of the version names is there, with so many bytes.
fn has_size<'a>(
    pieces: &BTreeMap<RowKey<'a>, Option<u64>>,
    version: &'a VersionRow,
    place: u64,
    size: u64,
) -> bool
    ensures { (heads : List PageHead) (vpages : List (Kept VpageRow)) → HasPieces heads vpages pieces.now → (IsTrue result ↔ (piece_in version.now.org version.now.name version.now.it.number place heads vpages ≡ Some (Some size))) }
{
    let number = u64::from(version.it.number.get());
    match pieces.get(&place_key(&version.org, &version.name, number, place)) {
        Some(piece) => *piece == Some(size),
        None => false,
    }
}

/// How many of the first places of the version, in turn, name whole pages.
fn run_of<'a>(pieces: &BTreeMap<RowKey<'a>, Option<u64>>, version: &'a VersionRow) -> u64
    ensures { (heads : List PageHead) (vpages : List (Kept VpageRow)) → HasPieces heads vpages pieces.now → IsRunOf heads vpages version.now.org version.now.name version.now.it.number result }
{
    for place in 0..u64::MAX {
        if !has_size(pieces, version, place, PAGE_BYTES as u64) {
            return place;
        }
    }
    u64::MAX
}

/// The same, counted once for all rows of one version.
fn known_run<'a>(
    pieces: &BTreeMap<RowKey<'a>, Option<u64>>,
    runs: &mut BTreeMap<RowKey<'a>, u64>,
    version: &'a VersionRow,
) -> Result<u64, Down>
    ensures run { (heads : List PageHead) (vpages : List (Kept VpageRow)) → HasPieces heads vpages pieces.now → AreRuns heads vpages runs.old → IfOk result (λ run. IsRunOf heads vpages version.now.org version.now.name version.now.it.number run) }
    ensures runs { (heads : List PageHead) (vpages : List (Kept VpageRow)) → HasPieces heads vpages pieces.now → AreRuns heads vpages runs.old → OnOk result (AreRuns heads vpages runs.new) }
{
    let number = u64::from(version.it.number.get());
    let key = place_key(&version.org, &version.name, number, 0);
    let known = runs.get(&key).copied();
    match known {
        Some(run) => Ok(run),
        None => {
            let run = run_of(pieces, version);
            keep_first(runs, key, run)?;
            Ok(run)
        }
    }
}

/// Whether each page of the version's text is there, where so many of its first places name whole pages.
fn is_whole<'a>(
    pieces: &BTreeMap<RowKey<'a>, Option<u64>>,
    version: &'a VersionRow,
    run: u64,
) -> bool
    ensures { (heads : List PageHead) (vpages : List (Kept VpageRow)) → HasPieces heads vpages pieces.now → IsRunOf heads vpages version.now.org version.now.name version.now.it.number run → (IsTrue result ↔ HasTextIn heads vpages version.now) }
{
    let size = version.it.size;
    let pages = pages_of(size);
    if pages == 0 {
        return true;
    }
    let last = pages - 1;
    if run < last {
        return false;
    }
    has_size(pieces, version, last, size_of_piece(size, last))
}

/// Notes a version whose text isn't whole.
fn judge_text<'a>(
    alloc: Global,
    pieces: &BTreeMap<RowKey<'a>, Option<u64>>,
    runs: &mut BTreeMap<RowKey<'a>, u64>,
    version: &'a VersionRow,
    found: &mut Found,
) -> Result<(), Down>
    ensures judges { (heads : List PageHead) (vpages : List (Kept VpageRow)) → HasPieces heads vpages pieces.now → AreRuns heads vpages runs.old → OnOk result (Judges (Breaks (HasTextIn heads vpages version.now) (version_fault TextFault version.now)) (HasTextIn heads vpages version.now) found.old found.new) }
    ensures runs { (heads : List PageHead) (vpages : List (Kept VpageRow)) → HasPieces heads vpages pieces.now → AreRuns heads vpages runs.old → OnOk result (AreRuns heads vpages runs.new) }
{
    let run = known_run(pieces, runs, version)?;
    if is_whole(pieces, version, run) {
        return Ok(());
    }
    let number = u64::from(version.it.number.get());
    found.note(
        alloc,
        FaultKind::Text,
        version.org.as_str(),
        version.name.as_str(),
        Some(number),
    )
}

/// Notes each version whose text isn't whole. It goes over the places of a version once, however many rows the version has.
fn judge_wholes<'a>(
    alloc: Global,
    pieces: &BTreeMap<RowKey<'a>, Option<u64>>,
    versions: &'a [(i64, VersionRow)],
    found: &mut Found,
) -> Result<(), Down>
    ensures { (heads : List PageHead) (vpages : List (Kept VpageRow)) → HasPieces heads vpages pieces.now → OnOk result (Judges (TextsBroken heads vpages versions.now) (AllByRecursion (λ x. HasTextIn heads vpages x.1) versions.now) found.old found.new) }
{
    let mut runs = BTreeMap::new(alloc);
    for row in versions {
        judge_text(alloc, pieces, &mut runs, &row.1, found)?;
    }
    Ok(())
}

/// Notes each row of vpage that names no page, and each version whose text isn't whole.
pub(crate) fn judge_texts<'a>(
    alloc: Global,
    heads: &'a [PageHead],
    versions: &'a [(i64, VersionRow)],
    vpages: &'a [(i64, VpageRow)],
    found: &mut Found,
) -> Result<(), Down>
    ensures { OnOk result (Judges (λ f. PagesMissing heads.now vpages.now f ⊎ TextsBroken heads.now vpages.now versions.now f) (AllByRecursion (λ x. NamesPage heads.now x.1) vpages.now × AllByRecursion (λ x. HasTextIn heads.now vpages.now x.1) versions.now) found.old found.new) }
{
    let sizes = page_sizes_of(alloc, heads)?;
    judge_names(alloc, &sizes, vpages, found)?;
    let pieces = pieces_of(alloc, &sizes, vpages)?;
    judge_wholes(alloc, &pieces, versions, found)
}

/// Notes each fault of pages, of their places and of texts, beside pages of one key and twin number, and rows of one place.
fn judge_rows<'a>(
    alloc: Global,
    heads: &'a [PageHead],
    versions: &'a [(i64, VersionRow)],
    vpages: &'a [(i64, VpageRow)],
    found: &mut Found,
) -> Result<(), Down>
    ensures { OnOk result (Judges (OfPages heads.now versions.now vpages.now) (AreRowsSound heads.now versions.now vpages.now) found.old found.new) }
{
    judge_heads(alloc, heads, vpages, found)?;
    judge_counts(alloc, heads, vpages, found)?;
    judge_places(alloc, versions, vpages, found)?;
    judge_texts(alloc, heads, versions, vpages, found)
}

/// Notes each fault of pages, of their places and of texts.
pub(crate) fn judge_pages<'a>(
    alloc: Global,
    heads: &'a [PageHead],
    versions: &'a [(i64, VersionRow)],
    vpages: &'a [(i64, VpageRow)],
    found: &mut Found,
) -> Result<(), Down>
    ensures judges { (key_of : List ℕ → List ℕ) (t : Tables) → heads.now ≡ map (head_in key_of t) t.pages → versions.now ≡ t.versions → vpages.now ≡ t.vpages → OnOk result (Judges (OfTexts heads.now versions.now vpages.now) (AreTextsSound key_of t) found.old found.new) }
    ensures adds { OnOk result (Adds (OfTexts heads.now versions.now vpages.now) found.old.faults found.new.faults) }
{
    pages_apart(alloc, heads, found)?;
    vpages_apart(alloc, vpages, found)?;
    judge_rows(alloc, heads, versions, vpages, found)
}
