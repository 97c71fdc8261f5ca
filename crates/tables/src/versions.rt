//! Versions of a workspace, read from the tables: the newest, one by its number, their texts, and those to be removed.
ghost use Rattle.std.specs.Prelude.{◌≡◌, false, cond, is_some, option_copied, option_map, Some, None, unwrap_or};
ghost use Rattle.basis.specs.declared.numbers.TheConstants.{FIRST_KEPT};
ghost use Rattle.sqlite.specs.Held.{state};
ghost use Rattle.statements.specs.Finds.{size_of};
ghost use Rattle.statements.specs.Steps.{Equals, Sees};
ghost use Rattle.texts.specs.Texts.{text_of};
ghost use Rattle.machine.specs.Units.{if_needed};
ghost use Rattle.tables.specs.Inner.Steps.{EndsIdle, ReadsCommitted};
ghost use Rattle.tables.specs.Inner.Units.{text_in, has_text, retention_in, number_before, has_version_in, number_behind, outgoing_in};
ghost use Rattle.tables.specs.Inner.Points.{sized_by, sized_in, size_asked, size_from, text_by};

use crate::transactions::assert_committed;
use basis::{Bytes, KeepCount, Number, VersionRow};
use machine::{Newest, Staying};
use sqlite::{Alter, Connection, Error};
use statements::{retentions, versions};
use std::alloc::Global;

/// The number of a version, and the number of bytes of its text.
#[derive(Drop)]
pub(crate) struct VersionSize {
    pub(crate) number: Number,
    pub(crate) size: u64,
}

/// What a decision needs of the newest version, and the number of bytes of its text.
#[derive(Drop)]
pub(crate) struct SizedNewest {
    pub(crate) newest: Newest,
    pub(crate) size: u64,
}

/// The text of a version, whose size is looked up; none if the version is not kept.
fn text_found<S: Alter>(
    conn: &mut Connection<S>,
    alloc: Global,
    org: &str,
    ws: &str,
    number: Number,
) -> Result<Option<Bytes>, Error>
    requires idle { conn.old.in_transaction ≡ false }
    ensures ends { EndsIdle S.Store conn.old conn.new }
    ensures unchanged { ReadsCommitted (Equals (text_in org.now ws.now number)) (state S.Store conn.old) (state S.Store conn.new) result }
{
    assert_committed(conn);
    match versions::size(conn, org, ws, number)? {
        None => Ok(None),
        Some(size) => Ok(Some(texts::text(alloc, conn, org, ws, number, size)?)),
    }
}

/// The text of a version whose size is known.
fn text_sized<S: Alter>(
    conn: &mut Connection<S>,
    alloc: Global,
    org: &str,
    ws: &str,
    number: Number,
    size: u64,
) -> Result<Option<Bytes>, Error>
    requires idle { conn.old.in_transaction ≡ false }
    ensures ends { EndsIdle S.Store conn.old conn.new }
    ensures unchanged { ReadsCommitted (Equals (λ t. Some (text_of org.now ws.now number size t))) (state S.Store conn.old) (state S.Store conn.new) result }
{
    assert_committed(conn);
    let text = texts::text(alloc, conn, org, ws, number, size)?;
    Ok(Some(text))
}

/// The text of a version; none if the version is not kept. Its size may be known.
pub(crate) fn text<S: Alter>(
    conn: &mut Connection<S>,
    alloc: Global,
    org: &str,
    ws: &str,
    number: Number,
    known: Option<u64>,
) -> Result<Option<Bytes>, Error>
    requires idle { conn.old.in_transaction ≡ false }
    ensures ends { EndsIdle S.Store conn.old conn.new }
    ensures unchanged { ReadsCommitted (Equals (text_by known org.now ws.now number)) (state S.Store conn.old) (state S.Store conn.new) result }
{
    match known {
        None => text_found(conn, alloc, org, ws, number),
        Some(size) => text_sized(conn, alloc, org, ws, number, size),
    }
}

/// Whether a version has the text that it is compared with. The text of a version of another size is not
/// read.
fn has_text<S: Alter>(
    conn: &mut Connection<S>,
    org: &str,
    ws: &str,
    text: Option<&[u8]>,
    head: &VersionRow,
) -> Result<bool, Error>
    ensures unchanged { Sees S.Store (Equals (has_text (option_copied text.entry) org.now ws.now head.now)) conn.old conn.new result }
{
    let Some(text) = text else {
        return Ok(false);
    };
    if head.size == text.len() as u64 {
        texts::same_text(conn, org, ws, head.number, text)
    } else {
        Ok(false)
    }
}

/// What a decision needs of the newest version, and the size of its text, from its row.
fn newest_as<S: Alter>(
    conn: &mut Connection<S>,
    org: &str,
    ws: &str,
    text: Option<&[u8]>,
    head: VersionRow,
) -> Result<SizedNewest, Error>
    ensures unchanged { Sees S.Store (Equals (λ t. sized_by (option_copied text.entry) org.now ws.now t head)) conn.old conn.new result }
{
    let is_same = has_text(conn, org, ws, text, &head)?;
    Ok(SizedNewest {
        newest: Newest {
            number: head.number,
            serial: head.serial,
            lineage: head.lineage,
            is_same,
        },
        size: head.size,
    })
}

/// What a decision needs of the newest version, and the size of its text, if there is such a version and it
/// is needed.
pub(crate) fn newest<S: Alter>(
    conn: &mut Connection<S>,
    org: &str,
    ws: &str,
    needed: bool,
    text: Option<&[u8]>,
) -> Result<Option<SizedNewest>, Error>
    ensures unchanged { Sees S.Store (Equals (λ t. if_needed needed (sized_in (option_copied text.entry) org.now ws.now t))) conn.old conn.new result }
{
    if !needed {
        return Ok(None);
    }
    match versions::newest(conn, org, ws)? {
        None => Ok(None),
        Some(head) => Ok(Some(newest_as(conn, org, ws, text, head)?)),
    }
}

/// The number of versions that a workspace keeps, by its row of keeping. Without such a row it is that of a
/// new workspace.
pub(crate) fn kept(retention: Option<KeepCount>) -> KeepCount
    ensures { result ≡ unwrap_or retention FIRST_KEPT }
{
    match retention {
        None => KeepCount::first(),
        Some(retention) => retention,
    }
}

/// The number of versions that a workspace keeps, if that is needed; otherwise that of a new workspace.
pub(crate) fn retention<S: Alter>(
    conn: &mut Connection<S>,
    org: &str,
    ws: &str,
    needed: bool,
) -> Result<KeepCount, Error>
    ensures unchanged { Sees S.Store (Equals (retention_in needed org.now ws.now)) conn.old conn.new result }
{
    if !needed {
        return Ok(KeepCount::first());
    }
    let found = retentions::find(conn, org, ws)?;
    Ok(kept(found))
}

/// The number that is followed by `staying` others before the next number.
fn number_before(next_version: u64, staying: u32) -> Option<Number>
    ensures { result ≡ number_before next_version staying }
{
    Number::new(next_version.saturating_sub(1 + staying as u64))
}

fn number_if(is_kept: bool, number: Option<Number>) -> Option<Number>
    ensures { result ≡ cond is_kept number None }
{
    if is_kept { number } else { None }
}

/// The number of the newest version that is followed by `staying` others, since the versions' numbers have no
/// gap.
fn number_behind<S: Alter>(
    conn: &mut Connection<S>,
    org: &str,
    ws: &str,
    next_version: u64,
    staying: u32,
) -> Result<Option<Number>, Error>
    ensures unchanged { Sees S.Store (Equals (number_behind next_version staying org.now ws.now)) conn.old conn.new result }
{
    let is_kept = has_version(conn, org, ws, number_before(next_version, staying))?;
    Ok(number_if(is_kept, number_before(next_version, staying)))
}

/// The greatest number of the versions to be removed from a workspace that keeps `retention` versions: the
/// versions that are kept follow it.
pub(crate) fn outgoing<S: Alter>(
    conn: &mut Connection<S>,
    org: &str,
    ws: &str,
    staying: Staying,
    retention: KeepCount,
    next_version: u64,
) -> Result<Option<Number>, Error>
    ensures unchanged { Sees S.Store (Equals (outgoing_in staying retention next_version org.now ws.now)) conn.old conn.new result }
{
    match staying {
        Staying::StayAll => Ok(None),
        Staying::MakeRoom => number_behind(conn, org, ws, next_version, retention.get() - 1),
        Staying::StayAtMost(most) => number_behind(conn, org, ws, next_version, most.get()),
    }
}

/// Whether the version with this number is kept.
fn is_kept<S: Alter>(
    conn: &mut Connection<S>,
    org: &str,
    ws: &str,
    number: Number,
) -> Result<bool, Error>
    ensures unchanged { Sees S.Store (Equals (λ t. is_some (size_of org.now ws.now number t))) conn.old conn.new result }
{
    let size = versions::size(conn, org, ws, number)?;
    Ok(size.is_some())
}

/// The version with this number, if it is kept.
fn version_found<S: Alter>(
    conn: &mut Connection<S>,
    org: &str,
    ws: &str,
    number: Number,
) -> Result<Option<VersionSize>, Error>
    ensures unchanged { Sees S.Store (Equals (size_asked (Some number) org.now ws.now)) conn.old conn.new result }
{
    match versions::size(conn, org, ws, number)? {
        None => Ok(None),
        Some(size) => Ok(Some(VersionSize { number, size })),
    }
}

/// The version with this number, if a number is given and the version is kept.
pub(crate) fn asked_version<S: Alter>(
    conn: &mut Connection<S>,
    org: &str,
    ws: &str,
    number: Option<Number>,
) -> Result<Option<VersionSize>, Error>
    ensures unchanged { Sees S.Store (Equals (size_asked number org.now ws.now)) conn.old conn.new result }
{
    match number {
        None => Ok(None),
        Some(number) => version_found(conn, org, ws, number),
    }
}

/// Whether the version with this number is kept; false if no number is given.
fn has_version<S: Alter>(
    conn: &mut Connection<S>,
    org: &str,
    ws: &str,
    number: Option<Number>,
) -> Result<bool, Error>
    ensures unchanged { Sees S.Store (Equals (has_version_in number org.now ws.now)) conn.old conn.new result }
{
    match number {
        None => Ok(false),
        Some(number) => is_kept(conn, org, ws, number),
    }
}

/// The version that was read: the newest one, or the one that the act names.
pub(crate) fn size_by(
    newest: &Option<SizedNewest>,
    asked: Option<VersionSize>,
) -> Option<VersionSize>
    ensures { result ≡ size_from newest.now asked }
{
    match newest {
        None => asked,
        Some(newest) => Some(VersionSize {
            number: newest.newest.number,
            size: newest.size,
        }),
    }
}

/// What a decision needs of the newest version.
pub(crate) fn newest_alone(newest: Option<SizedNewest>) -> Option<Newest>
    ensures { result ≡ option_map (λ n. n.newest) newest }
{
    match newest {
        None => None,
        Some(newest) => Some(newest.newest),
    }
}
