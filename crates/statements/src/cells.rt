//! Reads the cells of a row as values, and those of a version or a run as one value.
ghost use Rattle.std.specs.Prelude.{◌≡◌, ◌<◌, ◌+◌, false, None, string_bytes, IfOk, IfErr};
ghost use Rattle.basis.specs.Names.{is_lock_id, is_prefix, is_ws_name};
ghost use Rattle.basis.specs.Numbers.{within};
ghost use Rattle.basis.specs.declared.numbers.TheConstants.{MAX_KEPT, MAX_LIMIT, MAX_MOMENT, MAX_NUMBER, MAX_SERIAL};
ghost use Rattle.sqlite_value.specs.Order.{column};
ghost use Rattle.sqlite_value.specs.declared.value.Value.TheVariants.{Text as TextCell, Blob as BlobCell};
ghost use Rattle.statements.specs.Rows.{number, role_code, status_code, number_at, flag, flag_at, bytes_at, some_bytes_at, status_at, action_code, action_at, some_action_at, version_in_row, run_in_row};
ghost use Rattle.statements.specs.Cells.{IsTextCell, IsBlobCell, IsNumberCell, IsWithin, IsLockIdCell, IsRoleCell, IsBooleanCell, IsStatusCell, IsActionCell, IsNullOr, HasVersion, HasRun, IsRefused, AreRefused};
ghost use Rattle.statements.specs.Calls.{IsVersionIn, IsRunIn, IsFlagCell, IsTextOrNull, IsNumberOrNull, IsActionOrNull};

use basis::{
    Bytes, KeepCount, Limit, LockId, Moment, Number, Role, RunAction, RunRow, RunStatus, Serial,
    Text, VersionRow, WsName, WsPrefix,
};
use sqlite::types::Type;
use sqlite::{Error, Row};

pub(crate) fn text_in(row: &Row, at: usize) -> Result<Text, Error>
    ensures is { IfOk result (λ x. x ≡ bytes_at row.now at) }
    ensures cell { IfOk result (λ x. column row.now at ≡ TextCell x) }
    ensures err { IfErr result (IsRefused IsTextCell row.now at) }
{
    Ok(Text::new(row.get(at)?))
}

pub(crate) fn bytes_in(row: &Row, at: usize) -> Result<Bytes, Error>
    ensures is { IfOk result (λ x. x ≡ bytes_at row.now at) }
    ensures cell { IfOk result (λ x. column row.now at ≡ BlobCell x) }
    ensures err { IfErr result (IsRefused IsBlobCell row.now at) }
{
    Ok(Bytes::new(row.get(at)?))
}

pub(crate) fn unsigned_in(row: &Row, at: usize) -> Result<u64, Error>
    ensures is { IfOk result (λ x. x ≡ number_at row.now at) }
    ensures cell { IfOk result (λ x. column row.now at ≡ number x) }
    ensures err { IfErr result (IsRefused IsNumberCell row.now at) }
{
    row.get(at)
}

pub(crate) fn number_in(row: &Row, at: usize) -> Result<Number, Error>
    ensures is { IfOk result (λ x. x ≡ number_at row.now at) }
    ensures cell { IfOk result (λ x. column row.now at ≡ number x) }
    ensures err { IfErr result (IsRefused (IsWithin 1 MAX_NUMBER) row.now at) }
{
    number_of(row.get(at)?, at)
}

pub(crate) fn moment_in(row: &Row, at: usize) -> Result<Moment, Error>
    ensures is { IfOk result (λ x. x ≡ number_at row.now at) }
    ensures cell { IfOk result (λ x. column row.now at ≡ number x) }
    ensures err { IfErr result (IsRefused (IsWithin 0 MAX_MOMENT) row.now at) }
{
    moment_of(row.get(at)?, at)
}

pub(crate) fn serial_in(row: &Row, at: usize) -> Result<Serial, Error>
    ensures is { IfOk result (λ x. x ≡ number_at row.now at) }
    ensures cell { IfOk result (λ x. column row.now at ≡ number x) }
    ensures err { IfErr result (IsRefused (IsWithin 0 MAX_SERIAL) row.now at) }
{
    serial_of(row.get(at)?, at)
}

/// The serial of a state. Fails with `IntegralValueOutOfRange` if it is out of range.
fn serial_of(serial: u64, at: usize) -> Result<Serial, Error>
    ensures is { IfOk result (λ x. x ≡ serial) }
    ensures exact { IfErr result (λ _. within 0 MAX_SERIAL serial ≡ None) }
{
    match Serial::new(serial) {
        Some(serial) => Ok(serial),
        None => Err(Error::IntegralValueOutOfRange(at)),
    }
}

pub(crate) fn optional_text(row: &Row, at: usize) -> Result<Option<Text>, Error>
    ensures is { IfOk result (λ x. x ≡ some_bytes_at row.now at) }
    ensures cell { IfOk result (IsTextOrNull (column row.now at)) }
    ensures err { IfErr result (IsRefused (IsNullOr IsTextCell) row.now at) }
{
    match row.get::<Option<String>>(at)? {
        Some(text) => Ok(Some(Text::new(text))),
        None => Ok(None),
    }
}

/// The number of a version or of a run. Fails with `IntegralValueOutOfRange` if it is out of range.
pub(crate) fn number_of(number: u64, at: usize) -> Result<Number, Error>
    ensures is { IfOk result (λ x. x ≡ number) }
    ensures exact { IfErr result (λ _. within 1 MAX_NUMBER number ≡ None) }
{
    match Number::new(number) {
        Some(number) => Ok(number),
        None => Err(Error::IntegralValueOutOfRange(at)),
    }
}

/// A time, from the seconds since 1970 (UTC). Fails with `IntegralValueOutOfRange` if it is out of range.
pub(crate) fn moment_of(seconds: u64, at: usize) -> Result<Moment, Error>
    ensures is { IfOk result (λ x. x ≡ seconds) }
    ensures exact { IfErr result (λ _. within 0 MAX_MOMENT seconds ≡ None) }
{
    match Moment::new(seconds) {
        Some(moment) => Ok(moment),
        None => Err(Error::IntegralValueOutOfRange(at)),
    }
}

/// The number of versions that a workspace keeps. Fails with `IntegralValueOutOfRange` if it is out of range.
pub(crate) fn retention_of(count: u64, at: usize) -> Result<KeepCount, Error>
    ensures is { IfOk result (λ x. x ≡ count) }
    ensures exact { IfErr result (λ _. within 1 MAX_KEPT count ≡ None) }
{
    match KeepCount::new(count) {
        Some(count) => Ok(count),
        None => Err(Error::IntegralValueOutOfRange(at)),
    }
}

/// The greatest number of workspaces of an organization. Fails with `IntegralValueOutOfRange` if it is out of
/// range.
pub(crate) fn limit_of(cap: u32, at: usize) -> Result<Limit, Error>
    ensures is { IfOk result (λ x. x ≡ cap) }
    ensures exact { IfErr result (λ _. MAX_LIMIT < cap) }
{
    match Limit::new(cap) {
        Some(limit) => Ok(limit),
        None => Err(Error::IntegralValueOutOfRange(at)),
    }
}

/// The ID of a lock. Fails with `InvalidColumnType` if the text is not a valid ID.
pub(crate) fn lock_id_of(id: String, at: usize) -> Result<LockId, Error>
    ensures is { IfOk result (λ x. x ≡ string_bytes id) }
    ensures exact { IfErr result (λ _. is_lock_id (string_bytes id) ≡ false) }
{
    match LockId::from_string(id) {
        Some(id) => Ok(id),
        None => Err(Error::InvalidColumnType(at, Type::Text)),
    }
}

/// The prefix of a token's workspaces. Fails with `InvalidColumnType` if the text is not a valid prefix.
pub(crate) fn prefix_of(prefix: String, at: usize) -> Result<WsPrefix, Error>
    ensures is { IfOk result (λ x. x ≡ string_bytes prefix) }
    ensures exact { IfErr result (λ _. is_prefix (string_bytes prefix) ≡ false) }
{
    match WsPrefix::from_string(prefix) {
        Some(prefix) => Ok(prefix),
        None => Err(Error::InvalidColumnType(at, Type::Text)),
    }
}

/// A workspace's name. Fails with `InvalidColumnType` if the text is not a valid name.
pub(crate) fn name_of(name: String, at: usize) -> Result<WsName, Error>
    ensures is { IfOk result (λ x. x ≡ string_bytes name) }
    ensures exact { IfErr result (λ _. is_ws_name (string_bytes name) ≡ false) }
{
    match WsName::from_string(name) {
        Some(name) => Ok(name),
        None => Err(Error::InvalidColumnType(at, Type::Text)),
    }
}

pub(crate) fn optional_number(row: &Row, at: usize) -> Result<Option<Number>, Error>
    ensures cell { IfOk result (IsNumberOrNull (column row.now at)) }
    ensures err { IfErr result (IsRefused (IsNullOr (IsWithin 1 MAX_NUMBER)) row.now at) }
{
    match row.get::<Option<u64>>(at)? {
        Some(value) => Ok(Some(number_of(value, at)?)),
        None => Ok(None),
    }
}

pub(crate) fn optional_moment(row: &Row, at: usize) -> Result<Option<Moment>, Error>
    ensures cell { IfOk result (IsNumberOrNull (column row.now at)) }
    ensures err { IfErr result (IsRefused (IsNullOr (IsWithin 0 MAX_MOMENT)) row.now at) }
{
    match row.get::<Option<u64>>(at)? {
        Some(value) => Ok(Some(moment_of(value, at)?)),
        None => Ok(None),
    }
}

pub(crate) fn optional_retention(row: &Row, at: usize) -> Result<Option<KeepCount>, Error>
    ensures cell { IfOk result (IsNumberOrNull (column row.now at)) }
    ensures err { IfErr result (IsRefused (IsNullOr (IsWithin 1 MAX_KEPT)) row.now at) }
{
    match row.get::<Option<u64>>(at)? {
        Some(value) => Ok(Some(retention_of(value, at)?)),
        None => Ok(None),
    }
}

pub(crate) fn optional_lock_id(row: &Row, at: usize) -> Result<Option<LockId>, Error>
    ensures is { IfOk result (λ x. x ≡ some_bytes_at row.now at) }
    ensures cell { IfOk result (IsTextOrNull (column row.now at)) }
    ensures err { IfErr result (IsRefused (IsNullOr IsLockIdCell) row.now at) }
{
    match row.get::<Option<String>>(at)? {
        Some(value) => Ok(Some(lock_id_of(value, at)?)),
        None => Ok(None),
    }
}

/// The role with the number in this column.
pub(crate) fn role_in(row: &Row, at: usize) -> Result<Role, Error>
    ensures cell { IfOk result (λ role. column row.now at ≡ number (role_code role)) }
    ensures err { IfErr result (IsRefused IsRoleCell row.now at) }
{
    role_of(row.get(at)?, at)
}

fn role_of(code: u64, at: usize) -> Result<Role, Error>
    ensures is { IfOk result (λ role. code ≡ role_code role) }
    ensures exact { IfErr result (λ _. 2 < code) }
{
    match code {
        0 => Ok(Role::Read),
        1 => Ok(Role::Write),
        2 => Ok(Role::Admin),
        _ => Err(Error::IntegralValueOutOfRange(at)),
    }
}

/// Whether the number in this column is 1 and not 0. Our statements write no other number, so a row with
/// another one was written by another program.
pub(crate) fn flag_in(row: &Row, at: usize) -> Result<bool, Error>
    ensures is { IfOk result (λ b. b ≡ flag_at row.now at) }
    ensures cell { IfOk result (IsFlagCell (column row.now at)) }
    ensures exact { IfOk result (λ b. column row.now at ≡ flag b) }
    ensures err { IfErr result (IsRefused IsBooleanCell row.now at) }
{
    match row.get::<u64>(at)? {
        0 => Ok(false),
        1 => Ok(true),
        _ => Err(Error::IntegralValueOutOfRange(at)),
    }
}

pub(crate) fn status_in(row: &Row, at: usize) -> Result<RunStatus, Error>
    ensures cell { IfOk result (λ status. column row.now at ≡ number (status_code status)) }
    ensures err { IfErr result (IsRefused IsStatusCell row.now at) }
{
    status_of(row.get(at)?, at)
}

fn status_of(code: u64, at: usize) -> Result<RunStatus, Error>
    ensures is { IfOk result (λ status. code ≡ status_code status) }
    ensures exact { IfErr result (λ _. 8 < code) }
{
    match code {
        0 => Ok(RunStatus::Pending),
        1 => Ok(RunStatus::Planning),
        2 => Ok(RunStatus::Planned),
        3 => Ok(RunStatus::Applying),
        4 => Ok(RunStatus::Applied),
        5 => Ok(RunStatus::PlannedAndFinished),
        6 => Ok(RunStatus::Errored),
        7 => Ok(RunStatus::Discarded),
        8 => Ok(RunStatus::Canceled),
        _ => Err(Error::IntegralValueOutOfRange(at)),
    }
}

pub(crate) fn action_in(row: &Row, at: usize) -> Result<Option<RunAction>, Error>
    ensures is { IfOk result (λ x. x ≡ some_action_at row.now at) }
    ensures cell { IfOk result (IsActionOrNull (column row.now at)) }
    ensures err { IfErr result (IsRefused (IsNullOr IsActionCell) row.now at) }
{
    match row.get::<Option<u64>>(at)? {
        Some(code) => Ok(Some(action_of(code, at)?)),
        None => Ok(None),
    }
}

fn action_of(code: u64, at: usize) -> Result<RunAction, Error>
    ensures is { IfOk result (λ action. action ≡ action_at code) }
    ensures coded { IfOk result (λ action. code ≡ action_code action) }
    ensures exact { IfErr result (λ _. 6 < code) }
{
    match code {
        0 => Ok(RunAction::ReportPlanned),
        1 => Ok(RunAction::ReportUnchanged),
        2 => Ok(RunAction::Fail),
        3 => Ok(RunAction::Confirm),
        4 => Ok(RunAction::ReportApplied),
        5 => Ok(RunAction::Discard),
        6 => Ok(RunAction::Cancel),
        _ => Err(Error::IntegralValueOutOfRange(at)),
    }
}

fn status_of_row(row: &Row, at: usize) -> Result<RunStatus, Error>
    ensures is { IfOk result (λ x. x ≡ status_at (number_at row.now at)) }
    ensures cell { IfOk result (λ x. column row.now at ≡ number (status_code x)) }
    ensures err { IfErr result (IsRefused IsStatusCell row.now at) }
{
    status_in(row, at)
}

/// The version in a row, from this column on.
pub(crate) fn version_in(row: &Row, at: u8) -> Result<VersionRow, Error>
    ensures is { IfOk result (λ x. x ≡ version_in_row row.now at) }
    ensures cells { IfOk result (IsVersionIn at row.now) }
    ensures err { IfErr result (AreRefused (HasVersion at) row.now (at + 4)) }
{
    let at = usize::from(at);
    Ok(VersionRow {
        number: number_in(row, at)?,
        serial: serial_in(row, at + 1)?,
        created: moment_in(row, at + 3)?,
        size: unsigned_in(row, at + 4)?,
        lineage: text_in(row, at + 2)?,
    })
}

/// The run in a row, from this column on.
pub(crate) fn run_in(row: &Row, at: u8) -> Result<RunRow, Error>
    ensures is { IfOk result (λ x. x ≡ run_in_row row.now at) }
    ensures cells { IfOk result (IsRunIn at row.now) }
    ensures err { IfErr result (AreRefused (HasRun at) row.now (at + 6)) }
{
    let at = usize::from(at);
    Ok(RunRow {
        number: number_in(row, at)?,
        plan_only: flag_in(row, at + 1)?,
        created: moment_in(row, at + 4)?,
        status: status_of_row(row, at + 5)?,
        action: action_in(row, at + 6)?,
        message: text_in(row, at + 3)?,
        key: optional_text(row, at + 2)?,
    })
}
