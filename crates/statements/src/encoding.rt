//! Encodes values as the numbers by which SQL keeps them.
ghost use Rattle.std.specs.Prelude.{◌≡◌, ◌≤◌, pos, option_map};
ghost use Rattle.basis.specs.declared.numbers.TheConstants.{MAX_MOMENT, MAX_SERIAL};
ghost use Rattle.statements.specs.Rows.{role_code, status_code, action_code};
ghost use Rattle.statements.specs.Calls.{LimitsTo};

use crate::calls::signed;
use basis::{Moment, Role, RunAction, RunStatus, Serial};

/// The argument of LIMIT for at most `most` rows. SQL has no integers from 2^63 on; for these it is -1, which
/// is no limit.
pub(crate) fn limit(most: usize) -> i64
    ensures { LimitsTo most result }
{
    let most = most as u64;
    if most <= i64::MAX as u64 {
        signed(most)
    } else {
        -1
    }
}

/// A time in seconds since 1970 (UTC), as SQL's integer.
pub(crate) fn seconds(moment: Moment) -> i64
    ensures number { result ≡ pos moment }
    ensures most { moment ≤ MAX_MOMENT }
{
    signed(moment.seconds())
}

/// The serial of a state, as SQL's integer.
pub(crate) fn signed_serial(serial: Serial) -> i64
    ensures number { result ≡ pos serial }
    ensures most { serial ≤ MAX_SERIAL }
{
    signed(serial.get())
}

/// The same for a time that may be absent.
pub(crate) fn optional_seconds(moment: Option<Moment>) -> Option<i64>
    ensures { result ≡ option_map pos moment }
{
    match moment {
        Some(moment) => Some(seconds(moment)),
        None => None,
    }
}

/// The number of a role in the database.
pub(crate) fn role_number(role: Role) -> u32
    ensures { result ≡ role_code role }
{
    match role {
        Role::Read => 0,
        Role::Write => 1,
        Role::Admin => 2,
    }
}

/// The number of a run's status in the database.
pub(crate) fn status_number(status: RunStatus) -> u32
    ensures { result ≡ status_code status }
{
    match status {
        RunStatus::Pending => 0,
        RunStatus::Planning => 1,
        RunStatus::Planned => 2,
        RunStatus::Applying => 3,
        RunStatus::Applied => 4,
        RunStatus::PlannedAndFinished => 5,
        RunStatus::Errored => 6,
        RunStatus::Discarded => 7,
        RunStatus::Canceled => 8,
    }
}

/// The number of an action in the database.
pub(crate) fn action_number(action: RunAction) -> u32
    ensures { result ≡ action_code action }
{
    match action {
        RunAction::ReportPlanned => 0,
        RunAction::ReportUnchanged => 1,
        RunAction::Fail => 2,
        RunAction::Confirm => 3,
        RunAction::ReportApplied => 4,
        RunAction::Discard => 5,
        RunAction::Cancel => 6,
    }
}

/// The same for an action that may be absent.
pub(crate) fn optional_action_number(action: Option<RunAction>) -> Option<u32>
    ensures { result ≡ option_map action_code action }
{
    match action {
        Some(action) => Some(action_number(action)),
        None => None,
    }
}
