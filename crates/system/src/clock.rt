//! The clock of the system.
ghost use Rattle.std.specs.Prelude.{◌≡◌, ⊤};
ghost use Rattle.std.specs.Time.{system_time_nanos};
ghost use Rattle.system.specs.Clock.{moment_at};

use basis::Moment;
use program::environment::Clock;
use std::rt::HostRuntime;
use std::time::{SystemTime, UNIX_EPOCH};

/// A system time in whole seconds since 1970. None after the last second of the year 9999. The system's clock gives no time
/// before 1970.
fn moment_of(time: SystemTime) -> Option<Moment>
    ensures { result ≡ moment_at (system_time_nanos time) }
{
    let since = time.duration_since(UNIX_EPOCH).ok()?;
    Moment::new(since.as_secs())
}

/// The clock of the system.
#[derive(Drop)]
pub struct SystemClock<'a> {
    rt: &'a HostRuntime,
}

impl<'a> SystemClock<'a> {
    pub fn new(rt: &'a HostRuntime) -> SystemClock<'a> {
        SystemClock { rt }
    }
}

impl Clock for SystemClock<'_> {
    // No contract says what the clock of the system tells.
    ghost reports = { λ _ _ _. ⊤ };

    fn now(&mut self) -> Option<Moment> {
        let now = SystemTime::now(self.rt).ok()?;
        moment_of(now)
    }
}
