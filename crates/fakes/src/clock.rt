//! A clock that stands still.
ghost use Rattle.std.specs.Prelude.{◌≡◌};

use basis::Moment;
use program::environment::Clock;

/// A clock that gives one moment, or none, whenever it is asked.
#[derive(Drop)]
pub struct StandingClock {
    pub moment: Option<Moment>,
}

impl Clock for StandingClock {
    ghost reports = { λ old reported new. (reported ≡ old.moment) × (new ≡ old) };

    fn now(&mut self) -> Option<Moment> {
        self.moment
    }
}
