//! How long a peer may keep the service waiting.
ghost use Rattle.std.specs.Prelude.{◌≡◌, ◌≤◌, ℕ};
ghost use Rattle.basis.specs.Numbers.{within};
ghost use Rattle.command_line.specs.declared.timeouts.TheConstants.{MAX_SECONDS};

use std::marker::Model;

/// The longest timeout, in seconds.
pub const MAX_SECONDS: u64 = 3_600;

/// How long one read or write of a connection waits by default, in seconds.
pub const IDLE_SECONDS: u64 = 10;

/// How long a connection lasts by default, in seconds.
pub const MOST_SECONDS: u64 = 120;

/// A timeout, in whole seconds: 1 to 3,600.
#[derive(Clone, Copy)]
pub struct Seconds {
    value: u64,
}

impl Model for Seconds {
    ghost Value = { ℕ };

    ghost view = { λ s. s.value };

    ghost invariant = { λ s. (1 ≤ s.value) × (s.value ≤ MAX_SECONDS) };

    ghost inverse = { λ n. record { value = n } };
}

impl Seconds {
    pub fn new(value: u64) -> Option<Seconds>
        ensures { result ≡ within 1 MAX_SECONDS value }
    {
        if 1 <= value && value <= MAX_SECONDS {
            Some(Seconds { value })
        } else {
            None
        }
    }

    pub fn get(self) -> u64
        ensures value { result ≡ self }
        ensures least { 1 ≤ result }
        ensures most { result ≤ MAX_SECONDS }
    {
        self.value
    }
}

/// The timeouts of a connection.
#[derive(Clone, Copy)]
pub struct Timeouts {
    /// A read or a write that makes no progress for this long fails.
    pub idle: Seconds,
    /// The time since the accept after which every read and write fails.
    pub most: Seconds,
}
