//! Numbers of versions and runs, moments, serials and limits.
ghost use Rattle.std.specs.Prelude.{◌≡◌, ℕ, ◌<◌, ◌≤◌, Some, None, IfOk, IfErr};
ghost use Rattle.basis.specs.Numbers.{whole_of, number_of, within};
ghost use Rattle.basis.specs.Inner.Numbers.{begins_plainly};
ghost use Rattle.basis.specs.declared.numbers.TheConstants.{MAX_NUMBER, MAX_MOMENT, MAX_SERIAL, MAX_LIMIT, MAX_KEPT, FIRST_KEPT};

use crate::memory::Unfit;
use std::marker::Model;

/// The greatest number of a version or a run.
pub const MAX_NUMBER: u32 = 1_000_000_000;

/// The last second of the year 9999, in seconds since 1970 (UTC).
pub const MAX_MOMENT: u64 = 253_402_300_799;

/// The greatest serial of a state: 2 ^ 63 - 1.
pub const MAX_SERIAL: u64 = 9_223_372_036_854_775_807;

/// The greatest limit of an organization's workspaces.
pub const MAX_LIMIT: u32 = 100_000;

/// The limit that an organization has at first.
pub const FIRST_LIMIT: u32 = 200;

/// The most versions that a workspace may be set to keep.
pub const MAX_KEPT: u32 = 1_000;

/// How many versions a workspace keeps that isn't set to keep another number.
pub const FIRST_KEPT: u32 = 100;

/// The number of a version or a run: 1 to 1,000,000,000.
#[derive(Clone, Copy, PartialEq, Eq)]
pub struct Number {
    value: u32,
}

impl Model for Number {
    ghost Value = { ℕ };

    ghost view = { λ n. n.value };

    ghost invariant = { λ n. (1 ≤ n.value) × (n.value ≤ MAX_NUMBER) };

    ghost inverse = { λ n. record { value = n } };
}

impl Number {
    /// The number that digits without a leading zero write. It takes no memory, so it is never `Down`.
    pub fn read(text: &str) -> Result<Number, Unfit>
        ensures ok { IfOk result (λ n. number_of text.now ≡ Some n) }
        ensures syntax { IfErr result (λ unfit. (unfit ≡ Unfit.Syntax) × (number_of text.now ≡ None)) }
    {
        match whole_number(text).and_then(Number::new) {
            Some(number) => Ok(number),
            None => Err(Unfit::Syntax),
        }
    }

    pub fn new(value: u64) -> Option<Number>
        ensures { result ≡ within 1 MAX_NUMBER value }
    {
        if 1 <= value && value <= MAX_NUMBER as u64 {
            Some(Number {
                value: value as u32,
            })
        } else {
            None
        }
    }

    pub fn get(self) -> u32
        ensures value { result ≡ self }
        ensures least { 1 ≤ result }
        ensures most { result ≤ MAX_NUMBER }
    {
        self.value
    }
}

/// A moment, in whole seconds since 1970 (UTC): 0 to 253,402,300,799, the end of the year 9999.
#[derive(Clone, Copy, PartialEq, Eq)]
pub struct Moment {
    seconds: u64,
}

impl Model for Moment {
    ghost Value = { ℕ };

    ghost view = { λ m. m.seconds };

    ghost invariant = { λ m. m.seconds ≤ MAX_MOMENT };

    ghost inverse = { λ n. record { seconds = n } };
}

impl Moment {
    pub fn new(seconds: u64) -> Option<Moment>
        ensures { result ≡ within 0 MAX_MOMENT seconds }
    {
        if seconds <= MAX_MOMENT {
            Some(Moment { seconds })
        } else {
            None
        }
    }

    /// Seconds since 1970.
    pub fn seconds(self) -> u64
        ensures value { result ≡ self }
        ensures most { result ≤ MAX_MOMENT }
    {
        self.seconds
    }
}

/// The serial of a state, which counts its changes: 0 to 9,223,372,036,854,775,807.
#[derive(Clone, Copy, PartialEq, Eq)]
pub struct Serial {
    value: u64,
}

impl Model for Serial {
    ghost Value = { ℕ };

    ghost view = { λ s. s.value };

    ghost invariant = { λ s. s.value ≤ MAX_SERIAL };

    ghost inverse = { λ n. record { value = n } };
}

impl Serial {
    pub fn new(value: u64) -> Option<Serial>
        ensures { result ≡ within 0 MAX_SERIAL value }
    {
        if value <= MAX_SERIAL {
            Some(Serial { value })
        } else {
            None
        }
    }

    pub fn get(self) -> u64
        ensures value { result ≡ self }
        ensures most { result ≤ MAX_SERIAL }
    {
        self.value
    }
}

/// How many workspaces an organization may have: 0 to 100,000.
#[derive(Clone, Copy, PartialEq, Eq)]
pub struct Limit {
    value: u32,
}

impl Model for Limit {
    ghost Value = { ℕ };

    ghost view = { λ l. l.value };

    ghost invariant = { λ l. l.value ≤ MAX_LIMIT };

    ghost inverse = { λ n. record { value = n } };
}

impl Limit {
    pub fn new(value: u32) -> Option<Limit>
        ensures { result ≡ within 0 MAX_LIMIT value }
    {
        if value <= MAX_LIMIT {
            Some(Limit { value })
        } else {
            None
        }
    }

    /// No workspace at all: 0.
    pub fn none() -> Limit
        ensures { result ≡ 0 }
    {
        Limit { value: 0 }
    }

    pub fn get(self) -> u32
        ensures value { result ≡ self }
        ensures most { result ≤ MAX_LIMIT }
    {
        self.value
    }
}

/// How many versions a workspace keeps: 1 to 1,000.
#[derive(Clone, Copy, PartialEq, Eq)]
pub struct KeepCount {
    value: u32,
}

impl Model for KeepCount {
    ghost Value = { ℕ };

    ghost view = { λ k. k.value };

    ghost invariant = { λ k. (1 ≤ k.value) × (k.value ≤ MAX_KEPT) };

    ghost inverse = { λ n. record { value = n } };
}

impl KeepCount {
    pub fn new(value: u64) -> Option<KeepCount>
        ensures { result ≡ within 1 MAX_KEPT value }
    {
        if 1 <= value && value <= MAX_KEPT as u64 {
            Some(KeepCount {
                value: value as u32,
            })
        } else {
            None
        }
    }

    /// What a workspace keeps that isn't set to keep another number: 100.
    pub fn first() -> KeepCount
        ensures { result ≡ FIRST_KEPT }
    {
        KeepCount { value: FIRST_KEPT }
    }

    pub fn get(self) -> u32
        ensures value { result ≡ self }
        ensures least { 1 ≤ result }
        ensures most { result ≤ MAX_KEPT }
    {
        self.value
    }
}

/// The whole number that digits without a leading zero write, below 2 ^ 64; `0` stands alone.
pub fn whole_number(text: &str) -> Option<u64>
    ensures { result ≡ whole_of text.now }
{
    if !begins_plainly(text.as_bytes()) {
        return None;
    }
    text.parse::<u64>().ok()
}

// Whether no plus and no leading zero stands first.
fn begins_plainly(text: &[u8]) -> bool
    ensures { result ≡ begins_plainly text.now }
{
    match text {
        [b'+', ..] => false,
        [b'0', ..] => text.len() == 1,
        _ => true,
    }
}
