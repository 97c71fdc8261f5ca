//! The number that distinguishes a page from others with the same key.
ghost use Rattle.std.specs.Prelude.{◌≡◌, ℕ, ◌≤◌, ◌<◌, ◌^◌, pos, IfOk};
ghost use Rattle.sqlite_value.specs.Order.{column};
ghost use Rattle.basis.specs.Numbers.{within};
ghost use Rattle.statements.specs.Rows.{number};
ghost use Rattle.pages.specs.declared.twins.TheConstants.{MAX_TWIN};
ghost use Rattle.statements.specs.Calls.{IsNumber};

use sqlite::{Error, Row};
use statements::calls::{Read, signed};
use std::marker::Model;

/// The greatest twin number: SQL has no greater integer.
pub const MAX_TWIN: u64 = 9_223_372_036_854_775_807;

/// The number that distinguishes a page from others with the same key: 0 to 9,223,372,036,854,775,807.
#[derive(Clone, Copy, PartialEq, Eq)]
pub struct Twin {
    value: u64,
}

impl Model for Twin {
    ghost Value = { ℕ };

    ghost view = { λ t. t.value };

    ghost invariant = { λ t. t.value ≤ MAX_TWIN };

    ghost inverse = { λ n. record { value = n } };
}

impl Twin {
    /// The twin number of the first page with a key: 0.
    pub fn first() -> Twin
        ensures { result ≡ 0 }
    {
        Twin { value: 0 }
    }

    /// The twin number of this value; none if it is above `MAX_TWIN`.
    pub fn new(value: u64) -> Option<Twin>
        ensures { result ≡ within 0 MAX_TWIN value }
    {
        if value <= MAX_TWIN {
            Some(Twin { value })
        } else {
            None
        }
    }

    /// The number.
    pub fn get(self) -> u64
        ensures value { result ≡ self }
        ensures most { result ≤ MAX_TWIN }
    {
        self.value
    }

    /// The number as SQL's integer.
    pub fn signed(self) -> i64
        ensures value { result ≡ pos self }
        ensures fits { self < 2 ^ 63 }
    {
        signed(self.value)
    }
}

impl Read for Twin {
    ghost is_in = { IsNumber };

    fn of_row(row: &Row) -> Result<Twin, Error> {
        twin_in(row, 0)
    }
}

/// The twin number in a row.
pub(crate) fn twin_in(row: &Row, at: usize) -> Result<Twin, Error>
    ensures { IfOk result (λ twin. column row.now at ≡ number twin) }
{
    match Twin::new(row.get(at)?) {
        Some(twin) => Ok(twin),
        None => Err(Error::IntegralValueOutOfRange(at)),
    }
}
