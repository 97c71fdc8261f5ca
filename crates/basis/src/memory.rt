//! Want of memory, and why a text isn't a value.
ghost use Rattle.basis.specs.declared.memory.Unfit.TheVariants.{Down as NoMemory};
ghost use Rattle.std.specs.Prelude.{◌≡◌};

use std::alloc::{AllocError, AllocFailed};
use std::error::Error;
use std::fmt;

/// Memory or the store refused. After it, all rows are as they were before the call.
#[derive(Clone, Copy, Debug, PartialEq, Eq)]
pub struct Down;

impl fmt::Display for Down {
    ghost use Rattle.std.specs.Prelude.{Some, codes};

    ghost output = { λ _. Some (codes "memory or the store refused") };

    fn fmt<W: fmt::Write>(&self, f: &mut fmt::Formatter<W>) -> fmt::Result {
        f.write_str("memory or the store refused")
    }
}

impl Error for Down {}

impl From<AllocError> for Down {
    fn from(_error: AllocError) -> Down {
        Down
    }
}

impl<T: Drop> From<AllocFailed<T>> for Down {
    fn from(_error: AllocFailed<T>) -> Down {
        Down
    }
}

/// Why a text was not read.
#[derive(Clone, Copy, Debug, PartialEq, Eq)]
pub enum Unfit {
    /// The text isn't of the type's syntax.
    Syntax,
    /// The text is of the syntax, and memory to keep it was refused.
    Down,
}

impl fmt::Display for Unfit {
    ghost use Rattle.std.specs.Prelude.{Some};
    ghost use Rattle.basis.specs.Memory.{unfit_text};

    ghost output = { λ unfit. Some (unfit_text unfit) };

    fn fmt<W: fmt::Write>(&self, f: &mut fmt::Formatter<W>) -> fmt::Result {
        f.write_str(match self {
            Self::Syntax => "the text isn't of the syntax",
            Self::Down => "memory was refused",
        })
    }
}

impl Error for Unfit {}

impl From<AllocError> for Unfit {
    ghost from_gives = { λ _ unfit. unfit ≡ NoMemory };

    fn from(_error: AllocError) -> Unfit {
        Unfit::Down
    }
}
