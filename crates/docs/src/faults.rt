//! Why a document wasn't read.
ghost use Rattle.basis.specs.declared.memory.Unfit.TheVariants.{Syntax, Down as Unread};
ghost use Rattle.docs.specs.declared.faults.DocFault.TheVariants.{Bad as Refused, Down as NoMemory};
ghost use Rattle.serde_json.specs.Errors.{IsMemory};
ghost use Rattle.std.specs.Prelude.{◌≡◌};

use basis::Unfit;
use std::error::Error;
use std::fmt;

/// Why a document wasn't read.
#[derive(Clone, Copy, Debug, PartialEq, Eq)]
pub enum DocFault {
    /// The bytes aren't such a document.
    Bad,
    /// Memory was refused, and nothing is said of the bytes.
    Down,
}

impl fmt::Display for DocFault {
    ghost use Rattle.std.specs.Prelude.{Some};
    ghost use Rattle.docs.specs.Faults.{fault_text};

    ghost output = { λ fault. Some (fault_text fault) };

    fn fmt<W: fmt::Write>(&self, f: &mut fmt::Formatter<W>) -> fmt::Result {
        f.write_str(match self {
            DocFault::Bad => "the bytes aren't such a document",
            DocFault::Down => "memory was refused",
        })
    }
}

impl Error for DocFault {}

impl From<serde_json::Error> for DocFault {
    ghost from_gives = { λ error fault. (IsMemory error → fault ≡ NoMemory)
        × (¬ IsMemory error → fault ≡ Refused) };

    fn from(error: serde_json::Error) -> DocFault {
        if error.is_memory() {
            DocFault::Down
        } else {
            DocFault::Bad
        }
    }
}

impl From<basis::Down> for DocFault {
    ghost from_gives = { λ _ fault. fault ≡ NoMemory };

    fn from(_down: basis::Down) -> DocFault {
        DocFault::Down
    }
}

impl From<Unfit> for DocFault {
    ghost from_gives = { λ unfit fault. (unfit ≡ Syntax → fault ≡ Refused)
        × (unfit ≡ Unread → fault ≡ NoMemory) };

    fn from(unfit: Unfit) -> DocFault {
        match unfit {
            Unfit::Syntax => DocFault::Bad,
            Unfit::Down => DocFault::Down,
        }
    }
}
