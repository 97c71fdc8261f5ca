//! Laws of what is copied and of services, each the contract of a call that does nothing.
ghost use Rattle.program.specs.Moves.{CopiedOrganizationsGoOn, DoneCopiesAreEqual, CopiesToNoneAreTheSame, StoppedCopiesGoOn};
ghost use Rattle.program.specs.Services.{ServicesBegin};

use crate::environment::{Clock, Connections, Files};
use machine::Keep;

/// A copied organization continues where it was: a run where it was copied from, the copy, and a
/// run where it was copied to are one run of its own machine.
pub fn copied_organizations_go_on()
    ensures { CopiedOrganizationsGoOn }
{}

/// If a copy succeeds, the target's record is the source's, and the target had none before.
pub fn done_copies_are_equal()
    ensures { DoneCopiesAreEqual }
{}

/// If every organization is copied to a store that had none, both stores have the same records.
pub fn copies_to_none_are_the_same()
    ensures { CopiesToNoneAreTheSame }
{}

/// If some organizations were copied before, and then all are, the records are those of a single copy.
pub fn stopped_copies_go_on()
    ensures { StoppedCopiesGoOn }
{}

/// From the words of `serve` and a path without an organization to the replies on the connections: of every run of `run_words`.
pub fn services_begin<K: Keep, F: Files<K>, N: Connections, C: Clock>()
    ensures { ServicesBegin K.Keep F.Files N.Connections C.Clock N.Reader.Inlet N.Writer.Outlet }
{}
