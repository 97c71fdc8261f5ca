//! A law of services over a store in memory, the contract of a call that does nothing.
ghost use Rattle.fakes.specs.Services.{VacantPathsAreServed};

use crate::files::MemoryFile;
use machine::{Keep, PlainKeep};
use program::environment::{Clock, Connections, Files};

/// From the words of `serve` and a path at which nothing lies, over a store in memory, to the replies on the connections: of
/// every run of `run_words`.
pub fn vacant_paths_are_served<'a, N: Connections, C: Clock>()
    ensures { VacantPathsAreServed ⟦<PlainKeep as Keep>⟧ ⟦<MemoryFile<'a> as Files<PlainKeep>>⟧ N.Connections C.Clock N.Reader.Inlet N.Writer.Outlet }
{}
