//! A database, peers and a clock in memory, in the place of those of the system.
#![tactic(auto)]

mod clock;
mod files;
mod laws;
mod peers;

pub use clock::StandingClock;
pub use files::MemoryFile;
pub use laws::vacant_paths_are_served;
pub use peers::MemoryPeers;
