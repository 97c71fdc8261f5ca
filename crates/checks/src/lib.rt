//! Whether tables are defined as ours, whether the rows of all tables are sound, and which faults they have.
#![tactic(auto)]

mod counts;
mod defined;
mod fault_checks;
mod firsts;
mod found;
mod groups;
mod heads;
mod keys;
mod lines;
mod missing;
mod owners;
mod places;
mod ranges;
mod runs;
mod stored_version;
mod stores;
mod totals;
mod versions;
mod workspaces;

pub use fault_checks::faults;
pub use found::{Fault, FaultKind, Found, MAX_FAULTS};
pub use lines::fault_line;
pub use stores::{Findings, check};
pub use totals::Totals;
