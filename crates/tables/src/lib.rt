//! The store of all organizations in tables: what the rows denote, and when tables are sound.
#![tactic(auto)]

mod askers;
mod callers;
mod comparisons;
mod copies;
mod counts;
mod imports;
mod keep;
pub mod laws;
mod listings;
mod loading;
mod memo;
mod opening;
mod operators;
mod points;
mod removals;
mod runs;
mod sames;
mod scans;
mod sizes;
mod steps;
mod store;
mod transactions;
mod versions;

pub use opening::{has_any_of_ours, older_version};
pub use store::{SqlKeep, Unopened};
