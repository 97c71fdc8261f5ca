//! Whether the tables of a database are defined as ours: each definition is compared part by part with that
//! of our text.
#![tactic(auto)]

mod alike;
mod ours;
mod own;

pub use ours::others;
