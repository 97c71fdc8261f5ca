//! Texts of versions, stored as pages that they share.
#![tactic(auto)]

mod ahead;
mod places;
mod reading;
mod scans;
mod texts;

pub use scans::vpages;
pub use texts::{PAGE_BYTES, add_text, remove_text, same_text, text};
