//! Pages of texts, shared by all organizations. A page is stored once, under its key and a twin number, with
//! the number of its uses.
#![tactic(auto)]

pub mod keys;
mod rows;
mod scans;
mod store;
mod twins;

pub use keys::{PageKey, ShaKey};
pub use scans::heads;
pub use store::{PageId, get, put, put_known, put_own, release, same};
pub use twins::Twin;
