//! What a message asks: its path, its query and its bearer token, and the role that the act needs.
#![tactic(auto)]

mod asks;
mod doors;
mod laws;
mod policies;
mod routes;
mod tokens;

pub use asks::asked;
pub use doors::{digest_brought, is_at_door};
pub use laws::methods_are_listed;
pub use policies::allowed;
pub use routes::{Asked, AskedAct, Routes};
pub use tokens::secret_digest;
