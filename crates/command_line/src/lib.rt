//! The command line of `custody`: its commands, in `clap`'s terms, and what words ask for.
#![tactic(auto)]

mod addresses;
mod arguments;
pub mod bounds;
mod misfits;
mod orders;
pub mod timeouts;
mod words;

pub use addresses::Address;
pub use arguments::Argument;
pub use orders::{NewToken, Order, UNLIMITED};
pub use words::{Unasked, VERSION, read_words};
