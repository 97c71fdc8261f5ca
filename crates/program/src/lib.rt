//! The program `custody` over any files, connections and clock: words and streams in, an exit status out.
#![tactic(auto)]

mod batches;
mod carrying;
mod checking;
mod copying;
pub mod environment;
mod errors;
pub mod exits;
pub mod frame_headers;
pub mod frames;
mod laws;
mod line_faults;
mod listening;
mod logs;
mod openings;
mod operating;
mod operators;
pub mod reasons;
mod removing;
pub mod replays;
pub mod replies;
pub mod running;
mod secrets;
pub mod serving;
mod starting;
pub mod streams;
pub mod totals;

pub use command_line::{Address, timeouts};
pub use laws::{
    copied_organizations_go_on, copies_to_none_are_the_same, done_copies_are_equal, services_begin,
    stopped_copies_go_on,
};
