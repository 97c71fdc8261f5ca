//! The files, the sockets and the clock of the system, for the program.
#![tactic(auto)]

mod causes;
mod clock;
mod connecting;
mod copies;
mod files;
mod laws;
mod lone_logs;
mod making;
mod old_logs;
mod pairs;
mod replays;
mod running;
mod sockets;
mod stack;
mod streams;
mod tuning;

pub use clock::SystemClock;
pub use files::{DiskFiles, FileKeep, close_file, open_file};
pub use laws::{new_files_are_served, shielded_stores_are_clean_or_digests_collide};
pub use running::run_here;
pub use sockets::{LINGER_READS, LINGER_SECONDS, Sockets, TcpSockets};
pub use stack::take_stack;
pub use streams::{Half, SystemHalf, Timed, TimedStream};
