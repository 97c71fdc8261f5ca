//! The documents of custody: what requests bring, as values, and what replies and the log show, as bytes.
//!
//! A reader takes any bytes. It answers `Ok` exactly with the value of its definition, and `Bad` only
//! where there is none. A body is compact JSON, with its keys in the order of their bytes, and so is a
//! line of the log.
#![tactic(auto)]

pub mod bodies;
pub mod digests;
pub mod documents;
mod escapes;
pub mod faults;
mod flags;
mod heads;
pub mod listings;
pub mod logs;
mod put;
mod run_settings;

pub use bodies::{write_error, write_run, write_run_holder, write_ws};
pub use digests::digest_fits;
pub use documents::{read_lock, read_run, read_settings, read_state};
pub use faults::DocFault;
pub use listings::{write_run_list, write_version_list, write_ws_list};
pub use logs::{LogAct, LogRow, OperatorAct, write_log_line};
