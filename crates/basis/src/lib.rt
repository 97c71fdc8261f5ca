//! Names, numbers, moments, roles, refusals and rows: the words that every layer of custody shares.
//!
//! A type that is read from text has a reader that answers `Ok` exactly for the syntax, and keeps the
//! text. Contracts see a name or a text as the list of its bytes, and a number as itself.
#![tactic(auto)]

pub mod acts;
pub mod memory;
pub mod names;
pub mod numbers;
pub mod refusals;
pub mod roles;
pub mod rows;
pub mod runs;
pub mod texts;

pub use acts::{Query, WsAct};
pub use memory::{Down, Unfit};
pub use names::{LockId, OrgName, Secret, WsName, WsPrefix, is_free_id, is_run_id};
pub use numbers::{KeepCount, Limit, Moment, Number, Serial};
pub use refusals::{Allow, Refusal};
pub use roles::{Bounds, Caller, Role};
pub use rows::{
    Holder, HolderId, Listing, RunAsk, RunRow, RunSettings, Settings, SettingsAsk, StateHead,
    VersionRow, WsRow,
};
pub use runs::{RunAction, RunStatus};
pub use texts::{Bytes, Items, Text};
