//! Reads the text of stories, and takes a story's steps over any store.
#![tactic(auto)]

pub mod books;
pub mod breaking;
pub mod definitions;
pub mod devices;
pub mod failures;
mod joined;
pub mod keyed;
pub mod lines;
pub mod links;
pub mod messages;
pub mod modes;
mod pieces;
pub mod plays;
pub mod recovering;
pub mod refusals;
pub mod refusing;
pub mod reports;
pub mod requests;
pub mod stopping;
pub mod stores;
pub mod taking;
