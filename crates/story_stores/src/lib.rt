//! A story's steps tried over stores: values and tables in memory, links that break, files whose power is cut.
#![tactic(auto)]

mod all_rows;
mod asks;
pub mod beside;
mod callers;
pub mod cuts;
mod images;
pub mod kept;
mod keys;
mod laws;
mod listed;
mod parts;
mod records;
pub mod resuming;
pub mod stops;
pub mod ways;
