//! One exchange, operator's commands and replay, over any keep.
#![tactic(auto)]

mod apart;
pub mod bounds;
mod checks;
mod commands;
mod doors;
mod exchanges;
mod laws;
pub mod lines;
mod lists;
mod logs;
mod messages;
pub mod operators;
pub mod parts;
mod requests;
mod service;
pub mod steps;
pub mod words;

pub use apart::services_apart_are_one;
pub use doors::Door;
pub use exchanges::LinkFault;
pub use laws::{
    added_secrets_are_not_logged, books_are_of_the_run, custody_is_kept, each_is_served_alone,
    exchanges_are_served, listers_change_nothing, locked_names_the_holder, locks_are_kept,
    logged_operators_ask, names_decide_nothing, one_asking, only_the_secret_opens,
    organizations_go_by_removal, out_of_reach_is_as_absent, out_of_reach_is_not_found,
    outside_the_prefix_is_as_absent, outside_the_prefix_is_not_found,
    periods_are_the_steps_between, refusals_change_nothing, repeats_leave_the_workspace,
    requests_change_their_workspace_alone, same_bytes_ask_again, same_steps_ask_the_same,
    secrets_are_not_logged, served_in_turn, served_keep_custody, served_tell_absent_forms,
    services_are_as_promised, steps_are_repeatable, steps_change_what_they_name, two_served_worlds,
    two_worlds, without_the_secret, wrong_secrets_are_alike,
};
pub use lists::{write_org_lines, write_token_lines};
pub use operators::{Operator, Operators};
pub use service::Service;
pub use steps::{Admin, Step};
