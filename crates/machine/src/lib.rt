//! The rules of custody over one organization's workspaces, without store, messages or documents: what each
//! act does to a workspace, who may write, and `Keep`, the trait of a store of organizations.
#![tactic(auto)]

pub mod acts;
pub mod decisions;
mod edits;
pub mod keeps;
pub mod laws;
mod lists;
mod locks;
pub mod maps;
mod needs;
mod organizations;
mod outcomes;
pub mod plain;
pub mod records;
pub mod run_steps;
mod runs;
mod states;
pub mod texts;
mod units;
mod workspaces;

pub use acts::{
    Act, Answer, Change, Decision, Edit, Needs, Newest, Shown, Staying, Unit, WorkspaceUnit,
};
pub use decisions::{MAX_OPEN_RUNS, decide};
pub use keeps::{AdminAnswer, Fault, Keep, OrgRow, TokenRow};
pub use laws::{
    accepted_acts_come_again, accepted_texts_stand, actions_come_again, askers_ask_by_their_tokens,
    held_versions_change_by_the_id, holds_until_released, hundred_runs_are_let_in,
    keyed_creations_come_again, locked_workspaces_stay, nothing_is_read_of_a_purge, numbers_rise,
    one_run_is_active, pages_follow, plan_only_runs_stay_out, puts_leave_what_they_ask,
    refusals_change_nothing, refusals_name_the_holder, repeats_change_nothing, runs_start_in_order,
    runs_stay, same_things_are_equal_records, settles_once, versions_change_by_the_id,
    versions_follow, what_is_posted_is_read, workspaces_begin_anew, workspaces_go_by_delete,
    writes_carry_the_id,
};
pub use maps::NameMap;
pub use plain::PlainKeep;
pub use records::{Organization, Token, Version, Workspace};
pub use run_steps::next_status;
pub use texts::StateText;
