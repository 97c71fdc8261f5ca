//! Laws of the rules. Each is the contract of a function that does nothing.
ghost use Rattle.machine.specs.Sameness.{SameThingsAreEqualRecords};
ghost use Rattle.machine.specs.Removal.{DeleteAsksTheSame};
ghost use Rattle.machine.specs.Settling.{SettlesOnce};
ghost use Rattle.machine.specs.Tokens.{AskersAskByTheirTokens};
ghost use Rattle.machine.specs.Paging.{WorkspacePagesFollow, VersionPagesFollow, RunPagesFollow, WorkspacesAreShown, VersionsAreShown, RunsAreShown};
ghost use Rattle.machine.specs.Queue.{OneRunIsActive, PlanOnlyRunsStayOut, RunsStartInOrder, RunsStay, ActionsComeAgain, KeyedCreationsComeAgain, HundredRunsAreLetIn, NoMoreRunsAreLetIn};
ghost use Rattle.machine.specs.Versions.{NewestVersionsFollow, KeptVersionsFollow, AcceptedTextsStand, FollowingTextsAreAccepted, PutsLeaveWhatTheyAsk, PutsMakeWhatTheyAsk};
ghost use Rattle.machine.specs.Custody.{AcceptedActsComeAgain, HeldVersionsChangeByTheId, HoldsUntilReleased, LockedWorkspacesStay, NothingIsReadOfAPurge, NumbersRise, RefusalsChangeNothing, RefusalsNameTheHolder, RepeatsChangeNothing, VersionsChangeByTheId, WhatIsPostedIsRead, WorkspacesBeginAnew, WorkspacesGoByDelete, WritesCarryTheId};

/// A refusal leaves the workspace as it is.
pub fn refusals_change_nothing()
    ensures { RefusalsChangeNothing }
{}

/// A refusal that names a holder names the workspace's holder.
pub fn refusals_name_the_holder()
    ensures { RefusalsNameTheHolder }
{}

/// An accepted update or purge carried the holder's ID, or none if the workspace has no holder. If a run is
/// the holder, it was applying.
pub fn writes_carry_the_id()
    ensures { WritesCarryTheId }
{}

/// While a workspace has a holder, its versions change only by an accepted update or purge that carried the
/// holder's ID.
pub fn held_versions_change_by_the_id()
    ensures { HeldVersionsChangeByTheId }
{}

/// While a lock holds a workspace, its versions change only by an update or a purge that carried the lock's
/// ID.
pub fn versions_change_by_the_id()
    ensures { VersionsChangeByTheId }
{}

/// A lock holds, with the text that took it, until an UNLOCK by its ID or a forced release.
pub fn holds_until_released()
    ensures { HoldsUntilReleased }
{}

/// No act deletes a workspace that a lock holds.
pub fn locked_workspaces_stay()
    ensures { LockedWorkspacesStay }
{}

/// A workspace is deleted only by DELETE, and only if no lock holds it and no run is open.
pub fn workspaces_go_by_delete()
    ensures { WorkspacesGoByDelete }
{}

/// DELETE of a workspace that is in use is refused. DELETE of one that is not in use deletes it.
pub fn delete_asks_the_same()
    ensures { DeleteAsksTheSame }
{}

/// A workspace that is created starts empty, even if one of the same name was deleted before.
pub fn workspaces_begin_anew()
    ensures { WorkspacesBeginAnew }
{}

/// GET returns the text that was posted.
pub fn what_is_posted_is_read()
    ensures { WhatIsPostedIsRead }
{}

/// After a purge GET finds no state.
pub fn nothing_is_read_of_a_purge()
    ensures { NothingIsReadOfAPurge }
{}

/// The next numbers never fall. The next number of versions rises exactly if a version is added. A version
/// that is kept is unchanged.
pub fn numbers_rise()
    ensures { NumbersRise }
{}

/// Each version follows the one before it: its serial is greater, and their lineages are equal or one is
/// empty. This holds for the newest version before and after every act, and for the versions that are kept.
pub fn versions_follow()
    ensures newest { NewestVersionsFollow }
    ensures kept { KeptVersionsFollow }
{}

/// An accepted text is kept under the next number and with its time, or it is that of the newest version
/// already. Of the versions the newest are kept, as many as the workspace keeps and no fewer. A text that the
/// holder posts and that follows the newest version is accepted while a number is left.
pub fn accepted_texts_stand()
    ensures stands { AcceptedTextsStand }
    ensures accepted { FollowingTextsAreAccepted }
{}

/// An accepted PUT sets the settings that it asks for. Of the versions the newest are kept, as many as the
/// workspace then keeps and no fewer.
pub fn puts_leave_what_they_ask()
    ensures there { PutsLeaveWhatTheyAsk }
    ensures made { PutsMakeWhatTheyAsk }
{}

/// If an act is repeated on the workspace that it left, at any time, it changes nothing more. This
/// excludes the creation of a run without a key.
pub fn repeats_change_nothing()
    ensures { RepeatsChangeNothing }
{}

/// The same holds for an accepted act that left no workspace.
pub fn accepted_acts_come_again()
    ensures { AcceptedActsComeAgain }
{}

/// In a workspace whose runs have rising numbers, settling has exactly one result, and the rules give it.
pub fn settles_once()
    ensures { SettlesOnce }
{}

/// After every act at most one queued run is active: planning, planned or applying.
pub fn one_run_is_active()
    ensures { OneRunIsActive }
{}

/// After every act a plan-only run neither waits nor holds the workspace.
pub fn plan_only_runs_stay_out()
    ensures { PlanOnlyRunsStayOut }
{}

/// A run that starts was waiting, or the act creates it. The runs that are still waiting have greater
/// numbers.
pub fn runs_start_in_order()
    ensures { RunsStartInOrder }
{}

/// No act that leaves the workspace removes a run. It takes a run at most one step further: the run starts,
/// or takes an action.
pub fn runs_stay()
    ensures { RunsStay }
{}

/// If an accepted action is repeated, whatever happened in between, it changes nothing.
pub fn actions_come_again()
    ensures { ActionsComeAgain }
{}

/// If an accepted creation of a run with a key is repeated, whatever happened in between, it changes nothing.
pub fn keyed_creations_come_again()
    ensures { KeyedCreationsComeAgain }
{}

/// A run with a new key is created if fewer than 100 runs are open and a number is left. It is refused if 100
/// are open.
pub fn hundred_runs_are_let_in()
    ensures let_in { HundredRunsAreLetIn }
    ensures no_more { NoMoreRunsAreLetIn }
{}

/// Pages of a list follow one another: the list after a page's last item is what the page left out. This
/// holds for workspaces, versions and runs. A reader that asks for the next page after each page's last item,
/// while more follow, sees the whole list, each item once, in order. A page that more items follow has 50
/// items.
pub fn pages_follow()
    ensures workspaces { WorkspacePagesFollow }
    ensures versions { VersionPagesFollow }
    ensures runs { RunPagesFollow }
    ensures all_workspaces { WorkspacesAreShown }
    ensures all_versions { VersionsAreShown }
    ensures all_runs { RunsAreShown }
{}

/// Lawful organizations that hold the same things are equal records, whatever the order in which these were
/// created. So two stores that hold the same things have equal records.
pub fn same_things_are_equal_records()
    ensures { SameThingsAreEqualRecords }
{}

/// The caller that is found with a token's name by a digest is the caller of the organization's token with
/// that digest.
pub fn askers_ask_by_their_tokens()
    ensures { AskersAskByTheirTokens }
{}
