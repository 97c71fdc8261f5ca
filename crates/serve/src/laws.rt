//! Laws of steps and runs, each the contract of a call that does nothing.
ghost use Rattle.serve.specs.Laws.{OneAsking, TwoWorlds, SameStepsAskTheSame, RefusedStepsChangeNothing, OutOfReachIsNotFound, OutOfReachIsAsAbsent, OutsideThePrefixIsNotFound, OutsideThePrefixIsAsAbsent, NamesDecideNothing, SecretsAreNotLogged, ExchangesAreServed, EachIsServedAlone, OwnersAreTold, ServedKeepCustody, AsksInTurn, ServedInTurn, TwoServedWorlds};
ghost use Rattle.serve.specs.Custody.{StepsChangeWhatTheyName, LocksAreKept, OrganizationsGoByRemoval, RemovalsAreCarriedOut, OrganizationsBeginAnew, StepsAreRepeatable, RepeatsLeaveTheWorkspace, LockedNamesTheHolder, SameBytesAskAgain, RequestsChangeTheirWorkspaceAlone};
ghost use Rattle.serve.specs.AtDoor.{ListersChangeNothing, LoggedOperatorsAsk, OnlyTheSecretOpens, WithoutTheSecret, WrongSecretsAreAlike, AddedSecretsAreNotLogged};
ghost use Rattle.serve.specs.Book.{BooksAreOfTheRun, PeriodsAreTheStepsBetween, CustodyIsKept};
ghost use Rattle.serve.specs.AbsentForms.{ServedTellAbsentForms};
ghost use Rattle.serve.specs.Promises.{ServicesAreAsPromised};

/// The steps of a list ask one list of things.
pub fn one_asking()
    ensures { OneAsking }
{}

/// Two worlds: take two runs that are, for an organization, those of its own machine (as `replay`'s are, by
/// its clause `isolation`). It gets equal replies and equal records afterwards if both begin with
/// equal records of it and ask the same in its own steps, whatever else differs.
pub fn two_worlds()
    ensures { TwoWorlds }
{}

/// Own steps that came alike, moments and bytes or commands, ask the same.
pub fn same_steps_ask_the_same()
    ensures { SameStepsAskTheSame }
{}

/// A refusal leaves the record equal, of every step.
pub fn refusals_change_nothing()
    ensures { RefusedStepsChangeNothing }
{}

/// A request whose caller and role pass, and which is out of the caller's reach, is answered
/// `not-found`, whatever it asks: PUT of a workspace and the list of workspaces, too.
pub fn out_of_reach_is_not_found()
    ensures { OutOfReachIsNotFound }
{}

/// A request that is out of the caller's reach has the answer of the same request on a workspace that
/// the caller's own organization lacks, and changes nothing either.
pub fn out_of_reach_is_as_absent()
    ensures { OutOfReachIsAsAbsent }
{}

/// A request whose caller and role pass, and whose workspace is outside the caller's prefix, is
/// answered `not-found`, whatever it asks: PUT of a workspace, too.
pub fn outside_the_prefix_is_not_found()
    ensures { OutsideThePrefixIsNotFound }
{}

/// A request whose workspace is outside the caller's prefix has the answer of the same request on a
/// workspace that the caller's own organization lacks, and changes nothing either.
pub fn outside_the_prefix_is_as_absent()
    ensures { OutsideThePrefixIsAsAbsent }
{}

/// A step changes at most the workspace that it names; the removal of the organization takes all of them.
pub fn steps_change_what_they_name()
    ensures { StepsChangeWhatTheyName }
{}

/// What a step of an organization's machine leaves of a workspace that a lock holds, of every record:
/// the workspace; its versions, or the step carried the lock's ID; and the lock with its text, or the
/// step released it; or the organization was removed by force.
pub fn locks_are_kept()
    ensures { LocksAreKept }
{}

/// Only the operator's removal ends an organization, and it refuses one in use unless it is forced. An organization
/// that is added again begins anew.
pub fn organizations_go_by_removal()
    ensures alone { OrganizationsGoByRemoval }
    ensures carried_out { RemovalsAreCarriedOut }
    ensures anew { OrganizationsBeginAnew }
{}

/// What is asked again, not before, while the record is as the first time left it, changes nothing
/// more. At an earlier moment a token that has ended may still count.
pub fn steps_are_repeatable()
    ensures { StepsAreRepeatable }
{}

/// What was accepted and is asked again, at whatever moment, while its workspace is as the first time
/// left it, changes nothing more.
pub fn repeats_leave_the_workspace()
    ensures { RepeatsLeaveTheWorkspace }
{}

/// The body of a 423 is the holder's.
pub fn locked_names_the_holder()
    ensures { LockedNamesTheHolder }
{}

/// The same bytes at another moment ask the same again.
pub fn same_bytes_ask_again()
    ensures { SameBytesAskAgain }
{}

/// A request that leaves the workspace that it names equal leaves the whole record equal.
pub fn requests_change_their_workspace_alone()
    ensures { RequestsChangeTheirWorkspaceAlone }
{}

/// The book of a workspace has what the machine of its organization says, step by step, and ends with
/// the workspace that it leaves.
pub fn books_are_of_the_run()
    ensures { BooksAreOfTheRun }
{}

/// The periods of a book, one after the other, are the steps before which what they are of is so.
pub fn periods_are_the_steps_between()
    ensures { PeriodsAreTheStepsBetween }
{}

/// What a token is called decides nothing: it is for the log alone.
pub fn names_decide_nothing()
    ensures { NamesDecideNothing }
{}

/// The log shows no secret: the row of a request follows from what else is asked, and from the token's
/// name and caller.
pub fn secrets_are_not_logged()
    ensures { SecretsAreNotLogged }
{}

/// Operators who may only list change nothing, and do not end the service.
pub fn listers_change_nothing()
    ensures { ListersChangeNothing }
{}

/// The operator whom a line of the log names brought the secret of that operator.
pub fn logged_operators_ask()
    ensures { LoggedOperatorsAsk }
{}

/// No secret of an added token is told: the log's row of the command has none.
pub fn added_secrets_are_not_logged()
    ensures { AddedSecretsAreNotLogged }
{}

/// Nobody without the secret of an operator, which counts, changes anything at the operator's door.
pub fn only_the_secret_opens()
    ensures { OnlyTheSecretOpens }
{}

/// Without the operator's secret a message at the door is told the refusal of its method, of its query or of the secret, in
/// this order. The last is told whether or not memory is short.
pub fn without_the_secret()
    ensures { WithoutTheSecret }
{}

/// Messages at the door that are refused for their secrets get the same reply and the same row, whatever the secrets are.
pub fn wrong_secrets_are_alike()
    ensures { WrongSecretsAreAlike }
{}

/// Custody: its eight laws hold of the book of each workspace, over whatever is asked, as steps of `replay` or as
/// exchanges of a service.
pub fn custody_is_kept()
    ensures { CustodyIsKept }
{}

/// An exchange is one of `Served`: it carries out what its bytes ask and writes what is said to it, or carries nothing out.
pub fn exchanges_are_served()
    ensures { ExchangesAreServed }
{}

/// Isolation of exchanges in a row, at whatever door: of every organization, what its own exchanges wrote and its record
/// afterwards are those of its own machine, fed only its own.
pub fn each_is_served_alone()
    ensures alone { EachIsServedAlone }
    ensures told { OwnersAreTold }
{}

/// Custody of exchanges in a row.
pub fn served_keep_custody()
    ensures { ServedKeepCustody }
{}

/// Services in turn: what the second serves from the records that the first left is, with what the first served, one run.
pub fn served_in_turn()
    ensures exchanges { ServedInTurn }
    ensures asks { AsksInTurn }
{}

/// Exchanges in a row answer what is out of a caller's reach, or outside its prefix, as if it were absent.
pub fn served_tell_absent_forms()
    ensures { ServedTellAbsentForms }
{}

/// Exchanges in a row are as promised: isolation, replies, absent forms, the operator's secret, custody.
pub fn services_are_as_promised()
    ensures { ServicesAreAsPromised }
{}

/// Two worlds of exchanges.
pub fn two_served_worlds()
    ensures { TwoServedWorlds }
{}
