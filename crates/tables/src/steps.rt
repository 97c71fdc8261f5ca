//! What a change of a workspace does to the tables, inside one transaction.
ghost use Rattle.std.specs.Prelude.{◌≡◌, ◌+◌, true, false, cond, is_some, option_map, None};
ghost use Rattle.sqlite.specs.Held.{state};
ghost use Rattle.statements.specs.Changes.{run_acted};
ghost use Rattle.statements.specs.Finds.{size_of, workspace_of, oldest_below};
ghost use Rattle.statements.specs.Steps.{Steps, Reports};
ghost use Rattle.tables.specs.Inner.Edits.{version_gone, oldest_gone, gone_below, all_gone, removed_rows, made_rows, configured_rows, numbered_rows, row_added, added_rows, versioned_rows, run_put, run_counted, run_rows, freed_rows, edited_rows, begun_rows, changed_rows, FitsTwins, TakesVersion, TakesEdit};
ghost use Rattle.tables.specs.Inner.Copies.{RelatedSteps};
ghost use Rattle.tables.specs.Inner.Keys.{KeepsKeys};
ghost use Rattle.tables.specs.Inner.Steps.{KeyedSteps};

use basis::numbers::{MAX_KEPT, MAX_NUMBER};
use basis::{Holder, Moment, Number, RunAction, RunAsk, RunStatus, Settings, Text, VersionRow};
use machine::{Change, Edit, Version};
use pages::PageKey;
use sqlite::{Alter, Error, Transaction};
use statements::{retentions, runs, versions, workspaces};

/// The greatest number of versions that are removed at once: a workspace keeps no more, and one more has been
/// added before others are removed.
const MOST_GONE: usize = MAX_KEPT as usize + 1;

/// No version has this number or a greater one.
const BEYOND: u32 = MAX_NUMBER + 1;

/// Removes a version with its text.
fn remove_version<S: Alter>(
    tx: &mut Transaction<'_, S>,
    org: &str,
    ws: &str,
    head: &VersionRow,
) -> Result<(), Error>
    ensures { Steps S.Store (version_gone org.now ws.now head.now) tx.old tx.new result }
{
    versions::remove(tx, org, ws, head.number)?;
    texts::remove_text(tx, org, ws, head.number, head.size)
}

/// Removes the version with the least number among those with numbers below `below`. Returns whether more may
/// be left: false if there was none, or if the last possible number was removed.
fn remove_oldest<S: Alter>(
    tx: &mut Transaction<'_, S>,
    org: &str,
    ws: &str,
    below: u32,
) -> Result<bool, Error>
    ensures steps { Steps S.Store (oldest_gone org.now ws.now below) tx.old tx.new result }
    ensures left { Reports (λ more t. more ≡ false → oldest_below org.now ws.now below (oldest_gone org.now ws.now below t) ≡ None) (state S.Store tx.old.conn.now) (state S.Store tx.new.conn.now) result }
{
    match versions::oldest_below(tx, org, ws, below)? {
        None => Ok(false),
        Some(head) => {
            remove_version(tx, org, ws, &head)?;
            let number = head.number.get();
            Ok(number + 1 < below)
        }
    }
}

/// Removes the versions with numbers below `below`, one after the other.
fn remove_below<S: Alter>(
    tx: &mut Transaction<'_, S>,
    org: &str,
    ws: &str,
    below: u32,
) -> Result<(), Error>
    ensures { Steps S.Store (gone_below org.now ws.now below) tx.old tx.new result }
{
    if !remove_oldest(tx, org, ws, below)? {
        return Ok(());
    }
    'versions: for gone in 1..MOST_GONE {
        if !remove_oldest(tx, org, ws, below)? {
            return Ok(());
        }
    }
    Ok(())
}

/// Removes the versions of a workspace, with their texts.
fn purge<S: Alter>(tx: &mut Transaction<'_, S>, org: &str, ws: &str) -> Result<(), Error>
    ensures { Steps S.Store (all_gone org.now ws.now) tx.old tx.new result }
{
    remove_below(tx, org, ws, BEYOND)
}

/// Removes a workspace with its versions and runs.
pub(crate) fn remove<S: Alter>(
    tx: &mut Transaction<'_, S>,
    org: &str,
    ws: &str,
) -> Result<(), Error>
    ensures { Steps S.Store (removed_rows org.now ws.now) tx.old tx.new result }
{
    purge(tx, org, ws)?;
    runs::remove_all(tx, org, ws)?;
    workspaces::remove(tx, org, ws)
}

/// Creates a workspace. If this succeeds, its name did not exist before, so it has no versions and no runs.
fn make_workspace<S: Alter>(
    tx: &mut Transaction<'_, S>,
    org: &str,
    ws: &str,
    settings: &Settings,
) -> Result<(), Error>
    ensures steps { Steps S.Store (made_rows org.now ws.now settings.now) tx.old tx.new result }
    ensures fresh { Reports (λ _ t. workspace_of org.now ws.now t ≡ None) (state S.Store tx.old.conn.now) (state S.Store tx.new.conn.now) result }
{
    workspaces::add(tx, org, ws, settings.runs, settings.retention)
}

/// Adds the row of a version after the others. If this succeeds, no version had its number.
fn add_row<S: Alter>(
    tx: &mut Transaction<'_, S>,
    org: &str,
    ws: &str,
    version: &Version,
) -> Result<(), Error>
    ensures steps { Steps S.Store (row_added org.now ws.now version.now) tx.old tx.new result }
    ensures fresh { Reports (λ _ t. size_of org.now ws.now version.now.number t ≡ None) (state S.Store tx.old.conn.now) (state S.Store tx.new.conn.now) result }
{
    let lineage = version.lineage.as_str();
    let size = version.text.as_slice().len() as u64;
    versions::add(
        tx,
        org,
        ws,
        version.number,
        version.serial,
        lineage,
        version.created,
        size,
    )
}

/// The number before this one, if there is one.
fn previous(number: Number) -> Option<Number> {
    Number::new(number.get() as u64 - 1)
}

/// Adds a version after the others, with its text.
pub(crate) fn add<K: PageKey, S: Alter>(
    tx: &mut Transaction<'_, S>,
    org: &str,
    ws: &str,
    version: &Version,
) -> Result<(), Error>
    ensures adds { KeyedSteps S.Store (λ keys. added_rows keys org.now ws.now version.now) (λ keys. FitsTwins keys org.now ws.now version.now) tx.old tx.new result }
    ensures fresh { Reports (λ _ t. size_of org.now ws.now version.now.number t ≡ None) (state S.Store tx.old.conn.now) (state S.Store tx.new.conn.now) result }
    ensures keyed { RelatedSteps S.Store (KeepsKeys K.key_of) tx.old tx.new result }
{
    let text = version.text.as_slice();
    let before = previous(version.number);
    add_row(tx, org, ws, version)?;
    texts::add_text::<K, S>(tx, org, ws, version.number, before, text)
}

/// Sets the number of the next version to the one after this version's. Fails if there is no such workspace.
fn count_on<S: Alter>(
    tx: &mut Transaction<'_, S>,
    org: &str,
    ws: &str,
    version: &Version,
) -> Result<(), Error>
    ensures steps { Steps S.Store (numbered_rows org.now ws.now version.now) tx.old tx.new result }
    ensures found { Reports (λ _ t. is_some (workspace_of org.now ws.now t) ≡ true) (state S.Store tx.old.conn.now) (state S.Store tx.new.conn.now) result }
{
    let number = version.number.get();
    if !workspaces::set_next_version(tx, org, ws, number + 1)? {
        return Err(Error::QueryReturnedNoRows);
    }
    Ok(())
}

/// Removes the versions with numbers up to this one.
fn forget<S: Alter>(
    tx: &mut Transaction<'_, S>,
    org: &str,
    ws: &str,
    last: Number,
) -> Result<(), Error>
    ensures { Steps S.Store (gone_below org.now ws.now (last + 1)) tx.old tx.new result }
{
    let last = last.get();
    remove_below(tx, org, ws, last + 1)
}

/// Sets the settings of a workspace, and removes the versions with numbers up to `outgoing`.
fn configure<S: Alter>(
    tx: &mut Transaction<'_, S>,
    org: &str,
    ws: &str,
    settings: &Settings,
    outgoing: Option<Number>,
) -> Result<(), Error>
    ensures { Steps S.Store (configured_rows org.now ws.now settings.now outgoing) tx.old tx.new result }
{
    workspaces::set_run_settings(tx, org, ws, settings.runs)?;
    retentions::set(tx, org, ws, settings.retention)?;
    match outgoing {
        None => Ok(()),
        Some(last) => forget(tx, org, ws, last),
    }
}

/// Adds a version after the others, and removes those with numbers up to `outgoing`.
fn put<K: PageKey, S: Alter>(
    tx: &mut Transaction<'_, S>,
    org: &str,
    ws: &str,
    version: &Version,
    outgoing: Option<Number>,
) -> Result<(), Error>
    ensures puts { KeyedSteps S.Store (λ keys. versioned_rows keys org.now ws.now version.now outgoing) (λ keys. TakesVersion keys org.now ws.now version.now) tx.old tx.new result }
    ensures keyed { RelatedSteps S.Store (KeepsKeys K.key_of) tx.old tx.new result }
{
    count_on(tx, org, ws, version)?;
    add::<K, S>(tx, org, ws, version)?;
    match outgoing {
        None => Ok(()),
        Some(last) => forget(tx, org, ws, last),
    }
}

pub(crate) fn optional_str(text: &Option<Text>) -> Option<&str>
    ensures { option_map (λ s. s.now) result ≡ text.now }
{
    match text {
        None => None,
        Some(text) => Some(text.as_str()),
    }
}

/// The status of a new run.
fn first_status(plan_only: bool) -> RunStatus
    ensures { result ≡ cond plan_only RunStatus.Planning RunStatus.Pending }
{
    if plan_only {
        RunStatus::Planning
    } else {
        RunStatus::Pending
    }
}

/// Adds a run after the others.
fn append_run<S: Alter>(
    tx: &mut Transaction<'_, S>,
    org: &str,
    ws: &str,
    number: Number,
    ask: &RunAsk,
    created: Moment,
) -> Result<(), Error>
    ensures { Steps S.Store (run_put org.now ws.now number ask.now created) tx.old tx.new result }
{
    let key = optional_str(&ask.key);
    let message = ask.message.as_str();
    let status = first_status(ask.plan_only);
    runs::add(
        tx,
        org,
        ws,
        number,
        ask.plan_only,
        key,
        message,
        created,
        status,
        None,
    )
}

/// Sets the number of the next run to the one after this run's. Fails if there is no such workspace.
fn count_run<S: Alter>(
    tx: &mut Transaction<'_, S>,
    org: &str,
    ws: &str,
    number: Number,
) -> Result<(), Error>
    ensures steps { Steps S.Store (run_counted org.now ws.now number) tx.old tx.new result }
    ensures found { Reports (λ _ t. is_some (workspace_of org.now ws.now t) ≡ true) (state S.Store tx.old.conn.now) (state S.Store tx.new.conn.now) result }
{
    let number = number.get();
    if !workspaces::set_next_run(tx, org, ws, number + 1)? {
        return Err(Error::QueryReturnedNoRows);
    }
    Ok(())
}

/// Adds a run after the others, and sets the number of the next run.
fn add_run<S: Alter>(
    tx: &mut Transaction<'_, S>,
    org: &str,
    ws: &str,
    number: Number,
    ask: &RunAsk,
    created: Moment,
) -> Result<(), Error>
    ensures { Steps S.Store (run_rows org.now ws.now number ask.now created) tx.old tx.new result }
{
    count_run(tx, org, ws, number)?;
    append_run(tx, org, ws, number, ask, created)
}

/// Stores an action on a run. If it frees the workspace, this has no holder any more.
fn report<S: Alter>(
    tx: &mut Transaction<'_, S>,
    org: &str,
    ws: &str,
    number: Number,
    action: RunAction,
    status: RunStatus,
    frees: bool,
) -> Result<(), Error>
    ensures { Steps S.Store (λ t. freed_rows frees org.now ws.now (run_acted status action org.now ws.now number t)) tx.old tx.new result }
{
    runs::record_action(tx, org, ws, number, status, action)?;
    if frees {
        workspaces::hold(tx, org, ws, &Holder::Nobody)
    } else {
        Ok(())
    }
}

/// Edits a workspace.
fn edit<K: PageKey, S: Alter>(
    tx: &mut Transaction<'_, S>,
    org: &str,
    ws: &str,
    edit: &Edit,
) -> Result<(), Error>
    ensures edits { KeyedSteps S.Store (λ keys. edited_rows keys org.now ws.now edit.now) (λ keys. TakesEdit keys org.now ws.now edit.now) tx.old tx.new result }
    ensures keyed { RelatedSteps S.Store (KeepsKeys K.key_of) tx.old tx.new result }
{
    match edit {
        Edit::Make(settings) => make_workspace(tx, org, ws, settings),
        Edit::Configure { settings, outgoing } => configure(tx, org, ws, settings, *outgoing),
        Edit::Remove => remove(tx, org, ws),
        Edit::AddVersion { version, outgoing } => put::<K, S>(tx, org, ws, version, *outgoing),
        Edit::Purge => purge(tx, org, ws),
        Edit::Hold { id, text } => workspaces::hold_by_lock(tx, org, ws, id, text.as_slice()),
        Edit::Release(id) => workspaces::release_lock(tx, org, ws, id),
        Edit::AddRun {
            number,
            ask,
            created,
        } => add_run(tx, org, ws, *number, ask, *created),
        Edit::Report {
            number,
            action,
            status,
            frees,
        } => report(tx, org, ws, *number, *action, *status, *frees),
    }
}

/// Makes the run with this number the holder, and sets its status to planning.
fn start<S: Alter>(
    tx: &mut Transaction<'_, S>,
    org: &str,
    ws: &str,
    number: Number,
) -> Result<(), Error>
    ensures { Steps S.Store (begun_rows org.now ws.now number) tx.old tx.new result }
{
    workspaces::hold(tx, org, ws, &Holder::Run(number))?;
    runs::set_status(tx, org, ws, number, RunStatus::Planning)
}

/// Changes a workspace.
pub(crate) fn change<K: PageKey, S: Alter>(
    tx: &mut Transaction<'_, S>,
    org: &str,
    ws: &str,
    change: &Change,
) -> Result<(), Error>
    ensures changes { KeyedSteps S.Store (λ keys. changed_rows keys org.now ws.now change.now) (λ keys. TakesEdit keys org.now ws.now change.now.edit) tx.old tx.new result }
    ensures keyed { RelatedSteps S.Store (KeepsKeys K.key_of) tx.old tx.new result }
{
    edit::<K, S>(tx, org, ws, &change.edit)?;
    match change.start {
        None => Ok(()),
        Some(number) => start(tx, org, ws, number),
    }
}
