//! What a change does to a workspace in memory.
ghost use Rattle.std.specs.Prelude.{◌≡◌, Some, OnOk, OnErr, cond, false};
ghost use Rattle.std.specs.Prelude.{map as map_list};
ghost use Rattle.std.specs.FinMap as map;
ghost use Rattle.machine.specs.Records.{with_workspace};
ghost use Rattle.machine.specs.Changes.{left_above, edited, changed_by};
ghost use Rattle.machine.specs.Rules.{reported};
ghost use Rattle.basis.specs.declared.runs.RunStatus.TheVariants.{Planning};
ghost use Rattle.machine.specs.Settling.{begun, started_if};
ghost use Rattle.machine.specs.Workspaces.{new_workspace};
ghost use Rattle.machine.specs.Inner.Places.{is_removal};

use crate::acts::{Change, Edit};
use crate::maps::NameMap;
use crate::records::{Version, Workspace};
use crate::runs::new_run;
use basis::{
    Bytes, Down, Holder, Items, LockId, Moment, Number, RunAction, RunAsk, RunRow, RunStatus,
    Settings, Text,
};
use std::alloc::Global;

impl NameMap<Workspace> {
    pub(crate) fn apply(&mut self, alloc: Global, name: &str, change: &Change) -> Result<(), Down>
        ensures ok { OnOk result (self.new ≡ with_workspace self.old name.now (changed_by change.now (map.get self.old name.now))) }
        ensures err { OnErr result (self.new ≡ self.old) }
    {
        if is_removal(&change.edit) {
            self.remove(name);
            return Ok(());
        }
        match self.index_of(name) {
            Ok(i) => self.entries[i].value.change(alloc, change),
            Err(_) => match &change.edit {
                Edit::Make(settings) => {
                    let name = Text::copy_of(alloc, name)?;
                    let mut workspace = Workspace::new(alloc, *settings);
                    workspace.start(change.start);
                    self.insert(name, workspace)
                }
                // A missing workspace stays as it is.
                Edit::Configure { .. } => Ok(()),
                Edit::Remove => Ok(()),
                Edit::AddVersion { .. } => Ok(()),
                Edit::Purge => Ok(()),
                Edit::Hold { .. } => Ok(()),
                Edit::Release(_) => Ok(()),
                Edit::AddRun { .. } => Ok(()),
                Edit::Report { .. } => Ok(()),
            },
        }
    }
}

// Removes the versions with numbers up to this one.
fn forget_up_to(versions: &mut Items<Version>, last: Number)
    ensures { versions.new ≡ left_above (Some last) versions.old }
{
    versions
        .items
        .retain(|version| last.get() < version.number.get());
}

impl Workspace {
    fn new(alloc: Global, settings: Settings) -> Workspace
        ensures { result ≡ new_workspace settings }
    {
        Workspace {
            settings,
            holder: Holder::Nobody,
            released: None,
            next_version: 1,
            next_run: 1,
            versions: Items::new(Vec::new(alloc)),
            runs: Items::new(Vec::new(alloc)),
        }
    }

    fn configure(&mut self, settings: Settings, outgoing: Option<Number>)
        ensures { Some self.new ≡ edited (Edit.Configure settings outgoing) (Some self.old) }
    {
        if let Some(last) = outgoing {
            forget_up_to(&mut self.versions, last);
        }
        self.settings = settings;
    }

    fn add_version(&mut self, version: &Version, outgoing: Option<Number>) -> Result<(), Down>
        ensures ok { OnOk result (Some self.new ≡ edited (Edit.AddVersion version.now outgoing) (Some self.old)) }
        ensures err { OnErr result (self.new ≡ self.old) }
    {
        self.versions.push(version.clone()?)?;
        if let Some(last) = outgoing {
            forget_up_to(&mut self.versions, last);
        }
        self.next_version = version.number.get() as u64 + 1;
        Ok(())
    }

    fn purge(&mut self)
        ensures { Some self.new ≡ edited Edit.Purge (Some self.old) }
    {
        let all = self.versions.as_slice().len();
        self.versions.forget_first(all);
    }

    fn hold(&mut self, id: &LockId, text: &Bytes) -> Result<(), Down>
        ensures ok { OnOk result (Some self.new ≡ edited (Edit.Hold id.now text.now) (Some self.old)) }
        ensures err { OnErr result (self.new ≡ self.old) }
    {
        let id = id.clone()?;
        let text = text.clone()?;
        self.holder = Holder::Lock { id, text };
        Ok(())
    }

    fn release(&mut self, id: &LockId) -> Result<(), Down>
        ensures ok { OnOk result (Some self.new ≡ edited (Edit.Release id.now) (Some self.old)) }
        ensures err { OnErr result (self.new ≡ self.old) }
    {
        self.released = Some(id.clone()?);
        self.holder = Holder::Nobody;
        Ok(())
    }

    fn add_run(&mut self, number: Number, ask: &RunAsk, created: Moment) -> Result<(), Down>
        ensures ok { OnOk result (Some self.new ≡ edited (Edit.AddRun number ask.now created) (Some self.old)) }
        ensures err { OnErr result (self.new ≡ self.old) }
    {
        self.runs.push(new_run(number, ask, created)?)?;
        self.next_run = number.get() as u64 + 1;
        Ok(())
    }

    fn report(&mut self, number: Number, action: RunAction, status: RunStatus, frees: bool)
        ensures { Some self.new ≡ edited (Edit.Report number action status frees) (Some self.old) }
    {
        if frees {
            self.holder = Holder::Nobody;
        }
        record(&mut self.runs, number, action, status);
    }

    fn edit(&mut self, alloc: Global, edit: &Edit) -> Result<(), Down>
        ensures ok { OnOk result (is_removal edit.now ≡ false → Some self.new ≡ edited edit.now (Some self.old)) }
        ensures err { OnErr result (self.new ≡ self.old) }
    {
        match edit {
            Edit::Make(settings) => *self = Workspace::new(alloc, *settings),
            Edit::Configure { settings, outgoing } => self.configure(*settings, *outgoing),
            // The workspace is removed from the map of workspaces.
            Edit::Remove => {}
            Edit::AddVersion { version, outgoing } => self.add_version(version, *outgoing)?,
            Edit::Purge => self.purge(),
            Edit::Hold { id, text } => self.hold(id, text)?,
            Edit::Release(id) => self.release(id)?,
            Edit::AddRun {
                number,
                ask,
                created,
            } => self.add_run(*number, ask, *created)?,
            Edit::Report {
                number,
                action,
                status,
                frees,
            } => self.report(*number, *action, *status, *frees),
        }
        Ok(())
    }

    /// Starts the run with this number, if there is a run to start.
    fn start(&mut self, start: Option<Number>)
        ensures { self.new ≡ started_if start self.old }
    {
        if let Some(n) = start {
            self.holder = Holder::Run(n);
            begin(&mut self.runs, n);
        }
    }

    fn change(&mut self, alloc: Global, change: &Change) -> Result<(), Down>
        ensures ok { OnOk result (is_removal change.now.edit ≡ false → Some self.new ≡ changed_by change.now (Some self.old)) }
        ensures err { OnErr result (self.new ≡ self.old) }
    {
        self.edit(alloc, &change.edit)?;
        self.start(change.start);
        Ok(())
    }
}

fn is_removal(edit: &Edit) -> bool
    ensures { result ≡ is_removal edit.now }
{
    matches!(edit, Edit::Remove)
}

// Sets the status of the run with this number to planning.
fn begin(runs: &mut Items<RunRow>, n: Number)
    ensures { runs.new ≡ map_list (begun n) runs.old }
{
    for run in runs.items.iter_mut() {
        run.status = begun_status(run.number == n, run.status);
    }
}

fn begun_status(starts: bool, status: RunStatus) -> RunStatus
    ensures { result ≡ cond starts Planning status }
{
    if starts { RunStatus::Planning } else { status }
}

// Sets the last action and the status of the run with this number.
fn record(runs: &mut Items<RunRow>, n: Number, action: RunAction, status: RunStatus)
    ensures { runs.new ≡ map_list (reported n action status) runs.old }
{
    for run in runs.items.iter_mut() {
        run.action = recorded_action(run.number == n, action, run.action);
        run.status = recorded_status(run.number == n, status, run.status);
    }
}

fn recorded_action(is_it: bool, action: RunAction, last: Option<RunAction>) -> Option<RunAction>
    ensures { result ≡ cond is_it (Some action) last }
{
    if is_it { Some(action) } else { last }
}

fn recorded_status(is_it: bool, status: RunStatus, before: RunStatus) -> RunStatus
    ensures { result ≡ cond is_it status before }
{
    if is_it { status } else { before }
}
