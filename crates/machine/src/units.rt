//! What a decision needs of a workspace in memory.
ghost use Rattle.std.specs.Prelude.{◌≡◌, Some, IfOk, cond, option_map, option_copied};
ghost use Rattle.std.specs.Prelude.{find};
ghost use Rattle.machine.specs.Needs.{needed_of};
ghost use Rattle.machine.specs.Units.{is_text, if_needed, has_version, asked_run, newest_unit, settings_unit, outgoing_by, unit_for, version_of, version_text};
ghost use Rattle.machine.specs.Settling.{first_waiting};
ghost use Rattle.machine.specs.Workspaces.{newest, outgoing, run_of, holder_status, is_keyed, keyed_run, open_runs};

use crate::acts::{Needs, Newest, Staying, WorkspaceUnit};
use crate::records::{Version, Workspace, is_waiting};
use crate::texts::StateText;
use basis::{Bytes, Down, Holder, KeepCount, Number, RunRow, RunStatus, Settings, Text};

impl Workspace {
    fn holder_status(&self) -> Option<RunStatus>
        ensures { result ≡ holder_status self.now.holder self.now.runs }
    {
        match &self.holder {
            Holder::Nobody | Holder::Lock { .. } => None,
            Holder::Run(n) => match run_of(*n, self.runs.as_slice()) {
                Some(run) => Some(run.status),
                None => None,
            },
        }
    }

    fn holder_status_if(&self, needed: bool) -> Option<RunStatus>
        ensures { result ≡ if_needed needed (holder_status self.now.holder self.now.runs) }
    {
        if needed { self.holder_status() } else { None }
    }

    pub(crate) fn unit(&self, needs: &Needs<'_>) -> Result<WorkspaceUnit, Down>
        ensures { IfOk result (λ unit. unit ≡ unit_for (needed_of needs.now) self.now) }
    {
        let settings = settings_unit(needs.retention, &self.settings);
        let versions = self.versions.as_slice();
        let runs = self.runs.as_slice();
        Ok(WorkspaceUnit {
            settings,
            holder: self.holder.clone()?,
            holder_status: self.holder_status_if(needs.holder_status),
            released: self.released.clone()?,
            next_version: self.next_version,
            next_run: self.next_run,
            newest: newest_if(needs.newest, needs.text, versions)?,
            outgoing: outgoing_by(needs.outgoing, settings.retention, versions),
            first_waiting: first_waiting_if(needs.waiting, runs),
            has_version: has_version(needs.version, versions),
            asked_run: asked_run(needs.run, needs.key, runs)?,
            open_runs: open_runs_if(needs.open_runs, runs),
        })
    }

    pub(crate) fn text_of(&self, n: Number) -> Result<Option<Bytes>, Down>
        ensures { IfOk result (λ text. text ≡ version_text n (Some self.now)) }
    {
        match version_of(n, self.versions.as_slice()) {
            Some(version) => Ok(Some(version.text.copied()?)),
            None => Ok(None),
        }
    }
}

fn is_text(asked: Option<&[u8]>, text: &StateText) -> bool
    ensures { result ≡ is_text (option_copied asked.entry) text.now }
{
    match asked {
        Some(asked) => text.as_slice() == asked,
        None => false,
    }
}

fn newest_unit(text: Option<&[u8]>, version: &Version) -> Result<Newest, Down>
    ensures { IfOk result (λ unit. unit ≡ newest_unit (option_copied text.entry) version.now) }
{
    Ok(Newest {
        number: version.number,
        serial: version.serial,
        lineage: version.lineage.clone()?,
        is_same: is_text(text, &version.text),
    })
}

fn newest_of(text: Option<&[u8]>, versions: &[Version]) -> Result<Option<Newest>, Down>
    ensures { IfOk result (λ unit. unit ≡ option_map (newest_unit (option_copied text.entry)) (newest versions.now)) }
{
    match versions.last() {
        Some(version) => Ok(Some(newest_unit(text, version)?)),
        None => Ok(None),
    }
}

fn newest_if(
    needed: bool,
    text: Option<&[u8]>,
    versions: &[Version],
) -> Result<Option<Newest>, Down>
    ensures { IfOk result (λ unit. unit ≡ if_needed needed (option_map (newest_unit (option_copied text.entry)) (newest versions.now))) }
{
    if needed {
        newest_of(text, versions)
    } else {
        Ok(None)
    }
}

// The settings, with the number of versions kept if that is needed.
fn settings_unit(needed: bool, settings: &Settings) -> Settings
    ensures { result ≡ settings_unit needed settings.now }
{
    Settings {
        runs: settings.runs,
        retention: if needed {
            settings.retention
        } else {
            KeepCount::first()
        },
    }
}

// The greatest number of the versions to be removed if the newest `staying` are kept.
fn outgoing(staying: usize, versions: &[Version]) -> Option<Number>
    ensures { result ≡ outgoing staying versions.now }
{
    let going = versions.len().saturating_sub(staying);
    number_of_newest(&versions[..going])
}

// The greatest number of the versions to be removed from a workspace that keeps `retention` versions.
fn outgoing_by(staying: Staying, retention: KeepCount, versions: &[Version]) -> Option<Number>
    ensures { result ≡ outgoing_by staying retention versions.now }
{
    match staying {
        Staying::StayAll => None,
        Staying::MakeRoom => outgoing(retention.get() as usize - 1, versions),
        Staying::StayAtMost(staying) => outgoing(staying.get() as usize, versions),
    }
}

fn run_of(n: Number, runs: &[RunRow]) -> Option<&RunRow>
    ensures { option_copied result ≡ run_of n runs.now }
{
    runs.iter().find(|run| run.number == n)
}

fn is_keyed(key: &Text, run: &RunRow) -> bool
    ensures { result ≡ is_keyed key.now run.now }
{
    match &run.key {
        None => false,
        Some(own) => own.as_str() == key.as_str(),
    }
}

fn run_with_key<'a>(key: &Text, runs: &'a [RunRow]) -> Option<&'a RunRow>
    ensures { option_copied result ≡ find (is_keyed key.now) runs.now }
{
    runs.iter().find(|run| is_keyed(key, run))
}

fn keyed_run<'a>(key: Option<&Text>, runs: &'a [RunRow]) -> Option<&'a RunRow>
    ensures { option_copied result ≡ keyed_run (option_copied key.entry) runs.now }
{
    match key {
        None => None,
        Some(key) => run_with_key(key, runs),
    }
}

fn copy_run(run: Option<&RunRow>) -> Result<Option<RunRow>, Down>
    ensures { IfOk result (λ copy. copy ≡ option_copied run.entry) }
{
    match run {
        None => Ok(None),
        Some(run) => Ok(Some(run.clone()?)),
    }
}

// The run that the act names: by its number, or by its key if it gives no number.
fn asked_run(
    number: Option<Number>,
    key: Option<&Text>,
    runs: &[RunRow],
) -> Result<Option<RunRow>, Down>
    ensures { IfOk result (λ run. run ≡ asked_run number (option_copied key.entry) runs.now) }
{
    match number {
        Some(n) => copy_run(run_of(n, runs)),
        None => copy_run(keyed_run(key, runs)),
    }
}

pub(crate) fn open_runs(runs: &[RunRow]) -> usize
    ensures { result ≡ open_runs runs.now }
{
    runs.iter().filter(|run| run.status.is_open()).count()
}

fn open_runs_if(needed: bool, runs: &[RunRow]) -> usize
    ensures { result ≡ cond needed (open_runs runs.now) 0 }
{
    if needed { open_runs(runs) } else { 0 }
}

fn first_waiting_if(needed: bool, runs: &[RunRow]) -> Option<Number>
    ensures { result ≡ if_needed needed (first_waiting runs.now) }
{
    if needed { first_waiting(runs) } else { None }
}

fn first_waiting(runs: &[RunRow]) -> Option<Number>
    ensures { result ≡ first_waiting runs.now }
{
    match runs.iter().find(|run| is_waiting(run)) {
        Some(run) => Some(run.number),
        None => None,
    }
}

fn version_of(n: Number, versions: &[Version]) -> Option<&Version>
    ensures { option_copied result ≡ version_of n versions.now }
{
    let mut found = None;
    for version in versions {
        if version.number == n {
            found = Some(version);
        }
    }
    found
}

// Whether the workspace keeps the version with this number; false if the act names none.
fn has_version(number: Option<Number>, versions: &[Version]) -> bool
    ensures { result ≡ has_version number versions.now }
{
    match number {
        Some(n) => version_of(n, versions).is_some(),
        None => false,
    }
}

pub(crate) fn number_of_newest(versions: &[Version]) -> Option<Number>
    ensures { result ≡ option_map (λ v. v.number) (newest versions.now) }
{
    match versions.last() {
        Some(version) => Some(version.number),
        None => None,
    }
}
