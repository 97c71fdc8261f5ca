//! Decisions on a workspace itself: its settings, creation and removal, and how it is shown.
ghost use Rattle.std.specs.Prelude.{◌≡◌, None, IfSome, IfOk, option_map};
ghost use Rattle.machine.specs.Inner.Decisions.{decision_of, decision_missing, decided_put, decided_idle, decided_delete, changing, shown_as, new_shown};
ghost use Rattle.machine.specs.Showing.{holder_id};
ghost use Rattle.machine.specs.Rules.{kept_before, kept_for, settings_for};
ghost use Rattle.machine.specs.Ranges.{IsRetention, IsSettingsAsk};
ghost use Rattle.machine.specs.Laws.{is_nobody};
ghost use Rattle.machine.specs.declared.acts.Unit.TheVariants.{Present};
ghost use Rattle.machine.specs.declared.acts.Act.TheVariants.{PutWorkspace};
ghost use Rattle.machine.specs.declared.acts.Answer.TheVariants.{Workspace as ShownWorkspace};
ghost use Rattle.machine.specs.declared.acts.Edit.TheVariants.{Make};
ghost use Rattle.machine.specs.declared.acts.Decision.TheVariants.{Accepted};

use crate::acts::{Answer, Decision, Edit, Newest, Shown, WorkspaceUnit};
use crate::outcomes::{accept, answer_only};
use basis::numbers::MAX_KEPT;
use basis::{Down, Holder, HolderId, KeepCount, Number, Refusal, Settings, SettingsAsk};

pub(crate) fn holder_id(holder: &Holder) -> Result<Option<HolderId>, Down>
    ensures { IfOk result (λ id. id ≡ holder_id holder.now) }
{
    match holder {
        Holder::Nobody => Ok(None),
        Holder::Lock { id, .. } => Ok(Some(HolderId::Lock(id.clone()?))),
        Holder::Run(n) => Ok(Some(HolderId::Run(*n))),
    }
}

fn shown(settings: &Settings, unit: &WorkspaceUnit) -> Result<Shown, Down>
    ensures { IfOk result (λ shown. shown ≡ shown_as settings.now unit.now) }
{
    Ok(Shown {
        settings: *settings,
        holder: holder_id(&unit.holder)?,
        version: number_of_newest(&unit.newest),
    })
}

fn number_of_newest(newest: &Option<Newest>) -> Option<Number>
    ensures { result ≡ option_map (λ v. v.number) newest.now }
{
    match newest {
        None => None,
        Some(newest) => Some(newest.number),
    }
}

// The settings after a PUT, of a workspace that has settings (`before`) or is created.
fn settings_for(ask: SettingsAsk, before: Option<Settings>) -> Settings
    ensures is { result ≡ settings_for ask before }
    ensures range { IsSettingsAsk ask }
{
    Settings {
        runs: ask.runs,
        retention: kept_for(ask.retention, kept_before(before)),
    }
}

fn kept_before(before: Option<Settings>) -> KeepCount
    ensures { result ≡ kept_before before }
{
    match before {
        Some(settings) => settings.retention,
        None => KeepCount::first(),
    }
}

fn kept_for(asked: Option<KeepCount>, before: KeepCount) -> KeepCount
    ensures is { result ≡ kept_for asked before }
    ensures range { IfSome asked IsRetention }
{
    match asked {
        Some(retention) => {
            prove!(1 <= retention.get() && retention.get() <= MAX_KEPT);
            retention
        }
        None => before,
    }
}

fn is_nobody(holder: &Holder) -> bool
    ensures { result ≡ is_nobody holder.now }
{
    matches!(holder, Holder::Nobody)
}

// A PUT removes no version while the workspace has a holder.
fn decide_settings(unit: &WorkspaceUnit, settings: &Settings) -> Result<Decision, Down>
    ensures { IfOk result (λ decision. decision ≡ decided_put settings.now unit.now) }
{
    if !is_nobody(&unit.holder) && unit.outgoing.is_some() {
        return Ok(Decision::Refused(Refusal::Locked));
    }
    let shown = shown(settings, unit)?;
    let settings = *settings;
    let outgoing = unit.outgoing;
    Ok(accept(
        Answer::Workspace(shown),
        Edit::Configure { settings, outgoing },
        None,
    ))
}

pub(crate) fn decide_put(unit: &WorkspaceUnit, ask: SettingsAsk) -> Result<Decision, Down>
    ensures is { IfOk result (λ decision. decision ≡ decision_of (Present unit.now) (PutWorkspace ask) 0) }
    ensures range { IsSettingsAsk ask }
{
    let settings = settings_for(ask, Some(unit.settings));
    decide_settings(unit, &settings)
}

pub(crate) fn decide_show(unit: &WorkspaceUnit) -> Result<Decision, Down>
    ensures { IfOk result (λ decision. decision ≡ Accepted (ShownWorkspace (shown_as unit.now.settings unit.now)) None) }
{
    let shown = shown(&unit.settings, unit)?;
    Ok(answer_only(Answer::Workspace(shown)))
}

// The workspace is deleted if none of its runs is open.
fn remove_idle(open_runs: usize) -> Decision
    ensures { result ≡ decided_idle open_runs }
{
    if 0 < open_runs {
        Decision::Refused(Refusal::OpenRuns)
    } else {
        accept(Answer::Done, Edit::Remove, None)
    }
}

pub(crate) fn decide_delete(unit: &WorkspaceUnit) -> Decision
    ensures { result ≡ decided_delete unit.now.holder unit.now.open_runs }
{
    match &unit.holder {
        Holder::Nobody => remove_idle(unit.open_runs),
        Holder::Lock { .. } => Decision::Refused(Refusal::Locked),
        Holder::Run(_) => remove_idle(unit.open_runs),
    }
}

pub(crate) fn decide_making(ask: SettingsAsk, has_room: bool) -> Decision
    ensures is { result ≡ decision_missing (PutWorkspace ask) has_room }
    ensures range { IsSettingsAsk ask }
{
    let settings = settings_for(ask, None);
    if !has_room {
        return Decision::Refused(Refusal::OverLimit);
    }
    make_with(&settings)
}

fn make_with(settings: &Settings) -> Decision
    ensures { result ≡ changing (ShownWorkspace (new_shown settings.now)) (Make settings.now) None }
{
    let shown = Shown {
        settings: *settings,
        holder: None,
        version: None,
    };
    accept(Answer::Workspace(shown), Edit::Make(*settings), None)
}
