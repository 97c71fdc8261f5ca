//! Acts of each kind on a workspace, as what is asked of a store before them.
use crate::all_rows::{AllRows, RUNS, VERSIONS, greatest, text_at};
use basis::{
    Bytes, Down, KeepCount, LockId, Number, Query, RunAction, RunAsk, RunSettings, Serial,
    SettingsAsk, StateHead, Text,
};
use machine::{Act, StateText};
use sqlite::Row;
use std::alloc::Global;

/// How many versions are to be kept, if that is asked; 0 for none.
const KEPT: &[u64] = &[0, 1, 2, 5, 100];

/// The actions on a run.
const ACTIONS: &[RunAction] = &[
    RunAction::ReportPlanned,
    RunAction::ReportUnchanged,
    RunAction::Fail,
    RunAction::Confirm,
    RunAction::ReportApplied,
    RunAction::Discard,
    RunAction::Cancel,
];

/// How many numbers of versions, or of runs, are asked for.
pub const PLACES: u64 = 4;

/// The number at a place among those that are asked for: the first, the last two, and one after them.
pub fn number_about(last: u64, place: u64) -> u64 {
    match place {
        0 => 1,
        1 => last.saturating_sub(1),
        2 => last,
        _ => last.saturating_add(1),
    }
}

/// Acts that are put together. Whether memory was refused is asked once, at the end.
#[derive(Drop)]
struct Acts {
    all: Vec<Act>,
    is_refused: bool,
}

impl Acts {
    fn push(&mut self, act: Act) {
        if self.all.push(act).is_err() {
            self.is_refused = true;
        }
    }

    fn push_made(&mut self, act: Result<Act, Down>) {
        match act {
            Ok(act) => self.push(act),
            Err(_) => self.is_refused = true,
        }
    }

    fn end(self) -> Result<Vec<Act>, Down> {
        let Acts { all, is_refused } = self;
        if is_refused { Err(Down) } else { Ok(all) }
    }
}

fn push_queries(acts: &mut Acts, last: u64) {
    acts.push(Act::Query(Query::Workspace));
    acts.push(Act::Query(Query::State));
    acts.push(Act::Query(Query::Versions(0)));
    acts.push(Act::Query(Query::Runs(0)));
    for place in 0..PLACES {
        if let Some(number) = Number::new(number_about(last, place)) {
            acts.push(Act::Query(Query::Version(number)));
        }
    }
}

// Each action on the last run.
fn push_reports(acts: &mut Acts, last: u64) {
    if let Some(number) = Number::new(last) {
        for action in ACTIONS {
            acts.push(Act::ReportRun(number, *action));
        }
    }
}

fn push_runs(acts: &mut Acts, last: u64) {
    for place in 0..PLACES {
        if let Some(number) = Number::new(number_about(last, place)) {
            acts.push(Act::Query(Query::Run(number)));
            acts.push(Act::ReportRun(number, RunAction::Discard));
        }
    }
    push_reports(acts, last);
}

/// Creates a workspace, or sets its settings.
pub fn making() -> Act {
    Act::PutWorkspace(SettingsAsk {
        runs: RunSettings { auto_apply: true },
        retention: None,
    })
}

fn push_settings(acts: &mut Acts) {
    for kept in KEPT {
        acts.push(Act::PutWorkspace(SettingsAsk {
            runs: RunSettings { auto_apply: true },
            retention: KeepCount::new(*kept),
        }));
    }
}

fn id_of(alloc: Global) -> Result<LockId, Down> {
    match LockId::read(alloc, "x1") {
        Ok(id) => Ok(id),
        Err(_) => Err(Down),
    }
}

fn unlocking(alloc: Global) -> Result<Act, Down> {
    Ok(Act::Unlock(id_of(alloc)?))
}

fn locking(alloc: Global) -> Result<Act, Down> {
    let text = Bytes::copy_of(alloc, b"{\"ID\":\"x1\"}")?;
    let id = id_of(alloc)?;
    Ok(Act::Lock { id, text })
}

fn push_locks(alloc: Global, acts: &mut Acts) {
    acts.push(Act::DeleteWorkspace);
    acts.push(Act::PurgeState { lock_id: None });
    acts.push(Act::ForceUnlock);
    acts.push_made(unlocking(alloc));
    acts.push_made(locking(alloc));
}

fn key_of(alloc: Global, key: Option<&str>) -> Result<Option<Text>, Down> {
    match key {
        Some(key) => Ok(Some(Text::copy_of(alloc, key)?)),
        None => Ok(None),
    }
}

fn making_run(alloc: Global, key: Option<&str>) -> Result<Act, Down> {
    let message = Text::copy_of(alloc, "")?;
    let key = key_of(alloc, key)?;
    Ok(Act::MakeRun(RunAsk {
        key,
        message,
        plan_only: false,
    }))
}

fn key_in(row: &Row) -> Option<&str> {
    str::from_utf8(text_at(row, 2)?).ok()
}

// The key of the first run that has one.
fn first_key(all_rows: &AllRows) -> Option<&str> {
    for row in all_rows.rows(RUNS) {
        if let Some(key) = key_in(row) {
            return Some(key);
        }
    }
    None
}

// A run without a key, with one that no run has, and with the key of the first run that has one.
fn push_keys(alloc: Global, acts: &mut Acts, all_rows: &AllRows) {
    acts.push_made(making_run(alloc, None));
    acts.push_made(making_run(alloc, Some("another")));
    if let Some(key) = first_key(all_rows) {
        acts.push_made(making_run(alloc, Some(key)));
    }
}

fn head_of(alloc: Global) -> Result<StateHead, Down> {
    let serial = Serial::new(1).ok_or(Down)?;
    let lineage = Text::copy_of(alloc, "a1")?;
    Ok(StateHead { serial, lineage })
}

// A text with these bits of its last byte turned, and with more behind it.
fn text_by(alloc: Global, text: &[u8], bits: u8, more: &[u8]) -> Result<StateText, Down> {
    let mut bytes = Vec::from_slice(alloc, text)?;
    if let Some(last) = bytes.last_mut() {
        *last ^= bits;
    }
    bytes.extend_from_slice(more)?;
    Ok(StateText::new(alloc, Bytes::new(bytes))?)
}

fn updating(alloc: Global, text: &[u8], bits: u8, more: &[u8]) -> Result<Act, Down> {
    let head = head_of(alloc)?;
    let text = text_by(alloc, text, bits, more)?;
    Ok(Act::UpdateState {
        head,
        text,
        lock_id: None,
    })
}

// Updates by the newest text, by another of its size, and by one that is longer by a byte.
fn push_updates(alloc: Global, acts: &mut Acts, text: &[u8]) {
    acts.push_made(updating(alloc, text, 0, b""));
    acts.push_made(updating(alloc, text, 1, b""));
    acts.push_made(updating(alloc, text, 0, b" "));
}

/// Acts of each kind on a workspace with these rows.
pub fn acts_on(alloc: Global, all_rows: &AllRows) -> Result<Vec<Act>, Down> {
    let newest = greatest(all_rows.rows(VERSIONS));
    let text = all_rows.text(alloc, newest)?;
    let mut acts = Acts {
        all: Vec::new(alloc),
        is_refused: false,
    };
    push_queries(&mut acts, newest);
    push_runs(&mut acts, greatest(all_rows.rows(RUNS)));
    push_settings(&mut acts);
    push_locks(alloc, &mut acts);
    push_keys(alloc, &mut acts, all_rows);
    push_updates(alloc, &mut acts, text.as_slice());
    acts.end()
}
