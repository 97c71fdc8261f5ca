//! Copies of organizations from one file to another.
ghost use Rattle.std.specs.Prelude.{◌≡◌, ◌⊎◌, IfOk, IfErr, OnOk, OnErr};
ghost use Rattle.std.specs.List.{AllByRecursion};
ghost use Rattle.machine.specs.Tokens.{ListsOrganizations};
ghost use Rattle.machine.specs.StoreCalls.{Unchanged};
ghost use Rattle.program.specs.Moves.{Arrives, AllAreCopied, SomeAreCopied, IsFilled, lists_none, CopiesBetween};
ghost use Rattle.program.specs.Outcomes.{stream, error_stream, AnswersLine, AnswersFilled, filled_ending, IsSaid, CopiesAt, CompactsAt, ReportsWord, ReportsCause, Refuses, HasFailed, OpensSource, RefusesSource, OpensBoth, RefusesBoth};
ghost use Rattle.program.specs.declared.reasons.Cause.{Cause as AnyCause};

use crate::checking::check_first;
use crate::environment::{CopyTask, Files, Opening};
use crate::exits::Exit;
use crate::openings::{close_after, close_both, open_one};
use crate::operating::failure;
use crate::reasons::Cause;
use crate::replies::{refuse, say, say_word};
use crate::streams::ErrorStream;
use basis::{Down, OrgName};
use machine::{AdminAnswer, Keep, OrgRow};
use std::alloc::Global;
use std::io::Write;

/// Opens the store at a path, to read it, if its tables have no fault. Otherwise reports why not, with this cause for faults, and closes it.
fn open_sound<K: Keep, F: Files<K>, O: Write, E: ErrorStream>(
    alloc: Global,
    files: &mut F,
    path: &str,
    why: Cause,
    output: &mut O,
    errors: &mut E,
) -> Result<K, Exit>
    ensures opened { IfOk result (λ store. OpensSource K.Keep F.Files path.now files.old files.new store (error_stream (E.reported errors.old) (E.reported errors.new)) × (O.contents output.new ≡ O.contents output.old)) }
    ensures refused { IfErr result (λ exit. RefusesSource K.Keep F.Files path.now why files.old files.new exit (stream (O.contents output.old) (O.contents output.new)) (error_stream (E.reported errors.old) (E.reported errors.new))) }
{
    let mut store = match open_one(files, path, Opening::Read, output, errors) {
        Ok(store) => store,
        Err(exit) => return Err(exit),
    };
    if check_first(alloc, files, &mut store, why, errors) {
        return Ok(store);
    }
    close_after(files, path, store, errors);
    Err(say(output, Exit::Down))
}

/// Opens the stores at two different paths, the first one first, or reports why one was not opened. If the first one's tables
/// have faults, the second is not opened, with this cause. If the second is not opened, the first is closed.
pub fn open_both<K: Keep, F: Files<K>, O: Write, E: ErrorStream>(
    alloc: Global,
    files: &mut F,
    from: &str,
    to: &str,
    opening: Opening,
    why: Cause,
    output: &mut O,
    errors: &mut E,
) -> Result<(K, K), Exit>
    ensures opened { IfOk result (λ stores. OpensBoth K.Keep F.Files from.now to.now opening files.old files.new stores.0 stores.1 (error_stream (E.reported errors.old) (E.reported errors.new)) × (O.contents output.new ≡ O.contents output.old)) }
    ensures refused { IfErr result (λ exit. RefusesBoth K.Keep F.Files from.now to.now opening why files.old files.new exit (stream (O.contents output.old) (O.contents output.new)) (error_stream (E.reported errors.old) (E.reported errors.new))) }
{
    if from == to {
        return Err(refuse(output, errors, Cause::InUse));
    }
    let source = match open_sound(alloc, files, from, why, output, errors) {
        Ok(source) => source,
        Err(exit) => return Err(exit),
    };
    match open_one(files, to, opening, output, errors) {
        Ok(target) => Ok((source, target)),
        Err(exit) => {
            close_after(files, from, source, errors);
            Err(exit)
        }
    }
}

fn say_copied<K: Keep, F: Files<K>, O: Write, E: ErrorStream>(
    files: &F,
    target: &mut K,
    output: &mut O,
    errors: &mut E,
    answered: &Result<AdminAnswer, Down>,
) -> Exit
    ensures line { AnswersLine result (stream (O.contents output.old) (O.contents output.new)) }
    ensures unchanged { Unchanged K.rows K.clean K.sound K.keyed K.shielded target.old target.new }
    ensures reports { IfOk answered.now (λ answer. ReportsWord answer result (stream (O.contents output.old) (O.contents output.new)) × (E.reported errors.new ≡ E.reported errors.old)) }
    ensures down { OnErr answered.now ((why : AnyCause) × HasFailed K.Keep F.Files target.new why × Refuses why result (stream (O.contents output.old) (O.contents output.new)) (error_stream (E.reported errors.old) (E.reported errors.new))) }
    ensures why { (E.reported errors.new ≡ E.reported errors.old) ⊎ ((why : AnyCause) × HasFailed K.Keep F.Files target.new why × ReportsCause why (error_stream (E.reported errors.old) (E.reported errors.new))) }
{
    match answered {
        Ok(answer) => say_word(output, answer),
        Err(_) => {
            let cause = failure(files, target);
            refuse(output, errors, cause)
        }
    }
}

/// Copies an organization from one file to another and prints the answer.
pub fn copy_one<K: Keep, F: Files<K>, O: Write, E: ErrorStream>(
    alloc: Global,
    files: &mut F,
    from: &str,
    to: &str,
    org: &OrgName,
    output: &mut O,
    errors: &mut E,
) -> Exit
    ensures line { AnswersLine result (stream (O.contents output.old) (O.contents output.new)) }
    ensures copies { CopiesAt K.Keep F.Files from.now to.now org.now files.old files.new result (stream (O.contents output.old) (O.contents output.new)) (error_stream (E.reported errors.old) (E.reported errors.new)) }
{
    let (mut source, mut target) = match open_both(
        alloc,
        files,
        from,
        to,
        Opening::Target,
        Cause::SourceFaults,
        output,
        errors,
    ) {
        Ok(stores) => stores,
        Err(exit) => return exit,
    };
    let answered = files.copy(alloc, CopyTask::Make, org, &mut source, &mut target);
    let exit = say_copied(files, &mut target, output, errors, &answered);
    close_both(files, from, source, to, target, errors);
    exit
}

/// The entry of one organization in the list of all.
fn copy_named<K: Keep, F: Files<K>>(
    alloc: Global,
    files: &F,
    name: &str,
    from: &mut K,
    to: &mut K,
) -> Result<(), Down>
    ensures { CopiesBetween K.Keep (λ source before after. SomeAreCopied source before after × OnOk result (Arrives source before after name.now)) from.old from.new to.old to.new }
{
    let Ok(org) = OrgName::read(alloc, name) else {
        return Err(Down);
    };
    match files.copy(alloc, CopyTask::Make, &org, from, to) {
        Ok(_) => Ok(()),
        Err(down) => Err(down),
    }
}

fn copy_each<K: Keep, F: Files<K>>(
    alloc: Global,
    files: &F,
    rows: &[OrgRow],
    from: &mut K,
    to: &mut K,
) -> Result<(), Down>
    ensures { CopiesBetween K.Keep (λ source before after. SomeAreCopied source before after × OnOk result (AllByRecursion (λ row. Arrives source before after row.name) rows.now)) from.old from.new to.old to.new }
{
    for row in rows {
        copy_named(alloc, files, row.name.as_str(), from, to)?;
    }
    Ok(())
}

fn copy_listed<K: Keep, F: Files<K>>(
    alloc: Global,
    files: &F,
    listed: &AdminAnswer,
    from: &mut K,
    to: &mut K,
) -> Result<(), Down>
    ensures { CopiesBetween K.Keep (λ source before after. SomeAreCopied source before after × OnOk result (ListsOrganizations source listed.now → AllAreCopied source before after)) from.old from.new to.old to.new }
{
    match listed {
        AdminAnswer::Organizations(rows) => copy_each(alloc, files, rows.as_slice(), from, to),
        AdminAnswer::Done | AdminAnswer::Exists => Err(Down),
        AdminAnswer::Absent | AdminAnswer::InUse | AdminAnswer::Tokens(_) => Err(Down),
    }
}

/// Copies every organization from one store to another, each in its own transaction.
fn copy_all<K: Keep, F: Files<K>>(
    alloc: Global,
    files: &F,
    from: &mut K,
    to: &mut K,
) -> Result<(), Down>
    ensures { CopiesBetween K.Keep (λ source before after. SomeAreCopied source before after × OnOk result (AllAreCopied source before after)) from.old from.new to.old to.new }
{
    let listed = from.org_list(alloc)?;
    copy_listed(alloc, files, &listed, from, to)
}

/// Whether a list of organizations is empty.
fn lists_none(listed: &AdminAnswer) -> bool
    ensures { result ≡ lists_none listed.now }
{
    match listed {
        AdminAnswer::Organizations(rows) => rows.as_slice().is_empty(),
        AdminAnswer::Done | AdminAnswer::Exists | AdminAnswer::Absent => false,
        AdminAnswer::InUse | AdminAnswer::Tokens(_) => false,
    }
}

/// Copies every organization to a store that has none, and returns true. If the target has some, copies nothing and returns
/// false.
fn fill<K: Keep, F: Files<K>>(
    alloc: Global,
    files: &F,
    from: &mut K,
    to: &mut K,
) -> Result<bool, Down>
    ensures { CopiesBetween K.Keep (λ source before after. SomeAreCopied source before after × IfOk result (IsFilled source before after)) from.old from.new to.old to.new }
{
    let there = to.org_list(alloc)?;
    if !lists_none(&there) {
        return Ok(false);
    }
    match copy_all(alloc, files, from, to) {
        Ok(()) => Ok(true),
        Err(down) => Err(down),
    }
}

fn say_filled<O: Write, E: ErrorStream>(
    output: &mut O,
    errors: &mut E,
    filled: &Result<bool, Down>,
) -> Exit
    ensures line { AnswersFilled result (stream (O.contents output.old) (O.contents output.new)) }
    ensures reports { IfOk filled.now (λ is_filled. IsSaid (filled_ending is_filled) result (O.contents output.old) (O.contents output.new) × (E.reported errors.new ≡ E.reported errors.old)) }
    ensures down { OnErr filled.now (Refuses Cause.Unfinished result (stream (O.contents output.old) (O.contents output.new)) (error_stream (E.reported errors.old) (E.reported errors.new))) }
    ensures why { (E.reported errors.new ≡ E.reported errors.old) ⊎ ReportsCause Cause.Unfinished (error_stream (E.reported errors.old) (E.reported errors.new)) }
{
    match filled {
        Ok(true) => say(output, Exit::Done),
        Ok(false) => say(output, Exit::Exists),
        Err(_) => refuse(output, errors, Cause::Unfinished),
    }
}

/// Copies every organization from one file to another that has none.
pub fn compact<K: Keep, F: Files<K>, O: Write, E: ErrorStream>(
    alloc: Global,
    files: &mut F,
    from: &str,
    to: &str,
    output: &mut O,
    errors: &mut E,
) -> Exit
    ensures line { AnswersFilled result (stream (O.contents output.old) (O.contents output.new)) }
    ensures copies { CompactsAt K.Keep F.Files from.now to.now files.old files.new result (stream (O.contents output.old) (O.contents output.new)) (error_stream (E.reported errors.old) (E.reported errors.new)) }
{
    let (mut source, mut target) = match open_both(
        alloc,
        files,
        from,
        to,
        Opening::Target,
        Cause::SourceFaults,
        output,
        errors,
    ) {
        Ok(stores) => stores,
        Err(exit) => return exit,
    };
    let filled = fill(alloc, files, &mut source, &mut target);
    let exit = say_filled(output, errors, &filled);
    close_both(files, from, source, to, target, errors);
    exit
}
