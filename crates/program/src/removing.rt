//! An organization is removed from one file, if another file has the same.
ghost use Rattle.std.specs.Prelude.{◌≡◌, ◌⊎◌, IsTrue, Option};
ghost use Rattle.machine.specs.StoreCalls.{Unchanged};
ghost use Rattle.machine.specs.declared.records.Organization.{Organization as AnyOrganization};
ghost use Rattle.program.specs.Moves.{CopiesBetween, RemovesSame, SaysSame};
ghost use Rattle.program.specs.Outcomes.{stream, error_stream, AnswersLine, DiffersOrFails, RemovesCopiedAt, ReportsCause, ReportsRemoval};
ghost use Rattle.program.specs.declared.reasons.Cause.{Cause as AnyCause};

use crate::copying::open_both;
use crate::environment::{CopyTask, Files, Opening};
use crate::exits::Exit;
use crate::openings::close_both;
use crate::operating::failure;
use crate::reasons::Cause;
use crate::replies::{refuse, say_word};
use crate::streams::ErrorStream;
use basis::{Down, OrgName};
use machine::{AdminAnswer, Keep};
use std::alloc::Global;
use std::io::Write;

/// Whether the answer to a comparison is that both records are equal.
fn says_same(compared: &AdminAnswer) -> bool
    ensures { (from there : Option AnyOrganization) → IsTrue result → SaysSame compared.now from there → from ≡ there }
{
    match compared {
        AdminAnswer::Done => true,
        AdminAnswer::Exists | AdminAnswer::Absent | AdminAnswer::InUse => false,
        AdminAnswer::Organizations(_) | AdminAnswer::Tokens(_) => false,
    }
}

/// Compares an organization in two stores. If its records are equal, removes it from the second; otherwise changes nothing and
/// returns none.
fn remove_same<K: Keep, F: Files<K>>(
    alloc: Global,
    files: &F,
    org: &OrgName,
    is_forced: bool,
    copy: &mut K,
    store: &mut K,
) -> Result<Option<AdminAnswer>, Down>
    ensures { CopiesBetween K.Keep (λ source before after. RemovesSame is_forced org.now result source before after) copy.old copy.new store.old store.new }
{
    let compared = match files.copy(alloc, CopyTask::Compare, org, copy, store) {
        Ok(answer) => answer,
        Err(down) => return Err(down),
    };
    if !says_same(&compared) {
        return Ok(None);
    }
    match store.org_remove(alloc, org, is_forced) {
        Ok(answer) => Ok(Some(answer)),
        Err(down) => Err(down),
    }
}

fn say_removed<K: Keep, F: Files<K>, O: Write, E: ErrorStream>(
    files: &F,
    store: &mut K,
    output: &mut O,
    errors: &mut E,
    answered: &Result<Option<AdminAnswer>, Down>,
) -> Exit
    ensures line { AnswersLine result (stream (O.contents output.old) (O.contents output.new)) }
    ensures unchanged { Unchanged K.rows K.clean K.sound K.keyed K.shielded store.old store.new }
    ensures reports { ReportsRemoval (DiffersOrFails K.Keep F.Files store.new) answered.now result (stream (O.contents output.old) (O.contents output.new)) (error_stream (E.reported errors.old) (E.reported errors.new)) }
    ensures why { (E.reported errors.new ≡ E.reported errors.old) ⊎ ((why : AnyCause) × DiffersOrFails K.Keep F.Files store.new why × ReportsCause why (error_stream (E.reported errors.old) (E.reported errors.new))) }
{
    match answered {
        Ok(Some(answer)) => say_word(output, answer),
        Ok(None) => refuse(output, errors, Cause::NotCopied),
        Err(_) => {
            let cause = failure(files, store);
            refuse(output, errors, cause)
        }
    }
}

/// Removes an organization from the file at one path, if the file at another path has the same, and prints the answer. The other
/// file is opened and checked first, and is not changed.
pub fn remove_copied<K: Keep, F: Files<K>, O: Write, E: ErrorStream>(
    alloc: Global,
    files: &mut F,
    db: &str,
    at: &str,
    org: &OrgName,
    is_forced: bool,
    output: &mut O,
    errors: &mut E,
) -> Exit
    ensures line { AnswersLine result (stream (O.contents output.old) (O.contents output.new)) }
    ensures removes { RemovesCopiedAt K.Keep F.Files db.now at.now is_forced org.now files.old files.new result (stream (O.contents output.old) (O.contents output.new)) (error_stream (E.reported errors.old) (E.reported errors.new)) }
{
    let (mut copy, mut store) = match open_both(
        alloc,
        files,
        at,
        db,
        Opening::Existing,
        Cause::CopyFaults,
        output,
        errors,
    ) {
        Ok(stores) => stores,
        Err(exit) => return exit,
    };
    let answered = remove_same(alloc, files, org, is_forced, &mut copy, &mut store);
    let exit = say_removed(files, &mut store, output, errors, &answered);
    close_both(files, at, copy, db, store, errors);
    exit
}
