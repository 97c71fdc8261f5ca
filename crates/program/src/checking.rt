//! Looks over the tables of a file.
ghost use Rattle.std.specs.Prelude.{[], Ok};
ghost use Rattle.program.specs.Outcomes.{stream, error_stream, AnswersFaults, ReportsFaults, ReportsFound, ChecksAt};
ghost use Rattle.program.specs.Inner.Outcomes.{FindsNone, ChecksFirst};

use crate::environment::{Files, Opening};
use crate::errors::{report_cause, report_faults};
use crate::exits::Exit;
use crate::openings::{close_after, open_one};
use crate::reasons::Cause;
use crate::replies::{print_faults, print_sound, refuse};
use crate::streams::ErrorStream;
use crate::totals::{Findings, Totals};
use basis::{Down, Text};
use machine::Keep;
use std::alloc::Global;
use std::io::Write;

fn say_sound<O: Write>(output: &mut O, totals: &Totals) -> Exit
    ensures line { AnswersFaults result (stream (O.contents output.old) (O.contents output.new)) }
    ensures reports { ReportsFaults [] totals.now result (stream (O.contents output.old) (O.contents output.new)) }
{
    match print_sound(output, totals) {
        Ok(()) => Exit::Done,
        Err(_) => Exit::Unprinted,
    }
}

fn say_faults<O: Write>(output: &mut O, faults: &[Text], totals: &Totals) -> Exit
    ensures line { AnswersFaults result (stream (O.contents output.old) (O.contents output.new)) }
    ensures reports { ReportsFaults faults.now totals.now result (stream (O.contents output.old) (O.contents output.new)) }
{
    match faults {
        [] => say_sound(output, totals),
        [_, ..] => match print_faults(output, faults) {
            Ok(()) => Exit::Faults,
            Err(_) => Exit::Unprinted,
        },
    }
}

fn say_found<O: Write, E: ErrorStream>(
    output: &mut O,
    errors: &mut E,
    found: &Result<Findings, Down>,
) -> Exit
    ensures line { AnswersFaults result (stream (O.contents output.old) (O.contents output.new)) }
    ensures reports { ReportsFound found.now result (stream (O.contents output.old) (O.contents output.new)) (error_stream (E.reported errors.old) (E.reported errors.new)) }
{
    match found {
        Ok(findings) => say_faults(output, findings.faults.as_slice(), &findings.totals),
        Err(_) => refuse(output, errors, Cause::Store),
    }
}

/// Checks the tables of a file and prints the result.
pub fn check<K: Keep, F: Files<K>, O: Write, E: ErrorStream>(
    alloc: Global,
    files: &mut F,
    db: &str,
    output: &mut O,
    errors: &mut E,
) -> Exit
    ensures line { AnswersFaults result (stream (O.contents output.old) (O.contents output.new)) }
    ensures unchanged { ChecksAt K.Keep F.Files db.now files.old files.new result (stream (O.contents output.old) (O.contents output.new)) (error_stream (E.reported errors.old) (E.reported errors.new)) }
{
    let mut store = match open_one(files, db, Opening::Read, output, errors) {
        Ok(store) => store,
        Err(exit) => return exit,
    };
    let found = files.check(alloc, &mut store);
    let exit = say_found(output, errors, &found);
    close_after(files, db, store, errors);
    exit
}

fn report_if_some<E: ErrorStream>(errors: &mut E, cause: Cause, findings: &Findings) -> bool
    ensures { FindsNone cause (Ok findings.now) result (error_stream (E.reported errors.old) (E.reported errors.new)) }
{
    let faults = findings.faults.as_slice();
    match faults {
        [] => true,
        [_, ..] => {
            report_faults(errors, cause, faults);
            false
        }
    }
}

fn report_unsound<E: ErrorStream>(
    errors: &mut E,
    cause: Cause,
    found: &Result<Findings, Down>,
) -> bool
    ensures { FindsNone cause found.now result (error_stream (E.reported errors.old) (E.reported errors.new)) }
{
    match found {
        Ok(findings) => report_if_some(errors, cause, findings),
        Err(_) => {
            report_cause(errors, Cause::Store);
            false
        }
    }
}

/// Checks the tables of a store. Returns true if there is no fault. Otherwise reports by the cause what is not done, and each
/// fault.
pub fn check_first<K: Keep, F: Files<K>, E: ErrorStream>(
    alloc: Global,
    files: &F,
    store: &mut K,
    cause: Cause,
    errors: &mut E,
) -> bool
    ensures { ChecksFirst K.Keep F.Files cause store.old result store.new (error_stream (E.reported errors.old) (E.reported errors.new)) }
{
    let found = files.check(alloc, store);
    report_unsound(errors, cause, &found)
}
