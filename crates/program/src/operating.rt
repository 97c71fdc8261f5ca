//! Operator's commands on the database of a file.
ghost use Rattle.std.specs.Prelude.{◌≡◌, ◌⊎◌, ◌<◌, IfOk, OnOk, OnErr, IsErrOf, length};
ghost use Rattle.program.specs.declared.reasons.Cause.{Cause as AnyCause};
ghost use Rattle.std.specs.Io.KnownBytes.{IsAtEnd};
ghost use Rattle.command_line.specs.Orders.{with_secret};
ghost use Rattle.machine.specs.StoreCalls.{Unchanged, Lasts};
ghost use Rattle.program.specs.Inputs.{ReadsAll};
ghost use Rattle.program.specs.Streams.{Reports};
ghost use Rattle.program.specs.Outcomes.{stream, error_stream, AnswersLine, ReportsAnswer, IsOperated, AnswersCommand, HasSecret, HasNoSecret, IsSecretOf, AddsToken, OperatesAt, AddsTokenAt, ReportsCause, opening_of, FailsAs, HasFailed};
ghost use Rattle.program.specs.Inner.Outcomes.{IsSaidWhy};

use crate::environment::{Files, Opening};
use crate::errors::note;
use crate::exits::Exit;
use crate::openings::{close_after, open_one};
use crate::reasons::Cause;
use crate::replays::read_all;
use crate::replies::{print_organizations, print_tokens, refuse, say, say_word};
use crate::secrets::read_secret;
use crate::streams::ErrorStream;
use basis::{Down, Moment, Secret, Unfit};
use command_line::NewToken;
use machine::{AdminAnswer, Keep};
use serve::{Admin, Service};
use std::alloc::Global;
use std::io;
use std::io::{Read, Write};

/// The line for a secret that is not valid.
pub const SECRET_FORM: &str =
    "custody: the secret must be one line of 16 to 64 ASCII letters or digits\n";

/// Prints the cause to the error stream and the ending to standard output.
pub fn say_why<O: Write, E: ErrorStream>(
    output: &mut O,
    errors: &mut E,
    exit: Exit,
    why: &str,
) -> Exit
    ensures said { 0 < length why.now → IsSaidWhy exit result (stream (O.contents output.old) (O.contents output.new)) (error_stream (E.reported errors.old) (E.reported errors.new)) }
    ensures reported { Reports (E.reported errors.old) (E.reported errors.new) why.now }
{
    let noted = note(errors, why);
    let said = say(output, exit);
    match noted {
        Ok(()) => said,
        Err(_) => Exit::Unprinted,
    }
}

// How a command ends that printed a list.
fn listed(printed: io::Result<()>) -> Exit
    ensures ok { OnOk printed (result ≡ Exit.Done) }
    ensures err { OnErr printed (result ≡ Exit.Unprinted) }
{
    match printed {
        Ok(()) => Exit::Done,
        Err(_) => Exit::Unprinted,
    }
}

// A list is printed, or a word. No store that is clean and sound answers otherwise.
fn say_answer<O: Write>(output: &mut O, command: &Admin, answer: &AdminAnswer) -> Exit
    ensures line { AnswersCommand command.now result (stream (O.contents output.old) (O.contents output.new)) }
    ensures reports { ReportsAnswer command.now answer.now result (stream (O.contents output.old) (O.contents output.new)) }
{
    match (command, answer) {
        (Admin::OrgList, AdminAnswer::Organizations(rows)) => {
            listed(print_organizations(output, rows.as_slice()))
        }
        (Admin::TokenList { .. }, AdminAnswer::Tokens(rows)) => {
            listed(print_tokens(output, rows.as_slice()))
        }
        (Admin::TokenList { .. }, AdminAnswer::Absent) => say(output, Exit::Absent),
        (Admin::OrgList | Admin::TokenList { .. }, _) => say(output, Exit::Down),
        (_, word) => say_word(output, word),
    }
}

/// Why a store failed: a disk error closed it, so a change that was under way may have been made; or it is still open, and no
/// record changed; or there was no memory to find out which.
pub fn failure<K: Keep, F: Files<K>>(files: &F, store: &mut K) -> Cause
    ensures unchanged { Unchanged K.rows K.clean K.sound K.keyed K.shielded store.old store.new }
    ensures fails { FailsAs K.Keep F.Files store.old store.new result }
{
    match files.is_shut(store) {
        Ok(true) => Cause::Halted,
        Ok(false) => Cause::Store,
        Err(_) => Cause::Unknown,
    }
}

/// Carries out an operator's command on the store of a service, and prints its answer. No answer depends on the time, so the
/// clock is not read.
pub fn operate_on<K: Keep, F: Files<K>, O: Write, E: ErrorStream>(
    alloc: Global,
    files: &F,
    service: &mut Service<K>,
    command: &Admin,
    output: &mut O,
    errors: &mut E,
) -> Exit
    ensures lasts { Lasts K.clean K.sound K.keyed K.shielded service.old.keep service.new.keep }
    ensures line { AnswersCommand command.now result (stream (O.contents output.old) (O.contents output.new)) }
    ensures model { K.clean service.new.keep → K.sound service.old.keep → IsOperated (HasFailed K.Keep F.Files service.new.keep) command.now (K.rows service.old.keep) (K.rows service.new.keep) result (stream (O.contents output.old) (O.contents output.new)) (error_stream (E.reported errors.old) (E.reported errors.new)) }
    ensures why { (E.reported errors.new ≡ E.reported errors.old) ⊎ ((why : AnyCause) × HasFailed K.Keep F.Files service.new.keep why × ReportsCause why (error_stream (E.reported errors.old) (E.reported errors.new))) }
{
    match service.admin(alloc, Moment::new(0).unwrap(), command) {
        Ok(answer) => say_answer(output, command, &answer),
        Err(_) => {
            let cause = failure(files, &mut service.keep);
            refuse(output, errors, cause)
        }
    }
}

/// Carries out an operator's command on a store, prints its answer, and returns the store.
fn operate<K: Keep, F: Files<K>, O: Write, E: ErrorStream>(
    alloc: Global,
    files: &F,
    keep: K,
    command: &Admin,
    output: &mut O,
    errors: &mut E,
) -> (Exit, K)
    ensures lasts { Lasts K.clean K.sound K.keyed K.shielded keep result.1 }
    ensures line { AnswersCommand command.now result.0 (stream (O.contents output.old) (O.contents output.new)) }
    ensures model { K.clean result.1 → K.sound keep → IsOperated (HasFailed K.Keep F.Files result.1) command.now (K.rows keep) (K.rows result.1) result.0 (stream (O.contents output.old) (O.contents output.new)) (error_stream (E.reported errors.old) (E.reported errors.new)) }
    ensures why { (E.reported errors.new ≡ E.reported errors.old) ⊎ ((why : AnyCause) × HasFailed K.Keep F.Files result.1 why × ReportsCause why (error_stream (E.reported errors.old) (E.reported errors.new))) }
{
    let mut service = Service::new(keep);
    let exit = operate_on(alloc, files, &mut service, command, output, errors);
    (exit, service.into_keep())
}

/// Only a command that adds an organization creates a database.
pub fn opening_of(command: &Admin) -> Opening
    ensures { result ≡ opening_of command.now }
{
    match command {
        Admin::OrgAdd { .. } => Opening::Created,
        Admin::OrgLimit { .. } | Admin::OrgRemove { .. } | Admin::OrgList => Opening::Existing,
        Admin::TokenAdd { .. } | Admin::TokenList { .. } => Opening::Existing,
        Admin::TokenRevoke { .. } => Opening::Existing,
    }
}

pub fn carry_out<K: Keep, F: Files<K>, O: Write, E: ErrorStream>(
    alloc: Global,
    files: &mut F,
    db: &str,
    command: &Admin,
    output: &mut O,
    errors: &mut E,
) -> Exit
    ensures line { AnswersCommand command.now result (stream (O.contents output.old) (O.contents output.new)) }
    ensures operates { OperatesAt K.Keep F.Files db.now command.now files.old files.new result (stream (O.contents output.old) (O.contents output.new)) (error_stream (E.reported errors.old) (E.reported errors.new)) }
{
    let store = match open_one(files, db, opening_of(command), output, errors) {
        Ok(store) => store,
        Err(exit) => return exit,
    };
    let (exit, store) = operate(alloc, files, store, command, output, errors);
    close_after(files, db, store, errors);
    exit
}

fn add_token<K: Keep, F: Files<K>, O: Write, E: ErrorStream>(
    alloc: Global,
    files: &mut F,
    db: &str,
    token: NewToken,
    secret: Secret,
    output: &mut O,
    errors: &mut E,
) -> Exit
    ensures line { AnswersLine result (stream (O.contents output.old) (O.contents output.new)) }
    ensures operates { OperatesAt K.Keep F.Files db.now (with_secret token secret) files.old files.new result (stream (O.contents output.old) (O.contents output.new)) (error_stream (E.reported errors.old) (E.reported errors.new)) }
{
    let command = token.with_secret(secret);
    carry_out(alloc, files, db, &command, output, errors)
}

/// Reads the secret from the input.
pub fn input_secret<I: Read>(alloc: Global, input: &mut I) -> Result<Secret, Unfit>
    ensures is { IfOk result (λ secret. IsSecretOf (I.remaining input.old) secret) }
    ensures has { OnOk result (HasSecret (I.remaining input.old)) }
    ensures syntax { IsErrOf result Unfit.Syntax → HasNoSecret (I.remaining input.old) }
    ensures end { OnOk result (IsAtEnd (I.remaining input.new)) }
    ensures end_syntax { IsErrOf result Unfit.Syntax → IsAtEnd (I.remaining input.new) }
{
    match read_all(alloc, input) {
        Ok(bytes) => read_secret(alloc, bytes.as_slice()),
        Err(_) => Err(Unfit::Down),
    }
}

pub fn read_and_add<K: Keep, F: Files<K>, I: Read, O: Write, E: ErrorStream>(
    alloc: Global,
    files: &mut F,
    db: &str,
    token: NewToken,
    input: &mut I,
    output: &mut O,
    errors: &mut E,
) -> Exit
    ensures line { AddsToken (I.remaining input.old) result (stream (O.contents output.old) (O.contents output.new)) (error_stream (E.reported errors.old) (E.reported errors.new)) }
    ensures adds { AddsTokenAt K.Keep F.Files db.now (with_secret token) (I.remaining input.old) files.old files.new result (stream (O.contents output.old) (O.contents output.new)) (error_stream (E.reported errors.old) (E.reported errors.new)) }
    ensures input { ReadsAll (I.remaining input.new) result (stream (O.contents output.old) (O.contents output.new)) (error_stream (E.reported errors.old) (E.reported errors.new)) }
{
    match input_secret(alloc, input) {
        Ok(secret) => add_token(alloc, files, db, token, secret, output, errors),
        Err(Unfit::Syntax) => say_why(output, errors, Exit::Usage, SECRET_FORM),
        Err(Unfit::Down) => refuse(output, errors, Cause::Input),
    }
}
