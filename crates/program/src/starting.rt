//! The command `serve`: a file is opened, connections are answered from it, and it is closed.
ghost use Rattle.std.specs.Prelude.{◌≡◌, ◌≢◌, ◌⊎◌, true, Ok, OnErr};
ghost use Rattle.command_line.specs.Orders.{site_of};
ghost use Rattle.machine.specs.StoreCalls.{Lasts};
ghost use Rattle.program.specs.Listening.{bound_site};
ghost use Rattle.program.specs.Outcomes.{stream, error_stream, IsSaid, ServesAt, ServesFrom, ServesChecked, ServesAsAsked, RefusesUnsound, RefusesToOpen, environment, IsAlone, SaysServed, ServesBehind, StartsAt, ServesWithDoor};
ghost use Rattle.program.specs.Inputs.{ReadsOperatorsIf};
ghost use Rattle.program.specs.Batches.{bad_text};
ghost use Rattle.program.specs.Streams.{Reports};
ghost use Rattle.program.specs.Inner.Doors.{IsOpenedTo, OpensDoor, IsReadUnlessDown, IsDoorRead};
ghost use Rattle.program.specs.Inner.Outcomes.{ServesOpened};
ghost use Rattle.program.specs.Serving.{Listens, Serves, ServesBound, state, AnswersBound};

use crate::checking::check_first;
use crate::environment::{Clock, Connections, Files, Opening};
use crate::errors::{report_bad_line, report_cause};
use crate::exits::Exit;
use crate::line_faults::LineFault;
use crate::listening::listen;
use crate::openings::{close_after, open_one};
use crate::operating::say_why;
use crate::operators::{OperatorsRead, read_input, read_operators};
use crate::reasons::Cause;
use crate::replies::{refuse, say};
use crate::serving::{Terms, serve_loop};
use crate::streams::ErrorStream;
use basis::Down;
use command_line::Address;
use command_line::timeouts::Timeouts;
use machine::Keep;
use serve::{Door, Service};
use std::alloc::Global;
use std::io::{Read, Write};

// Answers connections from a store at the address where the network listens, or reports why it does not.
fn serve_bound<K: Keep, F: Files<K>, N: Connections, C: Clock, O: Write, E: ErrorStream>(
    alloc: Global,
    files: &F,
    network: &mut N,
    clock: &mut C,
    service: &mut Service<K>,
    bound: Result<Address<'_>, Cause>,
    count: u64,
    terms: &Terms,
    output: &mut O,
    errors: &mut E,
) -> Exit
    ensures lasts { Lasts K.clean K.sound K.keyed K.shielded service.old.keep service.new.keep }
    ensures serves { K.clean service.new.keep → K.sound service.old.keep → Serves (λ exchanges. ServesBound K.Keep F.Files N.Connections C.Clock N.Reader.Inlet N.Writer.Outlet (bound_site bound.entry) terms.now count exchanges (state network.old clock.old service.old.keep (E.reported errors.old) (O.contents output.old)) (state network.new clock.new service.new.keep (E.reported errors.new) (O.contents output.new)) result)
        terms.now.door count (K.rows service.old.keep) (K.rows service.new.keep) }
    ensures listens { Listens (λ site. bound_site bound.entry ≡ Ok site) terms.now.logs result (O.contents output.old) (O.contents output.new) }
    ensures answers { AnswersBound K.Keep F.Files N.Connections C.Clock N.Reader.Inlet N.Writer.Outlet (bound_site bound.entry) terms.now count (state network.old clock.old service.old.keep (E.reported errors.old) (O.contents output.old)) (state network.new clock.new service.new.keep (E.reported errors.new) (O.contents output.new)) result }
{
    service.keep.records_are_lawful();
    match bound {
        Ok(given) => serve_loop(
            alloc, files, network, given, service, count, terms, clock, output, errors,
        ),
        Err(cause) => {
            report_cause(errors, cause);
            Exit::Down
        }
    }
}

fn say_served<O: Write>(output: &mut O, exit: Exit) -> Exit
    ensures down { exit ≡ Exit.Down → IsSaid Exit.Down result (O.contents output.old) (O.contents output.new) }
    ensures other { exit ≢ Exit.Down → (result ≡ exit) × (O.contents output.new ≡ O.contents output.old) }
    ensures says { SaysServed exit result (O.contents output.old) (O.contents output.new) }
{
    match exit {
        Exit::Down => say(output, Exit::Down),
        _ => exit,
    }
}

/// Answers connections from a store that was opened at a path, then closes it.
fn serve_opened<K: Keep, F: Files<K>, N: Connections, C: Clock, O: Write, E: ErrorStream>(
    alloc: Global,
    files: &mut F,
    network: &mut N,
    clock: &mut C,
    db: &str,
    keep: K,
    bound: Result<Address<'_>, Cause>,
    count: u64,
    terms: &Terms,
    output: &mut O,
    errors: &mut E,
) -> Exit
    ensures line { ServesAt (λ site. bound_site bound.entry ≡ Ok site) terms.now.logs result (stream (O.contents output.old) (O.contents output.new)) }
    ensures serves { ServesOpened K.Keep F.Files N.Connections C.Clock N.Reader.Inlet N.Writer.Outlet db.now (bound_site bound.entry) terms.now count keep (environment files.old network.old clock.old) (environment files.new network.new clock.new) result (stream (O.contents output.old) (O.contents output.new)) (error_stream (E.reported errors.old) (E.reported errors.new)) }
{
    let mut service = Service::new(keep);
    let exit = serve_bound(
        alloc,
        files,
        network,
        clock,
        &mut service,
        bound,
        count,
        terms,
        output,
        errors,
    );
    let keep = service.into_keep();
    close_after(files, db, keep, errors);
    say_served(output, exit)
}

fn serve<K: Keep, F: Files<K>, N: Connections, C: Clock, O: Write, E: ErrorStream>(
    alloc: Global,
    files: &mut F,
    network: &mut N,
    clock: &mut C,
    db: &str,
    bound: Result<Address<'_>, Cause>,
    count: u64,
    terms: &Terms,
    output: &mut O,
    errors: &mut E,
) -> Exit
    ensures line { ServesAt (λ site. bound_site bound.entry ≡ Ok site) terms.now.logs result (stream (O.contents output.old) (O.contents output.new)) }
    ensures serves { ServesFrom K.Keep F.Files N.Connections C.Clock N.Reader.Inlet N.Writer.Outlet db.now (bound_site bound.entry) terms.now count (environment files.old network.old clock.old) (environment files.new network.new clock.new) result (stream (O.contents output.old) (O.contents output.new)) (error_stream (E.reported errors.old) (E.reported errors.new))
        ⊎ (RefusesToOpen K.Keep F.Files db.now Opening.Created files.old files.new result (stream (O.contents output.old) (O.contents output.new)) (error_stream (E.reported errors.old) (E.reported errors.new)) × IsAlone (environment files.old network.old clock.old) (environment files.new network.new clock.new)) }
{
    let keep = match open_one(files, db, Opening::Created, output, errors) {
        Ok(keep) => keep,
        Err(exit) => return exit,
    };
    serve_opened(
        alloc, files, network, clock, db, keep, bound, count, terms, output, errors,
    )
}

fn serve_checked<K: Keep, F: Files<K>, N: Connections, C: Clock, O: Write, E: ErrorStream>(
    alloc: Global,
    files: &mut F,
    network: &mut N,
    clock: &mut C,
    db: &str,
    bound: Result<Address<'_>, Cause>,
    count: u64,
    terms: &Terms,
    output: &mut O,
    errors: &mut E,
) -> Exit
    ensures line { ServesAt (λ site. bound_site bound.entry ≡ Ok site) terms.now.logs result (stream (O.contents output.old) (O.contents output.new)) }
    ensures serves { (ServesChecked K.Keep F.Files N.Connections C.Clock N.Reader.Inlet N.Writer.Outlet db.now (bound_site bound.entry) terms.now count (environment files.old network.old clock.old) (environment files.new network.new clock.new) result (stream (O.contents output.old) (O.contents output.new)) (error_stream (E.reported errors.old) (E.reported errors.new))
        ⊎ (RefusesUnsound K.Keep F.Files db.now Opening.Existing Cause.Faults files.old files.new result (stream (O.contents output.old) (O.contents output.new)) (error_stream (E.reported errors.old) (E.reported errors.new)) × IsAlone (environment files.old network.old clock.old) (environment files.new network.new clock.new)))
        ⊎ (RefusesToOpen K.Keep F.Files db.now Opening.Existing files.old files.new result (stream (O.contents output.old) (O.contents output.new)) (error_stream (E.reported errors.old) (E.reported errors.new)) × IsAlone (environment files.old network.old clock.old) (environment files.new network.new clock.new)) }
{
    let mut keep = match open_one(files, db, Opening::Existing, output, errors) {
        Ok(keep) => keep,
        Err(exit) => return exit,
    };
    if check_first(alloc, files, &mut keep, Cause::Faults, errors) {
        return serve_opened(
            alloc, files, network, clock, db, keep, bound, count, terms, output, errors,
        );
    }
    close_after(files, db, keep, errors);
    say(output, Exit::Down)
}

/// Answers connections from the file at a path. If `checks` is true, it checks the tables first and never creates a file.
fn serve_as_asked<K: Keep, F: Files<K>, N: Connections, C: Clock, O: Write, E: ErrorStream>(
    alloc: Global,
    files: &mut F,
    network: &mut N,
    clock: &mut C,
    db: &str,
    bound: Result<Address<'_>, Cause>,
    count: u64,
    terms: &Terms,
    checks: bool,
    output: &mut O,
    errors: &mut E,
) -> Exit
    ensures line { ServesAt (λ site. bound_site bound.entry ≡ Ok site) terms.now.logs result (stream (O.contents output.old) (O.contents output.new)) }
    ensures serves { ServesAsAsked K.Keep F.Files N.Connections C.Clock N.Reader.Inlet N.Writer.Outlet checks db.now (bound_site bound.entry) terms.now count (environment files.old network.old clock.old) (environment files.new network.new clock.new) result (stream (O.contents output.old) (O.contents output.new)) (error_stream (E.reported errors.old) (E.reported errors.new)) }
{
    if checks {
        serve_checked(
            alloc, files, network, clock, db, bound, count, terms, output, errors,
        )
    } else {
        serve(
            alloc, files, network, clock, db, bound, count, terms, output, errors,
        )
    }
}

// Starts once the network has been asked to listen. A socket that cannot be had ends the start before the file is opened.
fn start_at<K: Keep, F: Files<K>, N: Connections, C: Clock, O: Write, E: ErrorStream>(
    alloc: Global,
    files: &mut F,
    network: &mut N,
    clock: &mut C,
    db: &str,
    address: Address<'_>,
    bound: Result<Address<'_>, Cause>,
    count: u64,
    terms: &Terms,
    checks: bool,
    output: &mut O,
    errors: &mut E,
) -> Exit
    ensures line { ServesAt (λ site. bound_site bound.entry ≡ Ok site) terms.now.logs result (stream (O.contents output.old) (O.contents output.new)) }
    ensures starts { StartsAt K.Keep F.Files N.Connections C.Clock N.Reader.Inlet N.Writer.Outlet (site_of address.entry) checks db.now (bound_site bound.entry) terms.now count (environment files.old network.old clock.old) (environment files.new network.new clock.new) result (stream (O.contents output.old) (O.contents output.new)) (error_stream (E.reported errors.old) (E.reported errors.new)) }
{
    match address {
        Address::Port(_) => serve_as_asked(
            alloc, files, network, clock, db, bound, count, terms, checks, output, errors,
        ),
        Address::Socket(_) => match bound {
            Ok(_) => serve_as_asked(
                alloc, files, network, clock, db, bound, count, terms, checks, output, errors,
            ),
            Err(cause) => refuse(output, errors, cause),
        },
    }
}

/// The line for an input of more than `MAX_INPUT` bytes.
const LONG_INPUT: &str = "custody: the lines of the operators have more than 65536 bytes\n";

/// Why the door that is asked for is not there.
#[derive(Clone, Copy)]
enum Unopened {
    /// The line of the input with this number, from 1, is no operator: what is at fault in it.
    Line { number: usize, fault: LineFault },
    /// The input has more than `MAX_INPUT` bytes.
    Long,
    Down,
}

// The door that is open to these operators, unless a line was none.
fn door_to(read: OperatorsRead) -> Result<Door, Unopened>
    ensures { IsOpenedTo read.operators read.fault result }
{
    let OperatorsRead { operators, fault } = read;
    match fault {
        None => Ok(Door::Open { operators }),
        Some(fault) => Err(Unopened::Line {
            number: operators.as_slice().len() + 1,
            fault,
        }),
    }
}

// Reads the operators from the input, and opens the door to them.
fn open_door<I: Read>(alloc: Global, input: &mut I) -> Result<Door, Unopened>
    ensures opens { OpensDoor true (I.remaining input.old) result }
    ensures end { IsReadUnlessDown (I.remaining input.new) result }
{
    let bytes = match read_input(alloc, input) {
        Ok(Some(bytes)) => bytes,
        Ok(None) => return Err(Unopened::Long),
        Err(Down) => return Err(Unopened::Down),
    };
    match read_operators(alloc, bytes.as_slice()) {
        Ok(read) => door_to(read),
        Err(Down) => Err(Unopened::Down),
    }
}

// The door that is asked for: open if `operates` is true.
fn read_door<I: Read>(alloc: Global, operates: bool, input: &mut I) -> Result<Door, Unopened>
    ensures opens { OpensDoor operates (I.remaining input.old) result }
    ensures asked { OnErr result (operates ≡ true) }
    ensures input { IsDoorRead operates (I.remaining input.old) (I.remaining input.new) result }
{
    if operates {
        open_door(alloc, input)
    } else {
        Ok(Door::Closed)
    }
}

fn refuse_line<O: Write, E: ErrorStream>(
    output: &mut O,
    errors: &mut E,
    number: usize,
    fault: LineFault,
) -> Exit
    ensures said { IsSaid Exit.Usage result (O.contents output.old) (O.contents output.new) }
    ensures reported { Reports (E.reported errors.old) (E.reported errors.new) (bad_text number fault) }
{
    report_bad_line(errors, number, fault);
    say(output, Exit::Usage)
}

/// Answers connections from the file at a path, with these timeouts, with the log or without it. If `operates` is true, the
/// operator's door is open, and its operators are read first. The network listens before the file is opened, so that peers who
/// come meanwhile wait. A port that cannot be had is reported once the file is open.
pub fn serve_with_door<
    K: Keep,
    F: Files<K>,
    N: Connections,
    C: Clock,
    I: Read,
    O: Write,
    E: ErrorStream,
>(
    alloc: Global,
    files: &mut F,
    network: &mut N,
    clock: &mut C,
    db: &str,
    address: Address<'_>,
    count: u64,
    timeouts: Timeouts,
    logs: bool,
    checks: bool,
    operates: bool,
    input: &mut I,
    output: &mut O,
    errors: &mut E,
) -> Exit
    ensures line { ServesBehind (site_of address.entry) operates logs (I.remaining input.old) result (stream (O.contents output.old) (O.contents output.new)) (error_stream (E.reported errors.old) (E.reported errors.new)) }
    ensures serves { ServesWithDoor K.Keep F.Files N.Connections C.Clock N.Reader.Inlet N.Writer.Outlet operates checks db.now (site_of address.entry) timeouts logs count (I.remaining input.old) (environment files.old network.old clock.old) (environment files.new network.new clock.new) result (stream (O.contents output.old) (O.contents output.new)) (error_stream (E.reported errors.old) (E.reported errors.new)) }
    ensures input { ReadsOperatorsIf operates (I.remaining input.old) (I.remaining input.new) result (stream (O.contents output.old) (O.contents output.new)) (error_stream (E.reported errors.old) (E.reported errors.new)) }
{
    match read_door(alloc, operates, input) {
        Ok(door) => {
            let terms = Terms {
                timeouts,
                logs,
                door,
            };
            let bound = listen(network, address);
            start_at(
                alloc, files, network, clock, db, address, bound, count, &terms, checks, output,
                errors,
            )
        }
        Err(Unopened::Line { number, fault }) => refuse_line(output, errors, number, fault),
        Err(Unopened::Long) => say_why(output, errors, Exit::Usage, LONG_INPUT),
        Err(Unopened::Down) => refuse(output, errors, Cause::Input),
    }
}
