//! The loop of `serve`: connections one after the other, each one exchange.

ghost use Rattle.std.specs.Prelude.{◌≡◌, ◌++◌, ℕ, List, Ok, Some, IfOk, IfErr, IfSome, OnOk, true, false};
ghost use Rattle.std.specs.Io.KnownBytes.{Appends, Consumes};
ghost use Rattle.command_line.specs.Orders.{site_of};
ghost use Rattle.machine.specs.StoreCalls.{Lasts};
ghost use Rattle.serve.specs.Exchanges.{Exchanges, ChangesAsLogged};
ghost use Rattle.program.specs.Errors.{GetsConnectionLines, fault_text, down_line, fault_line};
ghost use Rattle.program.specs.Serving.{listening_line, ListensAt, state, AcceptsNone, AnswersOne, Answers, AfterReply, AnswersNext, EndsEarly, AnswersCount, ServesCount, Serves, LogReportsChanges, LogReportsNext, LoopsAreServed};
ghost use Rattle.serve.specs.Logs.{names_stop};
ghost use Rattle.program.specs.Streams.{ReportsBy};
ghost use Rattle.machine.specs.Ranges.{IsMoment};

use crate::environment::{Clock, Connections, Files};
use crate::errors::{report_cause, send_on, write_line};
use crate::exits::Exit;
use crate::logs::{log_row, names_act, names_stop};
use crate::reasons::Cause;
use crate::streams::ErrorStream;
use basis::Moment;
use basis::numbers::MAX_MOMENT;
use command_line::Address;
use command_line::timeouts::Timeouts;
use machine::Keep;
use serve::{Door, LinkFault, Service};
use std::alloc::Global;
use std::io;
use std::io::Write;
use wire::{Inlet, Outlet};

/// The terms on which connections are served.
#[derive(Drop)]
pub struct Terms {
    /// The timeouts of each connection.
    pub timeouts: Timeouts,
    /// Whether standard output gets one line per exchange.
    pub logs: bool,
    /// The operator's door.
    pub door: Door,
}

fn fault_text(fault: LinkFault) -> &'static str
    ensures { result.now ≡ fault_text fault }
{
    match fault {
        LinkFault::Ended => "the peer closed the connection before its request was complete",
        LinkFault::Read => "a read failed",
        LinkFault::Continue => "100 Continue could not be sent",
        LinkFault::Write => "the reply could not be sent completely",
    }
}

const DOWN: &str = "out of memory or the store failed; replied 503";

fn report_down<E: ErrorStream>(errors: &mut E, connection: u64, is_down: bool) -> io::Result<()>
    ensures { ReportsBy (E.reported errors.old) (E.reported errors.new) (down_line connection is_down) result }
{
    if is_down {
        write_line(errors, connection, DOWN)
    } else {
        Ok(())
    }
}

fn report_fault<E: ErrorStream>(
    errors: &mut E,
    connection: u64,
    ended: Result<(), LinkFault>,
) -> io::Result<()>
    ensures { ReportsBy (E.reported errors.old) (E.reported errors.new) (fault_line connection ended) result }
{
    match ended {
        Ok(()) => Ok(()),
        Err(fault) => write_line(errors, connection, fault_text(fault)),
    }
}

fn write_lines<E: ErrorStream>(
    errors: &mut E,
    connection: u64,
    ended: Result<(), LinkFault>,
    is_down: bool,
) -> io::Result<()>
    ensures { ReportsBy (E.reported errors.old) (E.reported errors.new) (down_line connection is_down ++ fault_line connection ended) result }
{
    report_down(errors, connection, is_down)?;
    report_fault(errors, connection, ended)
}

// Reports what happened to a connection on the error stream, if there is anything to report.
fn report<E: ErrorStream>(
    errors: &mut E,
    connection: u64,
    ended: Result<(), LinkFault>,
    is_down: bool,
)
    ensures { GetsConnectionLines connection is_down ended (E.reported errors.old) (E.reported errors.new) }
{
    let written = write_lines(errors, connection, ended, is_down);
    let _ = send_on(errors, written);
}

fn exchange_one<K: Keep, I: Inlet, O: Outlet>(
    alloc: Global,
    service: &mut Service<K>,
    door: &Door,
    now: Moment,
    inlet: &mut I,
    outlet: &mut O,
) -> Result<(), LinkFault>
    requires reads { I.broken inlet.old ≡ false }
    requires writes { O.broken outlet.old ≡ false }
    ensures lasts { Lasts K.clean K.sound K.keyed K.shielded service.old.keep service.new.keep }
    ensures reported { K.clean service.new.keep → K.sound service.old.keep → (received : List ℕ) × Consumes (I.left inlet.old) (I.left inlet.new) received
        × Exchanges door.now now received (I.left inlet.new) (K.rows service.old.keep) (K.rows service.new.keep) (O.written outlet.old) (O.written outlet.new) service.new.was_down service.new.row result }
    ensures changes { K.clean service.new.keep → K.sound service.old.keep → IfSome service.new.row (λ row. ChangesAsLogged row (K.rows service.old.keep) (K.rows service.new.keep)) }
    ensures timely { IsMoment now }
{
    prove!(now.seconds() <= MAX_MOMENT);
    service.exchange_with(alloc, door, now, inlet, outlet)
}

// Answers a connection, reports on it and ends it. Returns whether the log line was taken.
fn serve_one<K: Keep, N: Connections, O: Write, E: ErrorStream>(
    alloc: Global,
    service: &mut Service<K>,
    now: Moment,
    network: &mut N,
    reader: N::Reader,
    writer: N::Writer,
    terms: &Terms,
    connection: u64,
    output: &mut O,
    errors: &mut E,
) -> bool
    requires reads { N.Reader.broken reader ≡ false }
    requires writes { N.Writer.broken writer ≡ false }
    ensures lasts { Lasts K.clean K.sound K.keyed K.shielded service.old.keep service.new.keep }
    ensures answers { AnswersOne K.Keep N.Connections N.Reader.Inlet N.Writer.Outlet terms.now connection now service.new.was_down (names_stop service.new.row) result reader writer network.old network.new service.old.keep service.new.keep (E.reported errors.old) (E.reported errors.new) (O.contents output.old) (O.contents output.new) }
{
    let mut inlet = reader;
    let mut outlet = writer;
    let ended = exchange_one(alloc, service, &terms.door, now, &mut inlet, &mut outlet);
    report(errors, connection, ended, service.was_down());
    let is_logged = log_row(alloc, output, terms.logs, connection, ended, service.row());
    let was_read = names_act(service.row());
    network.finish(inlet, outlet, was_read);
    is_logged
}

fn write_listening<O: Write>(output: &mut O, address: Address<'_>) -> io::Result<()>
    ensures { OnOk result (Appends (O.contents output.old) (O.contents output.new) (listening_line (site_of address.entry))) }
{
    match address {
        Address::Port(port) => writeln!(output, "listening 127.0.0.1:{port}"),
        Address::Socket(path) => writeln!(output, "listening {path}"),
    }
}

fn print_listening<O: Write>(output: &mut O, address: Address<'_>) -> io::Result<()>
    ensures { OnOk result (Appends (O.contents output.old) (O.contents output.new) (listening_line (site_of address.entry))) }
{
    write_listening(output, address)?;
    output.flush()
}

// Accepts a connection, reads the clock, and looks whether the files are still at their path: otherwise the connection is closed
// unread, because what its exchange changed would be missing after the next start.
fn accept<K: Keep, F: Files<K>, N: Connections, C: Clock>(
    files: &F,
    network: &mut N,
    timeouts: &Timeouts,
    clock: &mut C,
) -> Result<(N::Reader, N::Writer, Moment), Cause>
    ensures sound { IfOk result (λ found. (N.Reader.broken found.0 ≡ false) × (N.Writer.broken found.1 ≡ false)) }
    ensures accepted { IfOk result (λ found. N.accepts network.old timeouts.now (Ok (found.0, found.1)) network.new × C.reports clock.old (Some found.2) clock.new) }
    ensures placed { IfOk result (λ found. F.places found.2 true) }
    ensures refused { IfErr result (AcceptsNone F.Files N.Connections C.Clock timeouts.now network.old network.new clock.old clock.new) }
{
    let (reader, writer) = match network.accept(timeouts) {
        Ok(sides) => sides,
        Err(_) => return Err(Cause::Accept),
    };
    let Some(now) = clock.now() else {
        return Err(Cause::Clock);
    };
    if files.is_in_place(now) {
        Ok((reader, writer, now))
    } else {
        Err(Cause::Moved)
    }
}

// Accepts the next connection, answers it and ends it. Returns whether the log line was taken.
fn answer_next<K: Keep, F: Files<K>, N: Connections, C: Clock, O: Write, E: ErrorStream>(
    alloc: Global,
    files: &F,
    network: &mut N,
    terms: &Terms,
    service: &mut Service<K>,
    clock: &mut C,
    connection: u64,
    output: &mut O,
    errors: &mut E,
) -> Result<bool, Cause>
    ensures lasts { Lasts K.clean K.sound K.keyed K.shielded service.old.keep service.new.keep }
    ensures answers { IfOk result (λ is_logged. (at : ℕ) × F.places at true × Answers K.Keep N.Connections C.Clock N.Reader.Inlet N.Writer.Outlet terms.now connection at service.new.was_down (names_stop service.new.row) is_logged (state network.old clock.old service.old.keep (E.reported errors.old) (O.contents output.old)) (state network.new clock.new service.new.keep (E.reported errors.new) (O.contents output.new))) }
    ensures refused { IfErr result (λ cause. AcceptsNone F.Files N.Connections C.Clock terms.now.timeouts network.old network.new clock.old clock.new cause × (service.new.keep ≡ service.old.keep) × (E.reported errors.new ≡ E.reported errors.old) × (O.contents output.new ≡ O.contents output.old)) }
{
    let (reader, writer, now) = accept::<K, F, N, C>(files, network, &terms.timeouts, clock)?;
    Ok(serve_one(
        alloc, service, now, network, reader, writer, terms, connection, output, errors,
    ))
}

// After a 503 the files are asked whether a disk error has closed the store. After any other reply they checkpoint
// a long WAL, while nobody waits for an answer; if that fails, the next request gets the error.
fn after_reply<K: Keep, F: Files<K>>(files: &F, service: &mut Service<K>) -> bool
    ensures { AfterReply K.Keep F.Files service.old.was_down service.old.keep result service.new.keep }
{
    if !service.was_down() {
        let _ = files.checkpoint(&mut service.keep);
        return false;
    }
    match files.is_shut(&mut service.keep) {
        Ok(is_shut) => is_shut,
        Err(_) => false,
    }
}

// Answers the next connection, or returns why no further one is to be accepted. Returns whether it was a `stop`.
fn serve_next<K: Keep, F: Files<K>, N: Connections, C: Clock, O: Write, E: ErrorStream>(
    alloc: Global,
    files: &F,
    network: &mut N,
    terms: &Terms,
    service: &mut Service<K>,
    clock: &mut C,
    connection: u64,
    output: &mut O,
    errors: &mut E,
) -> Result<bool, Cause>
    ensures lasts { Lasts K.clean K.sound K.keyed K.shielded service.old.keep service.new.keep }
    ensures answers { IfOk result (λ is_stop. (at : ℕ) × AnswersNext K.Keep F.Files N.Connections C.Clock N.Reader.Inlet N.Writer.Outlet terms.now connection at false is_stop true (state network.old clock.old service.old.keep (E.reported errors.old) (O.contents output.old)) (state network.new clock.new service.new.keep (E.reported errors.new) (O.contents output.new))) }
    ensures refused { IfErr result (EndsEarly K.Keep F.Files N.Connections C.Clock N.Reader.Inlet N.Writer.Outlet terms.now connection (state network.old clock.old service.old.keep (E.reported errors.old) (O.contents output.old)) (state network.new clock.new service.new.keep (E.reported errors.new) (O.contents output.new))) }
{
    let is_logged = answer_next(
        alloc, files, network, terms, service, clock, connection, output, errors,
    )?;
    let is_stop = names_stop(service.row());
    if after_reply(files, service) {
        Err(Cause::Shut)
    } else if is_logged {
        Ok(is_stop)
    } else {
        Err(Cause::Log)
    }
}

// Prints the address, then answers this many connections, unless it stops before: after a `stop`, or because it has to.
fn answer_all<K: Keep, F: Files<K>, N: Connections, C: Clock, O: Write, E: ErrorStream>(
    alloc: Global,
    files: &F,
    network: &mut N,
    address: Address<'_>,
    service: &mut Service<K>,
    count: u64,
    terms: &Terms,
    clock: &mut C,
    output: &mut O,
    errors: &mut E,
) -> Exit
    ensures lasts { Lasts K.clean K.sound K.keyed K.shielded service.old.keep service.new.keep }
    ensures answers { AnswersCount K.Keep F.Files N.Connections C.Clock N.Reader.Inlet N.Writer.Outlet (site_of address.entry) terms.now count (state network.old clock.old service.old.keep (E.reported errors.old) (O.contents output.old)) (state network.new clock.new service.new.keep (E.reported errors.new) (O.contents output.new)) result }
    ensures listens { ListensAt (site_of address.entry) terms.now.logs result (O.contents output.old) (O.contents output.new) }
{
    if print_listening(output, address).is_err() {
        return Exit::Unprinted;
    }
    'connections: for connection in 0..count {
        match serve_next(
            alloc,
            files,
            network,
            terms,
            service,
            clock,
            connection + 1,
            output,
            errors,
        ) {
            Ok(is_stop) => {
                if is_stop {
                    return Exit::Done;
                }
            }
            Err(cause) => {
                report_cause(errors, cause);
                return Exit::Down;
            }
        }
    }
    Exit::Done
}

/// Prints the address, then answers this many connections, one after the other, each with one exchange. The network already
/// listens there. A connection that ends in a link fault or a timeout still counts, and a line of the error stream
/// reports it. A 503 for a failed allocation or store is reported, too. After a `stop` at the operator's door it answers no
/// further one. It stops, with a line that says why, if an accept fails,
/// the clock is out of range, the store's files are no longer at their path, or a disk error has closed the store. If the terms
/// have the log on, it prints one line per exchange to standard output, and stops if a line cannot be written completely.
pub fn serve_loop<K: Keep, F: Files<K>, N: Connections, C: Clock, O: Write, E: ErrorStream>(
    alloc: Global,
    files: &F,
    network: &mut N,
    address: Address<'_>,
    service: &mut Service<K>,
    count: u64,
    terms: &Terms,
    clock: &mut C,
    output: &mut O,
    errors: &mut E,
) -> Exit
    ensures lasts { Lasts K.clean K.sound K.keyed K.shielded service.old.keep service.new.keep }
    ensures serves { K.clean service.new.keep → K.sound service.old.keep → Serves (λ exchanges. ServesCount K.Keep F.Files N.Connections C.Clock N.Reader.Inlet N.Writer.Outlet (site_of address.entry) terms.now count exchanges (state network.old clock.old service.old.keep (E.reported errors.old) (O.contents output.old)) (state network.new clock.new service.new.keep (E.reported errors.new) (O.contents output.new)) result)
        terms.now.door count (K.rows service.old.keep) (K.rows service.new.keep) }
    ensures answers { AnswersCount K.Keep F.Files N.Connections C.Clock N.Reader.Inlet N.Writer.Outlet (site_of address.entry) terms.now count (state network.old clock.old service.old.keep (E.reported errors.old) (O.contents output.old)) (state network.new clock.new service.new.keep (E.reported errors.new) (O.contents output.new)) result }
    ensures listens { ListensAt (site_of address.entry) terms.now.logs result (O.contents output.old) (O.contents output.new) }
{
    service.keep.records_are_lawful();
    answer_all(
        alloc, files, network, address, service, count, terms, clock, output, errors,
    )
}

/// The log has a line for each answered connection, in order. Between two lines, only the record of the organization that the
/// later line names changes.
pub fn log_reports_changes<K: Keep, F: Files<K>, N: Connections, C: Clock>()
    ensures next { LogReportsNext K.Keep F.Files N.Connections C.Clock N.Reader.Inlet N.Writer.Outlet }
    ensures all { LogReportsChanges K.Keep F.Files N.Connections C.Clock N.Reader.Inlet N.Writer.Outlet }
{}

/// What a loop of `serve` answers, however it ends, are exchanges in a row (`Served`), each with the bytes of its connection. If it
/// ends after fewer than it was to answer, and in order, the last was a `stop`.
pub fn loops_are_served<K: Keep, F: Files<K>, N: Connections, C: Clock>()
    ensures { LoopsAreServed K.Keep F.Files N.Connections C.Clock N.Reader.Inlet N.Writer.Outlet }
{}
