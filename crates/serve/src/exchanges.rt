//! One exchange: a request is read, answered and carried out, and its reply is written.
ghost use Rattle.std.specs.Prelude.{◌≡◌, ◌↔◌, ℕ, List, ◌⊎◌, true, false, IfSome, IfErr, is_err, IsErrOf};
ghost use Rattle.std.specs.Io.KnownBytes.{Consumes};
ghost use Rattle.wire.specs.Links.{Writes};
ghost use Rattle.wire.specs.Replies.{IsReplyText, unavailable_answer};
ghost use Rattle.machine.specs.StoreCalls.{Lasts, LastsWhere};
ghost use Rattle.serve.specs.Asks.{Ask};
ghost use Rattle.serve.specs.Service.{Stays};
ghost use Rattle.serve.specs.Exchanges.{Exchanges, ChangesAtMostOne, ChangesAsLogged};
ghost use Rattle.serve.specs.Inner.Doors.{IsAnsweredThere};
ghost use Rattle.serve.specs.Inner.Prepared.{IsPrepared};
ghost use Rattle.serve.specs.Inner.Replying.{AnswersTo, AnswersPast, due_reply, due_row, CommitsUnlessDown};

use crate::doors::{Door, Operated, operate};
use crate::logs::{as_unavailable, silent_row};
use crate::messages::{Prepared, commit, is_head, prepare, without_body};
use crate::operators::Operators;
use basis::{Down, Moment};
use docs::LogRow;
use machine::Keep;
use route::{Routes, is_at_door};
use std::alloc::Global;
use wire::{Inlet, Message, Outlet, Reply, WireFault, read_message, write_reply};

/// Why an exchange ended without a whole reply. After the first three no rows changed.
#[derive(Clone, Copy, PartialEq, Eq)]
pub enum LinkFault {
    /// The input ended inside the message.
    Ended,
    /// A read failed.
    Read,
    /// Writing `100 Continue` failed.
    Continue,
    /// Writing the reply failed: a front of it is written, and the step is taken.
    Write,
}

fn write_due<O: Outlet>(reply: &Reply, now: Moment, outlet: &mut O) -> Result<(), LinkFault>
    requires { O.broken outlet.old ≡ false }
    ensures text { (text : List ℕ) × IsReplyText reply.now now text × Writes (O.written outlet.old) (O.written outlet.new) text result }
    ensures fault { IfErr result (λ fault. fault ≡ LinkFault.Write) }
    ensures cause { O.broken outlet.new ≡ is_err result }
{
    match write_reply(reply, now, outlet) {
        Ok(()) => Ok(()),
        Err(_) => Err(LinkFault::Write),
    }
}

/// The 503 of memory or a store that refused is written.
pub fn refuse_exchange<O: Outlet>(
    is_head: bool,
    now: Moment,
    outlet: &mut O,
) -> Result<(), LinkFault>
    requires { O.broken outlet.old ≡ false }
    ensures text { (text : List ℕ) × IsReplyText (unavailable_answer is_head) now text × Writes (O.written outlet.old) (O.written outlet.new) text result }
    ensures fault { IfErr result (λ fault. fault ≡ LinkFault.Write) }
    ensures cause { O.broken outlet.new ≡ is_err result }
{
    let reply = Reply::unavailable(is_head);
    write_due(&reply, now, outlet)
}

/// Makes the change that was prepared, and then writes its reply. If the change fails (`down`), writes the
/// 503.
fn commit_and_reply<K: Keep, O: Outlet>(
    alloc: Global,
    keep: &mut K,
    prepared: &Prepared,
    is_head: bool,
    now: Moment,
    outlet: &mut O,
    down: &mut bool,
) -> Result<(), LinkFault>
    requires { O.broken outlet.old ≡ false }
    ensures lasts { LastsWhere ((ask : Ask) × IsPrepared (K.rows keep.old) ask prepared.now) K.clean K.sound K.keyed K.shielded keep.old keep.new }
    ensures committed { K.clean keep.new → K.sound keep.old → CommitsUnlessDown down.new prepared.now (K.rows keep.old) (K.rows keep.new) }
    ensures text { (text : List ℕ) × IsReplyText (due_reply down.new is_head prepared.now.reply) now text
        × Writes (O.written outlet.old) (O.written outlet.new) text result }
    ensures fault { IfErr result (λ fault. fault ≡ LinkFault.Write) }
    ensures cause { O.broken outlet.new ≡ is_err result }
{
    match commit(alloc, keep, prepared) {
        Ok(()) => {
            *down = false;
            write_due(&prepared.reply, now, outlet)
        }
        Err(Down) => {
            *down = true;
            refuse_exchange(is_head, now, outlet)
        }
    }
}

// The log row: the prepared one if the change was made, otherwise (`is_down`) the 503's.
fn row_after(ready: Prepared, is_down: bool) -> LogRow
    ensures { result ≡ due_row is_down ready.row }
{
    if is_down {
        as_unavailable(ready.row)
    } else {
        ready.row
    }
}

// Answers and carries out what was read, and writes the reply.
fn answer_read<K: Keep, O: Outlet>(
    alloc: Global,
    keep: &mut K,
    routes: &Routes,
    now: Moment,
    read: Result<Message, WireFault>,
    outlet: &mut O,
    is_down: &mut bool,
    row: &mut Option<LogRow>,
) -> Result<(), LinkFault>
    requires { (O.broken outlet.old ≡ true) ↔ IsErrOf read WireFault.Continue }
    ensures lasts { Lasts K.clean K.sound K.keyed K.shielded keep.old keep.new }
    ensures reported { K.clean keep.new → K.sound keep.old → AnswersPast now read (K.rows keep.old) (K.rows keep.new) (O.written outlet.old) (O.written outlet.new) is_down.new row.new result }
    ensures stays { K.clean keep.new → (IsErrOf result LinkFault.Ended ⊎ (IsErrOf result LinkFault.Read ⊎ IsErrOf result LinkFault.Continue))
        → Stays (K.rows keep.old) (K.rows keep.new) }
    ensures ended { IsErrOf result LinkFault.Ended ↔ IsErrOf read WireFault.Ended }
    ensures read { IsErrOf result LinkFault.Read ↔ IsErrOf read WireFault.Read }
    ensures written { (O.broken outlet.new ≡ true) ↔ (IsErrOf result LinkFault.Continue ⊎ IsErrOf result LinkFault.Write) }
{
    *is_down = false;
    let head_only = without_body(&read);
    match prepare(alloc, keep, routes, now, read) {
        Ok(Ok(ready)) => {
            let result = commit_and_reply(alloc, keep, &ready, head_only, now, outlet, is_down);
            *row = Some(row_after(ready, *is_down));
            result
        }
        Ok(Err(so_far)) => {
            *is_down = true;
            *row = Some(so_far);
            refuse_exchange(head_only, now, outlet)
        }
        Err(fault) => {
            *row = Some(silent_row(now));
            Err(fault)
        }
    }
}

// Answers a message at the open door, and carries out its command.
fn answer_at_door<K: Keep, O: Outlet>(
    alloc: Global,
    keep: &mut K,
    operators: &Operators,
    now: Moment,
    message: &Message,
    outlet: &mut O,
    is_down: &mut bool,
    row: &mut Option<LogRow>,
) -> Result<(), LinkFault>
    requires { O.broken outlet.old ≡ false }
    ensures lasts { Lasts K.clean K.sound K.keyed K.shielded keep.old keep.new }
    ensures text { K.clean keep.new → K.sound keep.old → (text : List ℕ) × IsAnsweredThere operators.now now message.now (K.rows keep.old) (K.rows keep.new) text row.new is_down.new
        × Writes (O.written outlet.old) (O.written outlet.new) text result }
    ensures fault { IfErr result (λ fault. fault ≡ LinkFault.Write) }
    ensures cause { O.broken outlet.new ≡ is_err result }
{
    match operate(alloc, keep, operators, now, message) {
        Ok(operated) => {
            let Operated {
                reply,
                row: reported,
            } = operated;
            *is_down = false;
            *row = Some(reported);
            write_due(&reply, now, outlet)
        }
        Err(so_far) => {
            *is_down = true;
            *row = Some(so_far);
            refuse_exchange(is_head(message), now, outlet)
        }
    }
}

// Answers what was read: at the open door, or past it.
fn answer<K: Keep, O: Outlet>(
    alloc: Global,
    keep: &mut K,
    routes: &Routes,
    door: &Door,
    now: Moment,
    read: Result<Message, WireFault>,
    outlet: &mut O,
    is_down: &mut bool,
    row: &mut Option<LogRow>,
) -> Result<(), LinkFault>
    requires { (O.broken outlet.old ≡ true) ↔ IsErrOf read WireFault.Continue }
    ensures lasts { Lasts K.clean K.sound K.keyed K.shielded keep.old keep.new }
    ensures reported { K.clean keep.new → K.sound keep.old → AnswersTo door.now now read (K.rows keep.old) (K.rows keep.new) (O.written outlet.old) (O.written outlet.new) is_down.new row.new result }
    ensures stays { K.clean keep.new → (IsErrOf result LinkFault.Ended ⊎ (IsErrOf result LinkFault.Read ⊎ IsErrOf result LinkFault.Continue))
        → Stays (K.rows keep.old) (K.rows keep.new) }
    ensures ended { IsErrOf result LinkFault.Ended ↔ IsErrOf read WireFault.Ended }
    ensures read { IsErrOf result LinkFault.Read ↔ IsErrOf read WireFault.Read }
    ensures written { (O.broken outlet.new ≡ true) ↔ (IsErrOf result LinkFault.Continue ⊎ IsErrOf result LinkFault.Write) }
{
    match door {
        Door::Closed => answer_read(alloc, keep, routes, now, read, outlet, is_down, row),
        Door::Open { operators } => match read {
            Ok(message) => {
                if is_at_door(&message) {
                    answer_at_door(alloc, keep, operators, now, &message, outlet, is_down, row)
                } else {
                    answer_read(alloc, keep, routes, now, Ok(message), outlet, is_down, row)
                }
            }
            Err(fault) => answer_read(alloc, keep, routes, now, Err(fault), outlet, is_down, row),
        },
    }
}

/// One exchange over a keep, with an operator's door or without; `is_down` says whether the reply was the 503 of memory or a store that
/// refused, and `row` what the log reports.
pub fn exchange_with<K: Keep, I: Inlet, O: Outlet>(
    alloc: Global,
    keep: &mut K,
    routes: &Routes,
    door: &Door,
    now: Moment,
    inlet: &mut I,
    outlet: &mut O,
    is_down: &mut bool,
    row: &mut Option<LogRow>,
) -> Result<(), LinkFault>
    requires reads { I.broken inlet.old ≡ false }
    requires writes { O.broken outlet.old ≡ false }
    ensures lasts { Lasts K.clean K.sound K.keyed K.shielded keep.old keep.new }
    ensures reported { K.clean keep.new → K.sound keep.old → (received : List ℕ) × Consumes (I.left inlet.old) (I.left inlet.new) received
        × Exchanges door.now now received (I.left inlet.new) (K.rows keep.old) (K.rows keep.new) (O.written outlet.old) (O.written outlet.new) is_down.new row.new result }
    ensures stays { K.clean keep.new → (IsErrOf result LinkFault.Ended ⊎ (IsErrOf result LinkFault.Read ⊎ IsErrOf result LinkFault.Continue))
        → Stays (K.rows keep.old) (K.rows keep.new) }
    ensures others { K.clean keep.new → K.sound keep.old → ChangesAtMostOne (K.rows keep.old) (K.rows keep.new) }
    ensures changes { K.clean keep.new → K.sound keep.old → IfSome row.new (λ reported. ChangesAsLogged reported (K.rows keep.old) (K.rows keep.new)) }
    ensures read { (I.broken inlet.new ≡ true) ↔ IsErrOf result LinkFault.Read }
    ensures end { I.ended inlet.old ≡ false → ((I.ended inlet.new ≡ true) ↔ IsErrOf result LinkFault.Ended) }
    ensures written { (O.broken outlet.new ≡ true) ↔ (IsErrOf result LinkFault.Continue ⊎ IsErrOf result LinkFault.Write) }
{
    keep.records_are_lawful();
    let read = read_message(alloc, inlet, outlet);
    answer(alloc, keep, routes, door, now, read, outlet, is_down, row)
}
