//! What was read is answered completely, and then its change is made.
ghost use Rattle.std.specs.Prelude.{◌≡◌, ◌↔◌, Bool, None, Err, ◌≢◌, IfOk, IfErr, IsErrOf, OnOk, OnErr};
ghost use Rattle.wire.specs.declared.messages.WireFault.TheVariants.{Ended, Read, Continue};
ghost use Rattle.route.specs.Asks.{asked_of};
ghost use Rattle.serve.specs.Asks.{Ask, requests};
ghost use Rattle.machine.specs.StoreCalls.{Unchanged, Lasts, LastsWhere};
ghost use Rattle.serve.specs.Inner.Prepared.{IsPrepared};
ghost use Rattle.docs.specs.Bodies.{error_text};
ghost use Rattle.wire.specs.Replies.{refused_answer};
ghost use Rattle.serve.specs.Logs.{silent_row, with_answer, row_of_request, no_trace, unavailable_row, row_of_unavailable, IsUnavailableRequest};
ghost use Rattle.serve.specs.Inner.Replying.{PreparesFor, IsLogged, LogsFor, IsLoggedDown, LogsDownFor, without_body};
ghost use Rattle.serve.specs.Service.{is_head, asked_by, Asks, Carries, Stays, said_to, IsSaidText};

use crate::exchanges::LinkFault;
use crate::logs::{RowFacts, as_unavailable, refused_row, request_row, unavailable_row};
use crate::requests::{WsChange, refuse, request};
use basis::{Bytes, Down, Moment, Refusal};
use docs::LogRow;
use machine::Keep;
use route::{Asked, Routes, asked};
use std::alloc::Global;
use wire::{FromRead, Message, Reply, ToWrite, WireFault, read_message, write_reply};

/// An answer that is complete before anything changes: the reply, the change to make, and the log row
/// for when it is made.
#[derive(Drop)]
pub struct Prepared {
    pub reply: Reply,
    pub change: Option<WsChange>,
    pub row: LogRow,
}

/// Whether the method of a message is HEAD.
pub fn is_head(message: &Message) -> bool
    ensures { result ≡ is_head message.now }
{
    message.method.as_str() == "HEAD"
}

/// Whether the body of the reply to what was read is left out.
pub fn without_body(read: &Result<Message, WireFault>) -> bool
    ensures { result ≡ without_body read.now }
{
    match read {
        Ok(message) => is_head(message),
        Err(WireFault::Refused(_, is_head)) => *is_head,
        Err(WireFault::Ended | WireFault::Read | WireFault::Continue | WireFault::Down) => false,
    }
}

// What a request is answered, with its row of the log.
fn ready(
    at: Moment,
    asked: Asked,
    reply: Reply,
    change: Option<WsChange>,
    facts: RowFacts,
) -> Prepared
    ensures { result ≡ record { reply = reply; change = change; row = row_of_request at asked reply facts.token facts.id facts.trace } }
{
    let row = request_row(at, asked, &reply, facts);
    Prepared { reply, change, row }
}

// The row of the 503 of a request, of which this had been read.
fn row_so_far(at: Moment, asked: Asked, facts: RowFacts) -> LogRow
    ensures { facts.trace ≡ no_trace → result ≡ row_of_unavailable at asked facts.token facts.id }
{
    let reply = Reply::unavailable(false);
    as_unavailable(request_row(at, asked, &reply, facts))
}

// A refusal of what asks nothing of any organization, with its row of the log, or that of the 503.
fn refused(alloc: Global, at: Moment, refusal: Refusal, is_head: bool) -> Result<Prepared, LogRow>
    ensures known { OnOk result (refusal ≢ Refusal.Unavailable) }
    ensures ok { IfOk result (λ r. (r.reply ≡ refused_answer refusal (error_text refusal) is_head) × (r.change ≡ None)) }
    ensures row { IfOk result (λ r. r.row ≡ with_answer (refused_answer refusal (error_text refusal) is_head) (silent_row at)) }
    ensures down { IfErr result (λ row. row ≡ unavailable_row at) }
{
    match refuse(alloc, refusal, is_head) {
        Ok(reply) => {
            let row = refused_row(at, &reply);
            Ok(Prepared {
                reply,
                change: None,
                row,
            })
        }
        Err(Down) => Err(unavailable_row(at)),
    }
}

/// What a request is answered, and the change that is to follow; or the row of its 503, with all that had been read of it.
fn answer_asked<K: Keep>(
    alloc: Global,
    keep: &mut K,
    at: Moment,
    asked: Asked,
    content_md5: &Option<Bytes>,
    body: Bytes,
) -> Result<Prepared, LogRow>
    ensures unchanged { Unchanged K.rows K.clean K.sound K.keyed K.shielded keep.old keep.new }
    ensures ok { K.clean keep.new → K.sound keep.old → IfOk result (λ r. (awaited : Bool)
        → IsPrepared (K.rows keep.old) (requests at awaited asked content_md5.now body) r) }
    ensures logs { K.clean keep.new → K.sound keep.old → IfOk result (λ r. (awaited : Bool)
        → IsLogged (K.rows keep.old) (requests at awaited asked content_md5.now body) r.row) }
    ensures down { K.clean keep.new → K.sound keep.old → IfErr result (λ row.
        IsUnavailableRequest (K.rows keep.old asked.caller) at asked content_md5.now body row) }
{
    match request(alloc, keep, at, &asked, content_md5, body) {
        Ok((reply, change, facts)) => Ok(ready(at, asked, reply, change, facts)),
        Err(facts) => Err(row_so_far(at, asked, facts)),
    }
}

/// What a message is answered, and the change that is to follow; or the row of the 503.
fn answer<K: Keep>(
    alloc: Global,
    keep: &mut K,
    routes: &Routes,
    at: Moment,
    message: Message,
) -> Result<Prepared, LogRow>
    ensures unchanged { Unchanged K.rows K.clean K.sound K.keyed K.shielded keep.old keep.new }
    ensures ok { K.clean keep.new → K.sound keep.old → IfOk result (λ r. (awaited : Bool)
        → IsPrepared (K.rows keep.old) (asked_by at awaited message (asked_of message)) r) }
    ensures logs { K.clean keep.new → K.sound keep.old → IfOk result (λ r. (awaited : Bool)
        → IsLogged (K.rows keep.old) (asked_by at awaited message (asked_of message)) r.row) }
    ensures down { K.clean keep.new → K.sound keep.old → IfErr result (λ row. (awaited : Bool)
        → IsLoggedDown (K.rows keep.old) (asked_by at awaited message (asked_of message)) row) }
{
    let found = asked(alloc, routes, &message);
    let is_head = is_head(&message);
    let content_md5 = message.content_md5;
    let body = message.body;
    match found {
        Ok(asked) => answer_asked(alloc, keep, at, asked, &content_md5, body),
        Err(refusal) => refused(alloc, at, refusal, is_head),
    }
}

/// The answer to what was read, and the change to make; or the row of the 503 if an allocation or the store
/// failed; or why nothing is answered. Nothing changes yet.
pub fn prepare<K: Keep>(
    alloc: Global,
    keep: &mut K,
    routes: &Routes,
    at: Moment,
    read: Result<Message, WireFault>,
) -> Result<Result<Prepared, LogRow>, LinkFault>
    ensures unchanged { Unchanged K.rows K.clean K.sound K.keyed K.shielded keep.old keep.new }
    ensures ok { K.clean keep.new → K.sound keep.old → IfOk result (λ ready. IfOk ready (λ r. PreparesFor at (K.rows keep.old) read r)) }
    ensures logs { K.clean keep.new → K.sound keep.old → IfOk result (λ ready. IfOk ready (λ r. LogsFor at (K.rows keep.old) read r.row)) }
    ensures down { K.clean keep.new → K.sound keep.old → IfOk result (λ ready. IfErr ready (λ row. LogsDownFor at (K.rows keep.old) read row)) }
    ensures ended { IsErrOf result LinkFault.Ended ↔ (read ≡ Err Ended) }
    ensures read { IsErrOf result LinkFault.Read ↔ (read ≡ Err Read) }
    ensures continues { IsErrOf result LinkFault.Continue ↔ (read ≡ Err Continue) }
    ensures never_write { IfErr result (λ fault. fault ≢ LinkFault.Write) }
{
    let ready = match read {
        Ok(message) => answer(alloc, keep, routes, at, message),
        Err(WireFault::Refused(refusal, is_head)) => refused(alloc, at, refusal, is_head),
        Err(WireFault::Down) => Err(unavailable_row(at)),
        Err(WireFault::Ended) => return Err(LinkFault::Ended),
        Err(WireFault::Read) => return Err(LinkFault::Read),
        Err(WireFault::Continue) => return Err(LinkFault::Continue),
    };
    Ok(ready)
}

/// Makes the change that was prepared.
pub fn commit<K: Keep>(alloc: Global, keep: &mut K, prepared: &Prepared) -> Result<(), Down>
    ensures lasts { LastsWhere ((ask : Ask) × IsPrepared (K.rows keep.old) ask prepared.now) K.clean K.sound K.keyed K.shielded keep.old keep.new }
    ensures ok { K.clean keep.new → K.sound keep.old → OnOk result ((ask : Ask) → IsPrepared (K.rows keep.old) ask prepared.now
        → Carries ask (K.rows keep.old) (K.rows keep.new)) }
    ensures err { K.clean keep.new → OnErr result (Stays (K.rows keep.old) (K.rows keep.new)) }
{
    match &prepared.change {
        Some(WsChange { org, ws, change }) => keep.apply(alloc, org, ws, change),
        None => Ok(()),
    }
}

/// The answer to the bytes of a connection, and the change that they make: the text is complete before
/// the change is made.
pub fn take_request<K: Keep>(
    alloc: Global,
    keep: &mut K,
    routes: &Routes,
    at: Moment,
    bytes: &[u8],
) -> Result<Bytes, Down>
    ensures lasts { Lasts K.clean K.sound K.keyed K.shielded keep.old keep.new }
    ensures ok { K.clean keep.new → K.sound keep.old → IfOk result (λ text. (ask : Ask) × Asks at bytes.now ask
        × Carries ask (K.rows keep.old) (K.rows keep.new) × IsSaidText (said_to (K.rows keep.old) ask) text) }
    ensures err { K.clean keep.new → OnErr result (Stays (K.rows keep.old) (K.rows keep.new)) }
{
    let mut inlet = FromRead::new(bytes);
    let mut outlet = ToWrite::new(Vec::new(alloc));
    let read = read_message(alloc, &mut inlet, &mut outlet);
    let ready = match prepare(alloc, keep, routes, at, read) {
        Ok(Ok(ready)) => ready,
        Err(LinkFault::Ended) => return Ok(Bytes::new(Vec::new(alloc))),
        _ => return Err(Down),
    };
    let Ok(()) = write_reply(&ready.reply, at, &mut outlet) else {
        return Err(Down);
    };
    commit(alloc, keep, &ready)?;
    Ok(Bytes::new(outlet.into_inner()))
}
