//! The service over a keep: what it keeps between steps, and steps in turn.
ghost use Rattle.std.specs.Prelude.{◌≡◌, ◌≤◌, ◌<◌, ℕ, List, Option, Some, None, IfOk, IsErrOf, true, false, IfSome, ◌↔◌, ◌⊎◌, OnOk, OnErr, length, take};
ghost use Rattle.std.specs.Io.KnownBytes.{Consumes};
ghost use Rattle.serve.specs.Exchanges.{Exchanges, ChangesAtMostOne, ChangesAsLogged};
ghost use Rattle.serve.specs.Inner.Taking.{IsTaken, RunsTo};
ghost use Rattle.serve.specs.Asks.{Ask, commands, unattributed, operator};
ghost use Rattle.serve.specs.Service.{IsSaidText, Stays, Carries, said_to, AreAsked, IsAdminAnswer, IsListedBy};
ghost use Rattle.machine.specs.StoreCalls.{Lasts};
ghost use Rattle.serve.specs.AbsentForms.{RepliesLookAbsent};
ghost use Rattle.serve.specs.Book.{LocksKeepOthersOut, RunsKeepOthersOut, NoIdWhereNobodyHolds, LocksEndByUnlock, OneRunAtATime, StartsRise, RepeatsLeaveIt, DoneOnceIsDone, OfEachBook};
ghost use Rattle.serve.specs.Runs.{IsOwnMachine, IsOwnRecord, AreOwnReplies, ListsAreReported};

use crate::commands::{CommandReport, command, report};
use crate::doors::Door;
use crate::exchanges::{LinkFault, exchange_with, refuse_exchange};
use crate::logs::unavailable_row;
use crate::messages::take_request;
use crate::steps::{Admin, Step};
use basis::numbers::MAX_MOMENT;
use basis::{Bytes, Down, Moment};
use docs::LogRow;
use machine::{AdminAnswer, Keep};
use route::Routes;
use std::alloc::Global;
use wire::{Inlet, Outlet};

fn take_command<K: Keep>(alloc: Global, keep: &mut K, asked: &Admin) -> Result<Bytes, Down>
    ensures lasts { Lasts K.clean K.sound K.keyed K.shielded keep.old keep.new }
    ensures ok { K.clean keep.new → K.sound keep.old → IfOk result (λ text. (at : ℕ) → Carries (commands at asked.now) (K.rows keep.old) (K.rows keep.new)
        × IsSaidText (said_to (K.rows keep.old) (commands at asked.now)) text × IsListedBy (K.rows keep.old) asked.now text) }
    ensures err { K.clean keep.new → OnErr result (Stays (K.rows keep.old) (K.rows keep.new)) }
{
    let reported = report(alloc, keep, asked)?;
    let CommandReport { text, .. } = reported;
    Ok(text)
}

/// One step: what it is answered, once it is carried out.
fn take_step<K: Keep>(
    alloc: Global,
    keep: &mut K,
    routes: &Routes,
    step: &Step,
) -> Result<Bytes, Down>
    ensures lasts { Lasts K.clean K.sound K.keyed K.shielded keep.old keep.new }
    ensures ok { K.clean keep.new → K.sound keep.old → IfOk result (λ text. IsTaken step.now text (K.rows keep.old) (K.rows keep.new)) }
    ensures err { K.clean keep.new → OnErr result (Stays (K.rows keep.old) (K.rows keep.new)) }
{
    match step {
        Step::Request { at, bytes } => {
            prove!(at.seconds() <= MAX_MOMENT);
            take_request(alloc, keep, routes, *at, bytes.as_slice())
        }
        Step::Command { command, .. } => take_command(alloc, keep, command),
    }
}

/// The steps in turn, up to the first that memory or the store refuses.
fn run<K: Keep>(
    alloc: Global,
    keep: &mut K,
    routes: &Routes,
    steps: &[Step],
    taken: &mut u64,
) -> Result<Vec<Bytes>, Down>
    ensures lasts { Lasts K.clean K.sound K.keyed K.shielded keep.old keep.new }
    ensures one_each { IfOk result (λ replies. length replies.items ≡ length steps.now) }
    ensures most { taken.new ≤ length steps.now }
    ensures all { OnOk result (taken.new ≡ length steps.now) }
    ensures left { OnErr result (0 < length steps.now → taken.new < length steps.now) }
    ensures ran { K.clean keep.new → K.sound keep.old → (replies : List (List ℕ)) × RunsTo (take taken.new steps.now) (K.rows keep.old) (K.rows keep.new) replies
        × IfOk result (λ given. given.items ≡ replies) }
{
    *taken = 0;
    let Ok(mut replies) = Vec::with_capacity(alloc, steps.len()) else {
        return Err(Down);
    };
    'steps: for step in steps {
        let reply = take_step(alloc, keep, routes, step)?;
        replies.push(reply).unwrap();
        *taken += 1;
    }
    Ok(replies)
}

/// The service over a keep: one exchange, operator's commands, and steps in turn.
pub struct Service<K: Keep> {
    /// The keep, for whoever asks it more between exchanges.
    pub keep: K,
    // The router, once a first message has needed it.
    routes: Option<Routes>,
    taken: u64,
    // Whether the last exchange was answered by the 503 of a failed allocation or store.
    was_down: bool,
    // The log row of the last exchange.
    row: Option<LogRow>,
}

// The existing routes, or new ones: an allocation can fail only if there are none yet.
fn take_routes(alloc: Global, routes: &mut Option<Routes>) -> Result<Routes, Down>
    ensures { IfSome routes.old (λ there. result ≡ Ok there) }
{
    match routes.take() {
        Some(routes) => Ok(routes),
        None => Routes::new(alloc),
    }
}

impl<K: Keep> Service<K> {
    pub fn new(keep: K) -> Service<K>
        ensures keep { result.keep ≡ keep }
        ensures taken { result.taken ≡ 0 }
        ensures down { result.was_down ≡ false }
        ensures row { result.row ≡ None }
    {
        Service {
            keep,
            routes: None,
            taken: 0,
            was_down: false,
            row: None,
        }
    }

    /// Gives the keep back, with all that it holds.
    pub fn into_keep(self) -> K
        ensures { result ≡ self.keep }
    {
        let Service {
            keep,
            routes,
            taken,
            was_down,
            row,
        } = self;
        drop(routes);
        drop(row);
        let _ = taken;
        let _ = was_down;
        keep
    }

    /// How many steps the last call of `replay` took, also if it answered `Down`; 0 before any.
    pub fn taken(&self) -> u64
        ensures { result ≡ self.now.taken }
    {
        self.taken
    }

    /// Whether the last call of `exchange` was answered by the 503 of a failed allocation or store; false if it
    /// had no reply, and before any.
    pub fn was_down(&self) -> bool
        ensures { result ≡ self.now.was_down }
    {
        self.was_down
    }

    /// The log row of the last call of `exchange`; none before any.
    pub fn row(&self) -> &Option<LogRow>
        ensures { result.now ≡ self.now.row }
    {
        &self.row
    }

    /// One exchange: a request is read, answered and carried out, and its reply is written. The
    /// reader and the writer have not failed before; a failed read is never tried again.
    pub fn exchange<I: Inlet, O: Outlet>(
        &mut self,
        alloc: Global,
        now: Moment,
        inlet: &mut I,
        outlet: &mut O,
    ) -> Result<(), LinkFault>
        requires reads { I.broken inlet.old ≡ false }
        requires writes { O.broken outlet.old ≡ false }
        ensures lasts { Lasts K.clean K.sound K.keyed K.shielded self.old.keep self.new.keep }
        ensures reported { K.clean self.new.keep → K.sound self.old.keep → (received : List ℕ) × Consumes (I.left inlet.old) (I.left inlet.new) received
            × Exchanges Door.Closed now received (I.left inlet.new) (K.rows self.old.keep) (K.rows self.new.keep) (O.written outlet.old) (O.written outlet.new) self.new.was_down self.new.row result }

        // This needs no bytes: if no complete message was received, no record changes; and never more than one does.
        ensures stays { K.clean self.new.keep → (IsErrOf result LinkFault.Ended ⊎ (IsErrOf result LinkFault.Read ⊎ IsErrOf result LinkFault.Continue))
            → Stays (K.rows self.old.keep) (K.rows self.new.keep) }
        ensures others { K.clean self.new.keep → K.sound self.old.keep → ChangesAtMostOne (K.rows self.old.keep) (K.rows self.new.keep) }
        ensures changes { K.clean self.new.keep → K.sound self.old.keep → IfSome self.new.row (λ row. ChangesAsLogged row (K.rows self.old.keep) (K.rows self.new.keep)) }
        ensures read { (I.broken inlet.new ≡ true) ↔ IsErrOf result LinkFault.Read }

        // If a read reported the end of input, it was inside the message: an unfinished message is never answered.
        ensures end { I.ended inlet.old ≡ false → ((I.ended inlet.new ≡ true) ↔ IsErrOf result LinkFault.Ended) }
        ensures written { (O.broken outlet.new ≡ true) ↔ (IsErrOf result LinkFault.Continue ⊎ IsErrOf result LinkFault.Write) }
        ensures taken { self.new.taken ≡ self.old.taken }
    {
        self.exchange_with(alloc, &Door::Closed, now, inlet, outlet)
    }

    /// The same as `exchange`, with an operator's door. If it is open, a request that comes to it with its secret has an
    /// operator's command carried out.
    pub fn exchange_with<I: Inlet, O: Outlet>(
        &mut self,
        alloc: Global,
        door: &Door,
        now: Moment,
        inlet: &mut I,
        outlet: &mut O,
    ) -> Result<(), LinkFault>
        requires reads { I.broken inlet.old ≡ false }
        requires writes { O.broken outlet.old ≡ false }
        ensures lasts { Lasts K.clean K.sound K.keyed K.shielded self.old.keep self.new.keep }
        ensures reported { K.clean self.new.keep → K.sound self.old.keep → (received : List ℕ) × Consumes (I.left inlet.old) (I.left inlet.new) received
            × Exchanges door.now now received (I.left inlet.new) (K.rows self.old.keep) (K.rows self.new.keep) (O.written outlet.old) (O.written outlet.new) self.new.was_down self.new.row result }

        // This needs no bytes: if no complete message was received, no record changes; and never more than one does.
        ensures stays { K.clean self.new.keep → (IsErrOf result LinkFault.Ended ⊎ (IsErrOf result LinkFault.Read ⊎ IsErrOf result LinkFault.Continue))
            → Stays (K.rows self.old.keep) (K.rows self.new.keep) }
        ensures others { K.clean self.new.keep → K.sound self.old.keep → ChangesAtMostOne (K.rows self.old.keep) (K.rows self.new.keep) }
        ensures changes { K.clean self.new.keep → K.sound self.old.keep → IfSome self.new.row (λ row. ChangesAsLogged row (K.rows self.old.keep) (K.rows self.new.keep)) }
        ensures read { (I.broken inlet.new ≡ true) ↔ IsErrOf result LinkFault.Read }

        // If a read reported the end of input, it was inside the message: an unfinished message is never answered.
        ensures end { I.ended inlet.old ≡ false → ((I.ended inlet.new ≡ true) ↔ IsErrOf result LinkFault.Ended) }
        ensures written { (O.broken outlet.new ≡ true) ↔ (IsErrOf result LinkFault.Continue ⊎ IsErrOf result LinkFault.Write) }
        ensures taken { self.new.taken ≡ self.old.taken }
    {
        match take_routes(alloc, &mut self.routes) {
            Ok(routes) => {
                let result = exchange_with(
                    alloc,
                    &mut self.keep,
                    &routes,
                    door,
                    now,
                    inlet,
                    outlet,
                    &mut self.was_down,
                    &mut self.row,
                );
                self.routes = Some(routes);
                result
            }
            Err(_) => {
                self.was_down = true;
                self.row = Some(unavailable_row(now));
                refuse_exchange(false, now, outlet)
            }
        }
    }

    /// Carries out an operator's command. The list of all organizations is that of their records.
    pub fn admin(&mut self, alloc: Global, now: Moment, asked: &Admin) -> Result<AdminAnswer, Down>
        ensures lasts { Lasts K.clean K.sound K.keyed K.shielded self.old.keep self.new.keep }
        ensures ok { K.clean self.new.keep → K.sound self.old.keep → IfOk result (λ answer. Carries (commands now asked.now) (K.rows self.old.keep) (K.rows self.new.keep)
            × IsAdminAnswer (K.rows self.old.keep) asked.now answer) }
        ensures err { K.clean self.new.keep → OnErr result (Stays (K.rows self.old.keep) (K.rows self.new.keep)) }
        ensures taken { self.new.taken ≡ self.old.taken }
        ensures down { self.new.was_down ≡ self.old.was_down }
        ensures row { self.new.row ≡ self.old.row }
    {
        command(alloc, &mut self.keep, asked)
    }

    fn run_all(&mut self, alloc: Global, steps: &[Step]) -> Result<Vec<Bytes>, Down>
        ensures lasts { Lasts K.clean K.sound K.keyed K.shielded self.old.keep self.new.keep }
        ensures one_each { IfOk result (λ replies. length replies.items ≡ length steps.now) }
        ensures most { self.new.taken ≤ length steps.now }
        ensures all { OnOk result (self.new.taken ≡ length steps.now) }
        ensures left { OnErr result (self.new.taken < length steps.now) }
        ensures down { self.new.was_down ≡ self.old.was_down }
        ensures row { self.new.row ≡ self.old.row }
        ensures ran { K.clean self.new.keep → K.sound self.old.keep → (replies : List (List ℕ)) × RunsTo (take self.new.taken steps.now) (K.rows self.old.keep) (K.rows self.new.keep) replies
            × IfOk result (λ given. given.items ≡ replies) }
    {
        self.taken = 0;
        if steps.is_empty() {
            return Ok(Vec::new(alloc));
        }
        let Ok(routes) = take_routes(alloc, &mut self.routes) else {
            return Err(Down);
        };
        let result = run(alloc, &mut self.keep, &routes, steps, &mut self.taken);
        self.routes = Some(routes);
        result
    }

    /// Carries out steps in turn, each answered completely before it changes anything, and gives one reply for
    /// each: empty for an unfinished message. If an allocation or the store fails in a step, it ends with
    /// `Down`: neither this step nor any after it is taken.
    pub fn replay(&mut self, alloc: Global, steps: &[Step]) -> Result<Vec<Bytes>, Down>
        ensures lasts { Lasts K.clean K.sound K.keyed K.shielded self.old.keep self.new.keep }

        // The steps taken ask something, each one thing (`one_asking`).
        ensures readings { K.clean self.new.keep → K.sound self.old.keep → (asked : List Ask) × AreAsked (take self.new.taken steps.now) asked }

        // Isolation: for every organization, the replies at the positions of its own steps and its record afterwards are
        // those of its own machine, fed only its own steps.
        ensures isolation { K.clean self.new.keep → K.sound self.old.keep → IfOk result (λ replies. (asked : List Ask) → AreAsked steps.now asked
            → (org : List ℕ) → IsOwnMachine org asked (K.rows self.old.keep) (K.rows self.new.keep) replies.items) }

        // A workspace of another organization, or outside the caller's prefix, looks absent: the reply is that to each of the request's absent
        // forms. And whatever is asked of it, also its creation, by a caller that is known and has the role, is answered not-found.
        ensures absent { K.clean self.new.keep → K.sound self.old.keep → IfOk result (λ replies. RepliesLookAbsent steps.now (K.rows self.old.keep) replies.items) }

        // The replies to unattributed steps follow from their bytes and moments alone.
        ensures unattributed { K.clean self.new.keep → K.sound self.old.keep → IfOk result (λ replies. (asked : List Ask) → AreAsked steps.now asked
            → AreOwnReplies asked (K.rows self.old.keep) replies.items unattributed) }

        // The list of all organizations is outside of isolation: the replies to those steps are lists.
        ensures lists { K.clean self.new.keep → K.sound self.old.keep → IfOk result (λ replies. (asked : List Ask) → AreAsked steps.now asked
            → AreOwnReplies asked (K.rows self.old.keep) replies.items operator) }

        // Each such list is that of the records at its step.
        ensures lists_reported { K.clean self.new.keep → K.sound self.old.keep → IfOk result (λ replies. (asked : List Ask) → AreAsked steps.now asked
            → ListsAreReported (K.rows self.old.keep) asked replies.items) }

        // Also after `Down`, each organization's record is that of its own machine, run over its own steps among those taken.
        ensures rows { K.clean self.new.keep → K.sound self.old.keep → (asked : List Ask) → AreAsked (take self.new.taken steps.now) asked
            → (org : List ℕ) → IsOwnRecord asked (K.rows self.old.keep) (K.rows self.new.keep) org }
        ensures one_each { IfOk result (λ replies. length replies.items ≡ length steps.now) }
        ensures taken_most { self.new.taken ≤ length steps.now }
        ensures taken_all { OnOk result (self.new.taken ≡ length steps.now) }

        // After `Down`, at least one step was not taken.
        ensures taken_fewer { OnErr result (self.new.taken < length steps.now) }
        ensures down { self.new.was_down ≡ self.old.was_down }
        ensures row { self.new.row ≡ self.old.row }

        // Custody, over the book of each workspace (`Book`): its steps with the workspace before and after each, in the own machine's run over the steps taken.
        // In the period of a lock, a step that makes a version, or is an accepted purge, or removes a version kept before it, carried the lock's ID,
        // or removed the organization by force.
        ensures lock_periods { K.clean self.new.keep → K.sound self.old.keep → OfEachBook LocksKeepOthersOut (take self.new.taken steps.now) (K.rows self.old.keep) }

        // In the period of a run, such a step carried the run's ID, and the run was applying, or it removed the organization by force.
        ensures run_periods { K.clean self.new.keep → K.sound self.old.keep → OfEachBook RunsKeepOthersOut (take self.new.taken steps.now) (K.rows self.old.keep) }

        // While nobody holds, an accepted update or purge carried no ID.
        ensures unheld { K.clean self.new.keep → K.sound self.old.keep → OfEachBook NoIdWhereNobodyHolds (take self.new.taken steps.now) (K.rows self.old.keep) }

        // A lock's period ends only by an UNLOCK of its ID, a forced one, or a forced removal of the organization.
        ensures lock_ends { K.clean self.new.keep → K.sound self.old.keep → OfEachBook LocksEndByUnlock (take self.new.taken steps.now) (K.rows self.old.keep) }

        // After each step at most one queued run is active.
        ensures one_active { K.clean self.new.keep → K.sound self.old.keep → OfEachBook OneRunAtATime (take self.new.taken steps.now) (K.rows self.old.keep) }

        // In a workspace's life queued runs start in rising number.
        ensures starts_rise { K.clean self.new.keep → K.sound self.old.keep → OfEachBook StartsRise (take self.new.taken steps.now) (K.rows self.old.keep) }

        // What was accepted and is sent again, while the workspace is as it left it, leaves it so; except the creation of a run without a key.
        ensures repeats { K.clean self.new.keep → K.sound self.old.keep → OfEachBook RepeatsLeaveIt (take self.new.taken steps.now) (K.rows self.old.keep) }

        // A run's creation with a key and a run's action, accepted, and sent again at any later point of the workspace's life, leave it equal.
        ensures done_once { K.clean self.new.keep → K.sound self.old.keep → OfEachBook DoneOnceIsDone (take self.new.taken steps.now) (K.rows self.old.keep) }
    {
        self.keep.records_are_lawful();
        self.run_all(alloc, steps)
    }
}
