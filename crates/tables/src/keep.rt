//! The store in tables as a `Keep`.
ghost use Rattle.std.specs.Prelude.{◌≡◌, ◌≢◌, ◌+◌, ◌-◌, ◌^◌, min, ℕ, List, [], Some, option_copied, IsTrue, IfSome, OnOk, OnErr};
ghost use Rattle.std.specs.Option.{unwrap_or};
ghost use Rattle.sqlite.specs.Held.{state};
ghost use Rattle.sqlite.specs.State.{HasCleanDisk};
ghost use Rattle.tables.specs.Stores.{records_of};
ghost use Rattle.statements.specs.Tables.{tables_of};
ghost use Rattle.tables.specs.Opening.{IsSoundKeep};
ghost use Rattle.basis.specs.Names.{is_prefix};
ghost use Rattle.std.specs.FinMap.{get};
ghost use Rattle.machine.specs.Records.{seen_in, placed};
ghost use Rattle.machine.specs.Changes.{changed_by, IsDue};
ghost use Rattle.machine.specs.declared.records.Organization.{Organization as AnyOrganization};
ghost use Rattle.machine.specs.Ranges.{IsMoment};
ghost use Rattle.tables.specs.Scans.{ArePagesKeyed};
ghost use Rattle.tables.specs.Inner.Remembering.{reads_text};
ghost use Rattle.tables.specs.Logs.{text_bytes};

use crate::memo::Memo;
use crate::store::SqlKeep;
use crate::{askers, callers, counts, listings, operators, points, sizes, transactions, versions};
use basis::numbers::{MAX_LIMIT, MAX_MOMENT, MAX_NUMBER};
use basis::{
    Bounds, Bytes, Down, Limit, Listing, Number, OrgName, Query, Role, RunRow, VersionRow, WsName,
    WsPrefix, WsRow,
};
use machine::{Act, AdminAnswer, Change, Edit, Keep, TokenRow, Unit};
use pages::PageKey;
use sqlite::Alter;
use std::alloc::Global;
use std::mem;
use std::snapshot::Snapshot;

/// The name after which a list begins. All names come after the empty one.
fn name_after(after: Option<&WsName>) -> &str
    ensures { result.now ≡ unwrap_or (option_copied after.entry) [] }
{
    match after {
        None => "",
        Some(name) => name.as_str(),
    }
}

/// Whether an act answers with the text of a version, so that this text is read next.
fn reads_text(act: &Act) -> bool
    ensures { result ≡ reads_text act.now }
{
    match act {
        Act::Query(Query::State) => true,
        Act::Query(Query::Version(_)) => true,
        _ => false,
    }
}

/// The number of bytes of the text that an edit writes.
fn text_bytes(edit: &Edit) -> u64
    ensures { result ≡ text_bytes edit.now }
{
    match edit {
        Edit::AddVersion { version, .. } => version.text.as_slice().len() as u64,
        Edit::Make(_) => 0,
        Edit::Configure { .. } => 0,
        Edit::Remove => 0,
        Edit::Purge => 0,
        Edit::Hold { .. } => 0,
        Edit::Release(_) => 0,
        Edit::AddRun { .. } => 0,
        Edit::Report { .. } => 0,
    }
}

/// The expiry and the prefix of a token are in their ranges. The function does nothing; its contract says so.
fn assert_bounds(bounds: &Bounds)
    ensures until { IfSome bounds.now.until IsMoment }
    ensures prefix { IsTrue (is_prefix bounds.now.prefix) }
{
    let _ = bounds.prefix.as_str();
    if let Some(until) = bounds.until {
        prove!(until.seconds() <= MAX_MOMENT);
    }
}

impl<S: Alter, K: PageKey> Keep for SqlKeep<S, K> {
    ghost rows = { λ keep. records_of (state S.Store keep.seen.value).committed };

    ghost clean = { λ keep. HasCleanDisk (state S.Store keep.conn) };

    ghost shielded = { λ keep. (state S.Store keep.conn).IsShielded };

    ghost sound = { λ keep. IsSoundKeep (state S.Store keep.seen.value).committed keep.memo (state S.Store keep.conn) };

    ghost keyed = { λ keep. ArePagesKeyed K.key_of (tables_of (state S.Store keep.seen.value).committed) };

    fn records_are_lawful(&self) {}

    fn caller(
        &mut self,
        alloc: Global,
        org: &OrgName,
        digest: &[u8; 32],
    ) -> Result<Option<TokenRow>, Down> {
        let org = org.as_str();
        if let Some(asker) = askers::known(&mut self.memo.asked, org, digest) {
            return Ok(Some(asker));
        }
        match callers::caller(&mut self.conn, org, digest.as_slice()) {
            Ok(asker) => {
                askers::cache_asker(&mut self.memo.asked, alloc, org, digest, &asker);
                Ok(asker)
            }
            Err(_) => {
                self.memo = Memo::new();
                Err(Down)
            }
        }
    }

    fn unit(&mut self, alloc: Global, org: &OrgName, ws: &WsName, act: &Act) -> Result<Unit, Down> {
        let needs = act.needs();
        let (org, ws) = (org.as_str(), ws.as_str());
        let known = counts::known(&self.memo.cached, org);
        match points::unit(&mut self.conn, org, ws, &needs, known) {
            Ok(unit_read) => {
                counts::cache_count(
                    &mut self.memo.cached,
                    alloc,
                    org,
                    ws,
                    needs.makes,
                    &unit_read.unit,
                );
                self.memo.sized = sizes::note(alloc, org, ws, reads_text(act), &unit_read.size);
                Ok(unit_read.unit)
            }
            Err(_) => {
                self.memo = Memo::new();
                Err(Down)
            }
        }
    }

    fn text(
        &mut self,
        alloc: Global,
        org: &OrgName,
        ws: &WsName,
        n: Number,
    ) -> Result<Option<Bytes>, Down> {
        let (org, ws) = (org.as_str(), ws.as_str());
        let known = sizes::known(&self.memo.sized, org, ws, n);
        match versions::text(&mut self.conn, alloc, org, ws, n, known) {
            Ok(text) => Ok(text),
            Err(_) => {
                self.memo = Memo::new();
                Err(Down)
            }
        }
    }

    fn workspaces(
        &mut self,
        alloc: Global,
        org: &OrgName,
        after: Option<&WsName>,
        prefix: &WsPrefix,
    ) -> Result<Listing<WsRow>, Down> {
        let after = name_after(after);
        match listings::list_of_workspaces(&mut self.conn, alloc, org.as_str(), after, prefix) {
            Ok(list) => Ok(list),
            Err(_) => {
                self.memo = Memo::new();
                Err(Down)
            }
        }
    }

    fn versions(
        &mut self,
        alloc: Global,
        org: &OrgName,
        ws: &WsName,
        after: u64,
    ) -> Result<Listing<VersionRow>, Down> {
        // No version has a greater number.
        if after > MAX_NUMBER as u64 {
            return Ok(Listing::new(alloc));
        }
        match listings::list_of_versions(
            &mut self.conn,
            alloc,
            org.as_str(),
            ws.as_str(),
            after as u32,
        ) {
            Ok(list) => Ok(list),
            Err(_) => {
                self.memo = Memo::new();
                Err(Down)
            }
        }
    }

    fn runs(
        &mut self,
        alloc: Global,
        org: &OrgName,
        ws: &WsName,
        after: u64,
    ) -> Result<Listing<RunRow>, Down> {
        // No run has a greater number.
        if after > MAX_NUMBER as u64 {
            return Ok(Listing::new(alloc));
        }
        match listings::list_of_runs(
            &mut self.conn,
            alloc,
            org.as_str(),
            ws.as_str(),
            after as u32,
        ) {
            Ok(list) => Ok(list),
            Err(_) => {
                self.memo = Memo::new();
                Err(Down)
            }
        }
    }

    fn apply(
        &mut self,
        _alloc: Global,
        org: &OrgName,
        ws: &WsName,
        change: &Change,
    ) -> Result<(), Down>
        ensures so_far { ⟦<SqlKeep<S, K> as Keep>⟧.clean self.new → ⟦<SqlKeep<S, K> as Keep>⟧.clean self.old }
        ensures shield { ⟦<SqlKeep<S, K> as Keep>⟧.shielded self.old → ⟦<SqlKeep<S, K> as Keep>⟧.shielded self.new }
        ensures kept { ⟦<SqlKeep<S, K> as Keep>⟧.clean self.new → ⟦<SqlKeep<S, K> as Keep>⟧.sound self.old → (o : AnyOrganization) → ⟦<SqlKeep<S, K> as Keep>⟧.rows self.old org.now ≡ Some o
            → IsDue (seen_in o ws.now) change.now → ⟦<SqlKeep<S, K> as Keep>⟧.sound self.new }
        ensures keyed { ⟦<SqlKeep<S, K> as Keep>⟧.clean self.new → ⟦<SqlKeep<S, K> as Keep>⟧.sound self.old → ⟦<SqlKeep<S, K> as Keep>⟧.keyed self.old → ⟦<SqlKeep<S, K> as Keep>⟧.keyed self.new }
        ensures own { ⟦<SqlKeep<S, K> as Keep>⟧.clean self.new → ⟦<SqlKeep<S, K> as Keep>⟧.sound self.old → OnOk result ((o : AnyOrganization) → ⟦<SqlKeep<S, K> as Keep>⟧.rows self.old org.now ≡ Some o
            → IsDue (seen_in o ws.now) change.now
            → ⟦<SqlKeep<S, K> as Keep>⟧.rows self.new org.now ≡ Some (placed o ws.now (changed_by change.now (get o.workspaces ws.now)))) }
        ensures others { ⟦<SqlKeep<S, K> as Keep>⟧.clean self.new → ⟦<SqlKeep<S, K> as Keep>⟧.sound self.old → (o : List ℕ) → o ≢ org.now → ⟦<SqlKeep<S, K> as Keep>⟧.rows self.new o ≡ ⟦<SqlKeep<S, K> as Keep>⟧.rows self.old o }
        ensures err { ⟦<SqlKeep<S, K> as Keep>⟧.clean self.new → OnErr result ((o : List ℕ) → ⟦<SqlKeep<S, K> as Keep>⟧.rows self.new o ≡ ⟦<SqlKeep<S, K> as Keep>⟧.rows self.old o) }
        ensures logged { OnOk result (self.new.logged ≡ min (self.old.logged + text_bytes change.now.edit) (2 ^ 64 - 1)) }
    {
        let (org, ws) = (org.as_str(), ws.as_str());
        let memo = mem::replace(&mut self.memo, Memo::new());
        match transactions::change::<K, S>(&mut self.conn, org, ws, change) {
            Ok(()) => {
                self.seen = Snapshot::of(&self.conn);
                self.memo = memo.changed(org, ws, change);
                self.logged = self.logged.saturating_add(text_bytes(&change.edit));
                Ok(())
            }
            Err(_) => Err(Down),
        }
    }

    fn org_add(
        &mut self,
        _alloc: Global,
        org: &OrgName,
        limit: Limit,
    ) -> Result<AdminAnswer, Down> {
        prove!(limit.get() <= MAX_LIMIT);
        self.memo = Memo::new();
        match operators::org_add(&mut self.conn, org.as_str(), limit) {
            Ok(answer) => {
                self.seen = Snapshot::of(&self.conn);
                Ok(answer)
            }
            Err(_) => Err(Down),
        }
    }

    fn org_limit(
        &mut self,
        _alloc: Global,
        org: &OrgName,
        limit: Limit,
    ) -> Result<AdminAnswer, Down> {
        prove!(limit.get() <= MAX_LIMIT);
        self.memo = Memo::new();
        match operators::org_limit(&mut self.conn, org.as_str(), limit) {
            Ok(answer) => {
                self.seen = Snapshot::of(&self.conn);
                Ok(answer)
            }
            Err(_) => Err(Down),
        }
    }

    fn org_remove(
        &mut self,
        alloc: Global,
        org: &OrgName,
        is_forced: bool,
    ) -> Result<AdminAnswer, Down> {
        self.memo = Memo::new();
        match operators::org_remove(&mut self.conn, alloc, org.as_str(), is_forced) {
            Ok(answer) => {
                self.seen = Snapshot::of(&self.conn);
                Ok(answer)
            }
            Err(_) => Err(Down),
        }
    }

    fn org_list(&mut self, alloc: Global) -> Result<AdminAnswer, Down> {
        match listings::list_of_organizations(&mut self.conn, alloc) {
            Ok(rows) => Ok(AdminAnswer::Organizations(rows)),
            Err(_) => Err(Down),
        }
    }

    fn token_revoke(
        &mut self,
        _alloc: Global,
        org: &OrgName,
        name: &OrgName,
    ) -> Result<AdminAnswer, Down> {
        self.memo = Memo::new();
        match operators::token_revoke(&mut self.conn, org.as_str(), name.as_str()) {
            Ok(answer) => {
                self.seen = Snapshot::of(&self.conn);
                Ok(answer)
            }
            Err(_) => Err(Down),
        }
    }

    fn token_add(
        &mut self,
        _alloc: Global,
        org: &OrgName,
        name: &OrgName,
        role: Role,
        digest: &[u8; 32],
        bounds: &Bounds,
    ) -> Result<AdminAnswer, Down> {
        assert_bounds(bounds);
        let digest = digest.as_slice();
        let (org, name) = (org.as_str(), name.as_str());
        self.memo = Memo::new();
        match operators::token_add(&mut self.conn, org, name, role, digest, bounds) {
            Ok(answer) => {
                self.seen = Snapshot::of(&self.conn);
                Ok(answer)
            }
            Err(_) => Err(Down),
        }
    }

    fn token_list(&mut self, alloc: Global, org: &OrgName) -> Result<AdminAnswer, Down> {
        match listings::token_list_answer(&mut self.conn, alloc, org.as_str()) {
            Ok(answer) => Ok(answer),
            Err(_) => Err(Down),
        }
    }
}
