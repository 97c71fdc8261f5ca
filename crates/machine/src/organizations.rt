//! Organizations in memory: limits, tokens, and whether one is in use.
ghost use Rattle.std.specs.Prelude.{◌≡◌, ◌≢◌, ℕ, List, Some, IsTrue, IfSome, IfOk, OnOk, OnErr, option_map, option_copied};
ghost use Rattle.std.specs.Prelude.{map as map_list};
ghost use Rattle.std.specs.FinMap as map;
ghost use Rattle.std.specs.List.{list_any};
ghost use Rattle.machine.specs.Effects.{effect};
ghost use Rattle.machine.specs.Records.{placed};
ghost use Rattle.machine.specs.Removal.{is_in_use, org_removed};
ghost use Rattle.basis.specs.Names.{is_prefix};
ghost use Rattle.machine.specs.Tokens.{token_with, row_with, asker_of, has_digest, new_organization, org_added, org_limited, token_added, token_revoked, token_of, token_list_answer};
ghost use Rattle.machine.specs.Changes.{changed_by};
ghost use Rattle.machine.specs.Ranges.{IsMoment};
ghost use Rattle.machine.specs.Units.{unit_of};
ghost use Rattle.machine.specs.declared.records.Organization.{Organization as AnyOrganization};

use crate::acts::{Act, Change, Unit};
use crate::keeps::{AdminAnswer, TokenRow};
use crate::lists::{list_tokens, token_row};
use crate::maps::{Entry, NameMap};
use crate::records::{Organization, Token, Workspace};
use crate::units::open_runs;
use basis::{Bounds, Caller, Down, Holder, Limit, Role, Text};
use std::alloc::Global;

impl NameMap<Organization> {
    pub(crate) fn apply(
        &mut self,
        alloc: Global,
        org: &str,
        ws: &str,
        change: &Change,
    ) -> Result<(), Down>
        ensures own { OnOk result (map.get self.new org.now ≡ option_map (λ (o : AnyOrganization). placed o ws.now (changed_by change.now (map.get o.workspaces ws.now))) (map.get self.old org.now)) }
        ensures others { (o : List ℕ) → o ≢ org.now → map.get self.new o ≡ map.get self.old o }
        ensures err { OnErr result (self.new ≡ self.old) }
    {
        match self.index_of(org) {
            Ok(i) => self.entries[i].value.workspaces.apply(alloc, ws, change),
            Err(_) => Ok(()),
        }
    }

    #[tactic(auto, using(crate::proofs::MapLemmas::get_own, crate::proofs::MapLemmas::get_other))]
    pub(crate) fn add(
        &mut self,
        alloc: Global,
        org: &str,
        limit: Limit,
    ) -> Result<AdminAnswer, Down>
        ensures own { IfOk result (λ answer. effect answer (map.get self.new org.now) ≡ org_added limit (map.get self.old org.now)) }
        ensures others { (o : List ℕ) → o ≢ org.now → map.get self.new o ≡ map.get self.old o }
        ensures err { OnErr result (self.new ≡ self.old) }
    {
        if self.get(org).is_some() {
            return Ok(AdminAnswer::Exists);
        }
        let name = Text::copy_of(alloc, org)?;
        self.insert(name, Organization::new(alloc, limit))?;
        Ok(AdminAnswer::Done)
    }

    pub(crate) fn limit(&mut self, org: &str, limit: Limit) -> AdminAnswer
        ensures own { effect result (map.get self.new org.now) ≡ org_limited limit (map.get self.old org.now) }
        ensures others { (o : List ℕ) → o ≢ org.now → map.get self.new o ≡ map.get self.old o }
    {
        match self.index_of(org) {
            Ok(i) => {
                self.entries[i].value.limit = limit;
                AdminAnswer::Done
            }
            Err(_) => AdminAnswer::Absent,
        }
    }

    pub(crate) fn leave(&mut self, org: &str, is_forced: bool) -> AdminAnswer
        ensures own { effect result (map.get self.new org.now) ≡ org_removed is_forced (map.get self.old org.now) }
        ensures others { (o : List ℕ) → o ≢ org.now → map.get self.new o ≡ map.get self.old o }
    {
        let Some(organization) = self.get(org) else {
            return AdminAnswer::Absent;
        };
        if !is_forced && has_use(organization.workspaces.entries()) {
            return AdminAnswer::InUse;
        }
        self.remove(org);
        AdminAnswer::Done
    }

    pub(crate) fn revoke(&mut self, org: &str, name: &str) -> AdminAnswer
        ensures own { effect result (map.get self.new org.now) ≡ token_revoked name.now (map.get self.old org.now) }
        ensures others { (o : List ℕ) → o ≢ org.now → map.get self.new o ≡ map.get self.old o }
    {
        match self.index_of(org) {
            Ok(i) => self.entries[i].value.revoke(name),
            Err(_) => AdminAnswer::Absent,
        }
    }

    pub(crate) fn add_token(
        &mut self,
        org: &str,
        name: Text,
        token: Token,
    ) -> Result<AdminAnswer, Down>
        ensures own { IfOk result (λ answer. effect answer (map.get self.new org.now) ≡ token_added name token (map.get self.old org.now)) }
        ensures others { (o : List ℕ) → o ≢ org.now → map.get self.new o ≡ map.get self.old o }
        ensures err { OnErr result (self.new ≡ self.old) }
    {
        match self.index_of(org) {
            Ok(i) => self.entries[i].value.add_token(name, token),
            Err(_) => Ok(AdminAnswer::Absent),
        }
    }
}

impl Organization {
    fn new(alloc: Global, limit: Limit) -> Organization
        ensures { result ≡ new_organization limit }
    {
        Organization {
            limit,
            tokens: NameMap::new(alloc),
            workspaces: NameMap::new(alloc),
        }
    }

    pub(crate) fn asker(&self, digest: &[u8; 32]) -> Result<Option<TokenRow>, Down>
        ensures { IfOk result (λ row. row ≡ asker_of (Some self.now) digest.now) }
    {
        row_with(digest, self.tokens.entries())
    }

    pub(crate) fn token_list(&self, alloc: Global) -> Result<AdminAnswer, Down>
        ensures { IfOk result (λ answer. answer ≡ token_list_answer (Some self.now)) }
    {
        let rows = list_tokens(alloc, self.tokens.entries())?;
        Ok(AdminAnswer::Tokens(rows))
    }

    fn has_digest(&self, digest: &[u8; 32]) -> bool
        ensures { result ≡ has_digest digest.now self.now }
    {
        token_with(digest, self.tokens.entries()).is_some()
    }

    pub(crate) fn unit(&self, ws: &str, act: &Act) -> Result<Unit, Down>
        ensures { IfOk result (λ unit. unit ≡ unit_of self.now ws.now act.now) }
    {
        let needs = act.needs();
        match self.workspaces.get(ws) {
            Some(workspace) => Ok(Unit::Present(workspace.unit(&needs)?)),
            None => Ok(Unit::Absent {
                workspaces: if needs.makes {
                    self.workspaces.entries().len()
                } else {
                    0
                },
                limit: if needs.makes {
                    self.limit
                } else {
                    Limit::new(0).unwrap()
                },
            }),
        }
    }

    fn revoke(&mut self, name: &str) -> AdminAnswer
        ensures { effect result (Some self.new) ≡ token_revoked name.now (Some self.old) }
    {
        if self.tokens.remove(name) {
            AdminAnswer::Done
        } else {
            AdminAnswer::Absent
        }
    }

    fn add_token(&mut self, name: Text, token: Token) -> Result<AdminAnswer, Down>
        ensures ok { IfOk result (λ answer. effect answer (Some self.new) ≡ token_added name token (Some self.old)) }
        ensures err { OnErr result (self.new ≡ self.old) }
    {
        if self.tokens.get(name.as_str()).is_some() || self.has_digest(&token.digest) {
            return Ok(AdminAnswer::Exists);
        }
        self.tokens.insert(name, token)?;
        Ok(AdminAnswer::Done)
    }
}

impl Token {
    pub(crate) fn new(digest: &[u8; 32], role: Role, bounds: &Bounds) -> Result<Token, Down>
        ensures ok { IfOk result (λ token. token ≡ token_of digest.now role bounds.now) }
        ensures until { IfSome bounds.now.until (λ until. IsMoment until) }
        ensures prefix { IsTrue (is_prefix bounds.now.prefix) }
    {
        let until = bounds.end();
        let prefix = bounds.prefix.clone()?;
        Ok(Token {
            digest: *digest,
            caller: Caller {
                role,
                until,
                prefix,
            },
        })
    }
}

fn token_with<'a>(digest: &[u8; 32], entries: &'a [Entry<Token>]) -> Option<&'a Token>
    ensures { option_copied result ≡ token_with digest.now (map_list (λ e. (e.name, e.value)) entries.now) }
{
    for entry in entries {
        if entry.value.digest == *digest {
            return Some(&entry.value);
        }
    }
    None
}

fn row_with(digest: &[u8; 32], entries: &[Entry<Token>]) -> Result<Option<TokenRow>, Down>
    ensures { IfOk result (λ row. row ≡ row_with digest.now (map_list (λ e. (e.name, e.value)) entries.now)) }
{
    for entry in entries {
        if entry.value.digest == *digest {
            let row = token_row(&entry.name, &entry.value)?;
            return Ok(Some(row));
        }
    }
    Ok(None)
}

// Whether a lock holds the workspace, or a run is open.
fn is_in_use(workspace: &Workspace) -> bool
    ensures { result ≡ is_in_use workspace.now }
{
    matches!(workspace.holder, Holder::Lock { .. }) || open_runs(workspace.runs.as_slice()) > 0
}

fn has_use(entries: &[Entry<Workspace>]) -> bool
    ensures { result ≡ list_any (λ e. is_in_use e.value) entries.now }
{
    entries.iter().any(|entry| is_in_use(&entry.value))
}
