//! A store in memory: every organization's record as nested values.
ghost use Rattle.std.specs.Prelude.{◌≡◌, ℕ, ⊤, List, None};
ghost use Rattle.std.specs.FinMap as map;
ghost use Rattle.machine.specs.Laws.{AreLawful};

use crate::acts::{Act, Change, Unit};
use crate::keeps::{AdminAnswer, Keep, TokenRow};
use crate::lists::{list_organizations, list_runs, list_versions, list_workspaces};
use crate::maps::NameMap;
use crate::records::{Organization, Token};
use basis::numbers::MAX_LIMIT;
use basis::{
    Bounds, Bytes, Down, Limit, Listing, Number, OrgName, Role, RunRow, Text, VersionRow, WsName,
    WsPrefix, WsRow,
};
use std::alloc::Global;

/// A store in memory. It is always clean, and it is sound if every record is lawful.
#[derive(Drop)]
pub struct PlainKeep {
    organizations: NameMap<Organization>,
}

impl PlainKeep {
    /// A store without organizations.
    pub fn new(alloc: Global) -> PlainKeep
        ensures empty { (o : List ℕ) → ⟦<PlainKeep as Keep>⟧.rows result o ≡ None }
        ensures sound { ⟦<PlainKeep as Keep>⟧.sound result }
    {
        PlainKeep {
            organizations: NameMap::new(alloc),
        }
    }

    /// The promises of a store in memory always hold. It is always shielded and keyed.
    pub fn is_always_clean(&self)
        ensures clean { ⟦<PlainKeep as Keep>⟧.clean self.now }
        ensures shielded { ⟦<PlainKeep as Keep>⟧.shielded self.now }
        ensures keyed { ⟦<PlainKeep as Keep>⟧.keyed self.now }
    {}
}

impl Keep for PlainKeep {
    ghost rows = { λ keep o. map.get keep.organizations o };

    ghost clean = { λ _. ⊤ };

    ghost shielded = { λ _. ⊤ };

    ghost sound = { λ keep. AreLawful (λ o. map.get keep.organizations o) };

    ghost keyed = { λ _. ⊤ };

    fn records_are_lawful(&self) {}

    fn caller(
        &mut self,
        _alloc: Global,
        org: &OrgName,
        digest: &[u8; 32],
    ) -> Result<Option<TokenRow>, Down> {
        match self.organizations.get(org.as_str()) {
            Some(organization) => organization.asker(digest),
            None => Ok(None),
        }
    }

    fn unit(
        &mut self,
        _alloc: Global,
        org: &OrgName,
        ws: &WsName,
        act: &Act,
    ) -> Result<Unit, Down> {
        match self.organizations.get(org.as_str()) {
            Some(organization) => organization.unit(ws.as_str(), act),
            None => Ok(Unit::Absent {
                workspaces: 0,
                limit: Limit::new(0).unwrap(),
            }),
        }
    }

    fn text(
        &mut self,
        _alloc: Global,
        org: &OrgName,
        ws: &WsName,
        n: Number,
    ) -> Result<Option<Bytes>, Down> {
        let Some(organization) = self.organizations.get(org.as_str()) else {
            return Ok(None);
        };
        match organization.workspaces.get(ws.as_str()) {
            Some(workspace) => workspace.text_of(n),
            None => Ok(None),
        }
    }

    fn workspaces(
        &mut self,
        alloc: Global,
        org: &OrgName,
        after: Option<&WsName>,
        prefix: &WsPrefix,
    ) -> Result<Listing<WsRow>, Down> {
        match self.organizations.get(org.as_str()) {
            Some(organization) => {
                list_workspaces(alloc, after, prefix, organization.workspaces.entries())
            }
            None => Ok(Listing::new(alloc)),
        }
    }

    fn versions(
        &mut self,
        alloc: Global,
        org: &OrgName,
        ws: &WsName,
        after: u64,
    ) -> Result<Listing<VersionRow>, Down> {
        let Some(organization) = self.organizations.get(org.as_str()) else {
            return Ok(Listing::new(alloc));
        };
        match organization.workspaces.get(ws.as_str()) {
            Some(workspace) => list_versions(alloc, after, workspace.versions.as_slice()),
            None => Ok(Listing::new(alloc)),
        }
    }

    fn runs(
        &mut self,
        alloc: Global,
        org: &OrgName,
        ws: &WsName,
        after: u64,
    ) -> Result<Listing<RunRow>, Down> {
        let Some(organization) = self.organizations.get(org.as_str()) else {
            return Ok(Listing::new(alloc));
        };
        match organization.workspaces.get(ws.as_str()) {
            Some(workspace) => list_runs(alloc, after, workspace.runs.as_slice()),
            None => Ok(Listing::new(alloc)),
        }
    }

    fn apply(
        &mut self,
        alloc: Global,
        org: &OrgName,
        ws: &WsName,
        change: &Change,
    ) -> Result<(), Down> {
        self.organizations
            .apply(alloc, org.as_str(), ws.as_str(), change)
    }

    fn org_add(&mut self, alloc: Global, org: &OrgName, limit: Limit) -> Result<AdminAnswer, Down> {
        prove!(limit.get() <= MAX_LIMIT);
        self.organizations.add(alloc, org.as_str(), limit)
    }

    fn org_limit(
        &mut self,
        _alloc: Global,
        org: &OrgName,
        limit: Limit,
    ) -> Result<AdminAnswer, Down> {
        prove!(limit.get() <= MAX_LIMIT);
        Ok(self.organizations.limit(org.as_str(), limit))
    }

    fn org_list(&mut self, alloc: Global) -> Result<AdminAnswer, Down> {
        let rows = list_organizations(alloc, self.organizations.entries())?;
        Ok(AdminAnswer::Organizations(rows))
    }

    fn org_remove(
        &mut self,
        _alloc: Global,
        org: &OrgName,
        is_forced: bool,
    ) -> Result<AdminAnswer, Down> {
        Ok(self.organizations.leave(org.as_str(), is_forced))
    }

    fn token_revoke(
        &mut self,
        _alloc: Global,
        org: &OrgName,
        name: &OrgName,
    ) -> Result<AdminAnswer, Down> {
        Ok(self.organizations.revoke(org.as_str(), name.as_str()))
    }

    fn token_add(
        &mut self,
        alloc: Global,
        org: &OrgName,
        name: &OrgName,
        role: Role,
        digest: &[u8; 32],
        bounds: &Bounds,
    ) -> Result<AdminAnswer, Down> {
        let name = Text::copy_of(alloc, name.as_str())?;
        let token = Token::new(digest, role, bounds)?;
        self.organizations.add_token(org.as_str(), name, token)
    }

    fn token_list(&mut self, alloc: Global, org: &OrgName) -> Result<AdminAnswer, Down> {
        match self.organizations.get(org.as_str()) {
            Some(organization) => organization.token_list(alloc),
            None => Ok(AdminAnswer::Absent),
        }
    }
}
