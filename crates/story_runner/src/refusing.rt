//! A store that refuses each change.
use basis::{
    Bounds, Bytes, Down, Limit, Listing, Number, OrgName, Role, RunRow, VersionRow, WsName,
    WsPrefix, WsRow,
};
use machine::{Act, AdminAnswer, Change, Keep, TokenRow, Unit};
use std::alloc::Global;

/// Another store, of which records are read, and nothing is changed or listed.
#[derive(Drop)]
pub struct Refusing<K: Keep> {
    pub keep: K,
}

impl<K: Keep> Keep for Refusing<K> {
    ghost rows = { λ s. K.rows s.keep };

    ghost clean = { λ s. K.clean s.keep };

    ghost shielded = { λ s. K.shielded s.keep };

    ghost sound = { λ s. K.sound s.keep };

    ghost keyed = { λ s. K.keyed s.keep };

    fn records_are_lawful(&self) {
        self.keep.records_are_lawful()
    }

    fn caller(
        &mut self,
        alloc: Global,
        org: &OrgName,
        digest: &[u8; 32],
    ) -> Result<Option<TokenRow>, Down> {
        self.keep.caller(alloc, org, digest)
    }

    fn unit(&mut self, alloc: Global, org: &OrgName, ws: &WsName, act: &Act) -> Result<Unit, Down> {
        self.keep.unit(alloc, org, ws, act)
    }

    fn text(
        &mut self,
        alloc: Global,
        org: &OrgName,
        ws: &WsName,
        n: Number,
    ) -> Result<Option<Bytes>, Down> {
        self.keep.text(alloc, org, ws, n)
    }

    fn workspaces(
        &mut self,
        _alloc: Global,
        _org: &OrgName,
        _after: Option<&WsName>,
        _prefix: &WsPrefix,
    ) -> Result<Listing<WsRow>, Down> {
        Err(Down)
    }

    fn versions(
        &mut self,
        _alloc: Global,
        _org: &OrgName,
        _ws: &WsName,
        _after: u64,
    ) -> Result<Listing<VersionRow>, Down> {
        Err(Down)
    }

    fn runs(
        &mut self,
        _alloc: Global,
        _org: &OrgName,
        _ws: &WsName,
        _after: u64,
    ) -> Result<Listing<RunRow>, Down> {
        Err(Down)
    }

    fn apply(
        &mut self,
        _alloc: Global,
        _org: &OrgName,
        _ws: &WsName,
        _change: &Change,
    ) -> Result<(), Down> {
        Err(Down)
    }

    fn org_add(
        &mut self,
        _alloc: Global,
        _org: &OrgName,
        _limit: Limit,
    ) -> Result<AdminAnswer, Down> {
        Err(Down)
    }

    fn org_limit(
        &mut self,
        _alloc: Global,
        _org: &OrgName,
        _limit: Limit,
    ) -> Result<AdminAnswer, Down> {
        Err(Down)
    }

    fn org_remove(
        &mut self,
        _alloc: Global,
        _org: &OrgName,
        _is_forced: bool,
    ) -> Result<AdminAnswer, Down> {
        Err(Down)
    }

    fn org_list(&mut self, _alloc: Global) -> Result<AdminAnswer, Down> {
        Err(Down)
    }

    fn token_add(
        &mut self,
        _alloc: Global,
        _org: &OrgName,
        _name: &OrgName,
        _role: Role,
        _digest: &[u8; 32],
        _bounds: &Bounds,
    ) -> Result<AdminAnswer, Down> {
        Err(Down)
    }

    fn token_revoke(
        &mut self,
        _alloc: Global,
        _org: &OrgName,
        _name: &OrgName,
    ) -> Result<AdminAnswer, Down> {
        Err(Down)
    }

    fn token_list(&mut self, _alloc: Global, _org: &OrgName) -> Result<AdminAnswer, Down> {
        Err(Down)
    }
}
