//! The interface of a store of organizations, and the answers to an operator's commands.
ghost use Rattle.std.specs.Prelude.{◌≡◌, ◌≢◌, ℕ, List, Option, Some, IfOk, OnOk, OnErr, option_copied};
ghost use Rattle.std.specs.FinMap.{get};
ghost use Rattle.machine.specs.Effects.{effect};
ghost use Rattle.machine.specs.Laws.{AreLawful};
ghost use Rattle.machine.specs.StoreCalls.{Unchanged, Lasts};
ghost use Rattle.machine.specs.Showing.{workspaces_after, versions_after, runs_after};
ghost use Rattle.machine.specs.Tokens.{asker_of, org_added, org_limited, token_added, token_revoked, token_of, token_list_answer, ListsOrganizations};
ghost use Rattle.machine.specs.Removal.{org_removed};
ghost use Rattle.machine.specs.Records.{workspace_in, seen_in, placed};
ghost use Rattle.machine.specs.Changes.{changed_by, IsDue};
ghost use Rattle.machine.specs.Units.{unit_of, version_text};
ghost use Rattle.machine.specs.declared.records.Organization.{Organization as AnyOrganization};

use crate::acts::{Act, Change, Unit};
use basis::{
    Bounds, Bytes, Caller, Down, Items, Limit, Listing, Number, OrgName, Role, RunRow, Text,
    VersionRow, WsName, WsPrefix, WsRow,
};
use std::alloc::Global;

/// Why a store was not opened.
#[derive(Clone, Copy, PartialEq, Eq)]
pub enum Fault {
    /// The store has another schema, or none.
    Schema,
    /// Memory or the store refused.
    Down,
}

/// An organization as an operator's list shows it.
#[derive(Drop)]
pub struct OrgRow {
    pub name: Text,
    /// The number of its workspaces.
    pub workspaces: usize,
    /// The greatest number of workspaces that it may have.
    pub limit: Limit,
}

/// A token's name and its caller, without the digest.
#[derive(Drop)]
pub struct TokenRow {
    pub name: Text,
    pub caller: Caller,
}

/// The answer to an operator's command.
#[derive(Drop)]
pub enum AdminAnswer {
    Done,
    /// The organization, the token's name or its digest exists already.
    Exists,
    /// The organization or the token does not exist.
    Absent,
    /// A lock holds a workspace of the organization, or a run is open.
    InUse,
    /// All organizations, in the order of their names' bytes.
    Organizations(Items<OrgRow>),
    /// The tokens of an organization, in the order of their names' bytes.
    Tokens(Items<TokenRow>),
}

/// A store of organizations, seen as a map from the names of organizations to their records (`rows`). Its
/// promises hold while it is clean. What it promises about the values of records also needs a store that was
/// sound before. A store in memory that was made here is always clean and sound. A store in files is clean if
/// nobody else wrote the files and the disk gave back what was written. A call fails with `Down` if memory or
/// the store refuses. While the store is clean, no record changes then.
pub trait Keep {
    /// The record of each organization that exists.
    ghost rows: { Self → List ℕ → Option AnyOrganization };

    /// Whether the store's promises hold so far.
    ghost clean: { Self → Type 0 };

    /// Whether the store tests what it reads, so that it is clean or a digest has collided. Each call keeps
    /// this, whatever the disk does. It always holds of a store in memory.
    ghost shielded: { Self → Type 0 };

    /// Whether what the store holds obeys its laws. Each call keeps this.
    ghost sound: { Self → Type 0 };

    /// Whether each page of a store that keeps texts in pages is under the key of its bytes. Each call keeps
    /// this.
    ghost keyed: { Self → Type 0 };

    /// In a clean and sound store every record is lawful.
    fn records_are_lawful(&self)
        ensures { clean self.now → sound self.now → AreLawful (rows self.now) };

    /// The caller and the name of the organization's token with this digest, even if the token has expired.
    fn caller(
        &mut self,
        alloc: Global,
        org: &OrgName,
        digest: &[u8; 32],
    ) -> Result<Option<TokenRow>, Down>
        ensures unchanged { Unchanged rows clean sound keyed shielded self.old self.new }
        ensures ok { clean self.new → sound self.old → IfOk result (λ row. row ≡ asker_of (rows self.old org.now) digest.now) };

    /// What a decision on the act needs of the workspace. The organization has to exist.
    fn unit(&mut self, alloc: Global, org: &OrgName, ws: &WsName, act: &Act) -> Result<Unit, Down>
        ensures unchanged { Unchanged rows clean sound keyed shielded self.old self.new }
        ensures ok { clean self.new → sound self.old → IfOk result (λ unit. (o : AnyOrganization) → rows self.old org.now ≡ Some o
            → unit ≡ unit_of o ws.now act.now) };

    /// The text of a version; none if the version is not kept.
    fn text(
        &mut self,
        alloc: Global,
        org: &OrgName,
        ws: &WsName,
        n: Number,
    ) -> Result<Option<Bytes>, Down>
        ensures unchanged { Unchanged rows clean sound keyed shielded self.old self.new }
        ensures ok { clean self.new → sound self.old → IfOk result (λ text. text ≡ version_text n (workspace_in (rows self.old org.now) ws.now)) };

    /// The organization's workspaces whose names start with the prefix and come after `after`, in the order of
    /// their names' bytes: at most 50, and whether more follow.
    fn workspaces(
        &mut self,
        alloc: Global,
        org: &OrgName,
        after: Option<&WsName>,
        prefix: &WsPrefix,
    ) -> Result<Listing<WsRow>, Down>
        ensures unchanged { Unchanged rows clean sound keyed shielded self.old self.new }
        ensures ok { clean self.new → sound self.old → IfOk result (λ list. list ≡ workspaces_after (option_copied after.entry) prefix.now (rows self.old org.now)) };

    /// A workspace's versions with numbers greater than `after`, in the order of their numbers: at most 50, and
    /// whether more follow.
    fn versions(
        &mut self,
        alloc: Global,
        org: &OrgName,
        ws: &WsName,
        after: u64,
    ) -> Result<Listing<VersionRow>, Down>
        ensures unchanged { Unchanged rows clean sound keyed shielded self.old self.new }
        ensures ok { clean self.new → sound self.old → IfOk result (λ list. list ≡ versions_after after (workspace_in (rows self.old org.now) ws.now)) };

    /// A workspace's runs with numbers greater than `after`, in the order of their numbers: at most 50, and
    /// whether more follow.
    fn runs(
        &mut self,
        alloc: Global,
        org: &OrgName,
        ws: &WsName,
        after: u64,
    ) -> Result<Listing<RunRow>, Down>
        ensures unchanged { Unchanged rows clean sound keyed shielded self.old self.new }
        ensures ok { clean self.new → sound self.old → IfOk result (λ list. list ≡ runs_after after (workspace_in (rows self.old org.now) ws.now)) };

    /// Changes a workspace, in one transaction. The organization has to exist, and the change has to be due.
    fn apply(
        &mut self,
        alloc: Global,
        org: &OrgName,
        ws: &WsName,
        change: &Change,
    ) -> Result<(), Down>
        ensures so_far { clean self.new → clean self.old }
        ensures shield { shielded self.old → shielded self.new }
        ensures kept { clean self.new → sound self.old → (o : AnyOrganization) → rows self.old org.now ≡ Some o
            → IsDue (seen_in o ws.now) change.now → sound self.new }
        ensures keyed { clean self.new → sound self.old → keyed self.old → keyed self.new }
        ensures own { clean self.new → sound self.old → OnOk result ((o : AnyOrganization) → rows self.old org.now ≡ Some o
            → IsDue (seen_in o ws.now) change.now
            → rows self.new org.now ≡ Some (placed o ws.now (changed_by change.now (get o.workspaces ws.now)))) }
        ensures others { clean self.new → sound self.old → (o : List ℕ) → o ≢ org.now → rows self.new o ≡ rows self.old o }
        ensures err { clean self.new → OnErr result ((o : List ℕ) → rows self.new o ≡ rows self.old o) };

    /// Adds an organization, without tokens or workspaces.
    fn org_add(&mut self, alloc: Global, org: &OrgName, limit: Limit) -> Result<AdminAnswer, Down>
        ensures lasts { Lasts clean sound keyed shielded self.old self.new }
        ensures own { clean self.new → sound self.old → IfOk result (λ answer. effect answer (rows self.new org.now) ≡ org_added limit (rows self.old org.now)) }
        ensures others { clean self.new → sound self.old → (o : List ℕ) → o ≢ org.now → rows self.new o ≡ rows self.old o }
        ensures err { clean self.new → OnErr result ((o : List ℕ) → rows self.new o ≡ rows self.old o) };

    /// Sets the greatest number of workspaces that an organization may have. It keeps the workspaces that it
    /// has, even if they are more.
    fn org_limit(&mut self, alloc: Global, org: &OrgName, limit: Limit) -> Result<AdminAnswer, Down>
        ensures lasts { Lasts clean sound keyed shielded self.old self.new }
        ensures own { clean self.new → sound self.old → IfOk result (λ answer. effect answer (rows self.new org.now) ≡ org_limited limit (rows self.old org.now)) }
        ensures others { clean self.new → sound self.old → (o : List ℕ) → o ≢ org.now → rows self.new o ≡ rows self.old o }
        ensures err { clean self.new → OnErr result ((o : List ℕ) → rows self.new o ≡ rows self.old o) };

    /// Removes an organization and everything in it, in one transaction. Unless it is forced, an organization
    /// with a lock or an open run is not removed.
    fn org_remove(
        &mut self,
        alloc: Global,
        org: &OrgName,
        is_forced: bool,
    ) -> Result<AdminAnswer, Down>
        ensures lasts { Lasts clean sound keyed shielded self.old self.new }
        ensures own { clean self.new → sound self.old → IfOk result (λ answer. effect answer (rows self.new org.now) ≡ org_removed is_forced (rows self.old org.now)) }
        ensures others { clean self.new → sound self.old → (o : List ℕ) → o ≢ org.now → rows self.new o ≡ rows self.old o }
        ensures err { clean self.new → OnErr result ((o : List ℕ) → rows self.new o ≡ rows self.old o) };

    /// All organizations, in the order of their names' bytes.
    fn org_list(&mut self, alloc: Global) -> Result<AdminAnswer, Down>
        ensures unchanged { Unchanged rows clean sound keyed shielded self.old self.new }
        ensures ok { clean self.new → sound self.old → IfOk result (ListsOrganizations (rows self.old)) };

    /// Adds a token to an organization, with its expiry and the prefix of its workspaces.
    fn token_add(
        &mut self,
        alloc: Global,
        org: &OrgName,
        name: &OrgName,
        role: Role,
        digest: &[u8; 32],
        bounds: &Bounds,
    ) -> Result<AdminAnswer, Down>
        ensures lasts { Lasts clean sound keyed shielded self.old self.new }
        ensures own { clean self.new → sound self.old → IfOk result (λ answer. effect answer (rows self.new org.now) ≡ token_added name.now (token_of digest.now role bounds.now) (rows self.old org.now)) }
        ensures others { clean self.new → sound self.old → (o : List ℕ) → o ≢ org.now → rows self.new o ≡ rows self.old o }
        ensures err { clean self.new → OnErr result ((o : List ℕ) → rows self.new o ≡ rows self.old o) };

    /// Removes a token of an organization, by the token's name.
    fn token_revoke(
        &mut self,
        alloc: Global,
        org: &OrgName,
        name: &OrgName,
    ) -> Result<AdminAnswer, Down>
        ensures lasts { Lasts clean sound keyed shielded self.old self.new }
        ensures own { clean self.new → sound self.old → IfOk result (λ answer. effect answer (rows self.new org.now) ≡ token_revoked name.now (rows self.old org.now)) }
        ensures others { clean self.new → sound self.old → (o : List ℕ) → o ≢ org.now → rows self.new o ≡ rows self.old o }
        ensures err { clean self.new → OnErr result ((o : List ℕ) → rows self.new o ≡ rows self.old o) };

    /// The tokens of an organization, in the order of their names' bytes.
    fn token_list(&mut self, alloc: Global, org: &OrgName) -> Result<AdminAnswer, Down>
        ensures unchanged { Unchanged rows clean sound keyed shielded self.old self.new }
        ensures ok { clean self.new → sound self.old → IfOk result (λ answer. answer ≡ token_list_answer (rows self.old org.now)) };
}
