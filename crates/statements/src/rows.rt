//! The values of rows, if no crate above has a type for them.
use basis::{
    Bounds, Bytes, Holder, Items, KeepCount, Limit, LockId, Moment, Number, Role, RunSettings,
    Text, WsName,
};

/// A token: the digest of its secret, and its role.
#[derive(Drop)]
pub struct Token {
    pub digest: Bytes,
    pub role: Role,
}

/// When a token expires, if it does, and the prefix of its workspaces.
#[derive(Drop)]
pub struct Bound {
    pub until: Option<Moment>,
    pub prefix: Text,
}

/// A row of org.
#[derive(Drop)]
pub struct OrgRow {
    pub name: Text,
    pub cap: Limit,
}

/// A row of a token or of a workspace, in its own table or in one whose rows belong to it.
#[derive(Drop)]
pub struct Owned<T> {
    pub org: Text,
    /// The name of the token or of the workspace.
    pub name: Text,
    /// The other columns.
    pub it: T,
}

/// A row of token.
pub type TokenRow = Owned<Token>;

/// A row of ws.
pub type WsRow = Owned<Workspace>;

/// A row of version.
pub type VersionRow = Owned<basis::VersionRow>;

/// A row of run.
pub type RunRow = Owned<basis::RunRow>;

/// A row of vpage: the page at a place of a version's text, by the page's key and twin number.
#[derive(Drop)]
pub struct VpageRow {
    pub org: Text,
    pub ws: Text,
    pub number: u64,
    pub place: u64,
    pub key: Bytes,
    pub twin: u64,
}

/// A row of bound.
pub type BoundRow = Owned<Bound>;

/// A row of keeping: the number of versions that a workspace keeps.
pub type RetentionRow = Owned<KeepCount>;

/// A row of page without the page's bytes.
#[derive(Drop)]
pub struct PageHead {
    pub key: Bytes,
    pub twin: u64,
    /// The number of the page's bytes.
    pub size: u64,
    /// The number of rows of vpage that name the page, as its own row has it.
    pub uses: u64,
    /// Whether the key is that of the page's bytes.
    pub is_keyed: bool,
    /// Whether this twin number is that of the first page with the same key and the same bytes.
    pub is_first: bool,
}

/// The rows of all tables, each with its rowid; of page, the rows without bytes.
#[derive(Drop)]
pub struct Rows {
    pub metas: Items<(i64, u64)>,
    pub orgs: Items<(i64, OrgRow)>,
    pub tokens: Items<(i64, TokenRow)>,
    pub wss: Items<(i64, WsRow)>,
    pub versions: Items<(i64, VersionRow)>,
    pub runs: Items<(i64, RunRow)>,
    pub pages: Items<PageHead>,
    pub vpages: Items<(i64, VpageRow)>,
    pub bounds: Items<(i64, BoundRow)>,
    pub editions: Items<(i64, u64)>,
    pub retentions: Items<(i64, RetentionRow)>,
}

/// A workspace, without its versions and runs.
#[derive(Drop)]
pub struct Workspace {
    pub runs: RunSettings,
    pub holder: Holder,
    /// The ID of the last lock that was released.
    pub released: Option<LockId>,
    pub next_version: u64,
    pub next_run: u64,
}

/// A workspace with its name, and the number of versions that it keeps, if it has a row of keeping.
#[derive(Drop)]
pub struct NamedWorkspace {
    pub name: WsName,
    pub it: Workspace,
    pub retention: Option<KeepCount>,
    /// The number before the next version's, if a version has it.
    pub last: Option<Number>,
}

/// A token with its name.
#[derive(Drop)]
pub struct NamedToken {
    pub name: Text,
    pub it: Token,
}

/// A token without its digest.
#[derive(Drop)]
pub struct NamedRole {
    pub name: Text,
    pub role: Role,
}

/// A token without its digest, with its expiry and prefix.
#[derive(Drop)]
pub struct BoundedRole {
    pub token: NamedRole,
    pub bounds: Bounds,
}

/// An organization and its limit of workspaces.
#[derive(Drop)]
pub struct Organization {
    pub name: Text,
    pub cap: Limit,
}
