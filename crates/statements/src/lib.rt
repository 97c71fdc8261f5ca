//! The statements of schema 3, and those that upgrade schema 1 to 2 and 2 to 3. Each is one fixed text in a
//! function of its own. The function's contract is the meaning of the text over typed rows, in every schema
//! that has the tables.
#![tactic(auto)]

mod answers;
pub mod bounds;
pub mod calls;
mod cells;
mod encoding;
pub mod making;
pub mod organizations;
pub mod retentions;
pub mod rows;
pub mod runs;
pub mod scans;
pub mod tokens;
pub mod versions;
pub mod workspaces;

pub use rows::{
    BoundRow, NamedRole, NamedToken, NamedWorkspace, OrgRow, Organization, PageHead, RetentionRow,
    Rows, RunRow, Token, TokenRow, VersionRow, VpageRow, Workspace, WsRow,
};
