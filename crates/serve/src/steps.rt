//! Steps: requests and operator's commands, each at a moment.

use basis::{Bounds, Bytes, Limit, Moment, OrgName, Role, Secret};

/// An operator's command, its parts read.
#[derive(Drop)]
pub enum Admin {
    OrgAdd {
        org: OrgName,
        limit: Limit,
    },
    /// Sets how many workspaces an organization may have.
    OrgLimit {
        org: OrgName,
        limit: Limit,
    },
    /// Removes an organization with everything in it; if forced, also while a lock holds or a run is open.
    OrgRemove {
        org: OrgName,
        is_forced: bool,
    },
    /// Lists all organizations.
    OrgList,
    TokenAdd {
        org: OrgName,
        name: OrgName,
        role: Role,
        secret: Secret,
        /// Until when the token counts, and for which workspaces.
        bounds: Bounds,
    },
    /// Lists an organization's tokens.
    TokenList {
        org: OrgName,
    },
    /// Takes a token away.
    TokenRevoke {
        org: OrgName,
        name: OrgName,
    },
}

/// What `replay` takes in turn.
#[derive(Drop)]
pub enum Step {
    /// The bytes that came on one connection, and the moment of the exchange.
    Request { at: Moment, bytes: Bytes },
    Command { at: Moment, command: Admin },
}
