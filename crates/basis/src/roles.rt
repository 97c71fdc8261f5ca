//! Roles of tokens.
ghost use Rattle.std.specs.Prelude.{◌≡◌, ◌≢◌, ◌≤◌, Some, None, IfSome, IfNone};
ghost use Rattle.basis.specs.Roles.{includes, role_word, is_valid_at, is_before};
ghost use Rattle.basis.specs.declared.numbers.TheConstants.{MAX_MOMENT};
ghost use Rattle.basis.specs.declared.roles.Role.{Role as AnyRole};

use crate::names::WsPrefix;
use crate::numbers::{MAX_MOMENT, Moment};
use std::alloc::AllocError;

/// What a token may do. Each role includes the ones before.
#[derive(Clone, Copy, PartialEq, Eq)]
pub enum Role {
    Read,
    Write,
    Admin,
}

impl Role {
    /// Whether this role gives the leave that `least` gives.
    pub fn includes(self, least: Role) -> bool
        ensures { result ≡ includes self least }
    {
        match self {
            Role::Read => least == Role::Read,
            Role::Write => least != Role::Admin,
            Role::Admin => true,
        }
    }

    /// The role that an operator's command names: `read`, `write` or `admin`.
    pub fn named(word: &str) -> Option<Role>
        ensures named { IfSome result (λ role. word.now ≡ role_word role) }
        ensures unknown { IfNone result ((role : AnyRole) → word.now ≢ role_word role) }
    {
        match word {
            "read" => Some(Role::Read),
            "write" => Some(Role::Write),
            "admin" => Some(Role::Admin),
            _ => None,
        }
    }
}

/// How far a token reaches: until which moment it counts, if it ends, and for which workspaces.
#[derive(Clone, Drop)]
pub struct Bounds {
    pub until: Option<Moment>,
    pub prefix: WsPrefix,
}

/// Who asks, by a token: what it may do, until which moment it counts, if it ends, and for which
/// workspaces.
#[derive(Clone, Drop)]
pub struct Caller {
    pub role: Role,
    pub until: Option<Moment>,
    pub prefix: WsPrefix,
}

impl Bounds {
    /// The moment from which the token doesn't count, if it ends.
    pub fn end(&self) -> Option<Moment>
        ensures value { result ≡ self.now.until }
        ensures most { IfSome result (λ end. end ≤ MAX_MOMENT) }
    {
        match self.until {
            None => None,
            Some(until) => {
                prove!(until.seconds() <= MAX_MOMENT);
                Some(until)
            }
        }
    }
}

impl Caller {
    /// Whether the token counts at this moment: it doesn't end, or ends later.
    pub fn is_valid_at(&self, now: Moment) -> bool
        ensures { result ≡ is_valid_at now self.now }
    {
        is_before(now, self.until)
    }
}

// Whether a moment is before an end, where there is one.
fn is_before(now: Moment, until: Option<Moment>) -> bool
    ensures { result ≡ is_before now until }
{
    match until {
        None => true,
        Some(until) => now.seconds() < until.seconds(),
    }
}
