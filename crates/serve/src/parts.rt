//! The operator's commands, from the words that name what they are about.
ghost use Rattle.std.specs.Prelude.{◌≡◌, Some, None, IfOk, IsErrOf};
ghost use Rattle.serve.specs.Parts.{limit_of, role_of, org_command, limit_command, remove_command, token_command, list_command, revoke_command};

use crate::steps::Admin;
use basis::numbers::whole_number;
use basis::{Bounds, Limit, OrgName, Role, Secret, Unfit};
use std::alloc::Global;

/// Reads a limit of workspaces.
pub fn read_limit(word: &str) -> Option<Limit>
    ensures { result ≡ limit_of word.now }
{
    let value = whole_number(word)?;
    let value = u32::try_from(value).ok()?;
    Limit::new(value)
}

/// Reads a role.
pub fn read_role(word: &str) -> Option<Role>
    ensures { result ≡ role_of word.now }
{
    Role::named(word)
}

/// The command that adds an organization.
pub fn org_add(alloc: Global, org: &str, limit: Option<Limit>) -> Result<Admin, Unfit>
    ensures ok { IfOk result (λ command. org_command org.now limit ≡ Some command) }
    ensures syntax { IsErrOf result Unfit.Syntax → org_command org.now limit ≡ None }
{
    let Some(limit) = limit else {
        return Err(Unfit::Syntax);
    };
    let org = OrgName::read(alloc, org)?;
    Ok(Admin::OrgAdd { org, limit })
}

/// The command that sets an organization's limit.
pub fn org_limit(alloc: Global, org: &str, limit: Option<Limit>) -> Result<Admin, Unfit>
    ensures ok { IfOk result (λ command. limit_command org.now limit ≡ Some command) }
    ensures syntax { IsErrOf result Unfit.Syntax → limit_command org.now limit ≡ None }
{
    let Some(limit) = limit else {
        return Err(Unfit::Syntax);
    };
    let org = OrgName::read(alloc, org)?;
    Ok(Admin::OrgLimit { org, limit })
}

/// The command that removes an organization, by force or not.
pub fn org_remove(alloc: Global, org: &str, is_forced: bool) -> Result<Admin, Unfit>
    ensures ok { IfOk result (λ command. remove_command org.now is_forced ≡ Some command) }
    ensures syntax { IsErrOf result Unfit.Syntax → remove_command org.now is_forced ≡ None }
{
    let org = OrgName::read(alloc, org)?;
    Ok(Admin::OrgRemove { org, is_forced })
}

/// The command that adds a token with these bounds.
pub fn token_add(
    alloc: Global,
    org: &str,
    name: &str,
    role: &str,
    secret: &str,
    bounds: Bounds,
) -> Result<Admin, Unfit>
    ensures ok { IfOk result (λ command. token_command org.now name.now role.now secret.now bounds ≡ Some command) }
    ensures syntax { IsErrOf result Unfit.Syntax → token_command org.now name.now role.now secret.now bounds ≡ None }
{
    let Some(role) = read_role(role) else {
        return Err(Unfit::Syntax);
    };
    let org = OrgName::read(alloc, org)?;
    let name = OrgName::read(alloc, name)?;
    let secret = Secret::read(alloc, secret)?;
    Ok(Admin::TokenAdd {
        org,
        name,
        role,
        secret,
        bounds,
    })
}

/// The command that lists an organization's tokens.
pub fn token_list(alloc: Global, org: &str) -> Result<Admin, Unfit>
    ensures ok { IfOk result (λ command. list_command org.now ≡ Some command) }
    ensures syntax { IsErrOf result Unfit.Syntax → list_command org.now ≡ None }
{
    let org = OrgName::read(alloc, org)?;
    Ok(Admin::TokenList { org })
}

/// The command that revokes a token.
pub fn token_revoke(alloc: Global, org: &str, name: &str) -> Result<Admin, Unfit>
    ensures ok { IfOk result (λ command. revoke_command org.now name.now ≡ Some command) }
    ensures syntax { IsErrOf result Unfit.Syntax → revoke_command org.now name.now ≡ None }
{
    let org = OrgName::read(alloc, org)?;
    let name = OrgName::read(alloc, name)?;
    Ok(Admin::TokenRevoke { org, name })
}
