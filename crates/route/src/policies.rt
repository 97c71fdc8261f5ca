//! Which role each act needs, which workspaces a token is for, and whether a caller may.
ghost use Rattle.std.specs.Prelude.{◌≡◌};
ghost use Rattle.route.specs.Policy.{least_role, role_refused, is_admitted, caller_refused, allowed_by};

use crate::routes::{Asked, AskedAct, least_role_on};
use basis::{Caller, Refusal, Role, WsPrefix};

/// Whether a caller's role is enough for what is asked, and its prefix admits the workspace, or how it
/// is refused: the role comes first, and another workspace is told as what isn't there, where it is to
/// be made too. It takes no memory.
pub fn allowed(asked: &Asked, caller: &Caller) -> Result<(), Refusal>
    ensures { result ≡ allowed_by (caller_refused caller.now asked.now.act) }
{
    if let Some(refusal) = role_refused(caller.role, &asked.act) {
        return Err(refusal);
    }
    if is_admitted(&caller.prefix, &asked.act) {
        Ok(())
    } else {
        Err(Refusal::NotFound)
    }
}

fn role_refused(role: Role, act: &AskedAct) -> Option<Refusal>
    ensures { result ≡ role_refused role act.now }
{
    let least = least_role(act);
    if role.includes(least) {
        return None;
    }
    match least {
        Role::Admin => Some(Refusal::NeedAdmin),
        Role::Read | Role::Write => Some(Refusal::NeedWrite),
    }
}

fn is_admitted(prefix: &WsPrefix, act: &AskedAct) -> bool
    ensures { result ≡ is_admitted prefix.now act.now }
{
    match act {
        AskedAct::ListWorkspaces { .. } => true,
        AskedAct::OfWorkspace(ws, _) => prefix.admits(ws.as_str()),
    }
}

fn least_role(act: &AskedAct) -> Role
    ensures { result ≡ least_role act.now }
{
    match act {
        AskedAct::ListWorkspaces { .. } => Role::Read,
        AskedAct::OfWorkspace(_, act) => least_role_on(*act),
    }
}
