//! The two lists as they are printed: of all organizations, and of an organization's tokens.
ghost use Rattle.std.specs.Prelude.{◌≡◌, ◌++◌, OnOk, codes};
ghost use Rattle.std.specs.Io.KnownBytes.{Appends};
ghost use Rattle.basis.specs.Roles.{role_word};
ghost use Rattle.serve.specs.Service.{org_line, org_lines, until_text, prefix_text, token_line, token_lines};

use basis::{Caller, Moment, Role, WsPrefix};
use machine::{OrgRow, TokenRow};
use std::io;
use std::io::Write;

fn write_organization<O: Write>(output: &mut O, row: &OrgRow) -> io::Result<()>
    ensures { OnOk result (Appends (O.contents output.old) (O.contents output.new) (org_line row.now)) }
{
    writeln!(
        output,
        "{} {} {}",
        row.name.as_str(),
        row.workspaces,
        row.limit.get()
    )
}

/// Writes the list of all organizations: a line for each, with its name, how many workspaces it has, and
/// how many it may have.
pub fn write_org_lines<O: Write>(output: &mut O, rows: &[OrgRow]) -> io::Result<()>
    ensures { OnOk result (Appends (O.contents output.old) (O.contents output.new) (org_lines rows.now)) }
{
    'rows: for row in rows {
        write_organization(output, row)?;
    }
    Ok(())
}

fn role_word(role: Role) -> &'static str
    ensures { result.now ≡ role_word role }
{
    match role {
        Role::Read => "read",
        Role::Write => "write",
        Role::Admin => "admin",
    }
}

fn write_until<O: Write>(output: &mut O, until: Option<Moment>) -> io::Result<()>
    ensures { OnOk result (Appends (O.contents output.old) (O.contents output.new) (until_text until)) }
{
    match until {
        Some(until) => write!(output, "{}", until.seconds()),
        None => output.write_all(b"-"),
    }
}

fn prefix_text(prefix: &WsPrefix) -> &[u8]
    ensures { result.now ≡ prefix_text prefix.now }
{
    let text = prefix.as_str().as_bytes();
    match text {
        [] => b"-",
        [_, ..] => text,
    }
}

fn write_prefix<O: Write>(output: &mut O, prefix: &WsPrefix) -> io::Result<()>
    ensures { OnOk result (Appends (O.contents output.old) (O.contents output.new) (prefix_text prefix.now ++ codes "\n")) }
{
    output.write_all(prefix_text(prefix))?;
    output.write_all(b"\n")
}

// What a token may do, to the end of its line: its role, its end, and which workspaces it is for.
fn write_caller<O: Write>(output: &mut O, caller: &Caller) -> io::Result<()>
    ensures { OnOk result (Appends (O.contents output.old) (O.contents output.new)
        (role_word caller.now.role ++ codes " " ++ until_text caller.now.until ++ codes " " ++ prefix_text caller.now.prefix ++ codes "\n")) }
{
    output.write_all(role_word(caller.role).as_bytes())?;
    output.write_all(b" ")?;
    write_until(output, caller.until)?;
    output.write_all(b" ")?;
    write_prefix(output, &caller.prefix)
}

fn write_token<O: Write>(output: &mut O, row: &TokenRow) -> io::Result<()>
    ensures { OnOk result (Appends (O.contents output.old) (O.contents output.new) (token_line row.now)) }
{
    output.write_all(row.name.as_str().as_bytes())?;
    output.write_all(b" ")?;
    write_caller(output, &row.caller)
}

/// Writes the list of an organization's tokens: a line for each, with its name, its role, its end and its
/// prefix.
pub fn write_token_lines<O: Write>(output: &mut O, rows: &[TokenRow]) -> io::Result<()>
    ensures { OnOk result (Appends (O.contents output.old) (O.contents output.new) (token_lines rows.now)) }
{
    'rows: for row in rows {
        write_token(output, row)?;
    }
    Ok(())
}
