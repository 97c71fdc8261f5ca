//! The secret of a new token: one line of standard input, with or without its line feed.
ghost use Rattle.std.specs.Prelude.{◌≡◌, Some, None, IfOk, IsErrOf, option_map, option_and_then};
ghost use Rattle.program.specs.Secrets.{if_secret, secret_in};

use basis::{Secret, Unfit};
use serve::lines::only_line;
use serve::words::read_text;
use std::alloc::Global;

fn secret_of(alloc: Global, text: Option<&str>) -> Result<Secret, Unfit>
    ensures ok { IfOk result (λ secret. option_and_then if_secret (option_map (λ t. t.now) text.entry) ≡ Some secret) }
    ensures syntax { IsErrOf result Unfit.Syntax → option_and_then if_secret (option_map (λ t. t.now) text.entry) ≡ None }
{
    match text {
        Some(text) => Secret::read(alloc, text),
        None => Err(Unfit::Syntax),
    }
}

/// Reads a secret from these bytes.
pub fn read_secret(alloc: Global, bytes: &[u8]) -> Result<Secret, Unfit>
    ensures ok { IfOk result (λ secret. secret_in bytes.now ≡ Some secret) }
    ensures syntax { IsErrOf result Unfit.Syntax → secret_in bytes.now ≡ None }
{
    match only_line(bytes) {
        Some(line) => secret_of(alloc, read_text(line)),
        None => Err(Unfit::Syntax),
    }
}
