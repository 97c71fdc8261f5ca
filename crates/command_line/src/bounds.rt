//! The bounds of a new token, from the values of two arguments.
ghost use Rattle.std.specs.Prelude.{◌≡◌, Some, None, IfOk, IfErr, IsErrOf};
ghost use Rattle.command_line.specs.Bounds.{until_given, prefix_given, bounds_given};
ghost use Rattle.command_line.specs.Orders.{text_in};

use basis::{Bounds, Moment, Unfit, WsPrefix};
use serve::bounds::{read_moment, read_prefix};
use std::alloc::Global;

fn until_given(value: Option<&str>) -> Result<Option<Moment>, Unfit>
    ensures ok { IfOk result (λ until. until_given (text_in value.entry) ≡ Some until) }
    ensures syntax { IfErr result (λ unfit. (unfit ≡ Unfit.Syntax) × (until_given (text_in value.entry) ≡ None)) }
{
    let Some(word) = value else {
        return Ok(None);
    };
    match read_moment(word) {
        Some(until) => Ok(Some(until)),
        None => Err(Unfit::Syntax),
    }
}

fn prefix_given(alloc: Global, value: Option<&str>) -> Result<WsPrefix, Unfit>
    ensures ok { IfOk result (λ prefix. prefix_given (text_in value.entry) ≡ Some prefix) }
    ensures syntax { IsErrOf result Unfit.Syntax → prefix_given (text_in value.entry) ≡ None }
{
    match value {
        Some(word) => read_prefix(alloc, word),
        None => Ok(WsPrefix::new(alloc)),
    }
}

/// The bounds of a token, from the values of `--until` and `--prefix`, each optional.
pub fn give_bounds(
    alloc: Global,
    until: Option<&str>,
    prefix: Option<&str>,
) -> Result<Bounds, Unfit>
    ensures ok { IfOk result (λ bounds. bounds_given (text_in until.entry) (text_in prefix.entry) ≡ Some bounds) }
    ensures syntax { IsErrOf result Unfit.Syntax → bounds_given (text_in until.entry) (text_in prefix.entry) ≡ None }
{
    let until = until_given(until)?;
    let prefix = prefix_given(alloc, prefix)?;
    Ok(Bounds { until, prefix })
}
