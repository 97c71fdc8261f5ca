//! A member of a document that is true or false.
ghost use Rattle.std.specs.Prelude.{◌≡◌};
ghost use Rattle.serde_json.specs.Find.{get};
ghost use Rattle.serde_json.specs.View.{view};
ghost use Rattle.docs.specs.Flags.{flag_of};

use serde_json::Value;

// A flag under a key that may be absent.
pub(crate) fn read_flag(value: &Value, key: &str) -> Option<bool>
    ensures { result ≡ flag_of (get key.now (view value.now)) }
{
    match value.get(key) {
        None => Some(false),
        Some(found) => found.as_bool(),
    }
}
