//! The operator's door: the requests that come to it, and the secret that they bring.
ghost use Rattle.std.specs.Prelude.{◌≡◌, Some, None, MatchOption, option_map};
ghost use Rattle.sha2.specs.Sha256.{sha256};
ghost use Rattle.route.specs.Doors.{is_at_door, operator_of, digest_in, digest_brought};

use crate::tokens::{cut_at, unspaced};
use basis::{Allow, Bytes, Refusal};
use sha2::{Digest, Sha256};
use wire::Message;

/// The scheme of the operator's secret, in upper or lower case (RFC 9110, section 11.1).
const OPERATOR: &[u8] = b"operator";

/// Whether a message comes to the operator's door.
pub fn is_at_door(message: &Message) -> bool
    ensures { result ≡ is_at_door message.now }
{
    message.path.as_str() == "/operator"
}

fn operator_in(value: &[u8]) -> Option<&[u8]>
    ensures { MatchOption result (operator_of value.now ≡ None) (λ secret. operator_of value.now ≡ Some secret.now) }
{
    let (word, rest) = cut_at(value, b' ');
    if word.eq_ignore_ascii_case(OPERATOR) {
        Some(unspaced(rest))
    } else {
        None
    }
}

// The digest of the secret in the value of a field.
fn digest_of_value(value: &[u8]) -> Option<[u8; 32]>
    ensures { result ≡ option_map sha256 (operator_of value.now) }
{
    match operator_in(value) {
        Some(secret) => Some(Sha256::digest(secret)),
        None => None,
    }
}

fn digest_in(authorization: &Option<Bytes>) -> Option<[u8; 32]>
    ensures { result ≡ digest_in authorization.now }
{
    match authorization {
        Some(value) => digest_of_value(value.as_slice()),
        None => None,
    }
}

/// The digest of the secret that a message at the door brings, or the refusal of the first check that fails: the method, the query,
/// whether it brings one. It allocates nothing.
pub fn digest_brought(message: &Message) -> Result<[u8; 32], Refusal>
    ensures { result ≡ digest_brought message.now }
{
    if message.method.as_str() != "POST" {
        return Err(Refusal::NoMethod(Allow::Actions));
    }
    if message.query.is_some() {
        return Err(Refusal::BadQuery);
    }
    match digest_in(&message.authorization) {
        Some(digest) => Ok(digest),
        None => Err(Refusal::BadSecret),
    }
}
