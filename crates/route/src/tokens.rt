//! Bearer tokens, and the digest by which a token's secret is known.
ghost use Rattle.std.specs.Prelude.{◌≡◌, Some, None, MatchOption, option_map, option_and_then};
ghost use Rattle.basis.specs.Checks.{or_refused};
ghost use Rattle.basis.specs.Inner.Checks.{Follows};
ghost use Rattle.sha2.specs.Sha256.{sha256};
ghost use Rattle.route.specs.Inner.Checks.{now_of, result_of};
ghost use Rattle.route.specs.Tokens.{before, behind, unspaced, bearer_of, one_token, org_of, secret_of, bearer_token_of, bearer_token_read};

use basis::{OrgName, Refusal, Secret, Unfit};
use sha2::{Digest, Sha256};
use std::alloc::Global;
use std::str;

/// The scheme of bearer tokens (RFC 6750, section 2.1); its case doesn't count.
const BEARER: &[u8] = b"bearer";

/// A token whose text parses.
#[derive(Drop)]
pub struct BearerToken {
    pub org: OrgName,
    pub secret: Secret,
}

/// The token of a request, from its field Authorization and from its query.
pub fn read_bearer_token(
    alloc: Global,
    authorization: Option<&[u8]>,
    in_query: Option<&[u8]>,
) -> Result<BearerToken, Refusal>
    ensures { Follows result (bearer_token_read (option_map now_of authorization.entry) (option_map now_of in_query.entry)) }
{
    let text = one_token(authorization, in_query)?;
    bearer_token_in(alloc, text)
}

// The one token of a request.
fn one_token<'t>(
    authorization: Option<&'t [u8]>,
    in_query: Option<&'t [u8]>,
) -> Result<&'t [u8], Refusal>
    ensures { Follows (result_of result) (one_token (option_and_then bearer_of (option_map now_of authorization.entry)) (option_map now_of in_query.entry)) }
{
    match (authorization.and_then(bearer_in), in_query) {
        (Some(_), Some(_)) => Err(Refusal::TwoTokens),
        (Some(token), None) => Ok(token),
        (None, Some(token)) => Ok(token),
        (None, None) => Err(Refusal::NoToken),
    }
}

fn bearer_in(value: &[u8]) -> Option<&[u8]>
    ensures { MatchOption result (bearer_of value.now ≡ None) (λ token. bearer_of value.now ≡ Some token.now) }
{
    let (word, rest) = cut_at(value, b' ');
    if word.eq_ignore_ascii_case(BEARER) {
        Some(unspaced(rest))
    } else {
        None
    }
}

fn bearer_token_in(alloc: Global, text: &[u8]) -> Result<BearerToken, Refusal>
    ensures { Follows result (or_refused Refusal.BadToken (bearer_token_of text.now)) }
{
    let (org, secret) = cut_at(text, b'.');
    let org = org_in(alloc, org)?;
    let secret = secret_in(alloc, secret)?;
    Ok(BearerToken { org, secret })
}

fn org_in(alloc: Global, bytes: &[u8]) -> Result<OrgName, Refusal>
    ensures { Follows result (or_refused Refusal.BadToken (org_of bytes.now)) }
{
    let Ok(text) = str::from_utf8(bytes) else {
        return Err(Refusal::BadToken);
    };
    match OrgName::read(alloc, text) {
        Ok(org) => Ok(org),
        Err(Unfit::Syntax) => Err(Refusal::BadToken),
        Err(Unfit::Down) => Err(Refusal::Unavailable),
    }
}

fn secret_in(alloc: Global, bytes: &[u8]) -> Result<Secret, Refusal>
    ensures { Follows result (or_refused Refusal.BadToken (secret_of bytes.now)) }
{
    let Ok(text) = str::from_utf8(bytes) else {
        return Err(Refusal::BadToken);
    };
    match Secret::read(alloc, text) {
        Ok(secret) => Ok(secret),
        Err(Unfit::Syntax) => Err(Refusal::BadToken),
        Err(Unfit::Down) => Err(Refusal::Unavailable),
    }
}

// The bytes before and after the first such byte.
pub(crate) fn cut_at(bytes: &[u8], byte: u8) -> (&[u8], &[u8])
    ensures first { result.0.now ≡ before byte bytes.now }
    ensures rest { result.1.now ≡ behind byte bytes.now }
{
    match bytes.iter().position(|b| *b == byte) {
        Some(index) => (&bytes[..index], &bytes[index + 1..]),
        None => (bytes, &[]),
    }
}

pub(crate) fn unspaced(bytes: &[u8]) -> &[u8]
    ensures { result.now ≡ unspaced bytes.now }
{
    match bytes {
        [b' ', rest @ ..] => unspaced(rest),
        _ => bytes,
    }
}

/// SHA-256 of the secret's bytes (FIPS 180-4). It takes no memory.
pub fn secret_digest(secret: &Secret) -> [u8; 32]
    ensures { result ≡ sha256 secret.now }
{
    Sha256::digest(secret.as_str().as_bytes())
}
