//! The tokens of an organization, as a store finds them by their digests, beside the rows of all of them.
use crate::all_rows::{AllRows, TOKENS, bytes_at, has_number, has_text, number_at, text_at};
use basis::{Down, OrgName, Role};
use machine::{Keep, TokenRow};
use sqlite::Row;
use std::alloc::Global;

/// The SHA-256 of a token's secret.
pub type Digest = [u8; 32];

// The digest in a token's row.
fn digest_in(row: &Row) -> Option<Digest> {
    let bytes = bytes_at(row, 1)?;
    let mut digest = [0u8; 32];
    if bytes.len() != digest.len() {
        return None;
    }
    digest.copy_from_slice(bytes);
    Some(digest)
}

fn has_digest(digests: &[Digest], digest: &Digest) -> bool {
    for known in digests {
        if known.as_slice() == digest.as_slice() {
            return true;
        }
    }
    false
}

/// Adds the digests of tokens that are not yet among these.
pub fn add_digests(digests: &mut Vec<Digest>, all_rows: &AllRows) -> Result<(), Down> {
    for row in all_rows.rows(TOKENS) {
        if let Some(digest) = digest_in(row) {
            if !has_digest(digests.as_slice(), &digest) {
                digests.push(digest)?;
            }
        }
    }
    Ok(())
}

// The number by which a row has a role.
fn role_number(role: Role) -> u64 {
    match role {
        Role::Read => 0,
        Role::Write => 1,
        Role::Admin => 2,
    }
}

fn is_token(row: &Row, token: &TokenRow) -> bool {
    let until = match token.caller.until {
        Some(until) => Some(until.seconds()),
        None => None,
    };
    has_text(row, 2, token.name.as_str())
        && has_number(row, 0, role_number(token.caller.role))
        && number_at(row, 3) == until
        && text_at(row, 4).unwrap_or(b"") == token.caller.prefix.as_str().as_bytes()
}

fn is_of(row: &Row, digest: &Digest) -> bool {
    match bytes_at(row, 1) {
        Some(found) => found == digest.as_slice(),
        None => false,
    }
}

// Whether what was found by a digest is its token, or that there is none.
fn is_found(rows: &[Row], digest: &Digest, found: &Option<TokenRow>) -> bool {
    for row in rows {
        if is_of(row, digest) {
            return match found {
                Some(token) => is_token(row, token),
                None => false,
            };
        }
    }
    found.is_none()
}

/// Whether a store finds by each digest what the rows have. It then remembers the token of the last one, so it is asked for
/// that one first after the next step.
pub fn are_callers<K: Keep>(
    alloc: Global,
    keep: &mut K,
    org: &OrgName,
    all_rows: &AllRows,
    digests: &mut Vec<Digest>,
) -> Result<bool, Down> {
    for digest in digests.as_slice() {
        let found = keep.caller(alloc, org, digest)?;
        if !is_found(all_rows.rows(TOKENS), digest, &found) {
            return Ok(false);
        }
    }
    digests.reverse();
    Ok(true)
}
