//! Content-MD5.
ghost use Rattle.std.specs.Prelude.{◌≡◌, ◌↔◌, IsTrue};
ghost use Rattle.docs.specs.Digests.{content_md5_text, digest_fits};

use base64::engine::general_purpose::STANDARD;
use md5::{Digest, Md5};

/// The length of a digest's base64 text.
const CONTENT_MD5_LEN: usize = 24;

/// Whether a field Content-MD5 (RFC 1864) is the base64 text of the body's MD5. It takes no memory.
#[tactic(auto, unfolding(crate::specs::Digests::content_md5_text))]
pub fn digest_fits(field: &[u8], body: &[u8]) -> bool
    ensures value { result ≡ digest_fits field.now body.now }
    ensures exact { IsTrue result ↔ (field.now ≡ content_md5_text body.now) }
{
    let digest = Md5::digest(body);
    let mut text = [0u8; CONTENT_MD5_LEN];
    match STANDARD.encode_slice(&digest, &mut text) {
        Ok(_) => field == text.as_slice(),
        Err(_) => false,
    }
}
