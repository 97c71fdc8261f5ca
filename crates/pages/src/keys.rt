//! The keys by which pages are found.
ghost use Rattle.std.specs.Prelude.{◌≡◌, ℕ, List, map};
ghost use Rattle.sha2.specs.Sha256.{sha256};

use lanes::digests;
use sha2::{Digest, Sha256};

/// Computes the key by which a page is found. Equal pages have equal keys; different pages may have the same
/// key.
pub trait PageKey {
    // The key of a page's bytes.
    ghost key_of: { List ℕ → List ℕ };

    fn key(page: &[u8]) -> [u8; 32]
        ensures { result ≡ key_of page.now };

    /// The keys of four pages. Computing them at once may cost less than four calls of `key`.
    fn keys(pages: [&[u8]; 4]) -> [[u8; 32]; 4]
        ensures { result ≡ map (λ page. key_of page.now) pages.entry };
}

/// SHA-256 (FIPS 180-4).
pub struct ShaKey;

impl PageKey for ShaKey {
    ghost key_of = { sha256 };

    fn key(page: &[u8]) -> [u8; 32] {
        Sha256::digest(page)
    }

    fn keys(pages: [&[u8]; 4]) -> [[u8; 32]; 4] {
        digests(pages)
    }
}
