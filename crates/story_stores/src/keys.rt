//! A key of pages that many pages share.
ghost use Rattle.std.specs.Prelude.{◌∷◌, replicate, slice_get, unwrap_or};

use pages::PageKey;

/// The key is the page's first byte, followed by 31 zeros. That of an empty page is only zeros.
pub struct FirstByte;

impl PageKey for FirstByte {
    ghost key_of = { λ page. unwrap_or (slice_get page 0) 0 ∷ replicate 31 0 };

    fn key(page: &[u8]) -> [u8; 32] {
        let mut key = [0; 32];
        key[0] = match page.first() {
            Some(first) => *first,
            None => 0,
        };
        key
    }

    fn keys(pages: [&[u8]; 4]) -> [[u8; 32]; 4] {
        let [first, second, third, fourth] = pages;
        [
            FirstByte::key(first),
            FirstByte::key(second),
            FirstByte::key(third),
            FirstByte::key(fourth),
        ]
    }
}
