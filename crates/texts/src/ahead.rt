//! The keys of a text's pages, computed four at a time.
ghost use Rattle.std.specs.Prelude.{◌≡◌, ◌≤◌, ◌<◌, ◌+◌, ◌*◌, ℕ, List, IsTrue, None, cond, length};
ghost use Rattle.texts.specs.Texts.{piece_at};
ghost use Rattle.texts.specs.Inner.Ahead.{AreKeysOf, has_key};

use crate::texts::{PAGE_BYTES, piece_at};
use pages::PageKey;

/// The keys of four pages of a text, from a place on, after they are computed.
#[derive(Clone, Copy)]
pub(crate) struct Ahead {
    keys: [[u8; 32]; 4],
    from: u64,
    is_made: bool,
}

/// The piece of a text at a place. It is empty after the end of the text.
fn piece_behind(text: &[u8], place: u64) -> &[u8]
    ensures { result.now ≡ piece_at text.now place }
{
    if place > text.len() as u64 / PAGE_BYTES as u64 {
        return &[];
    }
    piece_at(text, place)
}

impl Ahead {
    /// No key has been computed.
    pub(crate) fn new() -> Ahead
        ensures { (key_of : List ℕ → List ℕ) (text : List ℕ) → AreKeysOf key_of text result }
    {
        Ahead {
            keys: [[0; 32]; 4],
            from: 0,
            is_made: false,
        }
    }

    /// Whether the key of the page at a place has been computed.
    fn has(&self, place: u64) -> bool
        ensures exact { result ≡ has_key self.now place }
        ensures made { IsTrue result → IsTrue self.now.is_made }
        ensures there { IsTrue result → (self.now.from ≤ place) × (place < self.now.from + 4) }
    {
        self.is_made && place >= self.from && place - self.from < 4
    }

    /// The known key of a page; none if its own key has been computed, because then that one costs nothing
    /// more.
    pub(crate) fn or_known<'a>(
        &self,
        place: u64,
        known: Option<&'a [u8; 32]>,
    ) -> Option<&'a [u8; 32]>
        ensures { result ≡ cond (has_key self.now place) None known.entry }
    {
        if self.has(place) { None } else { known }
    }

    /// The key of the page at a place. If `more` says that keys of the pages after it are likely to be
    /// needed, and at least two such pages exist, those of the next three are computed with it: four keys
    /// cost as much as two that are computed one by one.
    pub(crate) fn key<K: PageKey>(&mut self, text: &[u8], place: u64, more: bool) -> [u8; 32]
        requires is_there { place * PAGE_BYTES ≤ length text.now }
        ensures key { AreKeysOf K.key_of text.now self.old → result ≡ K.key_of (piece_at text.now place) }
        ensures made { AreKeysOf K.key_of text.now self.old → AreKeysOf K.key_of text.now self.new }
    {
        if self.has(place) {
            return self.keys[(place - self.from) as usize];
        }
        let page = piece_at(text, place);
        if !more {
            return K::key(page);
        }
        let second = piece_behind(text, place + 1);
        let third = piece_behind(text, place + 2);
        if third.is_empty() {
            return K::key(page);
        }
        let fourth = piece_behind(text, place + 3);
        let keys = K::keys([page, second, third, fourth]);
        self.keys = keys;
        self.from = place;
        self.is_made = true;
        keys[0]
    }
}
