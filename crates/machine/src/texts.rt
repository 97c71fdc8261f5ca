//! The text of a state, which is shared instead of copied.
ghost use Rattle.std.specs.Prelude.{◌≡◌, ℕ, List, IfOk};

use basis::{Bytes, Down};
use std::alloc::{AllocError, Global};
use std::marker::Model;
use std::rc::Rc;

/// The text of a state, seen as its bytes. A clone shares them: no byte is copied between the buffer that a
/// request was read into and the pages of its version.
#[derive(Clone, Drop)]
pub struct StateText {
    bytes: Rc<Bytes>,
}

impl Model for StateText {
    ghost Value = { List ℕ };

    ghost view = { λ text. text.bytes.value };
}

impl StateText {
    /// The text with these bytes, which are moved, not copied. Fails if memory is refused.
    pub fn new(alloc: Global, bytes: Bytes) -> Result<StateText, AllocError>
        ensures { IfOk result (λ text. text ≡ bytes) }
    {
        match Rc::new(alloc, bytes) {
            Ok(bytes) => Ok(StateText { bytes }),
            Err(_) => Err(AllocError),
        }
    }

    /// The bytes of the text.
    pub fn as_slice(&self) -> &[u8]
        ensures { result.now ≡ self.now }
    {
        self.bytes.as_ref().as_slice()
    }

    /// A copy of the bytes. Fails if memory is refused.
    pub fn copied(&self) -> Result<Bytes, Down>
        ensures { IfOk result (λ bytes. bytes ≡ self.now) }
    {
        Ok(self.bytes.as_ref().clone()?)
    }
}
