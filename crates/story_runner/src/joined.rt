//! Bytes that are joined piece by piece. Whether memory was refused is asked once, at the end.
use basis::Down;
use std::alloc::Global;

/// The pieces so far.
#[derive(Drop)]
pub struct Joined {
    bytes: Vec<u8>,
    is_refused: bool,
}

impl Joined {
    pub fn new(alloc: Global) -> Joined {
        Joined {
            bytes: Vec::new(alloc),
            is_refused: false,
        }
    }

    /// Appends bytes. If memory is refused, so is the end.
    pub fn put(&mut self, bytes: &[u8]) {
        if self.bytes.extend_from_slice(bytes).is_err() {
            self.is_refused = true;
        }
    }

    /// Appends texts.
    pub fn put_texts(&mut self, texts: &[&str]) {
        for text in texts {
            self.put(text.as_bytes());
        }
    }

    /// Appends a field with a number.
    pub fn put_number(&mut self, alloc: Global, name: &str, number: usize) {
        match format!(in alloc; "{name}: {number}\r\n") {
            Ok(field) => self.put(field.as_str().as_bytes()),
            Err(_) => self.is_refused = true,
        }
    }

    /// All pieces.
    pub fn end(self) -> Result<Vec<u8>, Down> {
        let Joined { bytes, is_refused } = self;
        if is_refused { Err(Down) } else { Ok(bytes) }
    }
}
