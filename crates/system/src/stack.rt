//! The stack that a request may need, taken before one comes.
use std::fs::File;
use std::io::Read;

/// How many bytes of stack one turn takes.
const PIECE_BYTES: usize = 16_384;

/// How many pieces are taken: 256 KB in all. A state that is nested 127 deep needs the most: 148 KB.
const PIECES: u8 = 16;

// Takes pieces of stack, each below the one before it. The read, which finds nothing, keeps the compiler from leaving the bytes out.
fn take_pieces(null: &mut File, left: u8) {
    if left == 0 {
        return;
    }
    let mut bytes = [0u8; PIECE_BYTES];
    take_pieces(null, left - 1);
    let _ = null.read(&mut bytes);
}

/// Takes the stack that any request needs, and gives it back. The system extends a stack when it is used, and ends a process for
/// whose stack it has no room, whereas a refused allocation is answered. What was taken once is not taken away again. The file is
/// one that has nothing to read.
pub fn take_stack(null: &mut File) {
    take_pieces(null, PIECES);
}
