//! Lines, and messages whose length is known.
ghost use Rattle.std.specs.Prelude.{◌≡◌, ◌<◌, ◌==◌, length, take, drop, suc, position, Some, None, IfSome, option_map};
ghost use Rattle.serve.specs.Lines.{first_line, message_of, only_line};

/// The most bytes of a line, without its line feed.
pub const MAX_LINE: usize = 4096;

/// The bytes before a place, and those after the one byte there.
pub fn part_at(bytes: &[u8], end: usize) -> (&[u8], &[u8])
    requires { end < length bytes.now }
    ensures before { result.0.now ≡ take end bytes.now }
    ensures rest { result.1.now ≡ drop (suc end) bytes.now }
{
    let (front, rest) = bytes.split_at(end);
    (front, &rest[1..])
}

/// The place of the first line feed.
pub fn line_end(bytes: &[u8]) -> Option<usize>
    ensures first { result ≡ position (λ b. b == 10) bytes.now }
    ensures inside { IfSome result (λ end. end < length bytes.now) }
{
    bytes.iter().position(|b| *b == b'\n')
}

/// The first line, and everything after its line feed.
pub fn split_line(bytes: &[u8]) -> Option<(&[u8], &[u8])>
    ensures parts { option_map (λ found. (found.0.now, found.1.now)) result ≡ first_line bytes.now }
    ensures shorter { IfSome result (λ found. length found.1.now < length bytes.now) }
{
    match line_end(bytes) {
        Some(end) if end <= MAX_LINE => Some(part_at(bytes, end)),
        _ => None,
    }
}

/// The first `len` bytes, and everything after the line feed that follows them.
pub fn split_message(bytes: &[u8], len: usize) -> Option<(&[u8], &[u8])>
    ensures parts { option_map (λ found. (found.0.now, found.1.now)) result ≡ message_of len bytes.now }
    ensures shorter { IfSome result (λ found. length found.1.now < length bytes.now) }
{
    match bytes.get(len) {
        Some(b'\n') => Some(part_at(bytes, len)),
        _ => None,
    }
}

/// The one line of the bytes, with or without its line feed.
pub fn only_line(bytes: &[u8]) -> Option<&[u8]>
    ensures { option_map (λ line. line.now) result ≡ only_line bytes.now }
{
    match split_line(bytes) {
        Some((line, [])) => Some(line),
        Some((_, [_, ..])) => None,
        None => Some(bytes),
    }
}
