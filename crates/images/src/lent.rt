// The pattern that lent memory holds before a call, and how far something else stands in it. No index, time or symbol is the pattern.
pub const BYTE: u8 = 0xa5;

pub const NUMBER: u32 = 0xa5a5a5a5;

pub const TIME: u64 = 0xa5a5a5a5a5a5a5a5;

// The place from which on the pattern stands to the end.
pub fn bytes_end(s: &[u8]) -> usize {
    let mut n = 0;
    for (i, b) in s.iter().enumerate() {
        if *b != BYTE {
            n = i + 1;
        }
    }
    n
}

// Whether the pattern stands from a place on.
pub fn stands<T: PartialEq>(s: &[T], from: usize, pattern: &T) -> bool {
    s.iter().skip(from).all(|x| x == pattern)
}
