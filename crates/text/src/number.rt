// Numbers that stand in text: decimal, and bytes in hexadecimal.
ghost use Rattle.std.specs.Prelude.{◌<◌, IfSome};

use crate::{after, byte_at};

// A hexadecimal digit's number, of small letters alone.
fn digit(b: u8) -> Option<u64>
    ensures { IfSome result (λ n. n < 16) }
{
    match b {
        b'0'..=b'9' => Some(u64::from(b - b'0')),
        b'a'..=b'f' => Some(u64::from(b - b'a') + 10),
        _ => None,
    }
}

// The decimal number that a text begins with, if it has 64 bits.
pub fn number(s: &[u8]) -> u64 {
    let mut value: u64 = 0;
    for b in s {
        match digit(*b) {
            Some(x) if x < 10 => value = (value % 1844674407370955162 * 10).wrapping_add(x),
            _ => return value,
        }
    }
    value
}

// The decimal number that a text begins with, if it has 32 bits.
pub fn number_32(s: &[u8]) -> u32 {
    (number(s) % 4294967296) as u32
}

// The byte of two hexadecimal digits; one that is none counts as 16.
fn hex_byte(s: &[u8], at: usize) -> u8 {
    let high = digit(byte_at(s, at)).unwrap_or(16);
    let low = digit(byte_at(after(s, at), 1)).unwrap_or(16);
    ((high * 16 + low) % 256) as u8
}

// Writes the bytes of hexadecimal digits to the start of out, and answers how many there are.
pub fn hex_bytes(out: &mut [u8], hex: &[u8]) -> usize {
    let n = out.len().min(hex.len() / 2);
    for i in 0..n {
        out[i] = hex_byte(hex, i * 2);
    }
    n
}

// The number of bytes, highest first.
pub fn big_endian(s: &[u8]) -> u64 {
    let mut v: u64 = 0;
    for b in s {
        v = v % 72057594037927936 * 256 + u64::from(*b);
    }
    v
}
