// Bytes as pairs of hexadecimal digits.
ghost use Rattle.std.specs.Prelude.{◌*◌, ◌+◌, ◌<◌, ◌≡◌, SomeIff, is_some, length, set};
ghost use Rattle.std.specs.Char.{is_ascii_hexdigit};
ghost use Rattle.std.specs.List.{list_all};
ghost use Rattle.std.proofs.lemmas.List.Edits.{sets};
ghost use Rattle.digits.specs.Numbers.{digit_of, hex_bytes};
ghost use Rattle.line.specs.Command.{bytes_in};

use digits::digit;

// All are digits.
fn are_digits(s: &[u8]) -> bool
    ensures { result ≡ list_all is_ascii_hexdigit s.now }
{
    s.iter().all(|b| b.is_ascii_hexdigit())
}

// All are pairs of digits.
pub fn is_hex(s: &[u8]) -> bool
    ensures { result ≡ is_some (hex_bytes s.now) }
{
    s.len() % 2 == 0 && are_digits(s)
}

// The byte of a pair of digits.
fn byte(high: u8, low: u8) -> Option<u8>
    ensures { SomeIff result ((digit_of high < 16) × (digit_of low < 16)) (digit_of high * 16 + digit_of low) }
{
    Some((digit(high)? * 16 + digit(low)?) as u8)
}

// Stores a byte; past the end nothing is written.
fn put(out: &mut [u8], at: usize, b: u8)
    ensures { out.new ≡ set out.old at b }
{
    if at < out.len() {
        out[at] = b;
    }
}

// Writes the bytes to the start of out, as far as there is room, and answers how many there are. Bytes that are no pairs of digits
// stand for none.
pub fn put_hex(out: &mut [u8], s: &[u8]) -> usize
    ensures { (result ≡ length (bytes_in s.now)) × (out.new ≡ sets out.old 0 (bytes_in s.now)) }
{
    if !is_hex(s) {
        return 0;
    }
    let n = s.len() / 2;
    for k in 0..n {
        if let Some(b) = byte(s[2 * k], s[2 * k + 1]) {
            put(out, k, b);
        }
    }
    n
}
