// Numbers that stand in text: digits, decimal numbers, the 64 bits of a real in hexadecimal. Any bytes are read. The contracts cite
// specs/Numbers.antt. No public function has a `requires`.
#![tactic(auto)]

ghost use Rattle.std.specs.Prelude.{◌≡◌, ◌<◌, SomeIff};
ghost use Rattle.digits.specs.Numbers.{digit_of, number_to, bits_of};

// A hexadecimal digit's number, of either case.
pub fn digit(b: u8) -> Option<u32>
    ensures { SomeIff result (digit_of b < 16) (digit_of b) }
{
    char::from(b).to_digit(16)
}

// One or more decimal digits, of a number that is at most so large.
pub fn decimal(s: &[u8], most: u64) -> Option<u64>
    ensures { result ≡ number_to most s.now }
{
    if s.is_empty() {
        return None;
    }
    let mut value: u64 = 0;
    for b in s {
        let x = char::from(*b).to_digit(10)?;
        value = value.checked_mul(10)?.checked_add(u64::from(x))?;
        if most < value {
            return None;
        }
    }
    Some(value)
}

// A decimal number of 32 bits.
pub fn decimal_32(s: &[u8]) -> Option<u32>
    ensures { result ≡ number_to 4294967295 s.now }
{
    let n = decimal(s, u64::from(u32::MAX))?;
    u32::try_from(n).ok()
}

// The number of exactly 16 hexadecimal digits, the highest first.
pub fn bits(s: &[u8]) -> Option<u64>
    ensures { result ≡ bits_of s.now }
{
    if s.len() != 16 {
        return None;
    }
    let mut value: u64 = 0;
    for b in s {
        value = value * 16 + u64::from(digit(*b)?);
    }
    Some(value)
}
