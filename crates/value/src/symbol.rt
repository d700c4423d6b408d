// Symbols: the nine values of a bit, and the bytes that stand for them.
ghost use Rattle.std.specs.Prelude.{◌≡◌};
ghost use Rattle.value.specs.Symbol.{symbol_of, is_digit, maybe_bit, or_number};

// A symbol's number: 0 1 x z h u w l - are 0 to 8.
#[derive(Clone, Copy, PartialEq, Eq, Debug)]
pub struct Bit(pub u8);

// 255 says no symbol.
const BIT_CHAR_TO_NUM: [u8; 256] = [
    255, 255, 255, 255, 255, 255, 255, 255, 255, 255, 255, 255, 255, 255, 255, 255, 255, 255, 255,
    255, 255, 255, 255, 255, 255, 255, 255, 255, 255, 255, 255, 255, 255, 255, 255, 255, 255, 255,
    255, 255, 255, 255, 255, 255, 255, 8, 255, 255, 0, 1, 255, 255, 255, 255, 255, 255, 255, 255,
    255, 255, 255, 255, 255, 255, 255, 255, 255, 255, 255, 255, 255, 255, 4, 255, 255, 255, 7, 255,
    255, 255, 255, 255, 255, 255, 255, 5, 255, 6, 2, 255, 3, 255, 255, 255, 255, 255, 255, 255,
    255, 255, 255, 255, 255, 255, 4, 255, 255, 255, 7, 255, 255, 255, 255, 255, 255, 255, 255, 5,
    255, 6, 2, 255, 3, 255, 255, 255, 255, 255, 255, 255, 255, 255, 255, 255, 255, 255, 255, 255,
    255, 255, 255, 255, 255, 255, 255, 255, 255, 255, 255, 255, 255, 255, 255, 255, 255, 255, 255,
    255, 255, 255, 255, 255, 255, 255, 255, 255, 255, 255, 255, 255, 255, 255, 255, 255, 255, 255,
    255, 255, 255, 255, 255, 255, 255, 255, 255, 255, 255, 255, 255, 255, 255, 255, 255, 255, 255,
    255, 255, 255, 255, 255, 255, 255, 255, 255, 255, 255, 255, 255, 255, 255, 255, 255, 255, 255,
    255, 255, 255, 255, 255, 255, 255, 255, 255, 255, 255, 255, 255, 255, 255, 255, 255, 255, 255,
    255, 255, 255, 255, 255, 255, 255, 255, 255, 255, 255, 255, 255, 255, 255, 255, 255, 255, 255,
    255, 255, 255, 255,
];

// The table's number of a byte. Width 1 reads it; what goes through many letters goes by cases of the letter (letter.rt).
fn table_number(value: u8) -> u8
    ensures { result ≡ or_number 255 (symbol_of value) }
{
    let i = value as usize;
    BIT_CHAR_TO_NUM[i]
}

// Whether a byte is the letter 0 or 1.
pub fn is_digit(value: u8) -> bool
    ensures { result ≡ is_digit value }
{
    matches!(value, b'0'..=b'1')
}

// The byte's symbol: 0 and 1, of which most values are, by their code, the others by the table.
pub fn bit_char_to_num(value: u8) -> Option<Bit>
    ensures { result ≡ maybe_bit (symbol_of value) }
{
    if is_digit(value) {
        return Some(Bit(value - b'0'));
    }
    match table_number(value) {
        255 => None,
        symbol => Some(Bit(symbol)),
    }
}
