// The symbols of a vector given as VCD text: the one at a place, extended to the left, and the one of a letter, where the letters' class is known.
// Document 01, 'Symbol and value', after the end of wellen's vcd.rs; the left extension is IEEE 1364's, and document 02's (h). The contracts cite
// specs/Vcd.antt of the crate vcd.
#![tactic(auto)]

ghost use Rattle.std.specs.Prelude.{◌≡◌, true, ◌^◌, ◌<◌, get_or};
ghost use Rattle.lists.specs.Choice.{is_some, or_empty};
ghost use Rattle.value.specs.Class.{class_number, bits_of};
ghost use Rattle.value.specs.Symbol.{symbol_of, or_number};
ghost use Rattle.vcd.specs.Vcd.{text_symbols};

use packer::source::Source;
use value::states::States;
use value::symbol::Bit;

// The nine symbols, four bits each, at the places that `letter_symbol` finds, counted from the lowest: l at 2, u at 3, x at 4, - at 7, 0 at 8, h at 12,
// 1 at 13, w at 14, z at 15.
const NINE_SYMBOLS: u64 = 0x3614_0000_8002_5700;

// The symbol of a letter, in a class that holds it: 0 and 1 differ in their lowest bit; of 0, 1, x and z, in either case, the first two are
// below 64, and the second lowest bit tells x from z. A letter's code times 11, halved, modulo 16 is a place of its own for each of the nine,
// in either case: a table that fits a register.
fn letter_symbol(letter: u8, states: States) -> Bit
    requires { or_number 255 (symbol_of letter) < 2 ^ bits_of (class_number states) }
    ensures { result.0 ≡ or_number 255 (symbol_of letter) }
{
    match states {
        States::Two => Bit(letter % 2),
        States::Four => Bit(letter / 64 * 2 + letter / 2 % 2 + letter % 2),
        States::Nine => {
            let place = u32::from(letter) * 11 / 2 % 16;
            let number = (NINE_SYMBOLS >> (place * 4)) % 16;
            Bit(number as u8)
        }
    }
}

// The symbol at a place, counted from the left, of a text that is extended to a width: by its first symbol 0 or 1 with 0, by
// any other that extends with itself.
pub fn extended_symbol(text: &[u8], width: u32, place: u32) -> Bit
    requires { (is_some (text_symbols width text.now) ≡ true) × (place < width) }
    ensures { result.0 ≡ get_or (or_empty (text_symbols width text.now)) place 0 }
{
    let missing = width as usize - text.len();
    let at = place as usize;
    if missing <= at {
        return letter_symbol(text[at - missing], States::Nine);
    }
    let first = letter_symbol(text[0], States::Nine);
    if first.0 < 2 {
        return Bit(0);
    }
    first
}

// A text, for a vector of a width.
#[derive(Clone, Copy)]
pub struct Text<'a> {
    pub letters: &'a [u8],
    pub width: u32,
}

impl<'a> Source for Text<'a> {
    ghost use Rattle.packer.specs.declared.Notation.TheVariants.{Ascii};

    ghost given = { λ text. record { notation = Ascii; width = text.width; bytes = text.letters.now } };

    fn width(&self) -> u32 {
        self.width
    }

    fn standing(&self) -> usize {
        self.letters.len()
    }

    fn symbol(&self, place: u32) -> Bit {
        extended_symbol(self.letters, self.width, place)
    }

    fn standing_symbol(&self, after: usize, i: usize, states: States) -> Bit {
        letter_symbol(self.letters[self.letters.len() - 1 - after - i], states)
    }
}
