// What a VCD value says to a vector. Document 01, 'Symbol and value', after the end of wellen's vcd.rs; u, w and - extend by document 02, (h).
//
// The contracts cite specs/Vcd.antt of the crate vcd. `decode_vcd_bit_vec_change` has no `requires`: a bad value is an answer.
#![tactic(auto)]

ghost use Rattle.std.specs.Prelude.{◌≡◌, true, ◌<◌};
ghost use Rattle.lists.specs.Choice.{is_some};
ghost use Rattle.value.specs.Change.{change_of};
ghost use Rattle.value.specs.Symbol.{symbol_of, or_number};
ghost use Rattle.vcd.specs.Vcd.{extends, text_symbols, vcd_bit, vcd_symbols, symbols_in, ascii_states, all_digits};

use value::change::BitVecChange;
use value::letter::{letter_class, small_letter};
use value::states::{States, states_or_none};
use value::symbol::{Bit, bit_char_to_num, is_digit};
use vcd_text::vcd_text;

// Whether a text has the letters 0 and 1 alone. The loop has no exit on its way, so that the compiler looks at many letters in a turn.
fn is_binary(text: &[u8]) -> bool
    ensures { result ≡ all_digits text.now }
{
    let mut all = true;
    for &letter in text {
        all &= is_digit(letter);
    }
    all
}

// The class of a text's symbols; none where a byte has no symbol.
fn states_from_ascii(text: &[u8]) -> Option<States>
    ensures { result ≡ ascii_states (symbols_in text.now) }
{
    // a text of 0 and 1 alone is Two: the first case, for all letters at once
    if is_binary(text) {
        return Some(States::Two);
    }
    let mut class: u8 = 0;
    for &letter in text {
        class = class.max(letter_class(letter));
    }
    states_or_none(class)
}

// A value of width 1: its last byte counts alone; nothing, or a last `b`, is 0.
fn decode_vcd_bit(value: &[u8]) -> Option<BitVecChange>
    ensures { result ≡ change_of 1 (vcd_bit value.now) }
{
    match value.last().copied().unwrap_or(b'b') {
        b'b' => Some(BitVecChange::SingleBit(Bit(0))),
        last => Some(BitVecChange::SingleBit(bit_char_to_num(last)?)),
    }
}

// Whether a symbol's letter extends a short text to the left: 0 1 x z (IEEE 1364) and u w - do; h and l do not.
fn extends_left(letter: u8) -> bool
    requires { is_some (symbol_of letter) ≡ true }
    ensures { result ≡ extends (or_number 255 (symbol_of letter)) }
{
    !matches!(small_letter(letter), b'h' | b'l')
}

// A text of a wider vector.
fn decode_vcd_text(width: u32, text: &[u8]) -> Option<BitVecChange>
    requires { 1 < width }
    ensures { result ≡ change_of width (text_symbols width text.now) }
{
    let width = width as usize;
    if text.is_empty() || width < text.len() {
        return None;
    }
    let states = states_from_ascii(text)?;
    let whole = text.len() == width || extends_left(text[0]);
    whole.then_some(BitVecChange::MultiBit(states))
}

// What a VCD value says to a vector of a width; nothing where it is bad.
pub fn decode_vcd_bit_vec_change(width: u32, value: &[u8]) -> Option<BitVecChange>
    ensures { result ≡ change_of width (vcd_symbols width value.now) }
{
    match width {
        0 => None,
        1 => decode_vcd_bit(value),
        _ => decode_vcd_text(width, vcd_text(value)),
    }
}
