// The symbols of a vector that are to be packed: how they stand in a caller's bytes, and the bits of a byte with one symbol more. Document 01,
// 'Symbol and value'.
//
// Here stand the definitions, specs/Notation.antt (which symbols) and specs/Number.antt (the number of which the packed bytes are the digits), with
// their laws. What gives the symbols of a notation is a `Source` (src/source.rt): a text, in `packer_letters`, or a packed value, in
// `packer_convert`. `packer_pack` packs from any source.
#![tactic(auto)]

pub mod source;

ghost use Rattle.std.specs.Prelude.{◌≡◌, ◌+◌, ◌*◌, ◌^◌, ◌<◌};
ghost use Rattle.value.specs.Class.{class_number, bits_of};

use value::states::States;
use value::symbol::Bit;

// How the symbols of a vector stand in bytes: as VCD text without its prefix, to be extended to the left, or packed in a class.
#[derive(Clone, Copy)]
pub enum Notation {
    Ascii,
    Packed(States),
}

// The bits of a byte with one symbol more.
pub fn pushed(working: u32, states: States, symbol: Bit) -> u32
    requires { working < 256 }
    ensures { result ≡ working * 2 ^ bits_of (class_number states) + symbol.0 }
{
    match states {
        States::Two => working * 2 + u32::from(symbol.0),
        States::Four => working * 4 + u32::from(symbol.0),
        States::Nine => working * 16 + u32::from(symbol.0),
    }
}
