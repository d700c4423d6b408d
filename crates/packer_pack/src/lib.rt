// Packing: the symbols of a vector, from VCD text or from another packed value, into the bytes of a class. Document 01, 'Symbol and
// value'.
//
// The contract cites `symbols_from` of specs/Notation.antt of the crate packer (which symbols) and `packed` of the crate packed (which bytes). One pass: a source
// in the class already is copied (`packer_copy`); of any other (`packer_letters`, `packer_convert`) each byte is made by itself (packing.rt).
#![tactic(auto)]

pub mod packing;

ghost use Rattle.std.specs.Prelude.{◌≡◌, true, ◌+◌, ◌≤◌, length};
ghost use Rattle.std.proofs.lemmas.List.Edits.{sets};
ghost use Rattle.value.specs.Class.{class_number, class_of_all, all_symbols};
ghost use Rattle.packed.specs.Packed.{packed, packed_length};
ghost use Rattle.packer.specs.Notation.{symbols_from, Readable};

use crate::packing::Packing;
use packer::Notation;
use packer_convert::PackedValue;
use packer_copy::copied;
use packer_letters::Text;
use value::states::States;

// Packs the symbols into out from at on, in a class that holds them, and answers the place after them.
pub fn pack(
    out: &mut [u8],
    at: usize,
    src: &[u8],
    notation: Notation,
    width: u32,
    states: States,
) -> usize
    requires readable { Readable notation width src.now }
    requires src_value { (all_symbols (symbols_from notation width src.now) ≡ true) × (class_of_all (symbols_from notation width src.now) ≤ class_number states) }
    requires states_in_bounds { at + packed_length width (class_number states) ≤ length out.old }
    ensures { (result ≡ at + packed_length width (class_number states)) × (out.new ≡ sets out.old at (packed (class_number states) (symbols_from notation width src.now))) }
{
    match notation {
        Notation::Ascii => {
            let text = Text {
                letters: src,
                width,
            };
            Packing::new(text, states).bytes(out, at)
        }
        Notation::Packed(from) => {
            if from == states {
                return copied(out, at, src, width, states);
            }
            let value = PackedValue {
                bytes: src,
                width,
                class: from,
            };
            Packing::new(value, states).bytes(out, at)
        }
    }
}
