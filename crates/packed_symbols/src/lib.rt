// The symbols of a packed value: how many bytes it takes, the symbol at a place, and all of them, a byte each. Document 01, 'Symbol and value',
// after wellen's signal/value.rs.
//
// The contracts cite specs/Packed.antt of the crate packed.
#![tactic(auto)]

ghost use Rattle.std.specs.Prelude.{◌≡◌, ◌*◌, ◌/◌, ◌%◌, ◌^◌, ◌≤◌, ◌<◌, length};
ghost use Rattle.std.proofs.lemmas.List.Edits.{sets};
ghost use Rattle.value.specs.Class.{class_number, bits_of};
ghost use Rattle.packed.specs.Packed.{number_of, digit_at, unpacked, packed_length};

use value::states::States;
use value::symbol::Bit;

// How many bytes a packed value of a width takes.
pub fn bytes_required(states: States, width: u32) -> usize
    ensures { result ≡ packed_length width (class_number states) }
{
    match states {
        States::Two => (width as usize).div_ceil(8),
        States::Four => (width as usize).div_ceil(4),
        States::Nine => (width as usize).div_ceil(2),
    }
}

// The lowest symbol of a byte's bits.
fn lowest(x: u32, states: States) -> u8
    ensures { result ≡ x % 2 ^ bits_of (class_number states) }
{
    match states {
        States::Two => (x % 2) as u8,
        States::Four => (x % 4) as u8,
        States::Nine => (x % 16) as u8,
    }
}

// The symbol at a place counted from the right.
pub fn get_bit(bytes: &[u8], states: States, place: u32) -> Bit
    requires { place * bits_of (class_number states) / 8 < length bytes.now }
    ensures { result.0 ≡ digit_at (bits_of (class_number states)) place (number_of 8 bytes.now) }
{
    let at = u64::from(place) * states.bits();
    let byte = bytes[bytes.len() - 1 - (at / 8) as usize];
    Bit(lowest(u32::from(byte) >> ((at % 8) as u32), states))
}

// Writes the symbols of a packed value, a byte each and leftmost first, to the start of out.
pub fn unpack(out: &mut [u8], bytes: &[u8], width: u32, states: States)
    requires { (width ≤ length out.old) × (packed_length width (class_number states) ≤ length bytes.now) }
    ensures { out.new ≡ sets out.old 0 (unpacked width (class_number states) bytes.now) }
{
    for i in 0..width {
        out[i as usize] = get_bit(bytes, states, width - 1 - i).0;
    }
}
