// A packed value that is in the class already: its bytes are copied. The contracts cite packed/specs/Packed.antt.
#![tactic(auto)]

ghost use Rattle.std.specs.Prelude.{◌≡◌, ◌+◌, ◌%◌, ◌^◌, ◌≤◌, ◌<◌, length};
ghost use Rattle.std.proofs.lemmas.List.Edits.{sets};
ghost use Rattle.value.specs.Class.{class_number};
ghost use Rattle.packed.specs.Packed.{packed, packed_length, unpacked};

use copy::put_part;
use packed_symbols::bytes_required;
use value::states::States;

// The lowest bits of a byte.
fn low_bits(byte: u8, count: u64) -> u8
    requires { count < 8 }
    ensures { result ≡ byte % 2 ^ count }
{
    byte % (1u8 << (count as u32))
}

// Writes a packed value that is in the class already, its last bytes without the bits above its symbols, and answers the place after it.
pub fn copied(out: &mut [u8], at: usize, src: &[u8], width: u32, states: States) -> usize
    requires states_in_bounds { packed_length width (class_number states) ≤ length src.now }
    requires states_in_bounds_2 { at + packed_length width (class_number states) ≤ length out.old }
    ensures { (result ≡ at + packed_length width (class_number states)) × (out.new ≡ sets out.old at (packed (class_number states) (unpacked width (class_number states) src.now))) }
{
    let count = bytes_required(states, width);
    let start = src.len() - count;
    let used = width as u64 * states.bits() % 8;
    if used == 0 {
        return put_part(out, at, src, start, count);
    }
    out[at] = low_bits(src[start], used);
    put_part(out, at + 1, src, start + 1, count - 1)
}
