// Raw values: symbols that are packed already, in a class that the caller claims. Document 01, 'Symbol and value'.
//
// The contracts cite specs/Raw.antt of the crate packed. `decode_raw_change` has no `requires`: a bad value is an answer.
#![tactic(auto)]

ghost use Rattle.std.specs.Prelude.{◌≡◌, ◌<◌, ◌≤◌, length};
ghost use Rattle.value.specs.Class.{class_number};
ghost use Rattle.packed.specs.Packed.{packed_length, unpacked};
ghost use Rattle.packed.specs.Raw.{raw_symbols, last_of, checked};
ghost use Rattle.value.specs.Change.{change_of};

use packed_class::find_min_states;
use packed_symbols::{bytes_required, get_bit};
use value::change::BitVecChange;
use value::states::States;

// The bytes of a raw value that count: the last ones.
pub fn raw_part(value: &[u8], count: usize) -> &[u8]
    requires { count ≤ length value.now }
    ensures { result.now ≡ last_of count value.now }
{
    &value[value.len() - count..]
}

// What packed symbols say to a vector of a width.
fn decode_packed(width: u32, states: States, part: &[u8]) -> Option<BitVecChange>
    requires { packed_length width (class_number states) ≤ length part.now }
    ensures { result ≡ change_of width (checked (unpacked width (class_number states) part.now)) }
{
    let least = find_min_states(part, width, states)?;
    match width {
        0 => None,
        1 => Some(BitVecChange::SingleBit(get_bit(part, states, 0))),
        _ => Some(BitVecChange::MultiBit(least)),
    }
}

// What a raw value that claims a class says to a vector of a width.
pub fn decode_raw_change(width: u32, claim: u32, value: &[u8]) -> Option<BitVecChange>
    ensures { result ≡ change_of width (raw_symbols width claim value.now) }
{
    if 2 < claim {
        return None;
    }
    let states = States::from_number(claim);
    let count = bytes_required(states, width);
    if value.len() < count {
        return None;
    }
    decode_packed(width, states, raw_part(value, count))
}
