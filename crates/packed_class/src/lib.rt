// The least class of a packed value's symbols, and whether the bits above them are zero. Document 01, 'Symbol and value', after wellen's
// signal/value.rs.
//
// The contracts cite specs/Packed.antt of the crate packed; the largest class, byte by byte, is in proofs/ByteLaws.antt.
#![tactic(auto)]

ghost use Rattle.std.specs.Prelude.{◌≡◌, ◌-◌, ◌*◌, ◌%◌, ◌^◌, ◌≤◌, ◌<◌, length, eqb};
ghost use Rattle.lists.specs.Choice.{pick};
ghost use Rattle.value.specs.Class.{class_number, bits_of, largest_class, min_states};
ghost use Rattle.packed.specs.Packed.{number_of, digits, per_byte, unpacked, packed_length, top_clear};

use value::states::{States, states_or_none, symbol_class};

// The largest class of a byte's symbols.
#[tactic(auto, using(crate::proofs::ByteLaws::two_in, crate::proofs::ByteLaws::four_in, crate::proofs::ByteLaws::nine_in))]
fn class_in(x: u8, states: States) -> u8
    ensures { result ≡ largest_class (digits (bits_of (class_number states)) (per_byte (class_number states)) x) }
{
    match states {
        // a symbol of one bit is 0 or 1
        States::Two => 0,
        States::Four => symbol_class(x / 64 % 4)
            .max(symbol_class(x / 16 % 4))
            .max(symbol_class(x / 4 % 4))
            .max(symbol_class(x % 4)),
        States::Nine => symbol_class(x / 16 % 16).max(symbol_class(x % 16)),
    }
}

// The largest class of the symbols in the low bits of a byte, so many of them.
fn class_low(x: u8, bits: u64, states: States) -> u8
    requires { bits < 8 }
    ensures { result ≡ largest_class (digits (bits_of (class_number states)) (per_byte (class_number states)) (x % 2 ^ bits)) }
{
    class_in(x % (1 << (bits as u32)), states)
}

// The largest class of the symbols in the bytes from a place on, all of whose bits are symbols' or zero.
pub fn class_from(bytes: &[u8], from: usize, states: States) -> u8
    requires { from ≤ length bytes.now }
    ensures { result ≡ largest_class (digits (bits_of (class_number states)) ((length bytes.now - from) * per_byte (class_number states)) (number_of 8 bytes.now)) }
{
    let mut class: u8 = 0;
    // a turn is the same for every byte, so the compiler takes many at a time
    for &byte in &bytes[from..] {
        class = class.max(class_in(byte, states));
    }
    class
}

// The largest class of a packed value's symbols: its last bytes are full, and the byte before them may hold symbols in its low bits.
fn class_of(bytes: &[u8], width: u32, states: States) -> u8
    requires { packed_length width (class_number states) ≤ length bytes.now }
    ensures { result ≡ largest_class (unpacked width (class_number states) bytes.now) }
{
    let bits = u64::from(width) * states.bits();
    let used = bits % 8;
    let whole = bytes.len() - (bits / 8) as usize;
    let class = class_from(bytes, whole, states);
    if used == 0 {
        return class;
    }
    class_low(bytes[whole - 1], used, states).max(class)
}

// The class of a packed value's symbols; none where one of them is above 8.
pub fn find_min_states(bytes: &[u8], width: u32, states: States) -> Option<States>
    requires { packed_length width (class_number states) ≤ length bytes.now }
    ensures { result ≡ min_states (unpacked width (class_number states) bytes.now) }
{
    match states {
        // symbols of one bit are 0 or 1, whatever the bytes hold
        States::Two => Some(States::Two),
        States::Four | States::Nine => states_or_none(class_of(bytes, width, states)),
    }
}

// One above the largest first byte with so many bits of symbols; 0 means all eight.
fn first_byte_limit(bits: u64) -> u32
    requires { bits < 8 }
    ensures { result ≡ pick (eqb bits 0) 256 (2 ^ bits) }
{
    if bits == 0 { 256 } else { 1 << (bits as u32) }
}

// Whether the bits above the symbols of a packed value are zero.
pub fn top_clear(bytes: &[u8], width: u32, states: States) -> bool
    requires { (0 < width) × (length bytes.now ≡ packed_length width (class_number states)) }
    ensures { result ≡ top_clear width (class_number states) bytes.now }
{
    let used = u64::from(width) * states.bits() % 8;
    u32::from(bytes[0]) < first_byte_limit(used)
}
