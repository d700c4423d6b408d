// One change as stream bytes. Its length is known before a byte is written (`stream_length`). Document 01, 'Stream of one signal', after wellen's SignalEncoder.
//
// The contracts cite specs/Stream.antt (the bytes) and specs/Answer.antt (what was said) of the crate stream.
#![tactic(auto)]

ghost use Rattle.std.specs.Prelude.{◌≡◌, true, ◌∷◌, [], ◌+◌, ◌≤◌, ◌<◌, length};
ghost use Rattle.std.proofs.lemmas.List.Edits.{sets};
ghost use Rattle.value.specs.Class.{class_number, class_of_all, all_symbols};
ghost use Rattle.packer.specs.Notation.{symbols_from, Readable};
ghost use Rattle.signal.specs.Content.{symbols, bits, vcd, raw};
ghost use Rattle.signal.specs.declared.kind.SignalEncoding.TheVariants.{BitVector, Real};
ghost use Rattle.stream.specs.Stream.{change_bytes, max_delta};
ghost use Rattle.stream.specs.Answer.{Says, said_bytes};

use numbers::leb128::put_leb128;
use numbers::little_endian::put_u64;
use packed_raw::raw_part;
use packed_symbols::bytes_required;
use packer::Notation;
use packer_pack::pack;
use signal::decode::ChangeValue;
use signal::kind::SignalEncoding;
use stream_length::change_number;
use value::states::States;
use value::symbol::Bit;
use vcd_text::vcd_text;

// Writes a change of width 1 from at on, and answers the place after it; so do the others.
fn put_bit(out: &mut [u8], at: usize, d: u32, bit: Bit) -> usize
    requires { (d ≤ max_delta) × (at + length (change_bytes (BitVector 1) d (symbols (bit.0 ∷ []))) ≤ length out.old) }
    ensures { (result ≡ at + length (change_bytes (BitVector 1) d (symbols (bit.0 ∷ [])))) × (out.new ≡ sets out.old at (change_bytes (BitVector 1) d (symbols (bit.0 ∷ [])))) }
{
    put_leb128(out, at, change_number(d, ChangeValue::SingleBit(bit)))
}

// The symbols of a wider vector stand in src; states is their class.
fn put_vector(
    out: &mut [u8],
    at: usize,
    d: u32,
    src: &[u8],
    notation: Notation,
    width: u32,
    states: States,
) -> usize
    requires d_le_max_delta { (d ≤ max_delta) × (1 < width) × Readable notation width src.now }
    requires src_value { (all_symbols (symbols_from notation width src.now) ≡ true) × (class_of_all (symbols_from notation width src.now) ≡ class_number states) }
    requires src_in_bounds { at + length (change_bytes (BitVector width) d (symbols (symbols_from notation width src.now))) ≤ length out.old }
    ensures { (result ≡ at + length (change_bytes (BitVector width) d (symbols (symbols_from notation width src.now)))) × (out.new ≡ sets out.old at (change_bytes (BitVector width) d (symbols (symbols_from notation width src.now)))) }
{
    let next = put_leb128(out, at, change_number(d, ChangeValue::MultiBit(states)));
    pack(out, next, src, notation, width, states)
}

// Writes the change that a VCD value says; change is decoding's answer for it.
pub fn put_vcd_change(
    out: &mut [u8],
    at: usize,
    kind: SignalEncoding,
    d: u32,
    value: &[u8],
    change: ChangeValue,
) -> usize
    requires d_le_max_delta { (d ≤ max_delta) × Says kind (vcd value.now) change }
    requires value_in_bounds { at + length (said_bytes kind d (vcd value.now)) ≤ length out.old }
    ensures { (result ≡ at + length (said_bytes kind d (vcd value.now))) × (out.new ≡ sets out.old at (said_bytes kind d (vcd value.now))) }
{
    match change {
        ChangeValue::Event => put_leb128(out, at, d),
        ChangeValue::SingleBit(bit) => put_bit(out, at, d, bit),
        ChangeValue::MultiBit(states) => {
            put_vector(
                out,
                at,
                d,
                vcd_text(value),
                Notation::Ascii,
                kind.width(),
                states,
            )
        }
        // no VCD value says a real
        ChangeValue::Real(_) => at,
    }
}

// Writes the change that a raw value says; change is decoding's answer for it.
pub fn put_raw_change(
    out: &mut [u8],
    at: usize,
    kind: SignalEncoding,
    d: u32,
    claim: u32,
    value: &[u8],
    change: ChangeValue,
) -> usize
    requires d_le_max_delta { (d ≤ max_delta) × Says kind (raw claim value.now) change }
    requires value_in_bounds { at + length (said_bytes kind d (raw claim value.now)) ≤ length out.old }
    ensures { (result ≡ at + length (said_bytes kind d (raw claim value.now))) × (out.new ≡ sets out.old at (said_bytes kind d (raw claim value.now))) }
{
    match change {
        ChangeValue::SingleBit(bit) => put_bit(out, at, d, bit),
        ChangeValue::MultiBit(states) => {
            let width = kind.width();
            let claimed = States::from_number(claim);
            let part = raw_part(value, bytes_required(claimed, width));
            put_vector(out, at, d, part, Notation::Packed(claimed), width, states)
        }
        // no raw value says an event or a real
        ChangeValue::Event => at,
        ChangeValue::Real(_) => at,
    }
}

// Writes a change of a real, whose bits are those of the f64.
pub fn put_real_change(out: &mut [u8], at: usize, d: u32, real: u64) -> usize
    requires { at + length (change_bytes Real d (bits real)) ≤ length out.old }
    ensures { (result ≡ at + length (change_bytes Real d (bits real))) × (out.new ≡ sets out.old at (change_bytes Real d (bits real))) }
{
    let next = put_leb128(out, at, d);
    put_u64(out, next, real)
}
