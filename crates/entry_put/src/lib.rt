// One entry's bytes, out of the change that was read in a stream. Each writes from at on. Document 01, 'Loaded signal'. The contracts cite
// loaded/specs/EntryBytes.antt.
#![tactic(auto)]

ghost use Rattle.std.specs.Prelude.{◌≡◌, ◌∷◌, [], ◌+◌, ◌*◌, ◌≤◌, ◌<◌, length, get_or, set};
ghost use Rattle.std.proofs.lemmas.List.Edits.{sets};
ghost use Rattle.value.specs.Class.{class_number, class_of, class_of_all};
ghost use Rattle.signal.specs.Content.{symbols_of};
ghost use Rattle.loaded.specs.EntryBytes.{wide_entry, entry_bytes};
ghost use Rattle.entry.specs.Length.{wide_length};
ghost use Rattle.entry.specs.Read.{wide_read, content_read, Reads, PackedThere};

use copy::{put_part, put_same};
use entry::length::wide_len;
use entry::read::PlacedChange;
use numbers::little_endian::put_u64;
use packed_symbols::bytes_required;
use signal::kind::SignalEncoding;
use value::states::States;
use value::symbol::Bit;

// The byte at a place also carries a class.
fn carry_class(out: &mut [u8], at: usize, states: States)
    requires { (at < length out.old) × (class_number states * 64 + get_or out.old at 0 < 256) }
    ensures { out.new ≡ set out.old at (class_number states * 64 + get_or out.old at 0) }
{
    out[at] = states.number() * 64 + out[at];
}

// A wider vector, packed in its own class before next: zeros, its packed bytes, and its class in the first byte of these all. A class byte
// is one zero more.
fn put_wide(
    out: &mut [u8],
    at: usize,
    stream: &[u8],
    width: u32,
    class: States,
    states: States,
    next: usize,
) -> usize
    requires width_nonzero { (0 < width) × (class_number states ≤ class_number class) × PackedThere width (class_number states) next stream.now }
    requires class_in_bounds { at + wide_length width (class_number class) ≤ length out.old }
    ensures { (result ≡ at + wide_length width (class_number class)) × (out.new ≡ sets out.old at (wide_entry width (class_number class) (wide_read width (class_number states) next stream.now))) }
{
    let own = bytes_required(states, width);
    let size = wide_len(width, class);
    let start = put_same(out, at, 0, size - own);
    let end = put_part(out, start, stream, next - own, own);
    carry_class(out, at, states);
    end
}

fn put_bit(out: &mut [u8], at: usize, bit: Bit) -> usize
    requires { (bit.0 ≤ 8) × (at < length out.old) }
    ensures { (result ≡ at + 1) × (out.new ≡ sets out.old at ((class_of bit.0 * 64 + bit.0) ∷ [])) }
{
    out[at] = States::from_bit(bit).number() * 64 + bit.0;
    at + 1
}

// Writes the entry of a change that was read in a stream, in a signal of a class, and answers the place after it.
pub fn put_entry(
    out: &mut [u8],
    at: usize,
    stream: &[u8],
    kind: SignalEncoding,
    class: States,
    change: PlacedChange,
) -> usize
    requires reads { Reads kind stream.now change.value change.next × (class_of_all (symbols_of (content_read kind stream.now change.value change.next)) ≤ class_number class) }
    requires next_in_bounds { at + length (entry_bytes kind (class_number class) (content_read kind stream.now change.value change.next)) ≤ length out.old }
    ensures { (result ≡ at + length (entry_bytes kind (class_number class) (content_read kind stream.now change.value change.next))) × (out.new ≡ sets out.old at (entry_bytes kind (class_number class) (content_read kind stream.now change.value change.next))) }
{
    match kind {
        SignalEncoding::BitVector(width) => {
            if width == 0 {
                return at;
            }
            if width == 1 {
                return put_bit(out, at, change.bit());
            }
            put_wide(out, at, stream, width, class, change.states(), change.next)
        }
        SignalEncoding::Real => put_u64(out, at, change.bits()),
        SignalEncoding::Absent => at,
    }
}
