// One entry's bytes answered as a value. Document 01, 'Loaded signal'. The contracts cite specs/Answer.antt.
#![tactic(auto)]

ghost use Rattle.std.specs.Prelude.{◌≡◌, ◌∷◌, [], ◌%◌, ◌≤◌, ◌<◌, length};
ghost use Rattle.value.specs.Class.{class_number, all_symbols};
ghost use Rattle.packed.specs.Packed.{packed_length, unpacked};
ghost use Rattle.signal.specs.Content.{symbols};
ghost use Rattle.loaded.specs.Reader.{entry_reply, vector, event};
ghost use Rattle.loaded.specs.EntryBytes.{own_class_in, vector_content};
ghost use Rattle.entry.specs.Length.{wide_length, vector_length};
ghost use Rattle.entry_answer.specs.Answer.{answer_reply, held_reply, entry_after, vector_holds, content_after, entry_value_of};

use entry::length::entry_len;
use numbers::little_endian::get_u64;
use packed_class::find_min_states;
use packed_raw::raw_part;
use packed_symbols::{bytes_required, unpack};
use refusal::Refusal;
use signal::kind::SignalEncoding;
use value::real::{Entry, SignalValue, real_entry};
use value::states::States;
use value::symbol::Bit;

// That the event happened.
pub fn event_entry() -> Entry
    ensures { (entry_reply result ≡ event 0) × (result.bits ≡ 0) }
{
    let value = SignalValue::Event;
    Entry { value, bits: 0 }
}

// Symbols of a class, which stand in a lent buffer.
pub fn symbols_entry(states: States) -> Entry
    ensures { (entry_reply result ≡ vector (class_number states) 0) × (result.bits ≡ 0) }
{
    let value = SignalValue::BitVec(states);
    Entry { value, bits: 0 }
}

fn bit_value(symbol: u8, out: &mut [u8]) -> Option<Entry>
    requires { 0 < length out.old }
    ensures { entry_after (held_reply result) out.new ≡ content_after (all_symbols (symbol ∷ [])) (symbols (symbol ∷ [])) out.old }
{
    if 8 < symbol {
        return None;
    }
    out[0] = symbol;
    Some(symbols_entry(States::from_bit(Bit(symbol))))
}

// Symbols packed in a class; that of the value itself is answered.
fn packed_value(part: &[u8], width: u32, states: States, out: &mut [u8]) -> Option<Entry>
    requires { (width ≤ length out.old) × (packed_length width (class_number states) ≤ length part.now) }
    ensures { entry_after (held_reply result) out.new ≡ content_after (all_symbols (unpacked width (class_number states) part.now)) (symbols (unpacked width (class_number states) part.now)) out.old }
{
    match find_min_states(part, width, states) {
        Some(least) => {
            unpack(out, part, width, states);
            Some(symbols_entry(least))
        }
        None => None,
    }
}

// The class that an entry's first byte carries, unless the signal's is Two.
fn class_in(bytes: &[u8], class: States) -> u8
    requires { 0 < length bytes.now }
    ensures { result ≡ own_class_in (class_number class) bytes.now }
{
    match class {
        States::Two => 0,
        States::Four => bytes[0] / 64,
        States::Nine => bytes[0] / 64,
    }
}

// The packed bytes are the last ones.
fn wide_value(bytes: &[u8], width: u32, class: States, out: &mut [u8]) -> Option<Entry>
    requires { (1 < width) × (length bytes.now ≡ wide_length width (class_number class)) × (width ≤ length out.old) }
    ensures { entry_after (held_reply result) out.new ≡ content_after (vector_holds width (class_number class) bytes.now) (vector_content width (class_number class) bytes.now) out.old }
{
    let own = class_in(bytes, class);
    if class.number() < own {
        return None;
    }
    let states = States::from_number(u32::from(own));
    packed_value(
        raw_part(bytes, bytes_required(states, width)),
        width,
        states,
        out,
    )
}

fn vector_value(bytes: &[u8], width: u32, class: States, out: &mut [u8]) -> Option<Entry>
    requires { (length bytes.now ≡ vector_length width (class_number class)) × (width ≤ length out.old) }
    ensures { entry_after (held_reply result) out.new ≡ content_after (vector_holds width (class_number class) bytes.now) (vector_content width (class_number class) bytes.now) out.old }
{
    if width == 0 {
        return Some(event_entry());
    }
    if width == 1 {
        return bit_value(bytes[0] % 64, out);
    }
    wide_value(bytes, width, class, out)
}

// Answers the bytes of one entry of a signal of a kind and a class, and writes a vector's symbols to the start of out; none where the bytes
// are no entry of such a signal. 9: the width exceeds out.
pub fn entry_value(
    bytes: &[u8],
    kind: SignalEncoding,
    class: States,
    out: &mut [u8],
) -> Result<Option<Entry>, Refusal>
    ensures { entry_after (answer_reply result) out.new ≡ entry_value_of kind (class_number class) bytes.now out.old }
{
    if out.len() < kind.width() as usize {
        return Err(Refusal::OutputShort);
    }
    if bytes.len() != entry_len(kind, class) {
        return Ok(None);
    }
    Ok(match kind {
        SignalEncoding::BitVector(width) => vector_value(bytes, width, class, out),
        SignalEncoding::Real => Some(real_entry(get_u64(bytes, 0))),
        SignalEncoding::Absent => None,
    })
}
