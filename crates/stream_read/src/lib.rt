// One change out of a stream: what does not have the one form that writing gives it is refused. Document 01, 'Stream of one signal', after
// wellen's load_ functions.
//
// The contracts cite specs/Stream.antt and specs/Answer.antt of the crate stream; `read_change` has no `requires`.
#![tactic(auto)]

ghost use Rattle.std.specs.Prelude.{◌≡◌, ◌+◌, ◌/◌, ◌%◌, ◌≤◌, ◌<◌, length, drop};
ghost use Rattle.value.specs.Class.{class_number};
ghost use Rattle.packed.specs.Packed.{packed_length};
ghost use Rattle.stream.specs.Stream.{own_class, wide_after, value_after};
ghost use Rattle.stream.specs.Answer.{read_as, change_at, answered, bit_answered};
ghost use Rattle.signal.specs.declared.kind.SignalEncoding.TheVariants.{BitVector, Real};

use numbers::leb128::get_leb128;
use numbers::little_endian::get_u64;
use packed_class::{class_from, top_clear};
use packed_symbols::bytes_required;
use signal::decode::ChangeValue;
use signal::kind::SignalEncoding;
use stream::read::{MAX_DELTA, ReadChange};
use value::states::States;
use value::symbol::Bit;

// No block has a larger index.
fn in_range(d: u32, value: ChangeValue, next: usize) -> Option<ReadChange>
    ensures { result ≡ answered d value next }
{
    if MAX_DELTA < d {
        return None;
    }
    Some(ReadChange {
        delta: d,
        value,
        next,
    })
}

// Whether bytes are symbols packed in their own class.
fn own_class(part: &[u8], width: u32, states: States) -> bool
    requires { (0 < width) × (length part.now ≡ packed_length width (class_number states)) }
    ensures { result ≡ own_class width (class_number states) part.now }
{
    if !top_clear(part, width, states) {
        return false;
    }
    class_from(part, 0, states) == states.number()
}

// A wider vector's change of class Two, of which most are: every bit is a symbol, so only the unused top bits are looked at.
fn read_two(s: &[u8], at: usize, v: u32, width: u32) -> Option<ReadChange>
    requires { (at ≤ length s.now) × (1 < width) × (v % 4 ≡ 0) }
    ensures { result ≡ read_as (BitVector width) (length s.now) (wide_after width v (drop at s.now)) }
{
    let size = bytes_required(States::Two, width);
    if s.len() - at < size {
        return None;
    }
    let end = at + size;
    if !top_clear(&s[at..end], width, States::Two) {
        return None;
    }
    in_range(v / 4, ChangeValue::MultiBit(States::Two), end)
}

// A wider vector's change whose number was v, before the place at.
fn read_wide(s: &[u8], at: usize, v: u32, width: u32) -> Option<ReadChange>
    requires { (at ≤ length s.now) × (1 < width) }
    ensures { result ≡ read_as (BitVector width) (length s.now) (wide_after width v (drop at s.now)) }
{
    if v % 4 == 0 {
        return read_two(s, at, v, width);
    }
    if v % 4 == 3 {
        return None;
    }
    let states = States::from_number(v % 4);
    let size = bytes_required(states, width);
    if s.len() - at < size {
        return None;
    }
    let end = at + size;
    if !own_class(&s[at..end], width, states) {
        return None;
    }
    in_range(v / 4, ChangeValue::MultiBit(states), end)
}

fn read_bit(at: usize, v: u32) -> Option<ReadChange>
    ensures { result ≡ bit_answered v at }
{
    if 8 < v % 16 {
        return None;
    }
    in_range(v / 16, ChangeValue::SingleBit(Bit((v % 16) as u8)), at)
}

fn read_real(s: &[u8], at: usize, v: u32) -> Option<ReadChange>
    requires { at ≤ length s.now }
    ensures { result ≡ read_as Real (length s.now) (value_after Real v (drop at s.now)) }
{
    if s.len() - at < 8 {
        return None;
    }
    in_range(v, ChangeValue::Real(get_u64(s, at)), at + 8)
}

// What follows a change's number v from at on.
fn read_value(s: &[u8], at: usize, v: u32, kind: SignalEncoding) -> Option<ReadChange>
    requires { at ≤ length s.now }
    ensures { result ≡ read_as kind (length s.now) (value_after kind v (drop at s.now)) }
{
    match kind {
        SignalEncoding::BitVector(0) => in_range(v, ChangeValue::Event, at),
        SignalEncoding::BitVector(1) => read_bit(at, v),
        SignalEncoding::BitVector(width) => read_wide(s, at, v, width),
        SignalEncoding::Real => read_real(s, at, v),
        SignalEncoding::Absent => None,
    }
}

// The change of a signal of a kind that stands at a place of a stream.
pub fn read_change(s: &[u8], at: usize, kind: SignalEncoding) -> Option<ReadChange>
    ensures { result ≡ change_at kind s.now at }
{
    let (v, next) = get_leb128(s, at)?;
    read_value(s, next, v, kind)
}
