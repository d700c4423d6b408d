// One change out of a stream that was accepted: nothing of it is judged again. `known_change` asks that a change stands there, and
// answers the same as `read_change` of the crate stream_read. The contracts cite stream/specs/Answer.antt.
#![tactic(auto)]

ghost use Rattle.std.specs.Prelude.{◌≡◌, ◌≤◌, length, drop};
ghost use Rattle.stream.specs.Stream.{value_after};
ghost use Rattle.stream.specs.Answer.{read_as, change_at, IsChange};

use numbers::leb128::get_leb128;
use numbers::little_endian::get_u64;
use packed_symbols::bytes_required;
use signal::decode::ChangeValue;
use signal::kind::SignalEncoding;
use stream::read::ReadChange;
use value::states::States;
use value::symbol::Bit;

// What follows a change's number v from at on.
fn known_value(s: &[u8], at: usize, v: u32, kind: SignalEncoding) -> Option<ReadChange>
    requires { (at ≤ length s.now) × IsChange (read_as kind (length s.now) (value_after kind v (drop at s.now))) }
    ensures { result ≡ read_as kind (length s.now) (value_after kind v (drop at s.now)) }
{
    let (delta, value, next) = match kind {
        SignalEncoding::BitVector(0) => (v, ChangeValue::Event, at),
        SignalEncoding::BitVector(1) => {
            let bit = Bit((v % 16) as u8);
            (v / 16, ChangeValue::SingleBit(bit), at)
        }
        SignalEncoding::BitVector(width) => {
            let states = States::from_number(v % 4);
            let end = at + bytes_required(states, width);
            (v / 4, ChangeValue::MultiBit(states), end)
        }
        SignalEncoding::Real => (v, ChangeValue::Real(get_u64(s, at)), at + 8),
        SignalEncoding::Absent => return None,
    };
    Some(ReadChange { delta, value, next })
}

// The change of a signal of a kind that stands at a place of a stream.
// Inlined: a caller asks for each change of a stream, and what is read then stays in registers.
#[inline(always)]
pub fn known_change(s: &[u8], at: usize, kind: SignalEncoding) -> Option<ReadChange>
    requires { IsChange (change_at kind s.now at) }
    ensures { result ≡ change_at kind s.now at }
{
    let (v, next) = get_leb128(s, at)?;
    known_value(s, next, v, kind)
}
