// What a change call says to a signal of a kind: the refusals 4, 5 and 6, or a value and the class that the top class is raised to at least. Document
// 01, 'Turned back'.
//
// The contracts cite specs/Content.antt of the crate signal, through specs/Answer.antt there, which reads the answers' enums. No function has a `requires`.
#![tactic(auto)]

ghost use Rattle.std.specs.Prelude.{◌≡◌};
ghost use Rattle.value.specs.Class.{class_number};
ghost use Rattle.signal.specs.Content.{decode, event_says, vcd, raw, real};
ghost use Rattle.signal.specs.Answer.{decoded_to, decoded_as, vector_answer};

use packed_raw::decode_raw_change;
use refusal::Refusal;
use signal::decode::{ChangeValue, DecodedChange};
use signal::kind::SignalEncoding;
use value::change::BitVecChange;
use value::states::States;
use vcd_decode::decode_vcd_bit_vec_change;

// What a change says, with the class that the top class is raised to at least.
fn decoded(change: ChangeValue, states: States) -> Result<DecodedChange, Refusal>
    ensures { result ≡ decoded_to change states }
{
    Ok(DecodedChange { change, states })
}

// An event takes a value of at most one byte.
fn decode_event(value: &[u8]) -> Result<DecodedChange, Refusal>
    ensures { result ≡ decoded_as (SignalEncoding.BitVector 0) (event_says value.now) }
{
    if value.len() <= 1 {
        return decoded(ChangeValue::Event, States::Two);
    }
    Err(Refusal::BadValue)
}

// A vector's value, with the class that it claims at least.
fn decode_vector(change: Option<BitVecChange>, claim: States) -> Result<DecodedChange, Refusal>
    ensures { result ≡ vector_answer change (class_number claim) }
{
    let (change, states) = match change.ok_or(Refusal::BadValue)? {
        BitVecChange::SingleBit(bit) => (ChangeValue::SingleBit(bit), States::from_bit(bit)),
        BitVecChange::MultiBit(states) => (ChangeValue::MultiBit(states), states),
    };
    decoded(change, States::join(states, claim))
}

// What a VCD value says to a signal of a kind.
pub fn decode_vcd(kind: SignalEncoding, value: &[u8]) -> Result<DecodedChange, Refusal>
    ensures { result ≡ decoded_as kind (decode kind (vcd value.now)) }
{
    match kind {
        SignalEncoding::BitVector(0) => decode_event(value),
        SignalEncoding::BitVector(width) => {
            decode_vector(decode_vcd_bit_vec_change(width, value), States::Two)
        }
        SignalEncoding::Real => Err(Refusal::WrongKind),
        SignalEncoding::Absent => Err(Refusal::NoSignal),
    }
}

// What a raw value says that claims a class.
pub fn decode_raw(kind: SignalEncoding, claim: u32, value: &[u8]) -> Result<DecodedChange, Refusal>
    ensures { result ≡ decoded_as kind (decode kind (raw claim value.now)) }
{
    match kind {
        SignalEncoding::BitVector(0) => Err(Refusal::WrongKind),
        SignalEncoding::BitVector(width) => {
            // that a claim above 2 is bad, `decode_raw_change` alone decides
            let states = States::from_number(claim);
            decode_vector(decode_raw_change(width, claim, value), states)
        }
        SignalEncoding::Real => Err(Refusal::WrongKind),
        SignalEncoding::Absent => Err(Refusal::NoSignal),
    }
}

// What a real's bits say.
pub fn decode_real(kind: SignalEncoding, bits: u64) -> Result<DecodedChange, Refusal>
    ensures { result ≡ decoded_as kind (decode kind (real bits)) }
{
    match kind {
        SignalEncoding::BitVector(_) => Err(Refusal::WrongKind),
        SignalEncoding::Real => decoded(ChangeValue::Real(bits), States::Two),
        SignalEncoding::Absent => Err(Refusal::NoSignal),
    }
}
