// The number that a change begins with and how many bytes it takes, known before a byte is written. Document 01, 'Stream of one signal', after
// wellen's SignalEncoder.
//
// The contracts cite specs/Answer.antt of the crate stream.
#![tactic(auto)]

ghost use Rattle.std.specs.Prelude.{◌≡◌, ◌≤◌, ◌<◌};
ghost use Rattle.stream.specs.Stream.{max_delta};
ghost use Rattle.stream.specs.Answer.{change_length, change_number, tail_length};

use numbers::leb128::leb128_len;
use packed_symbols::bytes_required;
use signal::decode::ChangeValue;

// The number that a change begins with.
pub fn change_number(d: u32, value: ChangeValue) -> u32
    requires { d ≤ max_delta }
    ensures { result ≡ change_number d value }
{
    match value {
        ChangeValue::Event => d,
        ChangeValue::SingleBit(bit) => d * 16 + u32::from(bit.0),
        ChangeValue::MultiBit(states) => d * 4 + u32::from(states.number()),
        ChangeValue::Real(_) => d,
    }
}

// How many bytes follow the number.
fn tail_len(width: u32, value: ChangeValue) -> usize
    ensures { (result ≡ tail_length width value) × (result < 4294967296) }
{
    match value {
        ChangeValue::Event | ChangeValue::SingleBit(_) => 0,
        ChangeValue::MultiBit(states) => bytes_required(states, width),
        ChangeValue::Real(_) => 8,
    }
}

// How many bytes a change of a signal of a width takes.
pub fn change_len(width: u32, d: u32, value: ChangeValue) -> usize
    requires { d ≤ max_delta }
    ensures { result ≡ change_length width d value }
{
    leb128_len(change_number(d, value)) + tail_len(width, value)
}
