// The stream of one signal.
ghost use Rattle.std.specs.Prelude.{◌≡◌, ◌≤◌};
ghost use Rattle.reading.specs.Stream.{value_class, entry_at, is_stream};

use signal::decode::ChangeValue;
use signal::kind::SignalEncoding;
use stream_read::read_change;
use value::states::States;

// The index of a change and the place after it.
#[derive(Clone, Copy)]
pub struct NextChange {
    pub index: u32,
    pub next: usize,
}

// The class of a value; events and reals are of class 0.
fn class_of(value: ChangeValue) -> u8
    ensures { result ≡ value_class value }
{
    match value {
        ChangeValue::Event => 0,
        ChangeValue::SingleBit(bit) => States::from_bit(bit).number(),
        ChangeValue::MultiBit(states) => states.number(),
        ChangeValue::Real(bits) => 0,
    }
}

// The change at a place of a stream, after one at index `previous`: below `times`, of a class up to top. None where no change fits.
fn change_at(
    s: &[u8],
    at: usize,
    kind: SignalEncoding,
    times: u32,
    top: u8,
    previous: u32,
) -> Option<NextChange>
    requires { previous ≤ 65535 }
    ensures { result ≡ entry_at kind times top previous s.now at }
{
    let change = read_change(s, at, kind)?;
    let index = previous + change.delta;
    if times <= index {
        return None;
    }
    if top < class_of(change.value) {
        return None;
    }
    Some(NextChange {
        index,
        next: change.next,
    })
}

// Whether bytes are the stream of a signal in a block: changes at indices below `times`, of classes up to top.
pub fn is_stream(s: &[u8], kind: SignalEncoding, times: u32, top: u8) -> bool
    requires { times ≤ 65535 }
    ensures { result ≡ is_stream kind times top s.now }
{
    let mut at: usize = 0;
    let mut previous: u32 = 0;
    // A change's length is known once it is read, so its place is no range's.
    while at < s.len() {
        let Some(change) = change_at(s, at, kind, times, top, previous) else {
            return false;
        };
        previous = change.index;
        at = change.next;
    }
    0 < s.len()
}
