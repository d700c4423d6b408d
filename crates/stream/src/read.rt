// The answer of reading one change out of a stream.
use signal::decode::ChangeValue;

// The largest difference of two indices in a block, which has at most 65,535 times.
pub const MAX_DELTA: u32 = 65534;

// A change that was read: the index less the one before, the value and the place after the change. A change's bytes are its number and
// then its value (proofs/StreamTrip.antt: written_read), so a wider vector's packed bytes end at that place.
#[derive(Clone, Copy, PartialEq, Eq, Debug)]
pub struct ReadChange {
    pub delta: u32,
    pub value: ChangeValue,
    pub next: usize,
}
