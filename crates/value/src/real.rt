// Reals, and how one entry of a signal is answered.
ghost use Rattle.std.specs.Prelude.{◌≡◌};
ghost use Rattle.std.specs.Float.{binary64};
ghost use Rattle.std.specs.Float.Ieee.{of_bits};
ghost use Rattle.value.specs.Real.{real_entry};

use crate::states::States;

// An entry's value, after wellen's SignalValueRef: an event, symbols with their class (the symbols stand in a buffer of the
// caller's), or a real.
#[derive(Clone, Copy)]
pub enum SignalValue {
    Event,
    BitVec(States),
    Real(f64),
}

// The bits of a real stand beside it, since a NaN's bits cannot be told from its f64; 0 for the other values.
#[derive(Clone, Copy)]
pub struct Entry {
    pub value: SignalValue,
    pub bits: u64,
}

// The f64 of a pattern; each NaN's pattern gives a NaN.
fn real_of(bits: u64) -> f64
    ensures { result ≡ of_bits binary64 bits }
{
    if 0x7ff0_0000_0000_0000 < bits % 0x8000_0000_0000_0000 {
        return 0.0 / 0.0;
    }
    f64::from_bits(bits)
}

// A real as an entry. Of a NaN's pattern the f64 is a NaN whose payload is not promised; the bits are exact.
pub fn real_entry(bits: u64) -> Entry
    ensures { result ≡ real_entry bits }
{
    let value = SignalValue::Real(real_of(bits));
    Entry { value, bits }
}
