// A change that was read in a stream, and the parts of its value.
ghost use Rattle.std.specs.Prelude.{◌≡◌};
ghost use Rattle.entry.specs.Read.{bit_in, states_in, bits_in};

use signal::decode::ChangeValue;
use value::states::States;
use value::symbol::Bit;

// A change's value, and the place in the stream after it: there the packed bytes of a wider vector end.
#[derive(Clone, Copy)]
pub struct PlacedChange {
    pub value: ChangeValue,
    pub next: usize,
}

// The parts are 0 and Two where the value has no such part.
impl PlacedChange {
    // The symbol of a vector of width 1.
    pub fn bit(self) -> Bit
        ensures { result.0 ≡ bit_in self.value }
    {
        match self.value {
            ChangeValue::SingleBit(bit) => bit,
            _ => Bit(0),
        }
    }

    // The class of a wider vector's value.
    pub fn states(self) -> States
        ensures { result ≡ states_in self.value }
    {
        match self.value {
            ChangeValue::MultiBit(states) => states,
            _ => States::Two,
        }
    }

    // The bits of a real.
    pub fn bits(self) -> u64
        ensures { result ≡ bits_in self.value }
    {
        match self.value {
            ChangeValue::Real(bits) => bits,
            _ => 0,
        }
    }
}
