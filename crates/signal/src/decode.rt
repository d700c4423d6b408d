// The answers of decoding: what a change call says to a signal of a kind.
use value::states::States;
use value::symbol::Bit;

// What a change says, but for the symbols of a wider vector, of which the class is here.
#[derive(Clone, Copy, PartialEq, Eq, Debug)]
pub enum ChangeValue {
    Event,
    SingleBit(Bit),
    MultiBit(States),
    Real(u64),
}

// What a change says, and the class that the top class is raised to at least.
#[derive(Clone, Copy, PartialEq, Eq, Debug)]
pub struct DecodedChange {
    pub change: ChangeValue,
    pub states: States,
}
