// The class of a symbol and of a value: how many states a symbol can have.
//
// A value's class is found by cases of its symbols, taking the larger class as it goes: `symbol_class` and `max`, in text and in packed
// values. Width 1 has one symbol, whose class `from_bit` gives.
// That this is also the class of the symbol numbers or-ed together is `class-by-or` of proofs/OrLaws.antt.
ghost use Rattle.std.specs.Prelude.{◌≡◌, ◌≤◌, max};
ghost use Rattle.value.specs.Class.{class_number, states_of, class_of, symbol_class, states_or_none, bits_of};

use crate::symbol::Bit;

// Document 01's class. The order is that of the numbers: `max` gives the larger class.
#[derive(Clone, Copy, PartialEq, Eq, PartialOrd, Ord, Debug)]
pub enum States {
    Two,
    Four,
    Nine,
}

// The number of a symbol's class; 3 says that there is no such symbol: one more for each class that the symbol is above. A number and no
// `Option`, so that a loop compares many symbols at a time; a match of ranges makes the loop over packed values of class Nine a tenth slower.
pub fn symbol_class(symbol: u8) -> u8
    ensures { result ≡ symbol_class symbol }
{
    // 0 1, then x z, then h u w l -, then no symbol
    u8::from(2 <= symbol) + u8::from(4 <= symbol) + u8::from(9 <= symbol)
}

// The enum of a class's number; none for a larger number, which says that one is no symbol.
pub fn states_or_none(class: u8) -> Option<States>
    ensures { result ≡ states_or_none class }
{
    match class {
        0 => Some(States::Two),
        1 => Some(States::Four),
        2 => Some(States::Nine),
        _ => None,
    }
}

impl States {
    // Two, Four and Nine are 0, 1 and 2.
    pub fn number(self) -> u8
        ensures { result ≡ class_number self }
    {
        match self {
            States::Two => 0,
            States::Four => 1,
            States::Nine => 2,
        }
    }

    // A number above 1 gives Nine.
    pub fn from_number(n: u32) -> States
        ensures { result ≡ states_of n }
    {
        match n {
            0 => States::Two,
            1 => States::Four,
            _ => States::Nine,
        }
    }

    // The least class that holds a symbol.
    pub fn from_bit(value: Bit) -> States
        ensures { result ≡ states_of (class_of value.0) }
    {
        match value.0 {
            0..=1 => States::Two,
            2..=3 => States::Four,
            _ => States::Nine,
        }
    }

    // The larger class.
    pub fn join(a: States, b: States) -> States
        ensures { result ≡ states_of (max (class_number a) (class_number b)) }
    {
        a.max(b)
    }

    // How many bits a symbol takes.
    pub fn bits(self) -> u64
        ensures { (result ≡ bits_of (class_number self)) × (result ≤ 4) }
    {
        match self {
            States::Two => 1,
            States::Four => 2,
            States::Nine => 4,
        }
    }
}
