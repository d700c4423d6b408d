// What a value says, but for the symbols of a wider vector, which stay in the bytes that were given.
use crate::states::States;
use crate::symbol::Bit;

// After wellen's VcdBitVecChange, for raw values too. `MultiBit` carries the value's class. A value that is bad says none.
#[derive(Clone, Copy, PartialEq, Eq, Debug)]
pub enum BitVecChange {
    SingleBit(Bit),
    MultiBit(States),
}
