// What gives the symbols of a vector, so that packing is written once for every notation.
ghost use Rattle.std.specs.Prelude.{◌≡◌, ◌+◌, ◌<◌, get_or};
ghost use Rattle.value.specs.Class.{class_number, bits_of};
ghost use Rattle.packed.specs.Packed.{digit_at};
ghost use Rattle.packer.specs.Given.{Given, symbols_given, ReadableGiven, HeldGiven, number_given, standing_given};

use value::states::States;
use value::symbol::Bit;

// The bytes of a vector's symbols, with the vector's width. Which symbols they are is said of their notation, so what holds of each notation holds of
// each source.
pub trait Source {
    ghost given: { Self → Given };

    // The vector's width.
    fn width(&self) -> u32
        ensures { result ≡ (given self.now).width };

    // How many symbols stand in the bytes themselves.
    fn standing(&self) -> usize
        ensures { result ≡ standing_given (given self.now) };

    // The symbol at a place counted from the left.
    fn symbol(&self, place: u32) -> Bit
        requires { ReadableGiven (given self.now) × (place < (given self.now).width) }
        ensures { result.0 ≡ get_or (symbols_given (given self.now)) place 0 };

    // The symbol that so many others follow, which stands in the bytes, of a vector that a class holds. Their number is given as a sum: `after` goes
    // by whole bytes, and `i` over the symbols of one, so that the compiler can take many bytes at a time.
    fn standing_symbol(&self, after: usize, i: usize, states: States) -> Bit
        requires held { HeldGiven (given self.now) (class_number states) }
        requires stands { after + i < standing_given (given self.now) }
        ensures { result.0 ≡ digit_at (bits_of (class_number states)) (after + i) (number_given (given self.now) (class_number states)) };
}
