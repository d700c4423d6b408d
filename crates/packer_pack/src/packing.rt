// The bytes of a vector's symbols in a class that holds them, from any source. A byte is made of the symbols that lie in it alone (specs/Number.antt of
// the crate packer): the last bytes, whose symbols all stand in the source, by a loop that has nothing to ask; those before them symbol by symbol, or
// all at once where they are a short text's extension.
ghost use Rattle.std.specs.Prelude.{◌≡◌, ℕ, ◌+◌, ◌*◌, ◌^◌, ◌≤◌, ◌<◌, length};
ghost use Rattle.std.proofs.lemmas.List.Edits.{sets};
ghost use Rattle.value.specs.Class.{class_number, bits_of};
ghost use Rattle.packed.specs.Packed.{per_byte, packed, packed_length, digit_at, digits};
ghost use Rattle.packer.specs.Number.{symbols_at};
ghost use Rattle.packer.specs.Given.{symbols_given, HeldGiven, number_given, standing_given, held-prop};

use copy::put_same;
use packed_symbols::bytes_required;
use packer::pushed;
use packer::source::Source;
use value::states::States;

// How many symbols lie in a byte.
fn per_byte(states: States) -> usize
    ensures { result ≡ per_byte (class_number states) }
{
    match states {
        States::Two => 8,
        States::Four => 4,
        States::Nine => 2,
    }
}

// A source of symbols, and the class that they are packed in, which holds them all.
#[derive(Drop)]
pub struct Packing<S: Source> {
    pub source: S,
    pub states: States,
    ghost held: { HeldGiven (S.given source) (class_number states) } by { held-prop (S.given source) (class_number states) },
    // the width is a number of 32 bits
    ghost small: { (S.given source).width < 2 ^ 32 },
}

impl<S: Source> Packing<S> {
    // A source and a class that holds its symbols.
    pub fn new(source: S, states: States) -> Packing<S>
        requires { HeldGiven (S.given source) (class_number states) }
        ensures { (result.source ≡ source) × (result.states ≡ states) }
    {
        prove!(source.width() <= u32::MAX);
        Packing { source, states }
    }

    // So many symbols that stand in the source, with so many after them. The class is the packing's, written out: see `class_bytes`.
    #[inline(always)]
    fn standing_symbols(&self, after: usize, count: usize, states: States) -> u32
        requires same { states ≡ self.now.states }
        requires stand { (after + count ≤ standing_given (S.given self.now.source)) × (count * bits_of (class_number states) ≤ 8) }
        ensures { result ≡ symbols_at (bits_of (class_number states)) after count (number_given (S.given self.now.source) (class_number states)) }
    {
        let mut working: u32 = 0;
        for i in (0..count).rev() {
            working = pushed(
                working,
                states,
                self.source.standing_symbol(after, i, states),
            );
        }
        working
    }

    // Writes the last whole bytes, and answers the place after them. The class is the packing's, given beside it as a constant, so that the loops
    // are made for each class alone.
    #[inline(always)]
    fn class_bytes(&self, out: &mut [u8], at: usize, whole: usize, states: States) -> usize
        requires same { states ≡ self.now.states }
        requires stand { (whole * per_byte (class_number states) ≤ standing_given (S.given self.now.source)) × (at + whole ≤ length out.old) }
        ensures { (result ≡ at + whole) × (out.new ≡ sets out.old at (digits 8 whole (number_given (S.given self.now.source) (class_number states)))) }
    {
        let each = per_byte(states);
        for left in (0..whole).rev() {
            out[at + (whole - 1 - left)] = self.standing_symbols(left * each, each, states) as u8;
        }
        at + whole
    }

    // Writes the last whole bytes, and answers the place after them.
    pub fn standing_bytes(&self, out: &mut [u8], at: usize, whole: usize) -> usize
        requires { (whole * per_byte (class_number self.now.states) ≤ standing_given (S.given self.now.source)) × (at + whole ≤ length out.old) }
        ensures { (result ≡ at + whole) × (out.new ≡ sets out.old at (digits 8 whole (number_given (S.given self.now.source) (class_number self.now.states)))) }
    {
        match self.states {
            States::Two => self.class_bytes(out, at, whole, States::Two),
            States::Four => self.class_bytes(out, at, whole, States::Four),
            States::Nine => self.class_bytes(out, at, whole, States::Nine),
        }
    }

    // The byte that so many bytes follow, symbol by symbol: the first one may have fewer symbols than a byte holds.
    fn part_byte(&self, after: usize) -> u8
        requires { after < packed_length (S.given self.now.source).width (class_number self.now.states) }
        ensures { result ≡ digit_at 8 after (number_given (S.given self.now.source) (class_number self.now.states)) }
    {
        let each = per_byte(self.states);
        let left = self.source.width() as usize - after * each;
        let mut working: u32 = 0;
        for i in (0..left.min(each)).rev() {
            let symbol = self.source.symbol((left - 1 - i) as u32);
            working = pushed(working, self.states, symbol);
        }
        working as u8
    }

    // Writes the bytes that fewer than `left` and at least `stop` follow, symbol by symbol, and answers the place after them.
    fn symbol_bytes(&self, out: &mut [u8], at: usize, left: usize, stop: usize) -> usize
        requires { (stop ≤ left) × (left ≤ packed_length (S.given self.now.source).width (class_number self.now.states)) × (at + left ≤ length out.old) }
        ensures place { result + stop ≡ at + left }
        ensures written { let v : ℕ = number_given (S.given self.now.source) (class_number self.now.states) in sets out.new result (digits 8 stop v) ≡ sets out.old at (digits 8 left v) }
    {
        for i in 0..left - stop {
            out[at + i] = self.part_byte(left - 1 - i);
        }
        at + (left - stop)
    }

    // Writes such bytes, and answers the place after them, where all of their symbols lie before those that stand in the source: they are alike.
    fn alike_bytes(&self, out: &mut [u8], at: usize, left: usize, stop: usize) -> usize
        requires before { standing_given (S.given self.now.source) ≤ stop * per_byte (class_number self.now.states) }
        requires stop_lt_left { (stop < left) × (left < packed_length (S.given self.now.source).width (class_number self.now.states)) × (at + left ≤ length out.old) }
        ensures place { result + stop ≡ at + left }
        ensures written { let v : ℕ = number_given (S.given self.now.source) (class_number self.now.states) in sets out.new result (digits 8 stop v) ≡ sets out.old at (digits 8 left v) }
    {
        let byte = self.part_byte(stop);
        put_same(out, at, byte, left - stop)
    }

    // Writes the bytes before the last whole ones, and answers the place after them. Where they are many, a text is short: but for the first, which may
    // have fewer symbols, and the last, which may have some of the text's, they are alike.
    fn part_bytes(&self, out: &mut [u8], at: usize, whole: usize) -> usize
        requires near { standing_given (S.given self.now.source) ≤ (whole + 1) * per_byte (class_number self.now.states) }
        requires room { let n : ℕ = packed_length (S.given self.now.source).width (class_number self.now.states) in (whole ≤ n) × (at + n ≤ length out.old) }
        ensures place { result + whole ≡ at + packed_length (S.given self.now.source).width (class_number self.now.states) }
        ensures written { let v : ℕ = number_given (S.given self.now.source) (class_number self.now.states) in
            let n : ℕ = packed_length (S.given self.now.source).width (class_number self.now.states) in
            sets out.new result (digits 8 whole v) ≡ sets out.old at (digits 8 n v) }
    {
        let count = bytes_required(self.states, self.source.width());
        // most texts have their vector's width
        if count == whole {
            return at;
        }
        if count - whole < 3 {
            return self.symbol_bytes(out, at, count, whole);
        }
        let first = self.symbol_bytes(out, at, count, count - 1);
        let next = self.alike_bytes(out, first, count - 1, whole + 1);
        self.symbol_bytes(out, next, whole + 1, whole)
    }

    // Writes all bytes, and answers the place after them.
    pub fn bytes(&self, out: &mut [u8], at: usize) -> usize
        requires { at + packed_length (S.given self.now.source).width (class_number self.now.states) ≤ length out.old }
        ensures place { result ≡ at + packed_length (S.given self.now.source).width (class_number self.now.states) }
        ensures written { out.new ≡ sets out.old at (packed (class_number self.now.states) (symbols_given (S.given self.now.source))) }
    {
        let whole = self.source.standing() / per_byte(self.states);
        let next = self.part_bytes(out, at, whole);
        self.standing_bytes(out, next, whole)
    }
}
