// The symbols of a vector given packed. The contracts cite specs/Packed.antt of the crate packed.
#![tactic(auto)]

use packed_symbols::get_bit;
use packer::source::Source;
use value::states::States;
use value::symbol::Bit;

// A packed value of a width, in a class.
#[derive(Clone, Copy)]
pub struct PackedValue<'a> {
    pub bytes: &'a [u8],
    pub width: u32,
    pub class: States,
}

impl<'a> Source for PackedValue<'a> {
    ghost use Rattle.packer.specs.declared.Notation.TheVariants.{Packed};

    ghost given = { λ value. record { notation = Packed value.class; width = value.width; bytes = value.bytes.now } };

    fn width(&self) -> u32 {
        self.width
    }

    // every place is in the bytes
    fn standing(&self) -> usize {
        self.width as usize
    }

    fn symbol(&self, place: u32) -> Bit {
        get_bit(self.bytes, self.class, self.width - 1 - place)
    }

    fn standing_symbol(&self, after: usize, i: usize, _states: States) -> Bit {
        let width = self.width as usize;
        prove!(after + i < width);
        get_bit(self.bytes, self.class, (after + i) as u32)
    }
}
