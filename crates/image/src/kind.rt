// Kinds of signals as numbers of 32 bits, as an image's head has them.
//
// They are functions and no impl of From: that could stand only in crate signal, whose type it is, and signal knows of no image.
ghost use Rattle.std.specs.Prelude.{◌≡◌};
ghost use Rattle.image.specs.Head.{kind_number, kind_from};

use signal::kind::SignalEncoding;

// A kind's number: its width, FFFFFFFE for real, FFFFFFFF for absent.
pub fn kind_number(kind: SignalEncoding) -> u32
    ensures { result ≡ kind_number kind }
{
    match kind {
        SignalEncoding::BitVector(width) => width,
        SignalEncoding::Real => 0xfffffffe,
        SignalEncoding::Absent => 0xffffffff,
    }
}

// The kind of a number.
pub fn kind_from(n: u32) -> SignalEncoding
    ensures { result ≡ kind_from n }
{
    match n {
        0xffffffff => SignalEncoding::Absent,
        0xfffffffe => SignalEncoding::Real,
        width => SignalEncoding::BitVector(width),
    }
}
