// Kinds of signals, after wellen's SignalEncoding.
ghost use Rattle.std.specs.Prelude.{◌≡◌};
ghost use Rattle.signal.specs.Kind.{width_of, absent, known_kind};

// A vector of width 0 is an event.
#[derive(Clone, Copy, PartialEq, Eq, Debug)]
pub enum SignalEncoding {
    BitVector(u32),
    Real,
    Absent,
}

impl SignalEncoding {
    // The width of a vector, 0 for the others.
    pub fn width(self) -> u32
        ensures { result ≡ width_of self }
    {
        match self {
            SignalEncoding::BitVector(width) => width,
            SignalEncoding::Real => 0,
            SignalEncoding::Absent => 0,
        }
    }

    pub fn is_absent(self) -> bool
        ensures { result ≡ absent self }
    {
        matches!(self, SignalEncoding::Absent)
    }
}

// The largest width of a vector.
pub const MAX_WIDTH: u32 = 65536;

// Widths are at most 65,536.
pub fn known_kind(kind: SignalEncoding) -> bool
    ensures { result ≡ known_kind kind }
{
    match kind {
        SignalEncoding::BitVector(width) => width <= MAX_WIDTH,
        SignalEncoding::Real => true,
        SignalEncoding::Absent => true,
    }
}
