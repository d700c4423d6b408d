// Questions: `v WIDTH D HEX`, `r WIDTH D CLAIM HEX` and `f D HEX`.
use signal::kind::SignalEncoding;
use text::number::number_32;
use text::{byte_at, word};

// How the value is given.
#[derive(Clone, Copy)]
pub enum Form {
    Vcd,
    // A raw value, with the number of the class that it claims.
    Raw(u32),
    Real,
}

// The form, the parts that are numbers, and which word is HEX.
#[derive(Clone, Copy)]
pub struct Question {
    pub form: Form,
    pub kind: SignalEncoding,
    pub d: u32,
    pub hex: usize,
}

// A line with any other letter asks for a real with the words of `r`.
pub fn parse(line: &[u8]) -> Question {
    let letter = byte_at(line, 0);
    let first = number_32(word(line, 1));
    if letter == b'f' {
        return Question {
            form: Form::Real,
            kind: SignalEncoding::Real,
            d: first,
            hex: 2,
        };
    }
    let (form, hex) = match letter {
        b'v' => (Form::Vcd, 3),
        b'r' => (Form::Raw(number_32(word(line, 3))), 4),
        _ => (Form::Real, 4),
    };
    Question {
        form,
        kind: SignalEncoding::BitVector(first),
        d: number_32(word(line, 2)),
        hex,
    }
}
