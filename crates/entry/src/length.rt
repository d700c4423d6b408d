// How long an entry is: every entry of a signal is as long.
ghost use Rattle.std.specs.Prelude.{◌≡◌, ◌<◌};
ghost use Rattle.value.specs.Class.{class_number};
ghost use Rattle.entry.specs.Length.{class_byte, wide_length, entry_length};

use packed_symbols::bytes_required;
use signal::kind::SignalEncoding;
use value::states::States;

// Whether a class byte precedes the packed bytes.
fn has_class_byte(width: u32, class: States) -> bool
    ensures { result ≡ class_byte width (class_number class) }
{
    match class {
        States::Two => false,
        States::Four => width % 4 == 0,
        States::Nine => width % 2 == 0,
    }
}

// How many bytes each entry takes of a wider vector.
pub fn wide_len(width: u32, class: States) -> usize
    ensures { result ≡ wide_length width (class_number class) }
{
    let size = bytes_required(class, width);
    if has_class_byte(width, class) {
        return 1 + size;
    }
    size
}

// How many bytes each entry takes of a signal of a kind and a class.
pub fn entry_len(kind: SignalEncoding, class: States) -> usize
    ensures { result ≡ entry_length kind (class_number class) }
{
    match kind {
        SignalEncoding::BitVector(width) => {
            if width < 2 {
                return width as usize;
            }
            wide_len(width, class)
        }
        SignalEncoding::Real => 8,
        SignalEncoding::Absent => 0,
    }
}
