// One entry's value, out of the change in the image.
ghost use Rattle.std.specs.Prelude.{[], ◌∷◌, ◌≤◌, ◌<◌, length};
ghost use Rattle.value.specs.Class.{class_number};
ghost use Rattle.signal.specs.Kind.{width_of};
ghost use Rattle.signal.specs.Content.{symbols};
ghost use Rattle.entry.specs.Read.{wide_read, content_read, Reads, PackedThere};
ghost use Rattle.cursor.specs.Shown.{Shows};

use entry::read::PlacedChange;
use entry_answer::{event_entry, symbols_entry};
use packed_symbols::{bytes_required, unpack};
use signal::kind::SignalEncoding;
use value::real::{Entry, real_entry};
use value::states::States;
use value::symbol::Bit;

fn bit_entry(bit: Bit, out: &mut [u8]) -> Entry
    requires { 0 < length out.old }
    ensures { Shows result out.old out.new (symbols (bit.0 ∷ [])) }
{
    out[0] = bit.0;
    symbols_entry(States::from_bit(bit))
}

// A wider vector's packed bytes, in its own class, end at next.
fn wide_entry(image: &[u8], width: u32, states: States, next: usize, out: &mut [u8]) -> Entry
    requires { PackedThere width (class_number states) next image.now × (width ≤ length out.old) }
    ensures { Shows result out.old out.new (symbols (wide_read width (class_number states) next image.now)) }
{
    let from = next - bytes_required(states, width);
    unpack(out, &image[from..next], width, states);
    symbols_entry(states)
}

// The content of a change: its own class; a vector's symbols go to the start of out.
pub fn value_at(image: &[u8], kind: SignalEncoding, change: PlacedChange, out: &mut [u8]) -> Entry
    requires { Reads kind image.now change.value change.next × (width_of kind ≤ length out.old) }
    ensures { Shows result out.old out.new (content_read kind image.now change.value change.next) }
{
    match kind {
        SignalEncoding::BitVector(width) => {
            if width == 0 {
                return event_entry();
            }
            if width == 1 {
                return bit_entry(change.bit(), out);
            }
            wide_entry(image, width, change.states(), change.next, out)
        }
        SignalEncoding::Real => real_entry(change.bits()),
        SignalEncoding::Absent => event_entry(),
    }
}
