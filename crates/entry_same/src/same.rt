// Whether a change says what another said, without writing it anywhere.
ghost use Rattle.std.specs.Prelude.{◌≡◌, ◌+◌, ◌-◌, ◌≤◌, ◌<◌, length, take, drop};
ghost use Rattle.lists.specs.Same.{same};
ghost use Rattle.value.specs.Class.{class_number};
ghost use Rattle.stream.specs.Entries.{repeats};
ghost use Rattle.entry.specs.Read.{wide_read, content_read, Reads, PackedThere};

use entry::read::PlacedChange;
use numbers::little_endian::get_u64;
use packed_symbols::bytes_required;
use signal::kind::SignalEncoding;
use value::states::States;

// Whether count bytes of an image from two places on are the same.
#[inline(never)]
fn same_part(image: &[u8], p: usize, q: usize, count: usize) -> bool
    requires { (p + count ≤ length image.now) × (q + count ≤ length image.now) }
    ensures { result ≡ same (take count (drop p image.now)) (take count (drop q image.now)) }
{
    image[p..p + count] == image[q..q + count]
}

// The same of at most eight bytes before two places, as most values have: a call that compares any number of bytes is dear for these. The
// eight bytes before a place are a number, of which the last ones are the highest.
#[inline(always)]
fn same_few(image: &[u8], end: usize, next: usize, size: usize) -> bool
    requires few { (0 < size) × (size ≤ 8) }
    requires places { (8 ≤ end) × (end ≤ length image.now) × (8 ≤ next) × (next ≤ length image.now) }
    ensures { result ≡ same (take size (drop (end - size) image.now)) (take size (drop (next - size) image.now)) }
{
    let others = 64 - 8 * (size as u32);
    get_u64(image, end - 8) >> others == get_u64(image, next - 8) >> others
}

// Symbols, packed before two places of an image, are the same exactly where their class and their packed bytes are.
fn same_wide(image: &[u8], width: u32, top: States, end: usize, states: States, next: usize) -> bool
    requires { PackedThere width (class_number top) end image.now × PackedThere width (class_number states) next image.now }
    ensures { result ≡ same (wide_read width (class_number top) end image.now) (wide_read width (class_number states) next image.now) }
{
    if top.number() != states.number() {
        return false;
    }
    let size = bytes_required(states, width);
    if size == 0 {
        return true;
    }
    // values that differ mostly do so here
    if image[end - 1] != image[next - 1] {
        return false;
    }
    if size == 1 {
        return true;
    }
    // an image's head is longer than eight bytes
    if size <= 8 && 8 <= end && 8 <= next {
        return same_few(image, end, next, size);
    }
    same_part(image, end - size, next - size, size)
}

// Whether a change of an image repeats the one kept before it.
#[inline(always)]
pub fn same_content(
    image: &[u8],
    kind: SignalEncoding,
    kept: PlacedChange,
    change: PlacedChange,
) -> bool
    requires { Reads kind image.now kept.value kept.next × Reads kind image.now change.value change.next }
    ensures { result ≡ repeats (content_read kind image.now kept.value kept.next) (content_read kind image.now change.value change.next) }
{
    match kind {
        SignalEncoding::BitVector(width) => {
            if width == 0 {
                return false;
            }
            if width == 1 {
                return kept.bit().0 == change.bit().0;
            }
            same_wide(
                image,
                width,
                kept.states(),
                kept.next,
                change.states(),
                change.next,
            )
        }
        // by bits: the two zeros differ
        SignalEncoding::Real => kept.bits() == change.bits(),
        SignalEncoding::Absent => false,
    }
}
