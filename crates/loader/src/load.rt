// One signal of an accepted image: the refusals 4 and 9, or its kept entries.
ghost use Rattle.std.specs.Prelude.{◌≡◌, ◌≤◌, length};
ghost use Rattle.value.specs.Class.{class_number};
ghost use Rattle.image.specs.Head.{image_limit};
ghost use Rattle.loaded.specs.Opener.{kind_at};
ghost use Rattle.loaded.specs.Loading.{loads};
ghost use Rattle.loaded.specs.EntryBytes.{entries_bytes};
ghost use Rattle.loaded.specs.Reader.{load_reply, load_after, load_in};
ghost use Rattle.walk.specs.Open.{image_of};
ghost use Rattle.loader.specs.Sizes.{too_short, class_answered};

use crate::every_block::load_blocks;
use entry::length::entry_len;
use loaded::Loaded;
use loader_measure::{least_len, measure_blocks};
use refusal::Refusal;
use signal::kind::SignalEncoding;
use value::states::States;
use walk::open::OpenImage;

// Whether so many indices and bytes are too few for so many entries, of so many bytes.
fn too_short(entries: usize, used: usize, indices: usize, room: usize) -> bool
    ensures { result ≡ too_short entries used indices room }
{
    if indices < entries {
        return true;
    }
    room < used
}

// The signal's class: the largest of its blocks, Nine if it has no changes.
fn signal_class(count: u32, class: States) -> States
    ensures { class_number result ≡ class_answered count (class_number class) }
{
    if count == 0 {
        return States::Nine;
    }
    class
}

// Whether the outputs are too short for a signal's kept entries, of which there are at most `most`. Only where these might not fit, every
// entry being as long, a pass counts the entries and their bytes; it writes nothing.
fn lacks_room(
    image: OpenImage,
    signal: u32,
    kind: SignalEncoding,
    class: States,
    most: usize,
    index: &mut [u32],
    bytes: &mut [u8],
) -> bool
    requires known { (kind ≡ kind_at (image_of image) signal) × (class_number class ≡ (loads signal (image_of image).blocks).class) }
    requires image_len_bound { (length (loads signal (image_of image).blocks).entries ≤ most) × (most ≤ image_limit) }
    ensures { (result ≡ too_short (length (loads signal (image_of image.entry).blocks).entries) (length (entries_bytes (kind_at (image_of image.entry) signal) (class_number class) (loads signal (image_of image.entry).blocks).entries)) (length index.old) (length bytes.old)) × (index.new ≡ index.old) × (bytes.new ≡ bytes.old) }
{
    let size = entry_len(kind, class);
    if !too_short(most, most * size, index.len(), bytes.len()) {
        return false;
    }
    let counted = load_blocks(image, signal, class, false, index, bytes);
    too_short(
        counted.count as usize,
        counted.used,
        index.len(),
        bytes.len(),
    )
}

// Writes the indices and the bytes of a signal's kept entries to the start of the outputs, and answers their number and the signal's class.
// Nothing is written where an output is too short.
pub fn load_in(
    image: OpenImage,
    signal: u32,
    index: &mut [u32],
    bytes: &mut [u8],
) -> Result<Loaded, Refusal>
    ensures { load_after (load_reply result) index.new bytes.new ≡ load_in (image_of image.entry) signal index.old bytes.old }
{
    let kind = image.kind_at(signal);
    if kind.is_absent() {
        return Err(Refusal::NoSignal);
    }
    let measured = measure_blocks(image, signal);
    let class = States::from_number(u32::from(measured.top));
    let most = measured.bytes / least_len(kind);
    if lacks_room(image, signal, kind, class, most, index, bytes) {
        return Err(Refusal::OutputShort);
    }
    let written = load_blocks(image, signal, class, true, index, bytes);
    let count = written.count;
    let class = signal_class(count, class);
    Ok(Loaded { count, class })
}
