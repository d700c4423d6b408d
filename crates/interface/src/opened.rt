// The calls on an image that the opener accepted: each asks for that, and none tests it again. A C caller owes it; the Rust wrapper's
// `Image` opens once and holds the bytes borrowed.
ghost use Rattle.std.specs.Prelude.{◌≡◌, ◌+◌, ◌≤◌, [], length};
ghost use Rattle.image.specs.Head.{kind_number};
ghost use Rattle.loaded.specs.Opener.{kind_at, stream_of};
ghost use Rattle.loaded.specs.Loading.{table_from};
ghost use Rattle.loaded.specs.Reader.{load_of, table_of, cursor_of};
ghost use Rattle.walk.specs.Walk.{Opened, image_in};
ghost use Rattle.interface_answers.specs.Answered.{load_told, load_told_of, table_told, table_told_of, part_of, PlaceOf, cursor_told, cursor_told_of};

use cursor::cursor_in;
use image::kind::kind_number;
use interface_answers::images::{
    CursorNumbers, LoadNumbers, PartNumbers, TableNumbers, part_numbers,
};
use loader::load::load_in;
use walk::open::OpenImage;
use walk_part::part_in;
use walk_table::{table_in, table_length};

// How many signals there are.
#[unsafe(no_mangle)]
pub extern "C" fn wejumo_opened_signals(image: &[u8]) -> u32
    requires { Opened image.now }
    ensures { result ≡ length (image_in image.now).kinds }
{
    OpenImage { bytes: image }.signal_count()
}

// How many blocks there are.
#[unsafe(no_mangle)]
pub extern "C" fn wejumo_opened_blocks(image: &[u8]) -> u32
    requires { Opened image.now }
    ensures { result ≡ length (image_in image.now).blocks }
{
    OpenImage { bytes: image }.block_count()
}

// How many times the combined table has.
#[unsafe(no_mangle)]
pub extern "C" fn wejumo_opened_times(image: &[u8]) -> u32
    requires { Opened image.now }
    ensures { result ≡ length (table_from [] (image_in image.now).blocks) }
{
    table_length(OpenImage { bytes: image })
}

// The number of a signal's kind; past the signals stands an absent one.
#[unsafe(no_mangle)]
pub extern "C" fn wejumo_opened_kind(image: &[u8], signal: u32) -> u32
    requires { Opened image.now }
    ensures { result ≡ kind_number (kind_at (image_in image.now) signal) }
{
    kind_number(OpenImage { bytes: image }.kind_at(signal))
}

// Loads a signal. 4, 9.
#[unsafe(no_mangle)]
pub extern "C" fn wejumo_opened_load(
    image: &[u8],
    signal: u32,
    index: &mut [u32],
    bytes: &mut [u8],
) -> LoadNumbers
    requires { Opened image.now }
    ensures { load_told result index.new bytes.new ≡ load_told_of (load_of image.now signal index.old bytes.old) }
{
    LoadNumbers::from(load_in(OpenImage { bytes: image }, signal, index, bytes))
}

// The combined table. 9.
#[unsafe(no_mangle)]
pub extern "C" fn wejumo_opened_table(image: &[u8], out: &mut [u64]) -> TableNumbers
    requires { Opened image.now }
    ensures { table_told result out.new ≡ table_told_of (table_of image.now out.old) }
{
    TableNumbers::from(table_in(OpenImage { bytes: image }, out))
}

// The stream of a signal in a block, as a place in the image, since a reference cannot be handed out; of length 0 where there is none.
#[unsafe(no_mangle)]
pub extern "C" fn wejumo_opened_stream(image: &[u8], block: u32, signal: u32) -> PartNumbers
    requires { Opened image.now }
    ensures { (part_of result image.now ≡ stream_of image.now block signal)
        × (result.from + result.length ≤ length image.now) × PlaceOf result image.now block signal }
{
    let opened = OpenImage { bytes: image };
    if opened.block_count() <= block {
        return PartNumbers { from: 0, length: 0 };
    }
    part_numbers(part_in(opened.block(block), signal))
}

// The last entry of a signal at or before a time, or nothing. 4, 9.
#[unsafe(no_mangle)]
pub extern "C" fn wejumo_opened_cursor(
    image: &[u8],
    signal: u32,
    time: u64,
    out: &mut [u8],
) -> CursorNumbers
    requires { Opened image.now }
    ensures { cursor_told result out.new ≡ cursor_told_of (cursor_of image.now signal time out.old) }
{
    CursorNumbers::from(cursor_in(OpenImage { bytes: image }, signal, time, out))
}
