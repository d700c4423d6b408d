// The calls on any bytes: each opens first.
ghost use Rattle.std.specs.Prelude.{◌≡◌, ◌+◌, ◌≤◌, length};
ghost use Rattle.lists.specs.Choice.{pick};
ghost use Rattle.value.specs.Class.{class_number, states_of};
ghost use Rattle.image.specs.Head.{kind_from};
ghost use Rattle.loaded.specs.Opener.{open_of, stream_of};
ghost use Rattle.loaded.specs.Reader.{load_of, table_of, cursor_of};
ghost use Rattle.entry.specs.Length.{entry_length};
ghost use Rattle.joined.specs.Join.{join_of};
ghost use Rattle.interface_answers.specs.Answered.{load_told, load_told_of, table_told, table_told_of, join_told, join_told_of, part_of, PlaceOf, cursor_told, cursor_told_of, entry_told, entry_told_of};
ghost use Rattle.entry_answer.specs.Answer.{entry_value_of};

use crate::opened::wejumo_opened_stream;
use entry::length::entry_len;
use entry_answer::entry_value;
use image::kind::kind_from;
use interface_answers::images::{
    CursorNumbers, EntryNumbers, JoinNumbers, LoadNumbers, PartNumbers, TableNumbers,
};
use join::join;
use opener::open;
use reader::{cursor, load, table};
use signal::SignalRef;
use value::states::States;

// 1 where the bytes are an image, else 0.
#[unsafe(no_mangle)]
pub extern "C" fn wejumo_open(image: &[u8]) -> u32
    ensures { result ≡ pick (open_of image.now) 1 0 }
{
    if open(image) { 1 } else { 0 }
}

// Loads a signal. 11, 4, 9.
#[unsafe(no_mangle)]
pub extern "C" fn wejumo_load(
    image: &[u8],
    signal: u32,
    index: &mut [u32],
    bytes: &mut [u8],
) -> LoadNumbers
    ensures { load_told result index.new bytes.new ≡ load_told_of (load_of image.now signal index.old bytes.old) }
{
    LoadNumbers::from(load(image, SignalRef(signal), index, bytes))
}

// The combined table. 11, 9.
#[unsafe(no_mangle)]
pub extern "C" fn wejumo_table(image: &[u8], out: &mut [u64]) -> TableNumbers
    ensures { table_told result out.new ≡ table_told_of (table_of image.now out.old) }
{
    TableNumbers::from(table(image, out))
}

// The stream of a signal in a block, as a place in the image; of length 0 where there is none.
#[unsafe(no_mangle)]
pub extern "C" fn wejumo_stream(image: &[u8], block: u32, signal: u32) -> PartNumbers
    ensures { (part_of result image.now ≡ stream_of image.now block signal)
        × (result.from + result.length ≤ length image.now) × PlaceOf result image.now block signal }
{
    if !open(image) {
        return PartNumbers { from: 0, length: 0 };
    }
    wejumo_opened_stream(image, block, signal)
}

// The last entry of a signal at or before a time, or nothing. 11, 4, 9.
#[unsafe(no_mangle)]
pub extern "C" fn wejumo_cursor(
    image: &[u8],
    signal: u32,
    time: u64,
    out: &mut [u8],
) -> CursorNumbers
    ensures { cursor_told result out.new ≡ cursor_told_of (cursor_of image.now signal time out.old) }
{
    CursorNumbers::from(cursor(image, SignalRef(signal), time, out))
}

// Writes one image made of two to the start of the output. 11, 14, 15, 16, 8.
#[unsafe(no_mangle)]
pub extern "C" fn wejumo_join(first: &[u8], second: &[u8], out: &mut [u8]) -> JoinNumbers
    ensures { join_told result out.new ≡ join_told_of (join_of first.now second.now out.old) }
{
    JoinNumbers::from(join(first, second, out))
}

// How many bytes each entry takes of a signal of a kind's number and a class.
#[unsafe(no_mangle)]
pub extern "C" fn wejumo_entry_length(kind: u32, class: u32) -> usize
    ensures { result ≡ entry_length (kind_from kind) (class_number (states_of class)) }
{
    entry_len(kind_from(kind), States::from_number(class))
}

// The bytes of one entry of a signal of a kind's number and a class. 9.
#[unsafe(no_mangle)]
pub extern "C" fn wejumo_entry_value(
    bytes: &[u8],
    kind: u32,
    class: u32,
    out: &mut [u8],
) -> EntryNumbers
    ensures { entry_told result out.new ≡ entry_told_of (entry_value_of (kind_from kind) (class_number (states_of class)) bytes.now out.old) }
{
    EntryNumbers::from(entry_value(bytes, kind_from(kind), States::from_number(class), out))
}
