// The work buffer of a recording: the changes since the last cut, one record each. Document 01, 'Recording'.
#![tactic(auto)]

ghost use Rattle.std.specs.Prelude.{◌≡◌, true, List, ◌∷◌, ℕ, ◌+◌, ◌-◌, ◌≤◌, length};
ghost use Rattle.lists.specs.Choice.{is_some};
ghost use Rattle.marks.specs.Marks.{mark_at};
ghost use Rattle.recording.specs.Work.{Item, item, items_of, items_in};
ghost use Rattle.work.specs.Measure.{measured};
ghost use Rattle.work.specs.Counting.{scanned, changed, unmarked};

use marks::{is_marked, mark};
use numbers::little_endian::get_u32;

// How many signals one pass over the work marks: a bit of its map for each.
const WINDOW: u64 = 65536;

// What one pass over the work finds: the stream bytes of all records, and how many signals of a window have some.
#[derive(Clone, Copy)]
struct Scanned {
    bytes: u64,
    signals: u64,
}

// Answers 1 where a record of so many stream bytes is the first with any of a signal among the 65,536 from `base` on, and marks the signal.
fn count_record(map: &mut [u8], base: u64, signal: u32, size: usize) -> u64
    requires { length map.old ≡ 8192 }
    ensures { (length map.new ≡ 8192) × (result ≤ 1) × ((stream : List ℕ) (rest : List Item) → length stream ≡ size
        → result + unmarked (mark_at map.new) base rest ≡ unmarked (mark_at map.old) base (item signal stream ∷ rest)) }
{
    if size == 0 {
        return 0;
    }
    let signal = u64::from(signal);
    if signal < base || WINDOW <= signal - base {
        return 0;
    }
    let i = (signal - base) as usize;
    if is_marked(map, i) {
        return 0;
    }
    mark(map, i);
    1
}

// One pass over the work: the stream bytes of its records, and how many of the 65,536 signals from `base` on have some; None where the work
// does not divide into records of numbers below `signals`.
fn scan(work: &[u8], signals: u32, base: u64) -> Option<Scanned>
    ensures { result ≡ scanned base (items_of (length work.now) signals work.now) }
{
    let mut map = [0u8; 8192];
    let mut sum: u64 = 0;
    let mut count: u64 = 0;
    let mut p = 0;
    // A while: where the next record begins stands in this one.
    while p < work.len() {
        if work.len() - p < 8 {
            return None;
        }
        let signal = get_u32(work, p);
        if signals <= signal {
            return None;
        }
        let size = get_u32(work, p + 4) as usize;
        if work.len() - (p + 8) < size {
            return None;
        }
        p = p + 8 + size;
        sum += size as u64;
        count += count_record(&mut map, base, signal, size);
    }
    Some(Scanned {
        bytes: sum,
        signals: count,
    })
}

// How many of the 65,536 signals from `base` on have stream bytes.
fn count_window(work: &[u8], signals: u32, base: u64) -> u64
    requires { is_some (items_of (length work.now) signals work.now) ≡ true }
    ensures { result ≡ changed base 65536 (items_in signals work.now) }
{
    scan(work, signals, base).unwrap().signals
}

// How many of the signals from 65,536 on have stream bytes, by a pass for each 65,536 of them; a lawful recording has none.
fn count_later(work: &[u8], signals: u32) -> u64
    requires { is_some (items_of (length work.now) signals work.now) ≡ true }
    ensures { result ≡ changed 65536 (signals - 65536) (items_in signals work.now) }
{
    let windows = u64::from(signals).div_ceil(WINDOW);
    let mut count: u64 = 0;
    for window in 1..windows {
        count += count_window(work, signals, window * WINDOW);
    }
    count
}

// How many data bytes the block of the used work bytes of a recording of so many signals has; None where they do not divide into records.
// Nothing is written.
pub fn measure(work: &[u8], signals: u32) -> Option<u64>
    ensures { result ≡ measured signals (items_of (length work.now) signals work.now) }
{
    let found = scan(work, signals, 0)?;
    Some(found.bytes + found.signals + count_later(work, signals))
}
