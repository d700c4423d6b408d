// The times of a block.
ghost use Rattle.std.specs.Prelude.{◌≡◌, ◌+◌, ◌*◌, ◌≤◌, ◌<◌, length};
ghost use Rattle.reading.specs.Times.{starts_at, rising_at, times_at};

use numbers::little_endian::get_u64;

// Whether the times at a place start as a block's: in a later one at or after the end before it.
fn starts(s: &[u8], at: usize, end: Option<u64>) -> bool
    requires { at + 8 ≤ length s.now }
    ensures { result ≡ starts_at s.now at end }
{
    match end {
        Some(end) => end <= get_u64(s, at),
        None => true,
    }
}

// The last of n times at a place, if each is above the one before it.
fn rising(s: &[u8], at: usize, n: usize) -> Option<u64>
    requires { (0 < n) × (at + 8 * n ≤ length s.now) }
    ensures { result ≡ rising_at n s.now at }
{
    let mut last = get_u64(s, at);
    for i in 1..n {
        let time = get_u64(s, at + 8 * i);
        if time <= last {
            return None;
        }
        last = time;
    }
    Some(last)
}

// The last of the n times of a block at a place, one at least, where they fit; `end` is the last time of the block before, if one came before.
pub fn times_at(s: &[u8], at: usize, n: usize, end: Option<u64>) -> Option<u64>
    requires { (0 < n) × (at + 8 * n ≤ length s.now) }
    ensures { result ≡ times_at n s.now at end }
{
    if !starts(s, at, end) {
        return None;
    }
    rising(s, at, n)
}
