// The parts of a block, one for each signal with changes: a class byte and a stream. Document 01, 'Block and image'.
//
// They are read from the last signal to the first, since a part ends where the next one begins. specs/Parts.antt says what is found so, and
// proofs/PartsLaws.antt that it is what crate codec's `lengths` and `walked_part` find.
#![tactic(auto)]

ghost use Rattle.std.specs.Prelude.{◌≡◌, ◌+◌, ◌*◌, ◌≤◌, ◌<◌, length, drop};
ghost use Rattle.lists.specs.Choice.{is_some};
ghost use Rattle.signal.specs.Kind.{top_limit};
ghost use Rattle.reading.specs.Decided.{uints};
ghost use Rattle.parts.specs.Parts.{part_in, one_part, kinds_at, are_parts};

use image::SignalDataOffset;
use image::kind::kind_from;
use numbers::little_endian::get_u32;
use reading::changes::is_stream;
use signal::kind::SignalEncoding;

// The largest top class of a kind: 0 for events and reals.
fn top_limit(kind: SignalEncoding) -> u8
    ensures { result ≡ top_limit kind }
{
    match kind {
        SignalEncoding::BitVector(width) => { if width == 0 { 0 } else { 2 } }
        SignalEncoding::Real => 0,
        SignalEncoding::Absent => 0,
    }
}

// Whether bytes are the part of a signal.
fn is_part(s: &[u8], kind: SignalEncoding, times: u32) -> bool
    requires { (0 < length s.now) × (times ≤ 65535) }
    ensures { result ≡ is_some (part_in kind times s.now) }
{
    let top = s[0];
    if top_limit(kind) < top {
        return false;
    }
    is_stream(&s[1..], kind, times, top)
}

// Where the parts begin with a signal's part in front of those that begin at `from` in the data at `base`, if it is one.
fn one_part(
    s: &[u8],
    base: usize,
    kind: SignalEncoding,
    offset: SignalDataOffset,
    from: usize,
    times: u32,
) -> Option<usize>
    requires { (base + from ≤ length s.now) × (times ≤ 65535) }
    ensures { result ≡ one_part (drop base s.now) times kind offset.0 from }
{
    let stored = offset.0 as usize;
    if stored == 0 {
        return Some(from);
    }
    if from < stored {
        return None;
    }
    let start = stored - 1;
    if is_part(&s[base + start..base + from], kind, times) {
        Some(start)
    } else {
        None
    }
}

// Whether the parts of a block are right: kinds at `kinds`, offsets at `offsets`, n bytes of data at `base`.
pub fn are_parts(
    s: &[u8],
    kinds: usize,
    offsets: usize,
    base: usize,
    n: usize,
    count: usize,
    times: u32,
) -> bool
    requires { (kinds + 4 * count ≤ length s.now) × (offsets + 4 * count ≤ length s.now) × (base + n ≤ length s.now) × (times ≤ 65535) }
    ensures { result ≡ are_parts (drop base s.now) n times (kinds_at count s.now kinds) (uints 4 count s.now offsets) }
{
    let mut from = n;
    for i in (0..count).rev() {
        let kind = kind_from(get_u32(s, kinds + 4 * i));
        let offset = SignalDataOffset(get_u32(s, offsets + 4 * i));
        let Some(start) = one_part(s, base, kind, offset, from, times) else {
            return false;
        };
        from = start;
    }
    from == 0
}
