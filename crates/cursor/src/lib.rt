// The cursor over an accepted image: document 01, 'Loaded signal'.
//
// One pass over a signal's changes finds the entry (crate `cursor_point`); then that entry's value is answered (shown.rt). Nothing is loaded.
#![tactic(auto)]

pub mod shown;

ghost use Rattle.std.specs.Prelude.{◌≡◌};
ghost use Rattle.loaded.specs.Reader.{cursor_reply, cursor_after, cursor_in};
ghost use Rattle.walk.specs.Open.{image_of};

use crate::shown::value_at;
use cursor_point::point_at;
use loaded::Found;
use refusal::Refusal;
use walk::open::OpenImage;

// The last entry of a signal with time at or before t, if there is one. 4 by the signal, 9 by the width even where there is none.
pub fn cursor_in(
    image: OpenImage,
    signal: u32,
    t: u64,
    out: &mut [u8],
) -> Result<Option<Found>, Refusal>
    ensures { cursor_after (cursor_reply result) out.new ≡ cursor_in (image_of image.entry) signal t out.old }
{
    let kind = image.kind_at(signal);
    if kind.is_absent() {
        return Err(Refusal::NoSignal);
    }
    if out.len() < kind.width() as usize {
        return Err(Refusal::OutputShort);
    }
    let held = point_at(image, kind, signal, t);
    match held.last {
        None => Ok(None),
        Some(change) => Ok(Some(Found {
            number: held.count - 1,
            time: held.time,
            entry: value_at(image.bytes, kind, change, out),
        })),
    }
}
