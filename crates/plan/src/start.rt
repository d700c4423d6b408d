// The start of a recording. Document 01, 'Recording' and 'Turned back' (1).
ghost use Rattle.std.specs.Prelude.{◌≡◌, length};
ghost use Rattle.plan.specs.Begin.{begin_of, begin_in};

use crate::Begun;
use head::put_numbers;
use plan_state::{begun, refused};
use recording::{Encoder, Lengths, Settings};
use refusals::start_refusal;

// Starts a recording of S signals with at most B times a block, by an edition of the skip rule, of n records and so many lent times: writes the
// head's numbers, unless it is refused. bad tells of a record whose kind is unknown or that names no probe.
pub fn begin(
    state: Encoder,
    settings: Settings,
    bad: bool,
    n: usize,
    times: usize,
    image: &mut [u8],
) -> Begun
    ensures { (result ≡ begin_of state settings bad n times (length image.old))
        × (image.new ≡ begin_in settings bad n times image.old) }
{
    let lent = Lengths {
        records: n,
        times,
        image: image.len(),
    };
    if let Err(refusal) = start_refusal(settings, bad, lent) {
        return Begun {
            outcome: refused(refusal, state),
            turns: 0,
        };
    }
    put_numbers(image, settings.limit, settings.signals);
    Begun {
        outcome: begun(settings),
        turns: n,
    }
}
