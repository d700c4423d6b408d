// The refusals of the recorder that depend on numbers alone: the state, the lengths of the lent memory, and whether the sender is a probe.
// Document 01, 'Turned back'; document 02, (k).
//
// Each function answers the first refusal that holds; the contracts cite the tables of recording/specs/Refusals.antt by its number.
#![tactic(auto)]

ghost use Rattle.std.specs.Prelude.{◌≡◌};
ghost use Rattle.recording.specs.Memory.{first};
ghost use Rattle.recording.specs.Refusals.{outside, no_edition, start_tests, state_tests};
ghost use Rattle.refusals.specs.Groups.{bad_start, altered};
ghost use Rattle.refusal.specs.Refusal.{refused_number};

use image::layout::head_size;
use image::limits::{MAX_LIMIT, MAX_SIGNALS, MAX_TOTAL, MIN_LIMIT};
use recording::{EDITION_1, EDITION_2, Encoder, Lengths, Settings};
use refusal::Refusal;

// B is outside its range.
fn outside(limit: u32) -> bool
    ensures { result ≡ outside limit }
{
    limit < MIN_LIMIT || MAX_LIMIT < limit
}

// The skip rule has no such edition.
fn no_edition(edition: u32) -> bool
    ensures { result ≡ no_edition edition }
{
    edition < EDITION_1 || EDITION_2 < edition
}

// What is not lawful in a start. bad tells of a record whose kind is unknown or that names no probe.
fn is_bad_start(settings: Settings, bad: bool, lent: Lengths) -> bool
    ensures { result ≡ bad_start settings lent.records bad lent.times lent.image }
{
    let signals = settings.signals as usize;
    outside(settings.limit)
        || no_edition(settings.edition)
        || lent.times < settings.limit as usize
        || MAX_SIGNALS < settings.signals
        || signals != lent.records
        || bad
        || lent.image < head_size(signals)
        || MAX_TOTAL < lent.image
}

// 1: what is not lawful in a start. bad tells of a record whose kind is unknown or that names no probe.
pub fn start_refusal(settings: Settings, bad: bool, lent: Lengths) -> Result<(), Refusal>
    ensures { refused_number result ≡ first (start_tests settings lent.records bad lent.times lent.image) }
{
    if is_bad_start(settings, bad, lent) {
        return Err(Refusal::BadStart);
    }
    Ok(())
}

// The first group of 10: what no call of the recorder leaves.
fn is_altered(state: Encoder, lent: Lengths, work: usize) -> bool
    ensures { result ≡ altered state lent.records lent.times work lent.image }
{
    outside(state.limit)
        || no_edition(state.edition)
        || state.limit < state.held
        || lent.times < state.limit as usize
        || (work as u64) < state.work
        || lent.image < state.image as usize
        || MAX_TOTAL < lent.image
        || state.image < state.blocks
        || state.signals as usize != lent.records
        || (0 < state.work && state.held == 0)
}

// 2; 18, where the sender is foreign: no probe; and the first group of 10.
pub fn state_refusal(
    state: Encoder,
    foreign: bool,
    lent: Lengths,
    work: usize,
) -> Result<(), Refusal>
    ensures { refused_number result ≡ first (state_tests state foreign lent.records lent.times work lent.image) }
{
    if state.closed {
        return Err(Refusal::Closed);
    }
    if foreign {
        return Err(Refusal::Foreign);
    }
    if is_altered(state, lent, work) {
        return Err(Refusal::Altered);
    }
    Ok(())
}
