// The state of a recording as numbers, for crate interface: `StateNumbers` crosses by value. The contracts cite specs/State.antt.
#![tactic(auto)]

ghost use Rattle.std.specs.Prelude.{◌≡◌};
ghost use Rattle.interface_state.specs.State.{flag_after, state_from, state_after};

use recording::{Encoder, ProbeSkip, Skips};

// The fields of `Encoder`; those that it was given later stand last, so that no offset moves. `skip` and `skipped` are probe 0's, `skip_1` and
// `skipped_1` probe 1's. `closed`, `skip` and `skip_1` are off at 0 and on at every other number.
#[repr(C)]
#[derive(Clone, Copy)]
pub struct StateNumbers {
    pub closed: u32,
    pub limit: u32,
    pub signals: u32,
    pub held: u32,
    pub work: u64,
    pub image: u32,
    pub blocks: u32,
    pub skip: u32,
    pub skipped: u32,
    pub edition: u32,
    pub skip_1: u32,
    pub skipped_1: u32,
}

// The recording that a caller's numbers say.
impl From<StateNumbers> for Encoder {
    ghost from_gives = { λ state r. r ≡ state_from state };

    fn from(state: StateNumbers) -> Encoder {
        let zero = ProbeSkip {
            on: state.skip != 0,
            count: state.skipped,
        };
        let one = ProbeSkip {
            on: state.skip_1 != 0,
            count: state.skipped_1,
        };
        Encoder {
            closed: state.closed != 0,
            limit: state.limit,
            signals: state.signals,
            held: state.held,
            work: state.work,
            image: state.image,
            blocks: state.blocks,
            edition: state.edition,
            skips: Skips { zero, one },
        }
    }
}

// A flag that stays on keeps its number.
fn flag_after(before: u32, on: bool) -> u32
    ensures { result ≡ flag_after before on }
{
    if !on {
        return 0;
    }
    if before == 0 {
        return 1;
    }
    before
}

// A recording as numbers again. No From: a flag that stays on keeps the number that it had before.
pub fn state_after(before: StateNumbers, state: Encoder) -> StateNumbers
    ensures { result ≡ state_after before state }
{
    let zero = state.skips.zero;
    let one = state.skips.one;
    StateNumbers {
        closed: flag_after(before.closed, state.closed),
        limit: state.limit,
        signals: state.signals,
        held: state.held,
        work: state.work,
        image: state.image,
        blocks: state.blocks,
        skip: flag_after(before.skip, zero.on),
        skipped: zero.count,
        edition: state.edition,
        skip_1: flag_after(before.skip_1, one.on),
        skipped_1: one.count,
    }
}
