// The recorder's calls.
use crate::run::Call;
use encoder::changes::{raw_claim_change, real_change, vcd_value_change};
use encoder::finish::finish;
use encoder::start::start;
use encoder::time::time_change;
use recording::{Encoder, Outcome};

// Makes a call; value is the text of a VCD value, or the bytes of a raw one.
pub fn perform(
    call: Call,
    value: &[u8],
    state: Encoder,
    records: &mut [u64],
    times: &mut [u64],
    work: &mut [u8],
    image: &mut [u8],
) -> Outcome {
    match call {
        Call::Start(settings) => start(state, settings, records, times, image),
        Call::Time(stamp) => time_change(state, records, times, work, image, stamp),
        Call::Vcd(target) => { vcd_value_change(state, records, times, work, image, target, value) }
        Call::Raw(target, claim) => {
            raw_claim_change(state, records, times, work, image, target, claim, value)
        }
        Call::Real(target, bits) => {
            real_change(state, records, times, work, image, target, bits)
        }
        Call::Finish => finish(state, records, times, work, image),
    }
}
