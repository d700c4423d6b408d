// The calls on two records.
use owned::Kept;
use recording::{Encoder, SignalRecord};
use sheet::run::Call;
use value::states::States;

// Makes a call; value is the text of a VCD value, or the bytes of a raw one. Class Two is claimed by the class itself and any other by its
// number, so that both calls are made.
pub fn perform(
    call: Call,
    value: &[u8],
    state: Encoder,
    records: [SignalRecord; 2],
    times: &mut [u64],
    work: &mut [u8],
    image: &mut [u8],
) -> Kept {
    match call {
        Call::Start(settings) => owned::start(state, settings, records, times, image),
        Call::Time(stamp) => owned::time_change(state, records, times, work, image, stamp),
        Call::Vcd(target) => {
            owned::vcd_value_change(state, records, times, work, image, target, value)
        }
        Call::Raw(target, 0) => {
            let claim = States::Two;
            owned::raw_class_change(state, records, times, work, image, target, claim, value)
        }
        Call::Raw(target, claim) => {
            owned::raw_claim_change(state, records, times, work, image, target, claim, value)
        }
        Call::Real(target, bits) => {
            owned::real_change(state, records, times, work, image, target, bits)
        }
        Call::Finish => owned::finish(state, records, times, work, image),
    }
}
