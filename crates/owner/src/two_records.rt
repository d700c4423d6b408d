// The two records that the program owns.
use image::kind::kind_from;
use line::kinds::put_kinds;
use recording::SignalRecord;
use sheet::record::probe_of;
use sheet::run::low;
use value::states::States;

// A record before a start, of the kind and probe of a stored one. Its index and class are not 0: a start sets them.
fn unset(stored: u64) -> SignalRecord {
    let kind = kind_from(low(stored));
    let top = States::Nine;
    SignalRecord {
        kind,
        index: 7,
        top,
        probe: probe_of(stored),
    }
}

// Before the first start.
pub fn no_records() -> [SignalRecord; 2] {
    [unset(0), unset(0)]
}

// The records that a start finds.
pub fn records_for(line: &[u8], probes: &[u64]) -> [SignalRecord; 2] {
    let mut stored = [0u64; 2];
    put_kinds(&mut stored, line, probes);
    [unset(stored[0]), unset(stored[1])]
}

// A record names probe 1.
pub fn names_one(records: [SignalRecord; 2]) -> bool {
    records.iter().any(|r| r.probe == 1)
}
