// The records of a recording's signals, in a lent slice of stored records. Document 01, 'Stream of one signal'.
//
// How a record is stored is up to its type (crate storage): each function is written and proved once, for all of them. What is decided of one
// record stands in functions by value.
#![tactic(auto)]

ghost use Rattle.std.specs.Prelude.{◌≡◌, get_or, set, map};
ghost use Rattle.recording.specs.Memory.{record_of};
ghost use Rattle.recording.specs.Refusals.{any_bad};

use recording::{SignalRecord, absent_record, bad_record};
use signal::SignalRef;
use signal::kind::SignalEncoding;
use storage::StoredRecord;
use value::states::States;

// Where a signal's record stands.
fn place_of(signal: SignalRef) -> usize
    ensures { result ≡ signal.0 }
{
    signal.0 as usize
}

// A signal's record; past the records stands an absent one.
pub fn find_record<T: StoredRecord>(records: &[T], signal: SignalRef) -> SignalRecord
    ensures { (result ≡ get_or (map T.stands_for records.now) signal.0 (record_of SignalEncoding.Absent 0 States.Two 0)) × T.Fits result }
{
    match records.get(place_of(signal)) {
        Some(stored) => stored.load(),
        None => absent_record(),
    }
}

// Stores a signal's record; past the records nothing is written.
pub fn put_record<T: StoredRecord>(records: &mut [T], signal: SignalRef, kept: SignalRecord)
    requires { T.Fits kept }
    ensures { map T.stands_for records.new ≡ set (map T.stands_for records.old) signal.0 kept }
{
    let at = place_of(signal);
    if at < records.len() {
        records[at] = T::store(kept);
    }
}

// A start refuses one of the records: it has a kind that no signal can have, or names no probe.
pub fn has_bad_record<T: StoredRecord>(records: &[T]) -> bool
    ensures { result ≡ any_bad (map T.stands_for records.now) }
{
    records.iter().any(|stored| bad_record(stored.load()))
}
