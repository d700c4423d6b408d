// How a signal's record is stored in lent memory: as it is, or as a number of 64 bits.
//
// Code over stored records is written once, over `StoredRecord` (crates records, encoder). The contracts cite specs/Storage.antt; that every
// number is a record, and no two the same, is proved in proofs/StorageLaws.antt. An index above 5,592,404 has not a number for each class; a
// recording's are below 65,535.
#![tactic(auto)]

ghost use Rattle.std.specs.Prelude.{◌≡◌};
ghost use Rattle.recording.specs.declared.SignalRecord.{SignalRecord};
ghost use Rattle.storage.specs.Storage.{record_from, number_from, Storable};
ghost use Rattle.storage.specs.Stored.{FitLaws, Any, any_laws, storable_laws};

use image::kind::{kind_from, kind_number};
use recording::SignalRecord;
use value::states::States;

// A value that stands for a signal's record.
pub trait StoredRecord: Copy {
    // The record that it stands for.
    ghost stands_for: { Self → SignalRecord };

    // The records that can be stored.
    ghost Fits: { SignalRecord → Type 0 };

    fn load(self) -> SignalRecord
        ensures { (result ≡ stands_for self) × Fits result };

    fn store(record: SignalRecord) -> Self
        requires { Fits «record» }
        ensures { stands_for result ≡ «record» };

    // With a record that can be stored, so can what a recording makes of it.
    ghost laws: { FitLaws Fits };
}

// A record that is stored as it is.
impl StoredRecord for SignalRecord {
    ghost stands_for = { λ r. r };

    ghost Fits = { Any };

    ghost laws = { any_laws };

    fn load(self) -> SignalRecord {
        self
    }

    fn store(record: SignalRecord) -> SignalRecord {
        record
    }
}

// A record that is stored as a number of 64 bits.
impl StoredRecord for u64 {
    ghost stands_for = { record_from };

    ghost Fits = { Storable };

    ghost laws = { storable_laws };

    fn load(self) -> SignalRecord {
        record_from(self)
    }

    fn store(record: SignalRecord) -> u64 {
        number_from(record)
    }
}

// The record that a number stands for: every number is one.
pub fn record_from(n: u64) -> SignalRecord
    ensures { result ≡ record_from n }
{
    let high = n / 4294967296;
    let kind = kind_from((n % 4294967296) as u32);
    let counted = high / 256;
    let top = States::from_number((counted % 3) as u32);
    SignalRecord {
        kind,
        index: (counted / 3) as u32,
        top,
        probe: (high % 256) as u8,
    }
}

// A record's number: its kind's, above that its probe, and above that three times its index plus its class.
pub fn number_from(record: SignalRecord) -> u64
    requires { Storable «record» }
    ensures { result ≡ number_from «record» }
{
    let kind = record.kind;
    let class = record.top;
    let counted = 3 * u64::from(record.index) + u64::from(class.number());
    u64::from(kind_number(kind)) + 4294967296 * (u64::from(record.probe) + 256 * counted)
}
