// The kinds of a start, which are the words of its line after the third, and the records that they become with the probes that were named for them.
ghost use Rattle.std.specs.Prelude.{◌≡◌, is_some, length};
ghost use Rattle.std.proofs.lemmas.List.Edits.{sets};
ghost use Rattle.storage.specs.Storage.{records_of};
ghost use Rattle.line.specs.Line as spec;
ghost use Rattle.line.specs.Command.{kind_list, probe_at, records_for, put_kind};

use crate::words::{FromWord, count_words, has_words, spells, word};
use digits::decimal_32;
use recording::SignalRecord;
use records::put_record;
use signal::SignalRef;
use signal::kind::SignalEncoding;
use value::states::States;

// The least width that no vector has.
const NO_WIDTH: u32 = 65537;

// The largest number that a record's probe can have; a start refuses it.
const NO_PROBE: u64 = 255;

// A vector, but for widths that no vector has: they all become the least of them, which start refuses. Stored as they are, the two largest would
// be a real and an absent signal.
fn vector(width: u32) -> SignalEncoding
    ensures { result ≡ spec.vector width }
{
    SignalEncoding::BitVector(width.min(NO_WIDTH))
}

// The kind that a word says.
impl FromWord for SignalEncoding {
    ghost of_word = { spec.kind_of };

    fn from_word(w: &[u8]) -> Option<SignalEncoding> {
        if spells(w, b"event") {
            return Some(SignalEncoding::BitVector(0));
        }
        if spells(w, b"real") {
            return Some(SignalEncoding::Real);
        }
        if spells(w, b"absent") {
            return Some(SignalEncoding::Absent);
        }
        Some(vector(decimal_32(w)?))
    }
}

// The words after the third are kinds, at most 256.
pub fn has_kinds(line: &[u8]) -> bool
    ensures { result ≡ is_some (spec.kinds_in line.now) }
{
    has_words::<SignalEncoding>(line, 3)
}

// The probe at a place, 0 where none is said. One that a record cannot have becomes the largest, which start refuses.
pub fn probe_at(probes: &[u64], at: usize) -> u8
    ensures { result ≡ probe_at probes.now at }
{
    match probes.get(at) {
        Some(probe) => (*probe).min(NO_PROBE) as u8,
        None => 0,
    }
}

// Stores the record with which a signal of this kind and probe begins.
fn put_kind(records: &mut [u64], at: u32, probe: u8, w: &[u8])
    ensures { records_of records.new ≡ put_kind (records_of records.old) at probe (spec.kind_of w.now) }
{
    if let Some(kind) = SignalEncoding::from_word(w) {
        let record = SignalRecord {
            kind,
            index: 0,
            top: States::Two,
            probe,
        };
        put_record(records, SignalRef(at), record);
    }
}

// Writes the records of a start's kinds, each with its probe, to the start of records, as far as there is room, and answers how many there are.
// A line whose kinds are not understood has none. The loop stands beside that of put_probes: of what a closure that stores has stored, a proof knows nothing.
pub fn put_kinds(records: &mut [u64], line: &[u8], probes: &[u64]) -> usize
    ensures { (result ≡ length (kind_list line.now))
        × (records_of records.new ≡ sets (records_of records.old) 0 (records_for probes.now 0 (kind_list line.now))) }
{
    if !has_kinds(line) {
        return 0;
    }
    let n = count_words(line).saturating_sub(3);
    for at in 0..n {
        put_kind(records, at as u32, probe_at(probes, at), word(line, at + 3));
    }
    n
}
