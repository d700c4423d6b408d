// Signal records as the recorder stores them (crate storage): kind + 2^32 * (probe + 256 * (3 * index + class)).
use line::kinds::probe_at;
use line::words::word;
use text::number::number;
use text::{after, byte_at, past};

// The number of a kind: `real`, `absent`, `event` or a width.
fn kind_number(kind: &[u8]) -> u64 {
    if byte_at(kind, 0) == b'r' {
        return 0xfffffffe;
    }
    if byte_at(kind, 0) == b'a' {
        return 0xffffffff;
    }
    number(kind)
}

fn stored(kind: u64, index: u64, class: u64, probe: u64) -> u64 {
    let counted = index % 4294967296 * 3 + class % 3;
    let high = probe % 256 + counted % 16777216 * 256;
    kind % 4294967296 + high * 4294967296
}

// The probe that a stored record names.
pub fn probe_of(record: u64) -> u8 {
    (record / 4294967296 % 256) as u8
}

// One of the first so many records names probe 1.
pub fn names_one(records: &[u64], count: u64) -> bool {
    let count = records.len().min(count as usize);
    records[..count].iter().any(|r| probe_of(*r) == 1)
}

pub fn no_records() -> [u64; 65537] {
    [0u64; 65537]
}

// How many records a kind stands for: `KIND*COUNT`.
fn copies(kind: &[u8]) -> u64 {
    let at = past(kind, 0, b'*');
    if at < kind.len() {
        return number(after(kind, at));
    }
    1
}

// Writes copies of a number from a place on, as far as there is room, and answers the place after them.
fn put_copies(records: &mut [u64], from: usize, count: u64, n: u64) -> usize {
    let end = records.len().min(from.saturating_add(count as usize));
    if end <= from {
        return from;
    }
    records[from..end].fill(n);
    end
}

// Writes the records that a start is to find, `start S B KIND ..`, and answers how many there are. Their index and class are not 0: a
// start sets them.
pub fn put_records(records: &mut [u64], line: &[u8], probes: &[u64]) -> usize {
    let mut n = 0;
    for k in 3..line.len() {
        let kind = word(line, k);
        if kind.len() == 0 {
            return n;
        }
        let record = stored(kind_number(kind), 7, 2, probe_at(probes, k - 3) as u64);
        n = put_copies(records, n, copies(kind), record);
    }
    n
}

// `record SIGNAL KIND INDEX TOP PROBE`; the probe is 0 where it is left out.
pub fn put_record(records: &mut [u64], line: &[u8]) {
    let signal = number(word(line, 1)) as usize;
    if signal < records.len() {
        records[signal] = stored(
            kind_number(word(line, 2)),
            number(word(line, 3)),
            number(word(line, 4)),
            number(word(line, 5)),
        );
    }
}
