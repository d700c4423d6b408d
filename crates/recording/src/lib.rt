// The state of a recording, its signals' records, what its calls are given and what they answer. Document 01, 'Recording', 'Turned
// back'; document 02, (j) and (k).
//
// What each call does to them is defined in specs/Step.antt; the refusals by tests stand in specs/Refusals.antt.
#![tactic(auto)]

ghost use Rattle.std.specs.Prelude.{◌≡◌};
ghost use Rattle.recording.specs.Memory.{record_of};
ghost use Rattle.recording.specs.Refusals.{no_probe, bad_record};
ghost use Rattle.recording.specs.Step as step;

use refusal::Refusal;
use signal::SignalRef;
use signal::kind::{SignalEncoding, known_kind};
use value::states::States;

pub mod state;

// The editions of the skip rule: in the second an equal time ends a skip.
pub const EDITION_1: u32 = 1;

pub const EDITION_2: u32 = 2;

// The probes that send times and changes are 0 and 1.
pub const LAST_PROBE: u32 = 1;

// A signal's kind, the time index of its last change in the block (0 if it has none), its top class, and the probe that sends its changes.
#[derive(Clone, Copy)]
pub struct SignalRecord {
    pub kind: SignalEncoding,
    pub index: u32,
    pub top: States,
    pub probe: u8,
}

// Of one probe: its changes are skipped since a time that it sent went back; how many were, which stays at its top.
#[derive(Clone, Copy)]
pub struct ProbeSkip {
    pub on: bool,
    pub count: u32,
}

// Of both probes. Two fields are plainer than an array: a sender has 32 bits, and as an index it would need a test or a proof at each use.
#[derive(Clone, Copy)]
pub struct Skips {
    pub zero: ProbeSkip,
    pub one: ProbeSkip,
}

// A recording between two calls. Buffers are lent at each call; here is how much of each is used.
#[derive(Clone, Copy)]
pub struct Encoder {
    pub closed: bool,
    // B: how many times a block holds at most.
    pub limit: u32,
    // S.
    pub signals: u32,
    // Times in the table; 1 after a finish that cut.
    pub held: u32,
    // Used bytes of the work buffer. It has 64 bits: one block can need more than 2^32 of them.
    pub work: u64,
    // Used bytes of the image buffer: the total.
    pub image: u32,
    // N.
    pub blocks: u32,
    // Of the skip rule, 1 or 2.
    pub edition: u32,
    pub skips: Skips,
}

// What a call is given beside lent memory and a value stands in a struct, so that a number more is a field and no function between has another
// parameter. A start is given B, S and the edition of the skip rule.
#[derive(Clone, Copy)]
pub struct Settings {
    pub limit: u32,
    pub signals: u32,
    pub edition: u32,
}

// A time is given the probe that sends it, and when it was.
#[derive(Clone, Copy)]
pub struct Stamp {
    pub sender: u32,
    pub time: u64,
}

// A change is given the probe that sends it, and its signal.
#[derive(Clone, Copy)]
pub struct Target {
    pub sender: u32,
    pub signal: SignalRef,
}

// What a call of a recording answers, where it is not refused.
#[derive(Clone, Copy)]
pub enum Answer {
    Started,
    Taken,
    Same,
    Back,
    Recorded,
    Skipped,
    // The total bytes of the image.
    Finished(u32),
}

// What a call answers or why it is refused, and the state after it: a refused call leaves it as it was.
#[derive(Clone, Copy)]
pub struct Outcome {
    pub answer: Result<Answer, Refusal>,
    pub state: Encoder,
}

// The lengths of the memory that is lent to a call, but for the work buffer's.
#[derive(Clone, Copy)]
pub struct Lengths {
    pub records: usize,
    pub times: usize,
    pub image: usize,
}

// What stands past the records.
pub fn absent_record() -> SignalRecord
    ensures { result ≡ record_of SignalEncoding.Absent 0 States.Two 0 }
{
    SignalRecord {
        kind: SignalEncoding::Absent,
        index: 0,
        top: States::Two,
        probe: 0,
    }
}

// Neither probe has this number.
pub fn no_probe(number: u32) -> bool
    ensures { result ≡ no_probe number }
{
    LAST_PROBE < number
}

// A record that a start refuses: its kind is one that no signal can have, or it names no probe.
pub fn bad_record(record: SignalRecord) -> bool
    ensures { result ≡ bad_record «record» }
{
    !known_kind(record.kind) || no_probe(u32::from(record.probe))
}

// The record at the start of a recording: index and class are 0, kind and probe stay.
pub fn fresh(record: SignalRecord) -> SignalRecord
    ensures { result ≡ step.fresh «record» }
{
    let top = States::Two;
    SignalRecord {
        index: 0,
        top,
        ..record
    }
}

// The record after a cut: the index is 0 again, top class and probe stay.
pub fn rewound(record: SignalRecord) -> SignalRecord
    ensures { result ≡ step.rewound «record» }
{
    SignalRecord { index: 0, ..record }
}
