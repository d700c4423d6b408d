// Calls of a sheet, made on the recorder and answered: what the programs that run a sheet have in common. What a line says is read by the
// crate line; which lines a program takes beside the calls, it says itself. The module tests has a whole run for the test programs.
#![tactic(auto)]

mod alter;
pub mod answer;
mod calls;
mod checksum;
mod make;
pub mod record;
pub mod run;
pub mod tests;

use calls::perform;
use line::words::after;
use record::names_one;
use recording::{Answer, Encoder};
use refusal::Refusal;
use run::{Call, Run};

// The memory of a run, of which each call is lent a part.
#[derive(Drop)]
pub struct Memory<'a> {
    pub records: &'a mut [u64],
    pub times: &'a mut [u64],
    pub work: &'a mut [u8],
    pub image: &'a mut [u8],
}

// The first so many elements, or all.
pub fn lent<T>(s: &mut [T], n: u64) -> &mut [T] {
    let end = s.len().min(n as usize);
    &mut s[..end]
}

// Makes a call on the lent part of each buffer; value is the text of a VCD value, or the bytes of a raw one.
pub fn make_call(
    run: &mut Run,
    call: Call,
    value: &[u8],
    memory: &mut Memory,
) -> Result<Answer, Refusal> {
    let outcome = perform(
        call,
        value,
        Encoder::from(run.state),
        lent(memory.records, run.records),
        lent(memory.times, run.lent.times),
        lent(memory.work, run.lent.work),
        lent(memory.image, run.lent.image),
    );
    run.keep(outcome);
    run.both = names_one(memory.records, run.records);
    outcome.answer
}

// The digits of a line's value, where values are given in hexadecimal.
pub fn value_digits(call: Call, line: &[u8]) -> &[u8] {
    match call {
        Call::Raw(_, _) => after(line, 3),
        _ => after(line, 2),
    }
}

// What parts the lines of a sheet. What follows the last line feed is a line too: an empty one says nothing.
pub fn is_line_feed(byte: &u8) -> bool {
    *byte == b'\n'
}
