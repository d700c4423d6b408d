// Calls made on what is lent, and answered.
use crate::answer::print_made;
use crate::checksum::checksum;
use crate::record::{no_records, put_records};
use crate::run::{Call, Run};
use crate::{Memory, make_call, value_digits};
use line::hex::put_hex;
use std::io;
use std::io::Write;
use text::before;

// Makes a call, prints its answer, and answers whether it was refused. Memory is held against its checksum where `held`.
fn make_held<W: Write>(
    to: &mut W,
    run: &mut Run,
    call: Call,
    value: &[u8],
    memory: &mut Memory,
    held: bool,
) -> io::Result<bool> {
    let sum = checksum(&run.state, memory);
    let answer = make_call(run, call, value, memory);
    let moved = held && sum != checksum(&run.state, memory);
    print_made(to, run, answer, moved, memory.image)?;
    Ok(answer.is_err())
}

// A start finds records of its kinds. After one that was refused the recording has its records again.
fn make_start<W: Write>(
    to: &mut W,
    run: &mut Run,
    call: Call,
    line: &[u8],
    memory: &mut Memory,
    held: bool,
) -> io::Result<()> {
    let mut saved = no_records();
    copy(memory.records, &mut saved);
    let kept = run.records;
    run.records = put_records(memory.records, line, &run.probes) as u64;
    if make_held(to, run, call, b"", memory, held)? {
        copy(&saved, memory.records);
        run.records = kept;
    }
    Ok(())
}

fn copy(from: &[u64], to: &mut [u64]) {
    let n = from.len().min(to.len());
    to[..n].copy_from_slice(&from[..n]);
}

// Makes the call of a line.
pub fn make<W: Write>(
    to: &mut W,
    run: &mut Run,
    call: Call,
    line: &[u8],
    memory: &mut Memory,
    held: bool,
) -> io::Result<()> {
    if let Call::Start(_) = call {
        return make_start(to, run, call, line, memory, held);
    }
    let mut space = [0u8; 16384];
    let n = put_hex(&mut space, value_digits(call, line));
    make_held(to, run, call, before(&space, n), memory, held)?;
    Ok(())
}
