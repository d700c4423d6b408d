// Drives the recorder over an array of two records that the program owns: the bench sheet's recording, cuts, a skip in each edition, raw and real
// values, two probes, and each refusal of a recorder. Document 01, 'Recording', 'Turned back' and 'Bench sheet'; document 02, (j) and (k).
//
// Standard input has one call to a line, in the form of crates/refused/stdin; each is answered by a line. stdout is what
// oracle/recorder.py answers to the same sheet.
#![tactic(auto)]

mod calls;
mod two_records;

use calls::perform;
use line::hex::put_hex;
use recording::{Encoder, SignalRecord};
use sheet::answer::print_made;
use sheet::run::{Call, Run};
use sheet::{is_line_feed, lent, value_digits};
use std::io;
use std::io::Write;
use text::{before, read_full};
use two_records::{names_one, no_records, records_for};

// The memory that the program owns.
#[derive(Drop)]
struct Owned {
    records: [SignalRecord; 2],
    times: [u64; 4],
    work: [u8; 128],
    image: [u8; 128],
}

// Makes a call on what is lent, and answers it. A start finds records of its kinds, any other call those of the call before.
fn take_call<W: Write>(
    to: &mut W,
    run: &mut Run,
    call: Call,
    line: &[u8],
    memory: &mut Owned,
) -> io::Result<()> {
    if let Call::Start(_) = call {
        let found = records_for(line, &run.probes);
        memory.records = found;
    }
    let mut space = [0u8; 16];
    let n = put_hex(&mut space, value_digits(call, line));
    let held = memory.records;
    let kept = perform(
        call,
        before(&space, n),
        Encoder::from(run.state),
        held,
        lent(&mut memory.times, run.lent.times),
        lent(&mut memory.work, run.lent.work),
        lent(&mut memory.image, run.lent.image),
    );
    let left = kept.records;
    memory.records = left;
    run.both = names_one(left);
    run.keep(kept.outcome);
    print_made(to, run, kept.outcome.answer, false, &memory.image)
}

// Makes the calls of a sheet in memory of its own.
fn take_sheet<W: Write>(to: &mut W, sheet: &[u8]) -> io::Result<()> {
    let mut run = Run::fresh(4, 128, 128);
    let records = no_records();
    let times = [0u64; 4];
    let work = [0u8; 128];
    let image = [0u8; 128];
    let mut memory = Owned {
        records,
        times,
        work,
        image,
    };
    for line in sheet.split(is_line_feed) {
        if let Ok(Some(call)) = run.take_line(line) {
            take_call(to, &mut run, call, line, &mut memory)?;
        }
    }
    Ok(())
}

fn main(rt: HostRuntime) -> io::Result<()> {
    let mut sheet = [0u8; 8192];
    let n = read_full(&mut rt.stdin(), &mut sheet)?;
    take_sheet(&mut rt.stdout(), &sheet[..n])
}
