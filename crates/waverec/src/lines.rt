// A sheet, line by line.
use line::hex::put_hex;
use line::kinds::put_kinds;
use line::words::after;
use sheet::answer::print_answer;
use sheet::run::{Call, Run};
use sheet::{Memory, is_line_feed, make_call};
use std::io;
use std::io::Write;
use text::{before, print};

// Says why a call is not handed on, but in a quiet run.
fn turn_away<W: Write>(to: &mut W, quiet: bool, why: &[u8]) -> io::Result<bool> {
    if !quiet {
        print(to, why)?;
    }
    Ok(false)
}

// Whether a call is handed on: a start until one is accepted, which leaves a B that is not 0; any other call from then on.
fn is_handed_on<W: Write>(to: &mut W, run: &Run, call: Call, quiet: bool) -> io::Result<bool> {
    let started = run.state.limit != 0;
    match call {
        Call::Start(_) if started => turn_away(to, quiet, b"already started\n"),
        Call::Start(_) => Ok(true),
        _ if started => Ok(true),
        _ => turn_away(to, quiet, b"not started\n"),
    }
}

// Makes a call on a value, and answers it but in a quiet run.
fn answer_call<W: Write>(
    to: &mut W,
    run: &mut Run,
    call: Call,
    value: &[u8],
    memory: &mut Memory,
    quiet: bool,
) -> io::Result<()> {
    let answer = make_call(run, call, value, memory);
    if !quiet {
        print_answer(to, run, answer)?;
        write!(to, "\n")?;
    }
    Ok(())
}

// A raw value's bytes stand in memory of their own, which other calls do not pay for: a line of a sheet has fewer than 32,768 of them.
fn take_raw<W: Write>(
    to: &mut W,
    run: &mut Run,
    call: Call,
    line: &[u8],
    memory: &mut Memory,
    quiet: bool,
) -> io::Result<()> {
    let mut bytes = [0u8; 32768];
    let n = put_hex(&mut bytes, after(line, 3));
    answer_call(to, run, call, before(&bytes, n), memory, quiet)
}

// Takes a call that is handed on, of which a start has its records, with the probes that were named for them. Of a VCD value the text is taken.
fn take_call<W: Write>(
    to: &mut W,
    run: &mut Run,
    call: Call,
    line: &[u8],
    memory: &mut Memory,
    quiet: bool,
) -> io::Result<()> {
    if !is_handed_on(to, run, call, quiet)? {
        return Ok(());
    }
    match call {
        Call::Raw(_, _) => take_raw(to, run, call, line, memory, quiet),
        Call::Start(_) => {
            run.records = put_kinds(memory.records, line, &run.probes) as u64;
            answer_call(to, run, call, after(line, 2), memory, quiet)
        }
        _ => answer_call(to, run, call, after(line, 2), memory, quiet),
    }
}

// The total of the image that a finish left; 0 before.
fn total(run: &Run) -> usize {
    if run.state.closed == 0 {
        return 0;
    }
    run.state.image as usize
}

// Takes each line, and answers the total of the image that a finish left; 0 where there is none to show, or a line is not understood,
// which ends the sheet.
pub fn take_lines<W: Write>(
    to: &mut W,
    run: &mut Run,
    sheet: &[u8],
    memory: &mut Memory,
    quiet: bool,
) -> io::Result<usize> {
    let mut number: u64 = 0;
    for line in sheet.split(is_line_feed) {
        number = number.saturating_add(1);
        match run.take_line(line) {
            Ok(Some(call)) => take_call(to, run, call, line, memory, quiet)?,
            Ok(None) => {}
            Err(_) => {
                if !quiet {
                    write!(to, "line {number}: not understood\n")?;
                }
                return Ok(0);
            }
        }
    }
    Ok(total(run))
}
