// Sheets of the test programs: those that the crate line reads, but that a VCD value is given in hexadecimal, with lines that lend other
// amounts, start with more records or alter memory. Each call is answered, as oracle/README.md and oracle/recorder.py
// say. After a refusal the state and all memory are held against their checksum.
use crate::alter::{Task, poke, read};
use crate::make::make;
use crate::record::{no_records, put_record};
use crate::run::Run;
use crate::{Memory, is_line_feed};
use std::io;
use std::io::{Read, Write};
use text::read_full;

fn take_line<W: Write>(
    to: &mut W,
    run: &mut Run,
    line: &[u8],
    memory: &mut Memory,
    held: bool,
) -> io::Result<()> {
    match read(run, line) {
        Some(Task::Make(call)) => make(to, run, call, line, memory, held)?,
        Some(Task::Record) => put_record(memory.records, line),
        Some(Task::PokeWork) => poke(memory.work, line),
        Some(Task::PokeImage) => poke(memory.image, line),
        None => {}
    }
    Ok(())
}

// Makes the calls of a sheet in memory of its own.
fn take_sheet<W: Write>(to: &mut W, sheet: &[u8], held: bool) -> io::Result<()> {
    let mut run = Run::fresh(65535, 16384, 16384);
    let mut memory = Memory {
        records: &mut no_records(),
        times: &mut [0u64; 65536],
        work: &mut [0u8; 65536],
        image: &mut [0u8; 262164],
    };
    for line in sheet.split(is_line_feed) {
        take_line(to, &mut run, line, &mut memory, held)?;
    }
    Ok(())
}

// Replays the sheet that is read. Memory is held against its checksum where `held`.
pub fn replay<R: Read, W: Write>(from: &mut R, to: &mut W, held: bool) -> io::Result<()> {
    let mut sheet = [0u8; 262144];
    let n = read_full(from, &mut sheet)?;
    take_sheet(to, &sheet[..n], held)
}
