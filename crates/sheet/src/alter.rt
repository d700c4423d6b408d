// Which line is what, and what another hand does to the state and to lent memory between two calls.
use crate::run::{Call, Lent, Run, low};
use line::hex::put_hex;
use line::words::word;
use text::number::number;

// What is to be done for a line, beside what `read` does.
#[derive(Clone, Copy)]
pub enum Task {
    Make(Call),
    Record,
    PokeWork,
    PokeImage,
}

fn number_at(line: &[u8], k: usize) -> u64 {
    number(word(line, k))
}

// `lend TIMES WORK IMAGE`.
fn take_lend(run: &mut Run, line: &[u8]) {
    run.lent = Lent {
        times: number_at(line, 1),
        work: number_at(line, 2),
        image: number_at(line, 3),
    };
}

// `start S B KIND ..`; nothing where there is another count of kinds than of the probes that were named.
fn start_of(run: &Run, line: &[u8]) -> Option<Task> {
    if !run.is_named(line) {
        return None;
    }
    let call = run.start(low(number_at(line, 1)), low(number_at(line, 2)));
    Some(Task::Make(call))
}

// `poke BUFFER PLACE HEX`; the buffer is `work` or `image`.
fn poke_of(line: &[u8]) -> Task {
    match word(line, 1) {
        b"work" => Task::PokeWork,
        _ => Task::PokeImage,
    }
}

// A line of the crate line.
fn call_of(run: &mut Run, line: &[u8]) -> Option<Task> {
    match run.take_line(line) {
        Ok(Some(call)) => Some(Task::Make(call)),
        _ => None,
    }
}

// Takes a line into the run, and answers what is left to be done, if anything is.
pub fn read(run: &mut Run, line: &[u8]) -> Option<Task> {
    match word(line, 0) {
        b"lend" => {
            take_lend(run, line);
            None
        }
        b"start" => start_of(run, line),
        // `set FIELD N`; false is 0
        b"set" => {
            run.state.set(word(line, 1), number_at(line, 2));
            None
        }
        b"record" => Some(Task::Record),
        b"poke" => Some(poke_of(line)),
        _ => call_of(run, line),
    }
}

// Writes the bytes of a poke.
pub fn poke(buffer: &mut [u8], line: &[u8]) {
    let place = number_at(line, 2) as usize;
    if place <= buffer.len() {
        put_hex(&mut buffer[place..], word(line, 3));
    }
}
