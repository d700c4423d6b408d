// Reading one line of a sheet of calls, as waverec takes it. A line is given without its line feed; any bytes are read.
//
// `read_line` answers which call the line makes, with its numbers. Of the parts of a line that have no fixed length it answers nothing:
// `words::after` hands out a VCD value's text, `hex::put_hex` writes a raw value's bytes, `probes::put_probes` the probes of a line that names
// them and `kinds::put_kinds` the records of a start.
// The contracts cite specs/Line.antt. No public function has a `requires`.
#![tactic(auto)]

pub mod hex;
pub mod kinds;
pub mod probes;
pub mod words;

ghost use Rattle.std.specs.Prelude.{◌≡◌};
ghost use Rattle.line.specs.Line.{lend_of, edition_of, probes_of, sender_of, start_of, time_of, vcd_of, raw_of, real_of, call_of, line_of};
ghost use Rattle.line.specs.Command.{shown, said};

use digits::{bits, decimal, decimal_32};
use hex::is_hex;
use kinds::has_kinds;
use probes::has_probes;
use words::{after, spells, word};

// How many times a line may lend at most, and how many bytes of work and of image.
const MAX_TIMES: u64 = 65535;

const MAX_BYTES: u64 = 1048576;

// What a line asks for, with its numbers.
#[derive(Clone, Copy)]
pub enum Command {
    // A comment or an empty line.
    Nothing,
    // How many times, work bytes and image bytes.
    Lend(u64, u64, u64),
    // The edition of the skip rule that the starts after it choose.
    Edition(u32),
    // The probes that the records of the starts after it name.
    Probes,
    // The sender of the times and changes after it.
    Sender(u32),
    // S and B.
    Start(u32, u32),
    Time(u64),
    // The signal.
    Vcd(u32),
    // The signal and the claim.
    Raw(u32, u32),
    // The signal and the bits.
    Real(u32, u64),
    Finish,
    // A case, and no Option around the others: a sheet tells it in the one match over its lines, which would be no plainer by two.
    NotUnderstood,
}

// `lend TIMES WORK IMAGE`.
fn read_lend(line: &[u8]) -> Option<Command>
    ensures { said line.now result ≡ lend_of line.now }
{
    let times = decimal(word(line, 1), MAX_TIMES)?;
    let work = decimal(word(line, 2), MAX_BYTES)?;
    let image = decimal(after(line, 3), MAX_BYTES)?;
    Some(Command::Lend(times, work, image))
}

// `edition N`.
fn read_edition(line: &[u8]) -> Option<Command>
    ensures { said line.now result ≡ edition_of line.now }
{
    Some(Command::Edition(decimal_32(after(line, 1))?))
}

// `probes P P ...`.
fn read_probes(line: &[u8]) -> Option<Command>
    ensures { said line.now result ≡ probes_of line.now }
{
    has_probes(line).then_some(Command::Probes)
}

// `sender N`.
fn read_sender(line: &[u8]) -> Option<Command>
    ensures { said line.now result ≡ sender_of line.now }
{
    Some(Command::Sender(decimal_32(after(line, 1))?))
}

// `start S B KIND KIND ...`.
fn read_start(line: &[u8]) -> Option<Command>
    ensures { said line.now result ≡ start_of line.now }
{
    let signals = decimal_32(word(line, 1))?;
    let limit = decimal_32(word(line, 2))?;
    has_kinds(line).then_some(Command::Start(signals, limit))
}

// `time N`.
fn read_time(line: &[u8]) -> Option<Command>
    ensures { said line.now result ≡ time_of line.now }
{
    Some(Command::Time(decimal(after(line, 1), u64::MAX)?))
}

// `vcd SIGNAL TEXT`.
fn read_vcd(line: &[u8]) -> Option<Command>
    ensures { said line.now result ≡ vcd_of line.now }
{
    Some(Command::Vcd(decimal_32(word(line, 1))?))
}

// `raw SIGNAL CLAIM HEX`.
fn read_raw(line: &[u8]) -> Option<Command>
    ensures { said line.now result ≡ raw_of line.now }
{
    let signal = decimal_32(word(line, 1))?;
    let claim = decimal_32(word(line, 2))?;
    is_hex(after(line, 3)).then_some(Command::Raw(signal, claim))
}

// `real SIGNAL HEX16`.
fn read_real(line: &[u8]) -> Option<Command>
    ensures { said line.now result ≡ real_of line.now }
{
    let signal = decimal_32(word(line, 1))?;
    let bits = bits(after(line, 2))?;
    Some(Command::Real(signal, bits))
}

// A line that is neither empty nor a comment; its first word says which call it makes.
fn read_call(line: &[u8]) -> Option<Command>
    ensures { said line.now result ≡ call_of line.now }
{
    let name = word(line, 0);
    if spells(name, b"lend") {
        read_lend(line)
    } else if spells(name, b"start") {
        read_start(line)
    } else if spells(name, b"time") {
        read_time(line)
    } else if spells(name, b"edition") {
        read_edition(line)
    } else if spells(name, b"probes") {
        read_probes(line)
    } else if spells(name, b"sender") {
        read_sender(line)
    } else if spells(name, b"vcd") {
        read_vcd(line)
    } else if spells(name, b"raw") {
        read_raw(line)
    } else if spells(name, b"real") {
        read_real(line)
    } else {
        spells(line, b"finish").then_some(Command::Finish)
    }
}

// What a line says.
pub fn read_line(line: &[u8]) -> Command
    ensures { shown line.now result ≡ line_of line.now }
{
    if line.is_empty() || line[0] == b'#' {
        return Command::Nothing;
    }
    read_call(line).unwrap_or(Command::NotUnderstood)
}
