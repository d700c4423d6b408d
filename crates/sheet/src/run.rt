// What a run of a sheet holds between two lines.
use line::probes::put_probes;
use line::words::{after, count_words};
use line::{Command, read_line};
use recording::{EDITION_1, Encoder, Outcome, ProbeSkip, Settings, Skips, Stamp, Target};
use signal::SignalRef;

// The recorder's state, each field as a number that a sheet may set; flags are 0 or 1. Of the skips' fields those of probe 0 come first.
#[derive(Clone, Copy)]
pub struct State {
    pub closed: u64,
    pub limit: u64,
    pub signals: u64,
    pub held: u64,
    pub work: u64,
    pub image: u64,
    pub blocks: u64,
    pub skip: u64,
    pub skipped: u64,
    pub edition: u64,
    pub skip_1: u64,
    pub skipped_1: u64,
}

// How many times, work bytes and image bytes are lent.
#[derive(Clone, Copy)]
pub struct Lent {
    pub times: u64,
    pub work: u64,
    pub image: u64,
}

// A call of the recorder, with what it is given beside lent memory and a value; of a raw value the claim, of a real its bits.
#[derive(Clone, Copy)]
pub enum Call {
    Start(Settings),
    Time(Stamp),
    Vcd(Target),
    Raw(Target, u32),
    Real(Target, u64),
    Finish,
}

// A line that is not understood.
#[derive(Clone, Copy, Debug)]
pub struct NotUnderstood;

#[derive(Clone, Copy)]
pub struct Run {
    pub state: State,
    // How many records the recording has, and whether one of them names probe 1.
    pub records: u64,
    pub both: bool,
    pub lent: Lent,
    // The edition that a line chose last: the next start is given it. An open recording keeps its own.
    edition: u32,
    // The sender that a line chose last: the next times and changes are given it.
    sender: u32,
    // How many words the last line of probes has, if there was one, and the probes that it named; 0 before.
    named: Option<usize>,
    pub probes: [u64; 256],
}

pub fn low(n: u64) -> u32 {
    (n % 4294967296) as u32
}

impl State {
    // Before the first start nothing is open.
    fn fresh() -> State {
        State {
            closed: 1,
            limit: 0,
            signals: 0,
            held: 0,
            work: 0,
            image: 0,
            blocks: 0,
            skip: 0,
            skipped: 0,
            edition: 0,
            skip_1: 0,
            skipped_1: 0,
        }
    }

    // Sets the field of a name, if there is one.
    pub fn set(&mut self, name: &[u8], n: u64) {
        match name {
            b"closed" => self.closed = n,
            b"limit" => self.limit = n,
            b"signals" => self.signals = n,
            b"held" => self.held = n,
            b"work" => self.work = n,
            b"image" => self.image = n,
            b"blocks" => self.blocks = n,
            b"skip" => self.skip = n,
            b"skipped" => self.skipped = n,
            b"edition" => self.edition = n,
            b"skip_1" => self.skip_1 = n,
            b"skipped_1" => self.skipped_1 = n,
            _ => {}
        }
    }

    // All fields, for a checksum.
    pub fn numbers(&self) -> [u64; 12] {
        [
            self.closed,
            self.limit,
            self.signals,
            self.held,
            self.work,
            self.image,
            self.blocks,
            self.skip,
            self.skipped,
            self.edition,
            self.skip_1,
            self.skipped_1,
        ]
    }
}

impl From<Encoder> for State {
    fn from(state: Encoder) -> State {
        let Skips { zero, one } = state.skips;
        State {
            closed: u64::from(state.closed),
            limit: u64::from(state.limit),
            signals: u64::from(state.signals),
            held: u64::from(state.held),
            work: state.work,
            image: u64::from(state.image),
            blocks: u64::from(state.blocks),
            skip: u64::from(zero.on),
            skipped: u64::from(zero.count),
            edition: u64::from(state.edition),
            skip_1: u64::from(one.on),
            skipped_1: u64::from(one.count),
        }
    }
}

impl From<State> for Encoder {
    fn from(state: State) -> Encoder {
        let zero = ProbeSkip {
            on: state.skip != 0,
            count: low(state.skipped),
        };
        let one = ProbeSkip {
            on: state.skip_1 != 0,
            count: low(state.skipped_1),
        };
        Encoder {
            closed: state.closed != 0,
            limit: low(state.limit),
            signals: low(state.signals),
            held: low(state.held),
            work: state.work,
            image: low(state.image),
            blocks: low(state.blocks),
            edition: low(state.edition),
            skips: Skips { zero, one },
        }
    }
}

impl Run {
    // Before the first start; starts choose edition 1, and the sender and all probes are 0.
    pub fn fresh(times: u64, work: u64, image: u64) -> Run {
        Run {
            state: State::fresh(),
            records: 0,
            both: false,
            lent: Lent { times, work, image },
            edition: EDITION_1,
            sender: 0,
            named: None,
            probes: [0u64; 256],
        }
    }

    // The run after a call.
    pub fn keep(&mut self, outcome: Outcome) {
        self.state = State::from(outcome.state);
    }

    // A start has a kind for each probe of the last line that named probes, if there was one: B and the kinds are as many words as that line has.
    pub fn is_named(&self, line: &[u8]) -> bool {
        match self.named {
            Some(words) => words == count_words(after(line, 2)),
            None => true,
        }
    }

    // A start by the edition that was chosen.
    pub fn start(&self, signals: u32, limit: u32) -> Call {
        Call::Start(Settings {
            limit,
            signals,
            edition: self.edition,
        })
    }

    // A change by the sender that was chosen.
    fn target(&self, signal: u32) -> Target {
        Target {
            sender: self.sender,
            signal: SignalRef(signal),
        }
    }

    fn stamp(&self, time: u64) -> Stamp {
        Stamp {
            sender: self.sender,
            time,
        }
    }

    // Takes in what a line says of the lines after it.
    fn take_choice(&mut self, line: &[u8], command: Command) {
        match command {
            Command::Lend(times, work, image) => self.lent = Lent { times, work, image },
            Command::Edition(edition) => self.edition = edition,
            Command::Sender(sender) => self.sender = sender,
            Command::Probes => {
                self.named = Some(count_words(line));
                put_probes(&mut self.probes, line);
            }
            _ => {}
        }
    }

    // Takes in what a line says, and answers the call that it makes, if it makes one.
    pub fn take_line(&mut self, line: &[u8]) -> Result<Option<Call>, NotUnderstood> {
        match read_line(line) {
            Command::Start(signals, limit) => {
                if !self.is_named(line) {
                    return Err(NotUnderstood);
                }
                Ok(Some(self.start(signals, limit)))
            }
            Command::Time(time) => Ok(Some(Call::Time(self.stamp(time)))),
            Command::Vcd(signal) => Ok(Some(Call::Vcd(self.target(signal)))),
            Command::Raw(signal, claim) => Ok(Some(Call::Raw(self.target(signal), claim))),
            Command::Real(signal, bits) => Ok(Some(Call::Real(self.target(signal), bits))),
            Command::Finish => Ok(Some(Call::Finish)),
            Command::NotUnderstood => Err(NotUnderstood),
            command => {
                self.take_choice(line, command);
                Ok(None)
            }
        }
    }
}
