// The answers of the calls on images, as numbers.
ghost use Rattle.std.specs.Prelude.{◌≡◌, ◌-◌, ◌≤◌};
ghost use Rattle.joined.specs.Join.{join_reply};
ghost use Rattle.loaded.specs.Reader.{load_reply, table_reply, cursor_reply, entry_reply};
ghost use Rattle.interface_answers.specs.Answered.{load_numbers_of, table_numbers_of, join_numbers_of, content_of, cursor_numbers_of, entry_numbers_of};
ghost use Rattle.entry_answer.specs.Answer.{answer_reply};

use loaded::{Found, Loaded};
use refusal::Refusal;
use value::real::{Entry, SignalValue};
use walk_part::StreamPart;

// `value` is the number of kept entries, `class` the signal's.
#[repr(C)]
#[derive(Clone, Copy)]
pub struct LoadNumbers {
    pub answer: u32,
    pub value: u32,
    pub class: u32,
}

// `value` is the combined table's length.
#[repr(C)]
#[derive(Clone, Copy)]
pub struct TableNumbers {
    pub answer: u32,
    pub value: u32,
}

// `value` is the joined image's total.
#[repr(C)]
#[derive(Clone, Copy)]
pub struct JoinNumbers {
    pub answer: u32,
    pub value: u32,
}

// A part of an image.
#[repr(C)]
#[derive(Clone, Copy)]
pub struct PartNumbers {
    pub from: usize,
    pub length: usize,
}

// An event (0), a vector (1) with its own class, or a real (2) with its bits.
#[repr(C)]
#[derive(Clone, Copy)]
pub struct ContentNumbers {
    pub form: u32,
    pub class: u32,
    pub bits: u64,
}

// `value` is the entry's number.
#[repr(C)]
#[derive(Clone, Copy)]
pub struct CursorNumbers {
    pub answer: u32,
    pub value: u32,
    pub time: u64,
    pub content: ContentNumbers,
}

// `value` is 0, or the refusal's number.
#[repr(C)]
#[derive(Clone, Copy)]
pub struct EntryNumbers {
    pub answer: u32,
    pub value: u32,
    pub content: ContentNumbers,
}

// The answer of a load: 8, or 0 with the refusal's number.
impl From<Result<Loaded, Refusal>> for LoadNumbers {
    ghost from_gives = { λ answer r. r ≡ load_numbers_of (load_reply answer) };

    fn from(answer: Result<Loaded, Refusal>) -> LoadNumbers {
        match answer {
            Ok(loaded) => LoadNumbers {
                answer: 8,
                value: loaded.count,
                class: loaded.class.number() as u32,
            },
            Err(refusal) => LoadNumbers {
                answer: 0,
                value: refusal.number(),
                class: 0,
            },
        }
    }
}

// The answer of the combined table: 9, or 0 with the refusal's number.
impl From<Result<u32, Refusal>> for TableNumbers {
    ghost from_gives = { λ answer r. r ≡ table_numbers_of (table_reply answer) };

    fn from(answer: Result<u32, Refusal>) -> TableNumbers {
        match answer {
            Ok(length) => TableNumbers {
                answer: 9,
                value: length,
            },
            Err(refusal) => TableNumbers {
                answer: 0,
                value: refusal.number(),
            },
        }
    }
}

// The answer of a join: 14, or 0 with the refusal's number.
impl From<Result<u32, Refusal>> for JoinNumbers {
    ghost from_gives = { λ answer r. r ≡ join_numbers_of (join_reply answer) };

    fn from(answer: Result<u32, Refusal>) -> JoinNumbers {
        match answer {
            Ok(total) => JoinNumbers {
                answer: 14,
                value: total,
            },
            Err(refusal) => JoinNumbers {
                answer: 0,
                value: refusal.number(),
            },
        }
    }
}

// A stream's place in its image. No From: it asks that the part ends at or after its begin.
pub fn part_numbers(part: StreamPart) -> PartNumbers
    requires { part.from ≤ part.to }
    ensures { (result.from ≡ part.from) × (result.length ≡ part.to - part.from) }
{
    PartNumbers {
        from: part.from,
        length: part.to - part.from,
    }
}

// What is answered where there is no content: all numbers are 0.
const NO_CONTENT: ContentNumbers = ContentNumbers {
    form: 0,
    class: 0,
    bits: 0,
};

// An entry's content. Of a real the bits are told, not the f64: they are exact for every pattern.
impl From<Entry> for ContentNumbers {
    ghost from_gives = { λ entry r. r ≡ content_of (entry_reply entry) };

    fn from(entry: Entry) -> ContentNumbers {
        let bits = entry.bits;
        let value = entry.value;
        match value {
            SignalValue::Event => ContentNumbers {
                form: 0,
                class: 0,
                bits,
            },
            SignalValue::BitVec(states) => ContentNumbers {
                form: 1,
                class: states.number() as u32,
                bits,
            },
            SignalValue::Real(_) => ContentNumbers {
                form: 2,
                class: 0,
                bits,
            },
        }
    }
}

// The answer of the cursor: 10, 11 where no entry is at or before the time, or 0 with the refusal's number.
impl From<Result<Option<Found>, Refusal>> for CursorNumbers {
    ghost from_gives = { λ answer r. r ≡ cursor_numbers_of (cursor_reply answer) };

    fn from(answer: Result<Option<Found>, Refusal>) -> CursorNumbers {
        match answer {
            Ok(Some(found)) => CursorNumbers {
                answer: 10,
                value: found.number,
                time: found.time,
                content: ContentNumbers::from(found.entry),
            },
            Ok(None) => CursorNumbers {
                answer: 11,
                value: 0,
                time: 0,
                content: NO_CONTENT,
            },
            Err(refusal) => CursorNumbers {
                answer: 0,
                value: refusal.number(),
                time: 0,
                content: NO_CONTENT,
            },
        }
    }
}

// The answer to one entry: 12, 13 where the bytes are no entry, or 0 with the refusal's number.
impl From<Result<Option<Entry>, Refusal>> for EntryNumbers {
    ghost from_gives = { λ answer r. r ≡ entry_numbers_of (answer_reply answer) };

    fn from(answer: Result<Option<Entry>, Refusal>) -> EntryNumbers {
        match answer {
            Ok(Some(entry)) => EntryNumbers {
                answer: 12,
                value: 0,
                content: ContentNumbers::from(entry),
            },
            Ok(None) => EntryNumbers {
                answer: 13,
                value: 0,
                content: NO_CONTENT,
            },
            Err(refusal) => EntryNumbers {
                answer: 0,
                value: refusal.number(),
                content: NO_CONTENT,
            },
        }
    }
}
