// The probes that the records of later starts name, which are the words of their line after the first.
ghost use Rattle.std.specs.Prelude.{◌≡◌, is_some, set};
ghost use Rattle.std.proofs.lemmas.List.Edits.{sets};
ghost use Rattle.line.specs.Line.{number32, probes_in};
ghost use Rattle.line.specs.Command.{probe_list, put_number};

use crate::words::{FromWord, count_words, has_words, word};
use digits::decimal_32;

// A number of 32 bits.
impl FromWord for u32 {
    ghost of_word = { number32 };

    fn from_word(w: &[u8]) -> Option<u32> {
        decimal_32(w)
    }
}

// The words after the first are numbers of 32 bits, at most 256.
pub fn has_probes(line: &[u8]) -> bool
    ensures { result ≡ is_some (probes_in line.now) }
{
    has_words::<u32>(line, 1)
}

// Stores a number; past the end nothing is written.
fn put(out: &mut [u64], at: usize, n: u64)
    ensures { out.new ≡ set out.old at n }
{
    if at < out.len() {
        out[at] = n;
    }
}

// Stores the number that a word is.
fn put_number(out: &mut [u64], at: usize, w: &[u8])
    ensures { out.new ≡ put_number out.old at (number32 w.now) }
{
    if let Some(n) = decimal_32(w) {
        put(out, at, u64::from(n));
    }
}

// Writes the probes to the start of out, as far as there is room. A line whose probes are not understood has none.
pub fn put_probes(out: &mut [u64], line: &[u8])
    ensures { out.new ≡ sets out.old 0 (probe_list line.now) }
{
    if !has_probes(line) {
        return;
    }
    for k in 1..count_words(line) {
        put_number(out, k - 1, word(line, k));
    }
}
