// The words of a line, parted by exactly one space.
ghost use Rattle.std.specs.Prelude.{◌==◌, ◌≡◌, List, Option, count_by, is_some, length, position, ℕ};
ghost use Rattle.lists.specs.Same.{same};
ghost use Rattle.line.specs.Words as spec;

// The place of the first space.
fn space(s: &[u8]) -> Option<usize>
    ensures { result ≡ position (λ b. b == 32) s.now }
{
    s.iter().position(|b| *b == b' ')
}

// What stands before the first space.
fn first_word(s: &[u8]) -> &[u8]
    ensures { result.now ≡ spec.word_of s.now }
{
    match space(s) {
        Some(at) => &s[..at],
        None => s,
    }
}

// What stands after the first space; nothing where there is none.
fn past_word(s: &[u8]) -> &[u8]
    ensures { result.now ≡ spec.past_word s.now }
{
    match space(s) {
        Some(at) => &s[at + 1..],
        None => &[],
    }
}

// What stands after the first k words and the space behind each.
pub fn after(s: &[u8], k: usize) -> &[u8]
    ensures { result.now ≡ spec.after k s.now }
{
    let mut rest = s;
    for _ in 0..k {
        rest = past_word(rest);
    }
    rest
}

// Word k, counted from 0; an empty one where there are fewer.
pub fn word(s: &[u8], k: usize) -> &[u8]
    ensures { result.now ≡ spec.word k s.now }
{
    first_word(after(s, k))
}

// How many spaces there are.
fn spaces(s: &[u8]) -> usize
    ensures { result ≡ count_by (λ b. b == 32) s.now }
{
    s.iter().filter(|b| **b == b' ').count()
}

// How many words there are.
pub fn count_words(s: &[u8]) -> usize
    ensures { result ≡ length (spec.words_of s.now) }
{
    spaces(s) + 1
}

// A word is this name.
pub fn spells(w: &[u8], name: &[u8]) -> bool
    ensures { result ≡ same w.now name.now }
{
    w == name
}

// What a word can stand for.
pub trait FromWord: Copy {
    // What is read of the word.
    ghost of_word: { List ℕ → Option Self };

    fn from_word(w: &[u8]) -> Option<Self>
        ensures { result ≡ of_word w.now };
}

// The words after the first so many stand for such, and are at most 256. Each is looked for behind the one before it.
pub fn has_words<T: FromWord>(line: &[u8], first: usize) -> bool
    ensures { result ≡ is_some (spec.each_in T.of_word first line.now) }
{
    let n = count_words(line);
    if 256 < n.saturating_sub(first) {
        return false;
    }
    let mut rest = after(line, first);
    for k in first..n {
        if T::from_word(first_word(rest)).is_none() {
            return false;
        }
        rest = past_word(rest);
    }
    true
}
