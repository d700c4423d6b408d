// Whole runs of bytes: copied from one slice into another, or one byte over and over.
#![tactic(auto)]

ghost use Rattle.std.specs.Prelude.{◌≡◌, ◌+◌, ◌≤◌, length, take, drop, replicate};
ghost use Rattle.std.proofs.lemmas.List.Edits.{sets};

// Copies count bytes of src from a place on to a place of out, and answers the place after them.
pub fn put_part(out: &mut [u8], at: usize, src: &[u8], from: usize, count: usize) -> usize
    requires { (at + count ≤ length out.old) × (from + count ≤ length src.now) }
    ensures { (result ≡ at + count) × (out.new ≡ sets out.old at (take count (drop from src.now))) }
{
    // not copy_from_slice: that becomes a call of memmove, which the C interface does not ask of its users
    for i in 0..count {
        out[at + i] = src[from + i];
    }
    at + count
}

// Writes a byte so many times from a place of out on, and answers the place after them.
pub fn put_same(out: &mut [u8], at: usize, byte: u8, count: usize) -> usize
    requires { at + count ≤ length out.old }
    ensures { (result ≡ at + count) × (out.new ≡ sets out.old at (replicate count byte)) }
{
    out[at..at + count].fill(byte);
    at + count
}
