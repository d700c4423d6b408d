// Little-endian integers of four and eight bytes.
ghost use Rattle.std.specs.Prelude.{◌≡◌, ◌+◌, ◌≤◌, length, take, drop};
ghost use Rattle.std.proofs.lemmas.List.Edits.{sets};
ghost use Rattle.numbers.specs.LittleEndian.{le, unle};

// Writes the bytes of a number from a place on, the first one first, and answers the place after them.
fn put_bytes<const N: usize>(buf: &mut [u8], at: usize, bytes: [u8; N]) -> usize
    requires { at + N ≤ length buf.old }
    ensures { (result ≡ at + N) × (buf.new ≡ sets buf.old at bytes.entry) }
{
    // not copy_from_slice: docs/FORMAT.md tells what a cut leaves that is broken off, byte by byte, by the order of the stores
    for i in 0..N {
        buf[at + i] = bytes[i];
    }
    at + N
}

// The bytes of a number from a place on.
fn bytes_at<const N: usize>(s: &[u8], at: usize) -> [u8; N]
    requires { at + N ≤ length s.now }
    ensures { result ≡ take N (drop at s.now) }
{
    let mut bytes = [0; N];
    bytes.copy_from_slice(&s[at..at + N]);
    bytes
}

// Writes a number from a place on, and answers the place after it.
#[tactic(auto, using(crate::proofs::LittleEndianLaws::written_4))]
pub fn put_u32(buf: &mut [u8], at: usize, v: u32) -> usize
    requires { at + 4 ≤ length buf.old }
    ensures { (result ≡ at + 4) × (buf.new ≡ sets buf.old at (le 4 v)) }
{
    put_bytes::<4>(buf, at, v.to_le_bytes())
}

// The number from a place on.
#[tactic(auto, using(crate::proofs::LittleEndianLaws::read_4))]
pub fn get_u32(s: &[u8], at: usize) -> u32
    requires { at + 4 ≤ length s.now }
    ensures { result ≡ unle (take 4 (drop at s.now)) }
{
    u32::from_le_bytes(bytes_at(s, at))
}

// The same in 8 bytes.
#[tactic(auto, using(crate::proofs::LittleEndianLaws::written_8))]
pub fn put_u64(buf: &mut [u8], at: usize, v: u64) -> usize
    requires { at + 8 ≤ length buf.old }
    ensures { (result ≡ at + 8) × (buf.new ≡ sets buf.old at (le 8 v)) }
{
    put_bytes::<8>(buf, at, v.to_le_bytes())
}

// The same in 8 bytes.
#[tactic(auto, using(crate::proofs::LittleEndianLaws::read_8))]
pub fn get_u64(s: &[u8], at: usize) -> u64
    requires { at + 8 ≤ length s.now }
    ensures { result ≡ unle (take 8 (drop at s.now)) }
{
    u64::from_le_bytes(bytes_at(s, at))
}
