// Unsigned LEB128 (DWARF) of 32-bit numbers, in its shortest form.
ghost use Rattle.std.specs.Prelude.{◌≡◌, ◌+◌, ◌≤◌, ◌<◌, length, drop, Some};
ghost use Rattle.std.proofs.lemmas.List.Edits.{sets};
ghost use Rattle.numbers.specs.Leb128.{leb_of, leb_at, read_leb, above, under};

// How many bytes the form of v has.
pub fn leb128_len(v: u32) -> usize
    ensures { result ≡ length (leb_of v) }
{
    match v {
        0..=0x7f => 1,
        0x80..=0x3fff => 2,
        0x4000..=0x1f_ffff => 3,
        0x20_0000..=0xfff_ffff => 4,
        _ => 5,
    }
}

// Writes the form of v from at on, and answers the place after it.
pub fn put_leb128(buf: &mut [u8], at: usize, v: u32) -> usize
    requires { at + length (leb_of v) ≤ length buf.old }
    ensures { (result ≡ at + length (leb_of v)) × (buf.new ≡ sets buf.old at (leb_of v)) }
{
    // not a `for`: what is left of the number says when the walk ends
    let mut x = v;
    let mut i = at;
    while 128 <= x {
        buf[i] = (x % 128 + 128) as u8;
        x /= 128;
        i += 1;
    }
    buf[i] = x as u8;
    i + 1
}

// The number that ends with a last byte b, above groups of the value v that weigh so much together.
fn ended(v: u64, weight: u64, b: u32, next: usize) -> Option<(u32, usize)>
    requires { (v < weight) × (weight ≤ 268435456) × (b < 128) }
    ensures { result ≡ under v weight (Some (b, next)) }
{
    if b == 0 {
        return None;
    }
    let sum = u32::try_from(v + u64::from(b) * weight).ok()?;
    Some((sum, next))
}

// The number whose first byte, with its top bit set, is given, and whose further ones, at most four, stand from a place on.
fn longer(s: &[u8], at: usize, first: u32) -> Option<(u32, usize)>
    requires { (128 ≤ first) × (first < 256) × (at ≤ length s.now) }
    ensures { result ≡ above first (read_leb 4 at (drop at s.now)) }
{
    let mut v = u64::from(first) - 128;
    let mut weight: u64 = 128;
    for i in at..at + 4 {
        let b = u32::from(*s.get(i)?);
        if b < 128 {
            return ended(v, weight, b, i + 1);
        }
        v += (u64::from(b) - 128) * weight;
        weight *= 128;
    }
    None
}

// The number that stands at a place, and the place after it; none where no shortest form of a 32-bit number stands.
pub fn get_leb128(s: &[u8], at: usize) -> Option<(u32, usize)>
    ensures { result ≡ leb_at s.now at }
{
    // most numbers have one byte: they do without a loop
    let b = u32::from(*s.get(at)?);
    if b < 128 {
        return Some((b, at + 1));
    }
    longer(s, at + 1, b)
}
