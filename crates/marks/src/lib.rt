// A set of small numbers in lent bytes, one bit each. Bytes of 0 are the empty set.
#![tactic(auto)]

ghost use Rattle.std.specs.Prelude.{◌≡◌, ◌||◌, ℕ, ◌*◌, ◌^◌, ◌<◌, length, eqb};
ghost use Rattle.marks.specs.Marks.{mark_at};

// The weight of a bit of a byte.
fn weight(k: u32) -> u8
    requires { k < 8 }
    ensures { result ≡ 2 ^ k }
{
    1 << k
}

// The number i is in the set.
pub fn is_marked(map: &[u8], i: usize) -> bool
    requires { i < 8 * length map.now }
    ensures { result ≡ mark_at map.now i }
{
    let byte = map[i / 8];
    byte / weight((i % 8) as u32) % 2 == 1
}

// Puts the number i into the set; every other number stays in or out.
pub fn mark(map: &mut [u8], i: usize)
    requires { i < 8 * length map.old }
    ensures { (length map.new ≡ length map.old) × ((j : ℕ) → mark_at map.new j ≡ (eqb j i || mark_at map.old j)) }
{
    let byte = map[i / 8];
    let bit = weight((i % 8) as u32);
    if byte / bit % 2 == 0 {
        map[i / 8] = byte + bit;
    }
}
