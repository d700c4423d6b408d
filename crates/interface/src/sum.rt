// A plain loop over bytes: bench/ holds the opener's speed against it.
ghost use Rattle.std.specs.Prelude.{◌≡◌};
ghost use Rattle.interface.specs.Sum.{sum_from};

// The sum of the bytes, of which 64 bits are kept.
#[unsafe(no_mangle)]
pub extern "C" fn wejumo_sum(bytes: &[u8]) -> u64
    ensures { result ≡ sum_from 0 bytes.now }
{
    let mut sum: u64 = 0;
    for b in bytes {
        sum = sum.wrapping_add(u64::from(*b));
    }
    sum
}
