// A number by which memory is held against what it was: where one place alone differs, so does the number.
use crate::Memory;
use crate::run::State;

// The multiplier is odd, so no difference is lost at 2^54.
fn mixed(sum: u64, x: u64) -> u64 {
    sum % 18014398509481984 * 257 + x % 4294967296
}

// A number of 64 bits by its halves.
fn mixed_wide(sum: u64, x: u64) -> u64 {
    mixed(mixed(sum, x), x / 4294967296)
}

fn mixed_numbers(sum: u64, s: &[u64]) -> u64 {
    s.iter().fold(sum, |r, x| mixed_wide(r, *x))
}

fn mixed_bytes(sum: u64, s: &[u8]) -> u64 {
    s.iter().fold(sum, |r, x| mixed(r, u64::from(*x)))
}

// The number of the state and of all memory.
pub fn checksum(state: &State, memory: &Memory) -> u64 {
    let sum = mixed_numbers(mixed_numbers(0, &state.numbers()), memory.records);
    mixed_bytes(
        mixed_bytes(mixed_numbers(sum, memory.times), memory.work),
        memory.image,
    )
}
