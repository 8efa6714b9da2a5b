// A fixed pseudo-random sequence: Park and Miller's minimal standard generator.

// The modulus, a prime, and the multiplier.
const MODULUS: u64 = 2147483647;

const MULTIPLIER: u64 = 48271;

// The first state.
pub const SEED: u64 = 20050830;

// The next number of the sequence, below n, and 0 where n is 0. One number in n is 0.
pub fn roll(state: &mut u64, n: usize) -> usize {
    let next = *state % MODULUS * MULTIPLIER % MODULUS;
    *state = next;
    if n == 0 {
        return 0;
    }
    next as usize % n
}
