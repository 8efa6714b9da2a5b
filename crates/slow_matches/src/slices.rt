// Counts of hits.
use guards::{item_at, put};
use wrapping::sum;

// The number at a place, one more if there is a hit.
pub fn count_if(numbers: &mut [usize], at: usize, hit: bool) {
    let n = item_at(numbers, at);
    put(numbers, at, sum(n, hit as usize));
}
