// The library's matcher beside a slow one that is written from the paper's definition alone: the two are run over
// made-up stores and twigs, and every word that they answer is compared.
#![tactic(auto)]

mod choices;
mod comparing;
mod label_lists;
mod leaf_streams;
mod pairs;
mod random;
mod slices;
mod slow;
mod tables;
mod tally;
mod trees;
mod twig_making;
mod twig_parts;

use pairs::ask_store;
use random::SEED;
use std::io;
use tally::{KINDS, say};

// How many stores there are.
const STORES: usize = 120;

fn main(rt: HostRuntime) -> io::Result<()> {
    let mut tally = [0usize; KINDS];
    let mut state = SEED;
    for i in 0..STORES {
        ask_store(&rt, i, &mut state, &mut tally)?;
    }
    say(
        &rt,
        b"pairs of a store and a twig: #\nthe two matchers agree: #\ntwigs of 1 to 8 records: # # # # # # # #\nwith a wildcard that branches: #\nwith an empty stream: #\nwith 0 matches: #\nwith 1,000 matches or more: #\nrefused 17: #\nleft out, too many choices: #\n",
        &tally,
    )
}
