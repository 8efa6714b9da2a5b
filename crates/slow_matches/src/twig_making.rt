// Twigs made up beside a store: each node has a host there, below its parent's where one is found.
use crate::label_lists::way;
use crate::random::roll;
use crate::trees::{record_label, record_name};
use crate::twig_parts::{
    ANY, CHILD, DESCENDANT, EDGE, MAX_NODES, NAME, NO_PARENT, NODE_BYTES, PARENT,
};
use guards::{item_at, put};
use records::Store;
use wrapping::sum;

// The bytes of the largest twig with the hosts of its nodes behind them, and where the hosts begin.
pub const MADE_BYTES: usize = 40;

const HOSTS: usize = 32;

// How often a host below the parent's is tried for.
const TRIES: usize = 40;

// The host of node 0 is the root one time in so many.
const TIED: usize = 2;

// One name in so many is any.
const ANY_NAME: usize = 4;

// One name in so many is made up, and one edge.
const MADE_UP: usize = 30;

// The names made up are below this number.
const NAMES: usize = 6;

// Where a node is hung: its parent in the twig, its edge, and its host in the store.
#[derive(Drop)]
struct Hook {
    parent: usize,
    edge: u8,
    host: usize,
}

// Node 0: its host is the root or any element. A child edge ties it to the root.
fn top(count: usize, state: &mut u64) -> Hook {
    let mut host: usize = 0;
    if roll(state, TIED) != 0 {
        let last = roll(state, count);
        host = roll(state, sum(last, 1));
    }
    let mut edge = DESCENDANT;
    if host == 0 && roll(state, 2) == 0 {
        edge = CHILD;
    }
    Hook {
        parent: NO_PARENT,
        edge,
        host,
    }
}

// An edge for the way between two hosts, if there is one. A child edge is not always true there.
fn edge_for(labels: Option<usize>, state: &mut u64) -> u8 {
    if roll(state, 2) == 0 && labels == Some(2) {
        return CHILD;
    }
    if roll(state, MADE_UP) == 0 {
        return CHILD;
    }
    DESCENDANT
}

// Node q: a parent before it, and as host a record of the store below the parent's where one of some tries finds it.
fn hung(store: &[u16], made: &[u8], q: usize, state: &mut u64) -> Hook {
    let count = store.len() / Store::RECORD_WORDS;
    let mut parent: usize = 0;
    let mut host: usize = 0;
    let mut labels = None;
    for _ in 0..TRIES {
        parent = roll(state, q);
        host = roll(state, count);
        let up = item_at(made, sum(HOSTS, parent)) as usize;
        labels = way(record_label(store, up), record_label(store, host));
        if labels.is_some_and(|labels| 2 <= labels) {
            break;
        }
    }
    Hook {
        parent,
        edge: edge_for(labels, state),
        host,
    }
}

// A name to ask for where record r of the store could stand.
fn asked(store: &[u16], r: usize, state: &mut u64) -> usize {
    if roll(state, ANY_NAME) == 0 {
        return ANY as usize;
    }
    if roll(state, MADE_UP) == 0 {
        return roll(state, NAMES);
    }
    record_name(store, r)
}

// Node q of a twig, made up.
fn make_node(store: &[u16], made: &mut [u8], q: usize, state: &mut u64) {
    let h = if q == 0 {
        top(store.len() / Store::RECORD_WORDS, state)
    } else {
        hung(store, made, q, state)
    };
    let at = q % MAX_NODES * NODE_BYTES;
    put(made, at + PARENT, (h.parent % 256) as u8);
    put(made, at + EDGE, h.edge);
    put(made, at + NAME, (asked(store, h.host, state) % 256) as u8);
    put(made, HOSTS + q % MAX_NODES, (h.host % 256) as u8);
}

// A twig made up beside a store.
pub fn make_twig(store: &[u16], made: &mut [u8], size: usize, state: &mut u64) {
    for q in 0..size {
        make_node(store, made, q, state);
    }
}
