// Prints the matches of the twig in twig.rec, in the store in store.rec, under the child names in names.tab.
#![tactic(auto)]

mod files;

use files::read_file;
use name_files::MAX_FILE;
use printing::{MAX_BYTES, TEXT_BYTES, print_matches};
use std::process::ExitCode;
use twigs::Node;

// Each file is given room for one byte more than it may have, so that a longer one is refused by its length.
const NAMES_ROOM: usize = MAX_FILE + 1;

const STORE_ROOM: usize = MAX_BYTES + 1;

const TWIG_ROOM: usize = Node::MAX_NODES * Node::BYTES + 1;

// The first bytes of a buffer.
fn front(bytes: &[u8], len: usize) -> &[u8] {
    if bytes.len() < len {
        return bytes;
    }
    &bytes[0..len]
}

// Prints what the library computes for the bytes of the three files.
fn print(rt: &(impl Print + Eprint), names: &[u8], store: &[u8], twig: &[u8]) -> ExitCode {
    let mut text = [0u8; TEXT_BYTES];
    let n = print_matches(names, store, twig, &mut text);
    match Print::write_all(rt, front(&text, n)) {
        Ok(()) => ExitCode::SUCCESS,
        Err(error) => {
            let _ = eprintln!(rt; "standard output: {error}");
            ExitCode::FAILURE
        }
    }
}

fn main(rt: HostRuntime) -> ExitCode {
    let mut names = [0u8; NAMES_ROOM];
    let Some(names_len) = read_file(&rt, "names.tab", &mut names) else {
        return ExitCode::FAILURE;
    };
    let mut store = [0u8; STORE_ROOM];
    let Some(store_len) = read_file(&rt, "store.rec", &mut store) else {
        return ExitCode::FAILURE;
    };
    let mut twig = [0u8; TWIG_ROOM];
    let Some(twig_len) = read_file(&rt, "twig.rec", &mut twig) else {
        return ExitCode::FAILURE;
    };
    print(
        &rt,
        front(&names, names_len),
        front(&store, store_len),
        front(&twig, twig_len),
    )
}
