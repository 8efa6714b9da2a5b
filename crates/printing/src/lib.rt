// What the program that prints matches prints, for the bytes of its three files.
#![tactic(auto)]

ghost use Rattle.std.specs.Prelude.{◌≡◌, ◌≤◌, ◌*◌, length};
ghost use Rattle.std.proofs.Math.Option.{none};
ghost use Rattle.basics.specs.Basics.{over};
ghost use Rattle.naming.specs.Names.{clues_of, table_check};
ghost use Rattle.patterns.specs.Twigs.{twig_check};
ghost use Rattle.storage.specs.Store.{size_check};
ghost use Rattle.match_calls.specs.Matching.{matches_of};
ghost use Rattle.printouts.specs.Printing as spec;
ghost use Rattle.refusals.specs.Answers.{verdict_of};
ghost use Rattle.printing.specs.Texts.{Prints, refusal_told, printed_by, list_printed, store_matches, buffer_checks, store_checks};
ghost use Rattle.printing.specs.Streams.{StoreAccepted, StreamsAnswered, InputAccepted};

use cutting::cut;
use labels::Label;
use matching::match_twig;
use name_files::{check_names, read_names};
use names::Table;
use records::Store;
use refusals::{Listing, Refusal, Verdict, refuse};
use store_checks::store_verdict;
use texts::{put_matches, put_refusal};
use twig_checks::check_twig;
use twig_leaves::{is_leaf, leaf_count};
use twigs::{node_at, node_count};

// The most bytes of a store's file, and of each buffer.
pub const MAX_BYTES: usize = 64000;
// The bytes of a word, in a file.
const WORD_BYTES: usize = 2;
// Where the low byte of a word stands in a file: first.
const LOW: usize = 0;
// Where the high byte of a word stands in a file: behind the low one.
const HIGH: usize = 1;
// How many values a byte has.
const BYTE_VALUES: u16 = 256;
// A text that holds whatever is printed: 2,000 labels and a count.
pub const TEXT_BYTES: usize = 180064;

// The check of a store's file by its length, 18.
fn check_file(len: usize) -> Verdict
    ensures { result ≡ verdict_of (spec.store_file_check len) }
{
    if len == 0 {
        return refuse(Refusal::STORE_SIZE, 0);
    }
    if MAX_BYTES < len {
        return refuse(Refusal::STORE_SIZE, 0);
    }
    if len % (Store::RECORD_WORDS * WORD_BYTES) != 0 {
        return refuse(Refusal::STORE_SIZE, 0);
    }
    Verdict::Passed
}

// The words of a file, little-endian.
fn read_words(bytes: &[u8], words: &mut [u16])
    requires { length bytes.now ≤ 2 * length words.old }
    ensures { words.new ≡ over (spec.file_words bytes.now) words.old }
{
    let n = bytes.len() / WORD_BYTES;
    let mut i: usize = 0;
    while i < n {
        words[i] = bytes[i * WORD_BYTES + LOW] as u16
            + bytes[i * WORD_BYTES + HIGH] as u16 * BYTE_VALUES;
        i += 1;
    }
}

// The streams of the leaves, cut one after the other into a buffer: how many labels they have in all, or 17 where they
// do not fit.
fn cut_streams(
    table: Table,
    store: &[u16],
    count: usize,
    twig: &[u8],
    counts: &mut [usize],
    buffer: &mut [u16],
) -> Listing
    requires { StoreAccepted table store.now count × (twig_check twig.now ≡ none) × (8 ≤ length counts.old) }
    ensures { StreamsAnswered store.now count twig.now result counts.old counts.new buffer.old buffer.new }
{
    let n = node_count(twig);
    let mut leaves: usize = 0;
    let mut labels: usize = 0;
    let mut q: usize = 0;
    while q < n {
        if is_leaf(twig, q) {
            let node = node_at(twig, q);
            let stream = cut(
                table,
                store,
                count,
                node.name,
                &mut buffer[labels * Label::WORDS..],
            );
            let verdict = stream.verdict;
            let Verdict::Passed = verdict else {
                return Listing::refused(verdict);
            };
            counts[leaves] = stream.count;
            leaves += 1;
            labels += stream.count;
        }
        q += 1;
    }
    Listing {
        verdict: Verdict::Passed,
        count: labels,
    }
}

// A refusal's line, printed.
fn print_refusal(refusal: Refusal, text: &mut [u8]) -> usize
    requires { 180064 ≤ length text.old }
    ensures { Prints (spec.refusal_text (refusal_told refusal)) result text.new text.old }
{
    put_refusal(refusal.number, refusal.place, text)
}

// The matches of a twig over the streams of its leaves, or the refusal, 17.
fn print_streams(
    table: Table,
    root: u8,
    twig: &[u8],
    counts: &[usize],
    buffer: &[u16],
    text: &mut [u8],
) -> usize
    requires { InputAccepted table root twig.now counts.now buffer.now × (180064 ≤ length text.old) }
    ensures { Prints (list_printed (matches_of (clues_of table) root twig.now counts.now buffer.now)) result text.new text.old }
{
    let mut out = [0u16; 32000];
    let found = match_twig(table, root, twig, counts, buffer, &mut out);
    let verdict = found.verdict;
    if let Verdict::Refused(refusal) = verdict {
        return print_refusal(refusal, text);
    }
    put_matches(&out, found.count, node_count(twig), text)
}

// The matches of a twig in sound records, or the refusal, 17.
fn print_twig(table: Table, store: &[u16], count: usize, twig: &[u8], text: &mut [u8]) -> usize
    requires { StoreAccepted table store.now count × (twig_check twig.now ≡ none) × (180064 ≤ length text.old) }
    ensures { Prints (printed_by (buffer_checks table store.now count twig.now) (store_matches table store.now count twig.now)) result text.new text.old }
{
    let mut counts = [0usize; 8];
    let mut buffer = [0u16; 32000];
    let streams = cut_streams(table, store, count, twig, &mut counts, &mut buffer);
    let verdict = streams.verdict;
    if let Verdict::Refused(refusal) = verdict {
        return print_refusal(refusal, text);
    }
    print_streams(
        table,
        store[Store::NAME] as u8,
        twig,
        &counts[..leaf_count(twig)],
        &buffer[..streams.count * Label::WORDS],
        text,
    )
}

// The matches of a twig in a store's words, or the refusal: 19, 23 to 25, 4 to 8, 17.
fn print_store(table: Table, store: &[u16], count: usize, twig: &[u8], text: &mut [u8]) -> usize
    requires { (table_check table ≡ none) × (size_check (length store.now) count ≡ none) × (180064 ≤ length text.old) }
    ensures { Prints (printed_by (store_checks table store.now count twig.now) (store_matches table store.now count twig.now)) result text.new text.old }
{
    let checked = store_verdict(&table, store, count);
    if let Verdict::Refused(refusal) = checked {
        return print_refusal(refusal, text);
    }
    let checked = check_twig(twig);
    if let Verdict::Refused(refusal) = checked {
        return print_refusal(refusal, text);
    }
    print_twig(table, store, count, twig, text)
}

// What is printed: the matches of a twig in a store under a child-name file, or one line for the refusal: 1 to 3, 18,
// 19, 23 to 25, 4 to 8, 17.
pub fn print_matches(names: &[u8], store: &[u8], twig: &[u8], text: &mut [u8]) -> usize
    requires { 180064 ≤ length text.old }
    ensures { (result ≡ length (spec.printed names.now store.now twig.now)) × (text.new ≡ over (spec.printed names.now store.now twig.now) text.old) }
{
    let checked = check_names(names);
    if let Verdict::Refused(refusal) = checked {
        return print_refusal(refusal, text);
    }
    let checked = check_file(store.len());
    if let Verdict::Refused(refusal) = checked {
        return print_refusal(refusal, text);
    }
    let mut words = [0u16; 32000];
    read_words(store, &mut words);
    print_store(
        read_names(names),
        &words[..store.len() / WORD_BYTES],
        store.len() / (Store::RECORD_WORDS * WORD_BYTES),
        twig,
        text,
    )
}
