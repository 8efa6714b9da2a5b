// The check of one stream of labels, in one pass.
#![tactic(auto)]

ghost use Rattle.std.specs.Prelude.{◌≡◌, ◌+◌, ◌*◌, ◌≤◌, length};
ghost use Rattle.std.proofs.Math.Option.{none};
ghost use Rattle.std.proofs.Math.Seq.{paste};
ghost use Rattle.basics.specs.Limits.{label_size, max_records};
ghost use Rattle.naming.specs.Names.{clues_of};
ghost use Rattle.match_calls.specs.Matching.{labels_in, stream_check};
ghost use Rattle.clue_lengths.specs.Lengths.{lengths_of};
ghost use Rattle.refusals.specs.Answers.{verdict_of};
ghost use Rattle.refusals.specs.declared.Verdict.TheVariants as verdict;
ghost use Rattle.match_stream_checks.specs.Streams.{max_labels, stream_shares, Paths};

use label_words::LARGEST;
use labels::Label;
use match_label_decoding::read_label;
use names::Table;
use refusals::{Refusal, Verdict, refuse};

// Sixteen names are written to the places of label i.
fn write_names(names: &[u8], paths: &mut [u8], i: usize)
    requires { (length names.now ≡ label_size) × (i * label_size + label_size ≤ length paths.old) }
    ensures { paths.new ≡ paste paths.old (i * label_size) names.now label_size }
{
    let at = i * Label::WORDS;
    paths[at..at + Label::WORDS].copy_from_slice(names);
}

// The check of a stream whose first label is label `base` of its buffer: 20 at the first label that is ruled out. A
// stream that passes leaves in `shares` how many components each label shares with the one before it, and in `paths`,
// sixteen places for each label, the names along it.
#[tactic(auto, using(crate::proofs::Rows::pasted_long))]
pub fn check_stream(
    table: &Table,
    lengths: &[usize],
    root: u8,
    want: u8,
    base: usize,
    stream: &[u16],
    shares: &mut [u8],
    paths: &mut [u8],
) -> Verdict
    requires { (lengths.now ≡ lengths_of table.now) × (length stream.now ≡ length shares.old * label_size) × (length shares.old * label_size ≤ length paths.old) × (length shares.old ≤ max_records) × (base ≤ max_labels) }
    ensures value { result ≡ verdict_of (stream_check (clues_of table.now) root want base none (length shares.old) stream.now) }
    ensures shares_len_unchanged { (length shares.new ≡ length shares.old) × (length paths.new ≡ length paths.old) }
    ensures shares_after { result ≡ verdict.Passed → (shares.new ≡ stream_shares (labels_in (length shares.old) stream.now)) × Paths (clues_of table.now) root (labels_in (length shares.old) stream.now) paths.new }
{
    // The constant array is read once: it is made anew wherever it is read.
    let largest = LARGEST;
    let mut names = [0u8; 16];
    names[0] = root;
    for i in 0..shares.len() {
        let Some(s) = read_label(table, lengths, &largest, want, stream, i, &mut names) else {
            return refuse(Refusal::BAD_STREAM, base + i);
        };
        shares[i] = s as u8;
        write_names(&names, paths, i);
    }
    Verdict::Passed
}
