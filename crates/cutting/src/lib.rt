// Cutting: the stream of the labels that a name asks for, written from a sound store.
#![tactic(auto)]

ghost use Rattle.std.specs.Prelude.{◌≡◌, ◌+◌, ◌*◌, ◌≤◌, length};
ghost use Rattle.basics.specs.Basics.{over};
ghost use Rattle.basics.specs.Limits.{label_size, record_size};
ghost use Rattle.embeddings.specs.Matches.{labels_words};
ghost use Rattle.embeddings.specs.Matches as matches;
ghost use Rattle.storage.specs.Store.{read_element, elements};
ghost use Rattle.cut_calls.specs.Cutting as spec;
ghost use Rattle.refusals.specs.Answers.{filled, listing_of};
ghost use Rattle.records.specs.Records.{record_at};
ghost use Rattle.cutting.specs.Words.{AllLaid};

use labels::Label;
use names::Table;
use records::Store;
use refusals::{Listing, Refusal, Verdict, refuse};
use store_checks::store_verdict;
use twigs::{asks, is_asked};
use words::put_label;

// Whether record r has a name that is asked for.
#[tactic(auto, using(crate::proofs::Names::asks_record))]
fn is_taken(store: &[u16], r: usize, want: u8) -> bool
    requires { r * 20 + 20 ≤ length store.now }
    ensures { result ≡ matches.asks want (read_element (record_at r store.now)).name }
{
    asks(want, store[r * Store::RECORD_WORDS + Store::NAME])
}

// How many labels the stream of a name has. A loop of its own: `filter` and `count` take a branch for each record.
fn stream_len(store: &[u16], count: usize, want: u8) -> usize
    requires { record_size * count ≤ length store.now }
    ensures { result ≡ length (spec.stream want (elements count store.now)) }
{
    let mut n: usize = 0;
    for r in 0..count {
        if is_taken(store, r, want) {
            n += 1;
        }
    }
    n
}

// Writes the stream of a name from the start of an output that holds it.
#[tactic(auto, using(crate::proofs::Streams::stream_taken, crate::proofs::Streams::stream_left, crate::proofs::Streams::stream_end, crate::proofs::Outputs::written_from, crate::proofs::Outputs::written_end, crate::proofs::Writing::label_written))]
fn write_stream(store: &[u16], count: usize, want: u8, out: &mut [u16])
    requires { (record_size * count ≤ length store.now) × AllLaid count store.now × (label_size * length (spec.stream want (elements count store.now)) ≤ length out.old) }
    ensures { out.new ≡ over (labels_words (spec.stream want (elements count store.now))) out.old }
{
    let mut at: usize = 0;
    for r in 0..count {
        if is_taken(store, r, want) {
            put_label(store, r * Store::RECORD_WORDS, out, Label::WORDS * at);
            at += 1;
        }
    }
}

// Cutting, 22, 18, 19, 23 to 25, 7, 17: the stream of a name is written to the output.
// A refusal leaves the output as it was.
#[tactic(auto, using(crate::proofs::Answers::refused_first, crate::proofs::Answers::name_refused, crate::proofs::Sound::store_held, crate::proofs::Answers::room_refused, crate::proofs::Sound::store_laid, crate::proofs::Answers::room_held, crate::proofs::Answers::cut_done))]
pub fn cut(table: Table, store: &[u16], count: usize, want: u8, out: &mut [u16]) -> Listing
    ensures { filled result out.new ≡ listing_of (spec.cut table store.now count want out.old) }
{
    let checked = store_verdict(&table, store, count);
    let Verdict::Passed = checked else {
        return Listing::refused(checked);
    };
    if !is_asked(want) {
        return Listing::refused(refuse(Refusal::NAME_ASKED, 0));
    }
    let n = stream_len(store, count, want);
    if out.len() / Label::WORDS < n {
        return Listing::refused(refuse(Refusal::SHORT_OUTPUT, 0));
    }
    write_stream(store, count, want, out);
    Listing {
        verdict: Verdict::Passed,
        count: n,
    }
}
