// The record of a new child, put behind its parent's subtree.
#![tactic(auto)]

ghost use Rattle.std.specs.Prelude.{◌≡◌, true, [], ◌∷◌, ◌++◌, ◌+◌, ◌*◌, ◌<◌, ◌≤◌, length, get_or};
ghost use Rattle.std.proofs.Math.Option.{some};
ghost use Rattle.basics.specs.Limits.{label_size, record_size};
ghost use Rattle.labelling.specs.Labels.{label_of, label_words, is_label};
ghost use Rattle.storage.specs.Store.{read_element, elements};
ghost use Rattle.records.specs.Records.{record_at};
ghost use Rattle.lookup.specs.Places.{place_at, InLabelOrder};
ghost use Rattle.additions.specs.Answers.{refused_entry, entry_and_words, child_written, child_added};

use changes::{root_record, words_of};
use labels::components;
use lookup::subtree_end;
use moving::insert;
use records::Store;
use refusals::Verdict;
use words::overwrite;

// What an entry answers: the verdict, the count and the new label.
#[derive(Drop)]
pub struct Entry {
    pub verdict: Verdict,
    pub count: usize,
    pub label: [u16; 16],
}

// The answer of a refused entry: the count as it was given, and sixteen zeros.
pub fn refused(verdict: Verdict, count: usize) -> Entry
    ensures { result ≡ refused_entry verdict count }
{
    Entry {
        verdict,
        count,
        label: [0u16; 16],
    }
}

// The label of a child: its parent's and one component more.
fn child_label(parent: &[u16], x: u16) -> [u16; 16]
    requires { (is_label parent.now ≡ true) × (get_or parent.now 0 0 < 15) }
    ensures { result ≡ label_words (label_of parent.now ++ (x ∷ [])) }
{
    let mut label = [0u16; 16];
    overwrite(&mut label, parent);
    let depth = parent[0] + 1;
    label[0] = depth;
    label[depth as usize] = x;
    label
}

// The words of a label as a slice.
fn label_words(label: &[u16; 16]) -> &[u16]
    ensures { (result.now ≡ label.now) × (length result.now ≡ label_size) }
{
    label
}

// The record of a child: the root's with another label.
fn child_record(label: &[u16], name: u8, payload: [u16; 2]) -> [u16; 20]
    requires { length label.now ≡ label_size }
    ensures { result ≡ label.now ++ (name ∷ 0 ∷ get_or payload 0 0 ∷ get_or payload 1 0 ∷ []) }
{
    let mut rec = root_record(name, payload);
    overwrite(&mut rec, label);
    rec
}

// Puts a record in behind the subtree of a label, which the record a
// has, and makes the number after x the next number of that record.
fn write_child(words: &mut [u16], count: usize, a: usize, label: &[u16], x: u16, rec: &[u16])
    requires { InLabelOrder count words.old × (a < count) × (record_size * (count + 1) ≤ length words.old) × (x ≤ 65534) × (length rec.now ≡ record_size) }
    ensures { words.new ≡ child_written words.old count a label.now x rec.now }
{
    let end = subtree_end(words, count, label);
    words[a * Store::RECORD_WORDS + Store::NEXT] = x + 1;
    insert(words, end, count, rec);
}

// Puts a child with a number in below the record a, which has the label `parent`: 13.
pub fn add_child(
    words: &mut [u16],
    count: usize,
    a: usize,
    parent: &[u16],
    x: u16,
    name: u8,
    payload: [u16; 2],
) -> Entry
    requires { InLabelOrder count words.old × (is_label parent.now ≡ true) × (place_at (label_of parent.now) (elements count words.old) ≡ some a) × (length (read_element (record_at a words.old)).label < 15) × (x ≤ 65534) }
    ensures { entry_and_words result words.new ≡ child_added words.old count a (label_of parent.now) x name (get_or payload 0 0) (get_or payload 1 0) }
{
    let size = Store {
        words: words.len(),
        count,
    };
    let space = size.check_space();
    let Verdict::Passed = space else {
        return refused(space, count);
    };
    let label = child_label(parent, x);
    let rec = child_record(label_words(&label), name, payload);
    write_child(words, count, a, components(parent), x, words_of(&rec));
    Entry {
        verdict: Verdict::Passed,
        count: count + 1,
        label,
    }
}
