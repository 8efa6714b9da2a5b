// Texts: matches and refusals as they are printed. Each function writes bytes into a text from a position on, and
// answers the position behind them.
#![tactic(auto)]

ghost use Rattle.std.specs.Prelude.{◌≡◌, [], ◌∷◌, ◌+◌, ◌*◌, ◌≤◌, ◌<◌, length, get_or};
ghost use Rattle.basics.specs.Basics.{over};
ghost use Rattle.basics.specs.Limits.{label_size};
ghost use Rattle.labelling.specs.Labels.{label_of};
ghost use Rattle.match_calls.specs.Matching.{labels_in};
ghost use Rattle.printouts.specs.Printing.{zero_digit, decimal, label_text, match_line, matches_text, refusal_text};
ghost use Rattle.texts.specs.Texts.{number_line, matches_in, LabelDepths, label_room, count_room, refusal_room};
ghost use Rattle.words.specs.Writing.{written};

use labels::Label;

// The most bytes of a label and of what parts it from the next.
pub const LABEL_ROOM: usize = 90;
// The most bytes of the line of a count.
pub const COUNT_ROOM: usize = 21;
// Bytes enough for a refusal.
pub const REFUSAL_ROOM: usize = 64;

// The base of decimal digits.
const BASE: usize = 10;
// The byte of the digit 0.
const ZERO: u8 = b'0';

// What parts components, and stands for the root.
const DOT: u8 = b'.';
// What parts the labels of a match.
const SPACE: u8 = b' ';
// What ends a line.
const NEWLINE: u8 = b'\n';

// One byte, written at a position.
#[tactic(auto, using(words::proofs::Writing::written_one))]
fn put_byte(text: &mut [u8], at: usize, byte: u8) -> usize
    requires { at + 1 ≤ length text.old }
    ensures end { result ≡ at + 1 }
    ensures put { text.new ≡ written at (byte ∷ []) text.old }
{
    text[at] = byte;
    at + 1
}

// The bytes of a slice, written from a position on.
#[tactic(auto, unfolding(words::specs::Writing::written))]
fn put_bytes(text: &mut [u8], at: usize, bytes: &[u8]) -> usize
    requires { at + length bytes.now ≤ length text.old }
    ensures end { result ≡ at + length bytes.now }
    ensures put { text.new ≡ written at bytes.now text.old }
{
    let end = at + bytes.len();
    text[at..end].copy_from_slice(bytes);
    end
}

// The byte of a digit.
fn digit(d: usize) -> u8
    requires { d < 10 }
    ensures { result ≡ zero_digit + d }
{
    ZERO + d as u8
}

// How many digits a number has.
#[tactic(auto, using(crate::proofs::Digits::length_one, crate::proofs::Digits::length_more, crate::proofs::Digits::length_few))]
fn digit_count(n: usize) -> usize
    ensures { result ≡ length (decimal n) }
{
    let mut rest = n;
    let mut count: usize = 1;
    while BASE <= rest {
        rest /= BASE;
        count += 1;
    }
    count
}

// A number in decimal, the last digit written first.
#[tactic(auto, using(printouts::proofs::Decimals::decimal_some, crate::proofs::Digits::length_more, crate::proofs::Digits::written_tenth, crate::proofs::Digits::written_digit))]
fn put_decimal(text: &mut [u8], at: usize, n: usize) -> usize
    requires { at + length (decimal n) ≤ length text.old }
    ensures end { result ≡ at + length (decimal n) }
    ensures put { text.new ≡ written at (decimal n) text.old }
{
    let end = at + digit_count(n);
    let mut i = end;
    let mut rest = n;
    while BASE <= rest {
        i -= 1;
        text[i] = digit(rest % BASE);
        rest /= BASE;
    }
    text[at] = digit(rest);
    end
}

// A label: its components parted by dots, the root as a single dot.
#[tactic(auto, using(crate::proofs::Texts::in_parts, crate::proofs::Texts::written_first, crate::proofs::LabelTexts::root_text, crate::proofs::LabelTexts::label_parts, crate::proofs::LabelTexts::dotted_from, crate::proofs::LabelTexts::dotted_end))]
fn put_label(text: &mut [u8], at: usize, words: &[u16]) -> usize
    requires held { get_or words.now 0 0 < length words.now }
    requires room { at + length (label_text (label_of words.now)) ≤ length text.old }
    ensures end { result ≡ at + length (label_text (label_of words.now)) }
    ensures put { text.new ≡ written at (label_text (label_of words.now)) text.old }
{
    let depth = words[0] as usize;
    if depth == 0 {
        return put_byte(text, at, DOT);
    }
    let mut end = put_decimal(text, at, words[1] as usize);
    let others = &words[2..=depth];
    for component in others {
        end = put_byte(text, end, DOT);
        end = put_decimal(text, end, *component as usize);
    }
    end
}

// A match: its labels parted by spaces, and a newline.
#[tactic(auto, using(crate::proofs::Texts::in_parts, crate::proofs::Texts::written_first, crate::proofs::LineTexts::line_parts, crate::proofs::LineTexts::spaced_from, crate::proofs::LineTexts::spaced_end))]
fn put_match(text: &mut [u8], at: usize, words: &[u16], k: usize) -> usize
    requires some { 1 ≤ k }
    requires held { label_size * k ≤ length words.now }
    requires deep { LabelDepths k words.now }
    requires room { at + length (match_line (labels_in k words.now)) ≤ length text.old }
    ensures end { result ≡ at + length (match_line (labels_in k words.now)) }
    ensures put { text.new ≡ written at (match_line (labels_in k words.now)) text.old }
{
    let mut end = put_label(text, at, words);
    for i in 1..k {
        end = put_byte(text, end, SPACE);
        end = put_label(text, end, &words[Label::WORDS * i..]);
    }
    put_byte(text, end, NEWLINE)
}

// A number, and a newline.
#[tactic(auto, using(crate::proofs::Texts::in_parts), unfolding(printouts::specs::Printing::text))]
fn put_number(text: &mut [u8], at: usize, n: usize) -> usize
    requires { at + length (number_line n) ≤ length text.old }
    ensures end { result ≡ at + length (number_line n) }
    ensures put { text.new ≡ written at (number_line n) text.old }
{
    let end = put_decimal(text, at, n);
    put_byte(text, end, NEWLINE)
}

// The matches that words hold, a line for each, and their count as the last line.
#[tactic(auto, using(words::proofs::Writing::written_over, crate::proofs::Texts::in_parts, crate::proofs::Rooms::matches_short, crate::proofs::MatchTexts::lines_all, crate::proofs::MatchTexts::lines_from, crate::proofs::MatchTexts::lines_end))]
pub fn put_matches(words: &[u16], count: usize, k: usize, text: &mut [u8]) -> usize
    requires { (1 ≤ k) × (label_size * (k * count) ≤ length words.now) × LabelDepths (k * count) words.now × (label_room * (k * count) + count_room ≤ length text.old) }
    ensures { (result ≡ length (matches_text (matches_in k count words.now))) × (text.new ≡ over (matches_text (matches_in k count words.now)) text.old) }
{
    let mut end: usize = 0;
    for m in 0..count {
        end = put_match(text, end, &words[Label::WORDS * (k * m)..], k);
    }
    put_number(text, end, count)
}

// A refusal, as "refused 19 at 3".
#[tactic(auto, using(crate::proofs::Texts::in_parts, crate::proofs::Digits::length_few), unfolding(printouts::specs::Printing::text))]
pub fn put_refusal(number: u8, place: usize, text: &mut [u8]) -> usize
    requires { refusal_room ≤ length text.old }
    ensures { (result ≡ length (refusal_text (record { number = number; place = place }))) × (text.new ≡ over (refusal_text (record { number = number; place = place })) text.old) }
{
    let named = put_bytes(text, 0, b"refused ");
    let numbered = put_decimal(text, named, number as usize);
    let placed = put_bytes(text, numbered, b" at ");
    put_number(text, placed, place)
}
