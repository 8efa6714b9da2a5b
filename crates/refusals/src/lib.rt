// Refusals as data: a number and a place. No other code says which number stands for what.
#![tactic(auto)]

ghost use Rattle.std.specs.Prelude.{◌≡◌};
ghost use Rattle.basics.specs.Refusals as spec;
ghost use Rattle.refusals.specs.Answers.{verdict_of, refused_by};

// A refusal of a call. The place is the record or pair from 0, the component from 1, or 0.
#[derive(Drop)]
pub struct Refusal {
    pub number: u8,
    pub place: usize,
}

// What a check answers: it passed, or the refusal.
#[derive(Drop)]
pub enum Verdict {
    Passed,
    Refused(Refusal),
}

// What a call that fills an output answers: the verdict, and how many labels or matches the output has.
#[derive(Drop)]
pub struct Listing {
    pub verdict: Verdict,
    pub count: usize,
}

impl Refusal {
    // The author of the name table: odd length or over 8,192 bytes.
    pub const FILE_LENGTH: u8 = 1;
    // A name above 63 in a child-name file.
    pub const NAME_TOO_HIGH: u8 = 2;
    // A pair of a child-name file that stood before in it.
    pub const PAIR_AGAIN: u8 = 3;
    // The author of a twig: length 0, over 32 or not a multiple of 4.
    pub const TWIG_LENGTH: u8 = 4;
    // The parent of node 0 is not 255, or that of another node is not below its own number.
    pub const TWIG_PARENT: u8 = 5;
    // An edge that is neither child nor descendant.
    pub const TWIG_EDGE: u8 = 6;
    // A name asked for that is neither 0 to 63 nor 255, in a twig or for cutting.
    pub const NAME_ASKED: u8 = 7;
    // The fourth byte of a node is not 0.
    pub const TWIG_END: u8 = 8;
    // The tester: no record in use has this label.
    pub const NO_RECORD: u8 = 9;
    // The name is not in the parent's clue.
    pub const NOT_IN_CLUE: u8 = 10;
    // The parent is at depth 15.
    pub const TOO_DEEP: u8 = 11;
    // No number up to 65,534 is left.
    pub const NO_NUMBER: u8 = 12;
    // No free record in the slice, or 4,096 in use.
    pub const NO_SPACE: u8 = 13;
    // The root cannot be deleted.
    pub const ROOT_STAYS: u8 = 14;
    // Whoever passes a label: not 16 words, depth over 15, a used component 65,535, an unused one not 0.
    pub const NOT_LABEL: u8 = 15;
    // A component below a name with an empty clue.
    pub const EMPTY_CLUE: u8 = 16;
    // The host program: output shorter than the whole result.
    pub const SHORT_OUTPUT: u8 = 17;
    // Store length not a multiple of 20, or 0, or a count of 0, over the slice or over 4,096.
    pub const STORE_SIZE: u8 = 18;
    // A record is not laid out as one.
    // On the phone: a torn file, take the copy before.
    pub const BAD_LAYOUT: u8 = 19;
    // Streams: the counts, the buffer's length, or a label that 15, 16, name or order rules out.
    pub const BAD_STREAM: u8 = 20;
    // The name of the root is above 63.
    pub const BAD_ROOT: u8 = 21;
    // A table with an entry 64 to 254, a number after a 255, or a name that stands twice in a row.
    pub const BAD_TABLE: u8 = 22;
    // A record is out of label order, or its parent does not stand earlier.
    // On the phone: a torn file, take the copy before.
    pub const BAD_ORDER: u8 = 23;
    // A record's name is not the one that its label decodes to, or record 0's is above 63.
    // On the phone: a wrong name table, look for the other names.tab; at record 0 a torn file, take the copy before.
    pub const BAD_NAME: u8 = 24;
    // A record's last component is not below its parent's next number, or its own is not 0 where none may stand below.
    // On the phone: a short name table or a torn file, look for the other names.tab, then take the copy before.
    pub const BAD_NEXT: u8 = 25;
}

// A check refused by a number at a place.
pub fn refuse(number: u8, place: usize) -> Verdict
    ensures { result ≡ verdict_of (spec.refuse number place) }
{
    Verdict::Refused(Refusal { number, place })
}

impl Listing {
    // A refusal lists nothing.
    pub fn refused(verdict: Verdict) -> Listing
        ensures { result ≡ refused_by verdict }
    {
        Listing { verdict, count: 0 }
    }
}
