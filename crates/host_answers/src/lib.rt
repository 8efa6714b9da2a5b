// What a host program is told of a call: the refusal's number, and through
// small lent slices, as far as they have room, what else is answered.
#![tactic(auto)]

ghost use Rattle.std.specs.Prelude.{◌≡◌, [], ◌∷◌, ◌++◌, length, take, drop};
ghost use Rattle.host_answers.specs.Reports.{fitted, report, report_by};

use refusals::Verdict;

// Puts a place and a value in a slice, as far as there is room.
fn put_pair(answer: &mut [usize], place: usize, value: usize)
    ensures { answer.new ≡ fitted (place ∷ value ∷ []) answer.old }
{
    let room = answer.len();
    if room < 1 {
        return;
    }
    answer[0] = place;
    if room < 2 {
        return;
    }
    answer[1] = value;
}

// Tells a verdict: answers the refusal's number, 0 where there is none, and puts its place and a value in the answer.
pub fn tell(verdict: Verdict, value: usize, answer: &mut [usize]) -> u8
    ensures { report result answer.new ≡ report_by verdict value answer.old }
{
    let Verdict::Refused(refusal) = verdict else {
        put_pair(answer, 0, value);
        return 0;
    };
    let place = refusal.place;
    put_pair(answer, place, value);
    refusal.number
}

// Puts items in a slice, as far as there is room.
fn put_fitting<T: Copy>(items: &[T], out: &mut [T])
    ensures { out.new ≡ take (length out.old) items.now ++ drop (length items.now) out.old }
{
    let room = items.len().min(out.len());
    out[..room].copy_from_slice(&items[..room]);
}

// Puts names in a slice, as far as there is room.
#[tactic(auto, unfolding(crate::specs::Reports::fitted))]
pub fn tell_names(names: &[u8], out: &mut [u8])
    ensures { out.new ≡ fitted names.now out.old }
{
    put_fitting(names, out);
}

// Puts the words of a label in a slice, as far as there is room.
#[tactic(auto, unfolding(crate::specs::Reports::fitted))]
pub fn tell_label(words: &[u16], out: &mut [u16])
    ensures { out.new ≡ fitted words.now out.old }
{
    put_fitting(words, out);
}
