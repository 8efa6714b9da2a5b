// What the checks print.
use guards::item_at;
use refusals::{Refusal, Verdict};
use std::io;
use wrapping::sum;

// Text as it is.
pub fn say(rt: &impl Print, text: &[u8]) -> io::Result<()> {
    rt.write_all(text)
}

// A number in decimal.
pub fn say_number(rt: &impl Print, n: usize) -> io::Result<()> {
    rt.print(n)
}

// A refusal, as "refused 16 at 4".
pub fn refusal(rt: &impl Print, r: Refusal) -> io::Result<()> {
    say(rt, b"refused ")?;
    say_number(rt, r.number as usize)?;
    say(rt, b" at ")?;
    say_number(rt, r.place)
}

// What a check answered.
pub fn verdict(rt: &impl Print, v: Verdict) -> io::Result<()> {
    match v {
        Verdict::Passed => say(rt, b"taken"),
        Verdict::Refused(r) => refusal(rt, r),
    }
}

// A component with the dot before it.
fn component(rt: &impl Print, label: &[u16], i: usize) -> io::Result<()> {
    if 0 < i {
        say(rt, b".")?;
    }
    say_number(rt, item_at(label, sum(i, 1)) as usize)
}

// The components joined by dots, the root as a single dot.
pub fn dotted(rt: &impl Print, label: &[u16]) -> io::Result<()> {
    let depth = item_at(label, 0) as usize;
    if depth == 0 {
        say(rt, b".")?;
    }
    for i in 0..depth {
        component(rt, label, i)?;
    }
    Ok(())
}
