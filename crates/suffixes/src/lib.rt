// Suffixes of slices, for the programs that test: the items from a place on, none where it is not there.
#![tactic(auto)]

ghost use Rattle.std.specs.Prelude.{◌≡◌, drop};

// The items of a slice from a place on; none where it is not there.
pub fn behind<T>(items: &[T], at: usize) -> &[T]
    ensures { result.now ≡ drop at items.now }
{
    &items[at.min(items.len())..]
}

// The words of a slice from a place on, to be changed; none where it is not there.
pub fn behind_mut(words: &mut [u16], at: usize) -> &mut [u16]
    ensures { result.now ≡ drop at words.old }
{
    let start = at.min(words.len());
    &mut words[start..]
}
