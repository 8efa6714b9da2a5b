// Prefixes of slices, for the programs that test: the first items, all where there are fewer.
#![tactic(auto)]

ghost use Rattle.std.specs.Prelude.{◌≡◌, length, take};
ghost use Rattle.basics.specs.Basics.{over};

use words::overwrite;

// The first items of a slice; all where there are fewer.
pub fn front<T>(items: &[T], len: usize) -> &[T]
    ensures { result.now ≡ take len items.now }
{
    &items[..len.min(items.len())]
}

// The first words of a slice, to be changed; all where there are fewer.
pub fn front_mut(words: &mut [u16], len: usize) -> &mut [u16]
    ensures { result.now ≡ take len words.old }
{
    let end = len.min(words.len());
    &mut words[..end]
}

// Words copied over the front of others, as many as there is room for.
pub fn copy(to: &mut [u16], from: &[u16])
    ensures { to.new ≡ over (take (length to.old) from.now) to.old }
{
    let room = to.len();
    overwrite(to, front(from, room));
}
