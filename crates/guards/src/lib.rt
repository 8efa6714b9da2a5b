// Guards on the places of slices, for the programs that test: a place that is not there reads as its type's default, 0 of
// numbers, and is left alone.
#![tactic(auto)]

ghost use Rattle.std.specs.Prelude.{◌≡◌, ◌<◌, ◌≤◌, length, get_or, set};

// The item at a place; the default where the place is not there.
pub fn item_at<T: Copy + Default>(items: &[T], place: usize) -> T
    ensures there { place < length items.now → result ≡ get_or items.now place result }
    ensures not_there { length items.now ≤ place → T.is_default result }
{
    items.get(place).copied().unwrap_or_default()
}

// An item put at a place.
pub fn put<T: Copy>(items: &mut [T], place: usize, item: T)
    ensures { items.new ≡ set items.old place item }
{
    if place < items.len() {
        items[place] = item;
    }
}
