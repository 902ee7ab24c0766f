// One place of a list.
ghost use Rattle.std.specs.Prelude.{◌≡◌, slice_set};

// A place past the end is not written.
pub(crate) fn put<T: Copy>(list: &mut [T], place: usize, item: T)
    ensures { list.new ≡ slice_set list.old place item }
{
    if place < list.len() {
        list[place] = item;
    }
}
