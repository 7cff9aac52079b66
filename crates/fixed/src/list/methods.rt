// As with `Vec`, a place that is handed in has to be one of the list's, or for an insertion its end, and an insertion needs room.
ghost use Rattle.std.specs.Prelude.{◌≡◌, ◌<◌, ◌≤◌, [], length, nat_le, slice_set};
ghost use Rattle.std.specs.List.{insert, remove};
ghost use Rattle.fixed.specs.Items.{items};

use super::FixedVec;

impl<T: Copy, const N: usize> FixedVec<T, N> {
    // No item; the unused slots hold the spare.
    pub fn new(spare: T) -> FixedVec<T, N>
        ensures holds_no_item { items result ≡ [] }
    {
        FixedVec {
            slots: [spare; N],
            count: 0,
        }
    }

    pub fn as_slice(&self) -> &[T]
        ensures lends_the_items { result.now ≡ items self.now }
    {
        let all = &self.slots[..];
        &all[0..self.count]
    }

    pub fn is_full(&self) -> bool
        ensures tells_whether_there_is_no_room { result ≡ nat_le N (length (items self.now)) }
    {
        self.count == N
    }

    // Puts the item at the place, and those from there on one further.
    pub fn insert(&mut self, at: usize, item: T)
        requires within { at ≤ length (items self.old) }
        requires room { length (items self.old) < N }
        ensures inserts_the_item { items self.new ≡ insert (items self.old) at item }
    {
        self.slots[self.count] = item;
        self.count += 1;
        let slots = &mut self.slots[..];
        slots[at..self.count].rotate_right(1);
    }

    // Takes the item out, and puts those behind it one nearer.
    pub fn remove(&mut self, at: usize)
        requires within { at < length (items self.old) }
        ensures removes_the_item { items self.new ≡ remove (items self.old) at }
    {
        let slots = &mut self.slots[..];
        slots[at..self.count].rotate_left(1);
        self.count -= 1;
    }

    // Puts the item in the place of the one that stands there.
    pub fn replace(&mut self, at: usize, by: T)
        requires within { at < length (items self.old) }
        ensures replaces_the_item { items self.new ≡ slice_set (items self.old) at by }
    {
        self.slots[at] = by;
    }
}
