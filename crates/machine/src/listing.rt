// The items of a list of fixed room.
ghost use Rattle.std.specs.Prelude.{◌≡◌, ◌<◌, ◌≤◌, [], ◌∷◌, ◌++◌, length, slice_set};
ghost use Rattle.std.specs.Cmp.{on_equiv, on_per};
ghost use Rattle.std.specs.Cmp.Lexicographic.{pointwise, lists_equiv, lists_per};
ghost use Rattle.machine.specs.Items.{items};

use crate::fixed_list::FixedList;
use std::ops::DerefSlice;

impl<T: Copy, const ROOM: usize> FixedList<T, ROOM> {
    // How many items there are.
    pub fn len(&self) -> usize
        ensures value { result ≡ length (items self.now) }
        ensures fits { result ≤ ROOM }
    {
        self.as_slice().len()
    }

    // The items.
    pub fn as_slice(&self) -> &[T]
        ensures value { result.now ≡ items self.now }
        ensures fits { length result.now ≤ ROOM }
    {
        &self.places[..self.len]
    }

    // One item more, behind the others.
    pub fn push(&mut self, item: T)
        requires { length (items self.old) < ROOM }
        ensures { items self.new ≡ items self.old ++ item ∷ [] }
    {
        self.places[self.len] = item;
        self.len += 1;
    }

    // Another item at a place.
    pub fn set(&mut self, place: usize, item: T)
        requires { place < length (items self.old) }
        ensures { items self.new ≡ slice_set (items self.old) place item }
    {
        self.places[..self.len][place] = item;
    }
}

impl<T: Copy + Default, const ROOM: usize> FixedList<T, ROOM> {
    // No items.
    pub fn new() -> Self
        ensures { items result ≡ [] }
    {
        FixedList {
            len: 0,
            places: [T::default(); ROOM],
        }
    }
}

impl<T: Copy + Default, const ROOM: usize> Default for FixedList<T, ROOM> {
    ghost is_default = { λ list. items list ≡ [] };

    fn default() -> Self {
        FixedList::new()
    }
}

impl<T: Copy, const ROOM: usize> DerefSlice for FixedList<T, ROOM> {
    type Elem = T;

    ghost deref_gives = { λ list xs. (xs ≡ items list) × (length xs ≤ ROOM) };

    fn deref(&self) -> &[T] {
        self.as_slice()
    }
}

// Two lists are equal by their items: what lies in the places behind them says nothing.
impl<T: PartialEq + Copy, const ROOM: usize> PartialEq for FixedList<T, ROOM> {
    ghost eq = { λ v w. pointwise T.eq (items v) (items w) };

    ghost laws = { on_per items (lists_per T.laws) };

    fn eq(&self, other: &Self) -> bool {
        self.as_slice() == other.as_slice()
    }
}

impl<T: Eq + Copy, const ROOM: usize> Eq for FixedList<T, ROOM> {
    ghost laws = { on_equiv items (lists_equiv T.Eq.laws) };
}
