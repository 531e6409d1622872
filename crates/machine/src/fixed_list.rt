// A list with room for a fixed number of items, which goes by value.
ghost use Rattle.std.specs.Prelude.{⊤, ◌≡◌, ◌≤◌};

use std::alloc::AllocError;

// The first `len` of the places. The libraries take no heap, and what holds such lists is copied with them.
pub struct FixedList<T, const ROOM: usize> {
    pub len: usize,
    pub places: [T; ROOM],
    pub ghost few: { len ≤ ROOM },
}

impl<T: Copy, const ROOM: usize> Copy for FixedList<T, ROOM> {}

impl<T: Copy, const ROOM: usize> Clone for FixedList<T, ROOM> {
    ghost is_clone = { λ list copy. copy ≡ list };

    ghost is_infallible = { λ _. ⊤ };

    fn clone(&self) -> Result<Self, AllocError> {
        Ok(*self)
    }
}
