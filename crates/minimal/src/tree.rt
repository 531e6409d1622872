// The classes that a breadth first search found.
use machine::FixedList;

// A class, and where it is not the first the place of the class that it was found from, its parent, and the key that led there: no walk towards
// the first reads these two of it. A place and no Box, for the libraries take no heap.
#[derive(Clone, Copy, Default)]
pub struct Found {
    pub class: usize,
    pub parent: usize,
    pub key: usize,
}

// At most sixteen classes, in the order in which they were found.
#[derive(Clone, Copy)]
pub struct Tree {
    pub found: FixedList<Found, 16>,
}
