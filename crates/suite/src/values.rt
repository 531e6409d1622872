// What the enumeration works with.
ghost use Rattle.std.specs.Prelude.{◌+◌, ◌≤◌};

use arrayvec::ArrayVec;
use cover::Word;

// A test, or the beginning of one.
pub type Candidate = ArrayVec<u64, 35>;

// Which places of a candidate are marked.
pub type Marks = [bool; 36];

// What a candidate is measured against: the words in front that come before its own, the words that it may end with, how many keys there are,
// how many its own word in front has, how many more stand behind that, and how many may.
#[derive(Clone, Copy)]
pub struct Against<'a> {
    pub earlier: &'a [Word],
    pub ends: &'a [Word],
    pub keys: u64,
    pub own: usize,
    pub between: usize,
    pub extra: usize,
    ghost room: { own + between ≤ 19 },
    // The bound stands with each number of extra states: a type for it alone would only be taken apart again.
    ghost few_extra: { extra ≤ 3 },
}

// What the first keys of a test tell: at which places an end shows that it has come up before, and whether an earlier word in front goes on
// behind these keys.
#[derive(Clone, Copy)]
pub struct Known {
    pub marks: Marks,
    pub longer: bool,
}
