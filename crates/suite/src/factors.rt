// What the tests are made of.
ghost use Rattle.std.specs.Prelude.{◌≤◌};

use cover::Word;
use machine::FixedList;

// Up to sixteen words that reach, and each of them with each of up to eight keys behind.
pub type Fronts = FixedList<Word, 144>;

// Words in front, keys, at most `extra` of which come behind a word in front, and words to end with. The words are lent: see `Specification::factors`.
#[derive(Clone, Copy)]
pub struct Factors<'a> {
    pub fronts: &'a [Word],
    pub ends: &'a [Word],
    pub keys: u64,
    pub extra: usize,
    // This bound stands with each number of extra states: see `Against`.
    ghost few_extra: { extra ≤ 3 },
}
