// Reading the tests in a row, one after the other.
ghost use Rattle.std.specs.Prelude.{◌≡◌, ℕ, ◌≤◌, List, [], ◌++◌, length, replicate, slice_index};
ghost use Rattle.machine.specs.Machine.{Word};
ghost use Rattle.suite.specs.Reading.{tests_left, tests_of};
ghost use Rattle.suite.specs.Written.{tests_row, words_in};

// How many tests there are to be, and what is left of the row.
#[derive(Drop)]
pub struct Tests<'a> {
    left: u64,
    rest: &'a [u64],
}

impl<'a> Iterator for Tests<'a> {
    type Item = &'a [u64];

    ghost use Rattle.std.specs.Iterator.{YieldsFirstBy, item_count};

    ghost next_gives = { YieldsFirstBy (λ test. test.now) tests_left };

    ghost remaining = { item_count tests_left };

    fn next(&mut self) -> Option<&'a [u64]> {
        if self.left == 0 {
            return None;
        }
        // As `word_at` reads a word at a place of a row; here the rest is wanted too, and one function for both is no plainer.
        let (length, behind) = self.rest.split_first()?;
        let (test, rest) = behind.split_at(behind.len().min(*length as usize));
        self.left -= 1;
        self.rest = rest;
        Some(test)
    }
}

// The tests in a row, whose first number says how many there are: each a part of the row.
pub fn tests_in(row: &[u64]) -> Tests<'_>
    ensures yields { tests_left result ≡ tests_of row.now }
    ensures places { (empty : ℕ) × (words_in (slice_index row.now 0) row.now 1 ≡ tests_left result ++ replicate empty []) }
    ensures few { length (tests_left result) ≤ length row.now }
    ensures written { (ts : List Word) (behind : List ℕ) → row.now ≡ tests_row ts ++ behind → tests_left result ≡ ts }
{
    match row.split_first() {
        Some((count, rest)) => Tests { left: *count, rest },
        None => Tests { left: 0, rest: row },
    }
}
