// Counting tests, and writing them into a row.
ghost use Rattle.std.specs.Prelude.{◌≡◌, suc, ◌+◌, ◌≤◌, ◌++◌, length, take, drop};
ghost use Rattle.suite.specs.Sinks.{capped, Tallied, Wrote};
ghost use Rattle.suite.specs.Written.{word_out};

use crate::sink::Sink;

// More than any row can hold.
const CAP: u64 = 0x4000_0000_0000_0000;

// How many tests there were, and how many numbers they take; neither goes beyond the cap.
#[derive(Clone, Copy)]
pub struct Tally {
    pub tests: u64,
    pub numbers: u64,
}

// A row, and the place for the next test: not the rest of the row alone, since the step of the sink is told of the whole row.
#[derive(Drop)]
pub struct Writer<'a> {
    pub row: &'a mut [u64],
    pub at: usize,
}

fn plus(a: u64, b: u64) -> u64
    ensures { result ≡ capped a b }
{
    a.saturating_add(b).min(CAP)
}

impl Sink for Tally {
    ghost step = { Tallied };

    fn put(&mut self, test: &[u64]) {
        self.tests = plus(self.tests, 1);
        self.numbers = plus(self.numbers, test.len() as u64 + 1);
    }
}

// Writes a word with its length in front. Key by key, since `copy_from_slice` calls `memmove`, and the archive for C needs only `memcpy` and `memset`.
fn write_word(row: &mut [u64], at: usize, word: &[u64])
    requires { at + suc (length word.now) ≤ length row.old }
    ensures { row.new ≡ take at row.old ++ (word_out word.now ++ drop (at + suc (length word.now)) row.old) }
{
    row[at] = word.len() as u64;
    for (i, key) in word.iter().enumerate() {
        row[at + 1 + i] = *key;
    }
}

impl Sink for Writer<'_> {
    ghost step = { Wrote };

    fn put(&mut self, test: &[u64]) {
        let len = self.row.len();
        let at = self.at;
        if at < len && test.len() < len - at {
            write_word(self.row, at, test);
            self.at = at + test.len() + 1;
        }
    }
}
