// What the first keys of a word tell of whether it has come up before.
ghost use Rattle.std.specs.Prelude.{◌≡◌, ℕ, ◌+◌, ◌<◌, ◌≤◌, false, ◌||◌, slice_index_or};
ghost use Rattle.cover.specs.Words.{words_of};
ghost use Rattle.suite.specs.Enumeration.{Knows, within, marked};

use crate::apart::{begins, some_longer};
use crate::values::{Against, Known, Marks};

// Marks `n` places, from `from` on.
fn mark(marks: &mut Marks, from: usize, n: usize)
    requires { from + n ≤ 36 }
    ensures { (m : ℕ) → m < 36 → slice_index_or marks.new m false ≡ (slice_index_or marks.old m false || within from n m) }
{
    marks[from..from + n].fill(true);
}

impl Against<'_> {
    // The places at which an end of a word that begins with `front` shows that the word has come up before.
    fn marks_behind(self, front: &[u64]) -> Marks
        ensures { (m : ℕ) → m < 36 → slice_index_or result m false ≡ marked self.entry.extra (words_of self.entry.earlier.now) self.entry.own self.entry.between front.now m }
    {
        let mut marks = [false; 36];
        mark(&mut marks, self.own, self.between);
        for word in self.earlier {
            if begins(word.as_slice(), front) {
                mark(&mut marks, word.len(), self.extra + 1);
            }
        }
        marks
    }

    // What the keys of `front` tell.
    pub(crate) fn known_of(self, front: &[u64]) -> Known
        ensures { Knows self.entry result front.now }
    {
        Known {
            marks: self.marks_behind(front),
            longer: some_longer(self.earlier, front),
        }
    }

    // The same by what all keys but the last of them told: that stays, unless earlier words in front went on behind those.
    pub(crate) fn known_behind(self, before: &Known, front: &[u64]) -> Known
        requires { before.now.longer ≡ false → Knows self before.now front.now }
        ensures { Knows self.entry result front.now }
    {
        if before.longer {
            return self.known_of(front);
        }
        *before
    }
}
