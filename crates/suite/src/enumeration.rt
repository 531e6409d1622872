// Every test once, in order, handed to a sink.
ghost use Rattle.std.specs.List.{list_any};
ghost use Rattle.std.specs.Prelude.{◌≡◌, suc, ◌+◌, ◌≤◌, ◌&&◌, ◌||◌, ◌++◌, length};
ghost use Rattle.arrayvec.specs.ArrayVec.{array_vec_len};
ghost use Rattle.cover.specs.Words.{word_of, words_of};
ghost use Rattle.machine.specs.Words.{products, of_length};
ghost use Rattle.suite.specs.Enumeration.{Fed, Knows, ends_marked, fresh_of};
ghost use Rattle.suite.specs.Factors.{ends_in, made_of};
ghost use Rattle.suite.specs.Kept.{some_parts, kept_behind};

use crate::apart::{some_end_marked, some_parts};
use crate::factors::Factors;
use crate::sink::Sink;
use crate::values::{Against, Candidate, Known};
use cover::Word;

// Puts a word behind the keys of a test. Key by key, since `try_extend_from_slice` calls `memmove`, as in `write_word`.
fn append(test: &mut Candidate, word: &[u64])
    requires { array_vec_len test.old + length word.now ≤ 35 }
    ensures { test.new.items ≡ test.old.items ++ word.now }
{
    for key in word {
        test.push(*key);
    }
}

impl Against<'_> {
    // Whether a test has come up before: it ends at a marked place or, if there are longer words in front, can be taken apart with one.
    fn repeated(self, known: &Known, test: &Candidate) -> bool
        ensures { result ≡ (list_any (ends_marked known.now.marks test.now.items) (words_of self.entry.ends.now) || (known.now.longer && some_parts (suc self.entry.extra) (words_of self.entry.ends.now) (words_of self.entry.earlier.now) test.now.items)) }
    {
        if some_end_marked(&known.marks, self.ends, test) {
            return true;
        }
        known.longer && some_parts(self.extra + 1, self.earlier, self.ends, test.as_slice())
    }

    // Hands on every end behind the beginning of a test.
    fn each_end<S: Sink>(self, known: &Known, test: &mut Candidate, sink: &mut S)
        requires whole { array_vec_len test.old ≡ self.own + self.between }
        requires known { Knows self known.now test.old.items }
        ensures fed { Fed S.step (fresh_of self.entry test.old.items (words_of self.entry.ends.now)) sink.old sink.new }
        ensures stays { test.new.items ≡ test.old.items }
    {
        let begun = test.len();
        // Every end would start at a marked place.
        if known.marks[begun] {
            return;
        }
        for end in self.ends {
            append(test, end.as_slice());
            if !self.repeated(known, test) {
                sink.put(test.as_slice());
            }
            test.truncate(begun);
        }
    }

    // Hands on every word of `left` keys behind the beginning of a test, and every end behind that.
    fn each_between<S: Sink>(self, known: &Known, test: &mut Candidate, left: usize, sink: &mut S)
        requires known { Knows self known.now test.old.items }
        requires room { array_vec_len test.old + left ≡ self.own + self.between }
        requires behind { self.own ≤ array_vec_len test.old }
        ensures fed { Fed S.step (fresh_of self.entry test.old.items (products (of_length self.entry.keys left) (words_of self.entry.ends.now))) sink.old sink.new }
        ensures stays { test.new.items ≡ test.old.items }
    {
        if left == 0 {
            self.each_end(known, test, sink);
            return;
        }
        for key in 0..self.keys {
            test.push(key);
            let more = self.known_behind(known, test.as_slice());
            self.each_between(&more, test, left - 1, sink);
            test.pop();
        }
    }
}

impl Factors<'_> {
    // Hands on every word of at most `extra` keys behind the word `own`, and every end behind that.
    fn each_behind<S: Sink>(&self, earlier: &[Word], own: &Word, sink: &mut S)
        ensures { Fed S.step (kept_behind self.now.keys self.now.extra (ends_in self.now) (words_of earlier.now) (word_of own.now) (suc self.now.extra)) sink.old sink.new }
    {
        let own = own.as_slice();
        let mut test = Candidate::new();
        append(&mut test, own);
        for between in 0..=self.extra {
            let against = Against {
                earlier,
                ends: self.ends,
                keys: self.keys,
                own: own.len(),
                between,
                extra: self.extra,
            };
            let known = against.known_of(own);
            against.each_between(&known, &mut test, between, sink);
        }
    }

    // Hands on every test made of the words in front, at most `extra` keys, and the ends: each once, in order.
    pub(crate) fn each_test<S: Sink>(&self, sink: &mut S)
        ensures { Fed S.step (made_of self.now) sink.old sink.new }
    {
        let fronts = self.fronts;
        for (i, own) in fronts.iter().enumerate() {
            self.each_behind(&fronts[..i], own, sink);
        }
    }
}
