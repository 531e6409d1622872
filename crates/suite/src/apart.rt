// Taking a word apart: whether it begins with one word and ends with another.
ghost use Rattle.std.specs.List.{list_any};
ghost use Rattle.std.specs.Prelude.{◌≡◌, nat_eq};
ghost use Rattle.std.specs.Cmp.Lexicographic.{pointwise};
ghost use Rattle.cover.specs.Words.{word_of, words_of};
ghost use Rattle.suite.specs.Enumeration.{ends_marked, longer};
ghost use Rattle.suite.specs.Kept.{begins, ends, parts};

use crate::values::{Candidate, Marks};
use cover::Word;

// Whether two words have the same keys: one by one, which for words of few keys takes less time than the library's `==`, `starts_with` and `ends_with`.
fn same_keys(a: &[u64], b: &[u64]) -> bool
    ensures { result ≡ pointwise nat_eq a.now b.now }
{
    a.iter().eq(b)
}

// Whether the word begins with `front`.
pub(crate) fn begins(front: &[u64], word: &[u64]) -> bool
    ensures { result ≡ begins front.now word.now }
{
    word.len() >= front.len() && same_keys(front, &word[..front.len()])
}

// Whether one of some words is longer than `front` and begins with it.
pub(crate) fn some_longer(words: &[Word], front: &[u64]) -> bool
    ensures { result ≡ list_any (λ word. longer front.now (word_of word)) words.now }
{
    words.iter().any(|word| is_longer(word, front))
}

fn is_longer(word: &Word, front: &[u64]) -> bool
    ensures { result ≡ longer front.now (word_of word.now) }
{
    let word = word.as_slice();
    word.len() > front.len() && begins(front, word)
}

// Whether the word ends with `end`, with at least `least` keys before it and fewer than `least + n`.
fn ends(least: usize, n: usize, end: &Word, word: &[u64]) -> bool
    ensures { result ≡ ends least n (word_of end.now) word.now }
{
    let end = end.as_slice();
    let Some(before) = word.len().checked_sub(end.len()) else {
        return false;
    };
    before >= least && before - least < n && same_keys(end, &word[before..])
}

// Whether the word ends so with one of some words.
fn some_end(least: usize, n: usize, words: &[Word], word: &[u64]) -> bool
    ensures { result ≡ list_any (λ end. ends least n (word_of end) word.now) words.now }
{
    words.iter().any(|end| ends(least, n, end, word))
}

// Whether the word is one of the words in front, fewer than `n` keys, and one of the ends.
pub(crate) fn some_parts(n: usize, fronts: &[Word], words: &[Word], word: &[u64]) -> bool
    ensures { result ≡ list_any (λ front. parts n (words_of words.now) (word_of front) word.now) fronts.now }
{
    fronts.iter().any(|front| parts(n, front, words, word))
}

fn parts(n: usize, front: &Word, words: &[Word], word: &[u64]) -> bool
    ensures { result ≡ parts n (words_of words.now) (word_of front.now) word.now }
{
    begins(front.as_slice(), word) && some_end(front.len(), n, words, word)
}

// Whether the test ends with `end`, at a marked place. Four lines are as in `ends`: one function of them both, over a test of the place, is no plainer.
fn ends_marked(marks: &Marks, end: &Word, test: &Candidate) -> bool
    ensures { result ≡ ends_marked marks.now test.now.items (word_of end.now) }
{
    let end = end.as_slice();
    let Some(before) = test.len().checked_sub(end.len()) else {
        return false;
    };
    marks[before] && same_keys(end, &test[before..])
}

// Whether the test ends with one of some words, at a marked place.
pub(crate) fn some_end_marked(marks: &Marks, words: &[Word], test: &Candidate) -> bool
    ensures { result ≡ list_any (λ end. ends_marked marks.now test.now.items (word_of end)) words.now }
{
    words.iter().any(|end| ends_marked(marks, end, test))
}
