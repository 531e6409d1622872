// The access words: for every state the first word that reaches it.
ghost use Rattle.std.specs.Prelude.{◌≡◌, ◌≤◌, [], length, replicate};
ghost use Rattle.machine.specs.Items.{items};
ghost use Rattle.machine.specs.Run.{model, keys_of};
ghost use Rattle.cover.specs.Cover.{access_words};
ghost use Rattle.cover.specs.Words.{words_of};

use crate::words::{Word, followed};
use machine::FixedList;
use minimal::{MinimalMachine, reach};

// The empty word for each of so many states.
fn unreached(states: usize) -> FixedList<Word, 16>
    requires { states ≤ 16 }
    ensures { words_of (items result) ≡ replicate states [] }
{
    let mut words = FixedList::new();
    for _ in 0..states {
        words.push(Word::new());
    }
    words
}

// Each state's word is that of its parent in the search, with a key behind.
pub(crate) fn access(m: MinimalMachine) -> FixedList<Word, 16>
    ensures { words_of (items result) ≡ access_words (keys_of m.entry.machine) (model m.entry.machine) }
{
    let tree = reach(m.machine);
    let mut words = unreached(m.machine.states());
    // By place: gone through as a slice the tree is lent, and the loop's invariant cannot speak of it.
    for j in 1..tree.found.len() {
        let found = tree.at(j);
        let parent = tree.at(found.parent).class;
        let word = followed(&words[parent], found.key as u64);
        words.set(found.class, word);
    }
    words
}
