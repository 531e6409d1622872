// The separating words: for every two states the first word that tells them apart, each word once.
ghost use Rattle.std.specs.Prelude.{◌≡◌, ◌↔◌, IsTrue, []};
ghost use Rattle.machine.specs.Items.{items};
ghost use Rattle.machine.specs.Run.{model, keys_of};
ghost use Rattle.machine.specs.Words.{In};
ghost use Rattle.cover.specs.Cover.{separating_words};
ghost use Rattle.cover.specs.Words.{word_of, words_of};

use crate::levels::Levels;
use crate::words::Word;
use machine::FixedList;
use minimal::MinimalMachine;

// Whether a word is one of some words.
fn is_among(word: &Word, words: &[Word]) -> bool
    ensures { IsTrue result ↔ In (word_of word.now) (words_of words.now) }
{
    words.contains(word)
}

// The words of all pairs of states; of a machine with one state, the empty word. They go into a lent list, which moving out of here would copy.
pub(crate) fn separating(m: MinimalMachine, words: &mut FixedList<Word, 120>)
    requires { items words.old ≡ [] }
    ensures { words_of (items words.new) ≡ separating_words (keys_of m.entry.machine) (model m.entry.machine) }
{
    if m.machine.states() <= 1 {
        words.push(Word::new());
        return;
    }
    let levels = Levels::of(m.machine);
    for s in 0..m.machine.states() {
        'pairs: for t in 0..s {
            let word = levels.telling_word(t, s);
            // The loops have names, which their proofs are told under.
            if is_among(&word, words) {
                continue 'pairs;
            }
            words.push(word);
        }
    }
}
