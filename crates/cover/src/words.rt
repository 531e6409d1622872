// Words of a few keys, which go by value.
ghost use Rattle.std.specs.Prelude.{◌≡◌, ◌<◌, [], ◌∷◌, ◌++◌, length};
ghost use Rattle.cover.specs.Words.{word_of};

use machine::FixedList;

// A word of at most sixteen keys.
pub type Word = FixedList<u64, 16>;

// The same word once more.
pub fn copied(word: &Word) -> Word
    ensures { word_of result ≡ word_of word.now }
{
    *word
}

// The word with one key more behind it.
pub fn followed(word: &Word, key: u64) -> Word
    requires { length (word_of word.now) < 16 }
    ensures { word_of result ≡ word_of word.now ++ key ∷ [] }
{
    let mut longer = copied(word);
    longer.push(key);
    longer
}
