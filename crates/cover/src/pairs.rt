// The first words that tell two states apart.
ghost use Rattle.std.specs.Prelude.{◌≡◌, ◌<◌, length};
ghost use Rattle.machine.specs.Run.{model, keys_of};
ghost use Rattle.machine.specs.Words.{up_to};
ghost use Rattle.cover.specs.Cover.{first_telling};
ghost use Rattle.cover.specs.Levels.{level};
ghost use Rattle.cover.specs.Words.{word_of};

use crate::levels::Levels;
use crate::words::Word;

impl Levels<'_> {
    // The first word in order that tells states t and s apart: a smallest key that leads on to the first word of the states behind it.
    pub(crate) fn telling_word(&self, t: usize, s: usize) -> Word
        requires complete { self.now.bound ≡ length (model self.now.machine) }
        requires first { t < length (model self.now.machine) }
        requires second { s < length (model self.now.machine) }
        requires apart { level (keys_of self.now.machine) (model self.now.machine) (length (model self.now.machine)) t s < length (model self.now.machine) }
        ensures { word_of result ≡ first_telling (model self.now.machine) t s (up_to (keys_of self.now.machine) (length (model self.now.machine))) }
    {
        let mut word = Word::new();
        let mut p = t;
        let mut q = s;
        for low in (0..self.at(t, s)).rev() {
            let key = self.first_key(low, p, q).unwrap();
            word.push(key as u64);
            p = self.machine.next(p, key);
            q = self.machine.next(q, key);
        }
        word
    }
}
