// The words that cover a machine, by value.
use crate::words::Word;
use machine::FixedList;

// An access word for each state, by its number, and the separating words.
#[derive(Clone, Copy)]
pub struct Cover {
    pub access: FixedList<Word, 16>,
    pub separating: FixedList<Word, 120>,
}
