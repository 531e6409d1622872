// What a machine does: its moves, its runs over words, and how it differs from what was seen.
ghost use Rattle.std.specs.Prelude.{◌≡◌, ◌^◌, ◌<◌, length};
ghost use Rattle.machine.specs.Machine.{move, after};
ghost use Rattle.machine.specs.Row.{word_in};
ghost use Rattle.machine.specs.Run.{model, keys_of, difference};

use crate::view::Machine;

// What a key does in a state: the state that it leads to, and the output.
#[derive(Clone, Copy)]
pub struct Step {
    pub to: usize,
    pub output: u64,
}

// The key of a word at which something else was seen than the machine shows, and what it shows there.
#[derive(Clone, Copy)]
pub struct Difference {
    pub key: usize,
    pub expected: u64,
}

impl Machine<'_> {
    // How many states it has.
    pub fn states(self) -> usize
        ensures { result ≡ length (model self.entry) }
    {
        self.states
    }

    // How many keys it has.
    pub fn keys(self) -> usize
        ensures { result ≡ keys_of self.entry }
    {
        self.keys
    }

    // What a key does in a state: it leads to state 0 and shows 0 where the state or the key is not there, for a move is total.
    // That an output is below 2^32 is a clause wherever one is answered: a type for it would only be taken apart again.
    pub fn step(self, state: usize, key: usize) -> Step
        ensures to { result.to ≡ (move (model self.entry) state key).to }
        ensures output { result.output ≡ (move (model self.entry) state key).output }
        ensures inside { result.to < length (model self.entry) }
        ensures bound { result.output < 2 ^ 32 }
    {
        if state >= self.states || key >= self.keys {
            return Step { to: 0, output: 0 };
        }
        let at = 2 + 2 * (state * self.keys + key);
        Step {
            to: self.row[at] as usize,
            output: self.row[at + 1],
        }
    }

    // The state that a key leads to: 0 where the state or the key is not there, for a move is total.
    pub fn next(self, state: usize, key: usize) -> usize
        ensures value { result ≡ (move (model self.entry) state key).to }
        ensures inside { result < length (model self.entry) }
    {
        self.step(state, key).to
    }

    // What a key shows: 0 where the state or the key is not there, for a move is total.
    pub fn output(self, state: usize, key: usize) -> u64
        ensures value { result ≡ (move (model self.entry) state key).output }
        ensures bound { result < 2 ^ 32 }
    {
        self.step(state, key).output
    }

    // The state after a word.
    pub fn run(self, state: usize, word: &[u64]) -> usize
        ensures { result ≡ after (model self.entry) state word.now }
    {
        let mut reached = state;
        for key in word {
            reached = self.next(reached, *key as usize);
        }
        reached
    }

    // The first key of a word, begun in state 0, at which something else was seen than the machine shows.
    pub fn first_difference(self, word: &[u64], seen: &[u64]) -> Option<Difference>
        ensures { result ≡ difference (model self.entry) word.now seen.now }
    {
        let mut state = 0;
        for (i, key) in word.iter().enumerate() {
            let step = self.step(state, *key as usize);
            if seen.get(i) != Some(&step.output) {
                return Some(Difference {
                    key: i,
                    expected: step.output,
                });
            }
            state = step.to;
        }
        None
    }
}

// The word that stands in a row with its length in front: the keys that are there, if the row ends before. Behind the row there is no key,
// for it has an answer for every row.
pub fn word_at(row: &[u64], at: usize) -> &[u64]
    ensures { result.now ≡ word_in row.now at }
{
    if at >= row.len() {
        return &[];
    }
    let rest = &row[at + 1..];
    &rest[..(row[at] as usize).min(rest.len())]
}
