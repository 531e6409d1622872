// Classes of states that show the same on words of at most so many keys, and of equivalent states.
ghost use Rattle.std.specs.Prelude.{◌≡◌, ℕ, ◌+◌, ◌-◌, ◌<◌, length, slice_index};
ghost use Rattle.machine.specs.Machine.{move};
ghost use Rattle.machine.specs.Run.{model, keys_of};
ghost use Rattle.minimal.specs.Levels.{AtLevel, class_in, finer};
ghost use Rattle.minimal.specs.Quotient.{Equivalence};

use crate::classes::Classes;
use machine::Machine;
use std::array;

// That the machine stays is a clause of each function that makes classes: no type says it more plainly.
impl<'a> Classes<'a> {
    // Every state in one class: without a key all show the same.
    fn together(machine: Machine<'a>) -> Classes<'a>
        ensures machine { result.machine ≡ machine.entry }
        ensures one { (s : ℕ) → slice_index result.of s ≡ 0 }
    {
        Classes {
            machine,
            of: [0; 16],
        }
    }

    // Every state in a class of its own.
    pub(crate) fn apart(machine: Machine<'a>) -> Classes<'a>
        ensures machine { result.machine ≡ machine.entry }
        ensures own { (s : ℕ) → s < 16 → class_in result.of s ≡ s }
    {
        Classes {
            machine,
            of: array::from_fn(|state| state),
        }
    }

    // The class of the state that a key leads to.
    pub(crate) fn behind(self, state: usize, key: usize) -> usize
        ensures { result ≡ class_in self.entry.of (move (model self.entry.machine) state key).to }
    {
        self.of[self.machine.next(state, key)]
    }

    // The smallest state in which every key shows the same as in `state` and leads to a state of the same class.
    #[tactic(auto, using(machine::proofs::Views::few_states))]
    fn smallest(self, state: usize) -> usize
        ensures { result ≡ finer (keys_of self.entry.machine) (model self.entry.machine) self.entry.of state }
    {
        let m = self.machine;
        // Nested loops over states and keys are left by their label.
        'others: for other in 0..state {
            for key in 0..m.keys() {
                let there = m.step(other, key);
                let here = m.step(state, key);
                let same_output = there.output == here.output;
                let same_class = self.of[there.to] == self.of[here.to];
                if !(same_output && same_class) {
                    continue 'others;
                }
            }
            return other;
        }
        state
    }

    // One key more: from the classes at a level those at the next.
    fn refined(self) -> Classes<'a>
        ensures machine { result.machine ≡ self.entry.machine }
        ensures finer { (s : ℕ) → s < length (model self.entry.machine) → class_in result.of s ≡ finer (keys_of self.entry.machine) (model self.entry.machine) self.entry.of s }
        ensures level { (j : ℕ) → AtLevel (keys_of self.entry.machine) (model self.entry.machine) j self.entry.of → AtLevel (keys_of self.entry.machine) (model self.entry.machine) (j + 1) result.of }
    {
        let states = self.machine.states();
        Classes {
            machine: self.machine,
            // Only for the machine's states: to look behind them takes up to four times as long.
            of: array::from_fn(
                |state| -> usize
                    ensures { state < states → result ≡ finer (keys_of self.entry.machine) (model self.entry.machine) self.entry.of state }
                {
                    if state < states {
                        self.smallest(state)
                    } else {
                        0
                    }
                },
            ),
        }
    }

    // The classes of equivalent states: states that differ do so on a word with fewer keys than there are states, so that many rounds less one are enough.
    // `Levels` of cover is made in as many rounds, of other tables.
    pub(crate) fn of_equivalent(machine: Machine<'a>) -> Classes<'a>
        ensures machine { result.machine ≡ machine.entry }
        ensures level { AtLevel (keys_of machine.entry) (model machine.entry) (length (model machine.entry) - 1) result.of }
        ensures equivalence { Equivalence (keys_of machine.entry) (model machine.entry) (class_in result.of) }
    {
        let mut classes = Classes::together(machine);
        for _round in 1..machine.states() {
            classes = classes.refined();
        }
        classes
    }
}
