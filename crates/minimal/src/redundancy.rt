// Whether a machine is minimal.
ghost use Rattle.std.specs.Prelude.{Some, None};
ghost use Rattle.machine.specs.Machine.{Minimal};
ghost use Rattle.machine.specs.Run.{model, keys_of};
ghost use Rattle.minimal.specs.Minimal.{FirstRedundant};

use crate::classes::Classes;
use crate::searching::reach;
use machine::Machine;

// The smallest state that cannot be reached or is equivalent to a smaller one; none exactly if the machine is minimal.
pub fn redundant(m: Machine) -> Option<usize>
    ensures { elim result [ None ↦ Minimal (keys_of m.entry) (model m.entry) | Some s ↦ FirstRedundant (keys_of m.entry) (model m.entry) s ] }
{
    let classes = Classes::of_equivalent(m);
    let tree = reach(m);
    // A loop: with `find` the proof of what is known of the states before did not close.
    for state in 0..m.states() {
        if classes.of[state] < state || tree.find(state).is_none() {
            return Some(state);
        }
    }
    None
}
