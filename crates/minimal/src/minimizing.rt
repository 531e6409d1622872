// The minimal machine of a machine, written into a lent row.
ghost use Rattle.machine.specs.Making.{Writable};
ghost use Rattle.machine.specs.Run.{model, keys_of};
ghost use Rattle.minimal.specs.Levels.{class_in};
ghost use Rattle.minimal.specs.Minimized.{Minimized, MinimalReadsBack};
ghost use Rattle.minimal.specs.Quotient.{quotient};
ghost use Rattle.minimal.specs.Search.{class_found, found_count};

use crate::classes::Classes;
use crate::tree::Tree;
use machine::{Computed, Machine, Refusal, Step, write_computed};

// The machine that has a state for each class found.
#[derive(Drop)]
struct Quotient<'a> {
    classes: Classes<'a>,
    tree: Tree,
    ghost writable: { Writable (keys_of classes.machine) (quotient (keys_of classes.machine) (model classes.machine) (class_in classes.of) (class_found tree) (found_count tree)) },
}

impl Computed for Quotient<'_> {
    ghost made = { λ q. quotient (keys_of q.classes.machine) (model q.classes.machine) (class_in q.classes.of) (class_found q.tree) (found_count q.tree) };

    ghost made_keys = { λ q. keys_of q.classes.machine };

    fn states(&self) -> usize {
        self.tree.found.len()
    }

    fn keys(&self) -> usize {
        self.classes.machine.keys()
    }

    fn step(&self, state: usize, key: usize) -> Step {
        let class = self.tree.at(state).class;
        Step {
            to: self.tree.place(self.classes.behind(class, key)),
            output: self.classes.machine.output(class, key),
        }
    }
}

// Writes the minimal machine of the machine in a row into another, and answers its number of states; a refusal writes nothing.
pub fn minimize(row: &[u64], out: &mut [u64]) -> Result<u64, Refusal>
    ensures minimized { Minimized row.now out.old result out.new }
    ensures reads_back { MinimalReadsBack row.now result out.new }
{
    let m = Machine::read(row)?;
    let classes = Classes::of_equivalent(m);
    let tree = classes.search();
    write_computed(&Quotient { classes, tree }, out)
}
