// Checking that a machine is minimal.
ghost use Rattle.std.specs.Prelude.{◌≡◌, Ok, Err};
ghost use Rattle.minimal.specs.Checked.{Checked};

use crate::minimal_machine::MinimalMachine;
use crate::redundancy::redundant;
use machine::{Machine, Refusal};

impl<'a> MinimalMachine<'a> {
    // The machine, or the refusal that names its smallest state that is reached by no word or is equivalent to a smaller one.
    pub fn check(machine: Machine<'a>) -> Result<MinimalMachine<'a>, Refusal>
        ensures { Checked machine.entry result }
    {
        if let Some(state) = redundant(machine) {
            return Err(Refusal::NotMinimal(state as u64));
        }
        Ok(MinimalMachine { machine })
    }
}
