// A machine that is known to be minimal.
ghost use Rattle.machine.specs.Run.{model, keys_of};
ghost use Rattle.minimal.specs.Minimal.{NoneRedundant};

use machine::Machine;

// It is made by checking a machine, so that what needs a minimal machine asks for nothing else.
#[derive(Clone, Copy)]
pub struct MinimalMachine<'a> {
    pub machine: Machine<'a>,
    pub ghost none_redundant: { NoneRedundant (keys_of machine) (model machine) },
}
