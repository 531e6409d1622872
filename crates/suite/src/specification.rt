// A machine that there are tests for.
ghost use Rattle.std.specs.Prelude.{◌≤◌};

use minimal::MinimalMachine;

// A minimal machine, and how many states more than it an implementation may have.
#[derive(Clone, Copy)]
pub struct Specification<'a> {
    pub machine: MinimalMachine<'a>,
    pub extra: usize,
    // This bound stands with each number of extra states: see `Against`.
    pub ghost few_extra: { extra ≤ 3 },
}
