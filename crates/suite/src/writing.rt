// The tests for the machine in a row.
ghost use Rattle.std.specs.Prelude.{◌≤◌, length};
ghost use Rattle.suite.specs.Answer.{Prepared, TestsAnswered};
ghost use Rattle.suite.specs.Enumeration.{Fed};
ghost use Rattle.suite.specs.Specified.{tests_for};

use crate::factors::Fronts;
use crate::rows::write_suite;
use crate::sink::Sink;
use crate::specification::Specification;
use cover::Cover;
use machine::{Machine, Refusal};
use minimal::MinimalMachine;

// How many states more than its specification an implementation may be tested for.
const MOST_EXTRA: u64 = 3;

// The minimal machine in a row with so many extra states, or why there are no tests for it. A row and extra states are two parameters in every
// public call: so it is told to other languages.
pub fn prepare(row: &[u64], extra: u64) -> Result<Specification<'_>, Refusal>
    ensures { Prepared row.now extra result }
{
    let machine = MinimalMachine::check(Machine::read(row)?)?;
    if extra > MOST_EXTRA {
        return Err(Refusal::TooManyExtra(extra));
    }
    Ok(Specification {
        machine,
        extra: extra as usize,
    })
}

impl Specification<'_> {
    // Hands every test to a sink: each once, in order.
    pub fn each_test<S: Sink>(self, sink: &mut S)
        ensures fed { Fed S.step (tests_for self.entry) sink.old sink.new }
        ensures few { length (tests_for self.entry) ≤ 10108800 }
    {
        let cover = Cover::of(self.machine);
        let mut fronts = Fronts::new();
        self.factors(&cover, &mut fronts).each_test(sink);
    }
}

// Writes the tests for the machine in a row and so many extra states into a lent row, or refuses and writes nothing.
pub fn write_tests(row: &[u64], extra: u64, out: &mut [u64]) -> Result<u64, Refusal>
    ensures { TestsAnswered row.now extra out.old result out.new }
{
    let specification = prepare(row, extra)?;
    let cover = Cover::of(specification.machine);
    let mut fronts = Fronts::new();
    write_suite(&specification.factors(&cover, &mut fronts), out)
}
