// The tests in a lent row.
ghost use Rattle.std.specs.Prelude.{◌≡◌};
ghost use Rattle.machine.specs.Row.{word_in};
ghost use Rattle.suite.specs.Factors.{made_of};
ghost use Rattle.suite.specs.Written.{TestsWritten};

use crate::factors::Factors;
use crate::sinks::{Tally, Writer};
use machine::{Refusal, word_at};

// Writes the tests made of some factors, or says that there is no room for them and writes nothing.
pub(crate) fn write_suite(factors: &Factors, out: &mut [u64]) -> Result<u64, Refusal>
    ensures { TestsWritten (made_of factors.now) out.old result out.new }
{
    let mut tally = Tally {
        tests: 0,
        numbers: 1,
    };
    factors.each_test(&mut tally);
    if tally.numbers > out.len() as u64 {
        return Err(Refusal::NoRoomForTests(tally.numbers.min(0x1_0000_0000)));
    }
    out[0] = tally.tests;
    let mut writer = Writer { row: out, at: 1 };
    factors.each_test(&mut writer);
    Ok(tally.tests)
}

// The test that stands at a place of a row: a part of the row, behind its length. It is `word_at` by a tester's name, a public call.
pub fn test_at(row: &[u64], place: usize) -> &[u64]
    ensures { result.now ≡ word_in row.now place }
{
    word_at(row, place)
}
