// Each call as the library below it has it, with its answer as numbers. C and other languages need each of them by its own name.
ghost use Rattle.minimal.specs.Minimized.{Minimized};
ghost use Rattle.suite.specs.Answer.{TestsAnswered};
ghost use Rattle.survivor.specs.Answer.{SurvivorWritten};
ghost use Rattle.verdict.specs.Judging.{Judgement};
ghost use Rattle.exports.specs.Outcomes.{Told, ToldJudged};

use crate::outcomes::Outcome;
use crate::verdicts::Judged;

// The minimal machine of a machine.
#[unsafe(no_mangle)]
pub extern "C" fn jackspear_minimize(row: &[u64], out: &mut [u64]) -> Outcome
    ensures { Told (λ a. Minimized row.now out.old a out.new) result }
{
    minimal::minimize(row, out).into()
}

// The tests for a machine.
#[unsafe(no_mangle)]
pub extern "C" fn jackspear_write_tests(row: &[u64], extra: u64, out: &mut [u64]) -> Outcome
    ensures { Told (λ a. TestsAnswered row.now extra out.old a out.new) result }
{
    suite::write_tests(row, extra, out).into()
}

// A machine that passes all tests of at most so many keys, and differs.
#[unsafe(no_mangle)]
pub extern "C" fn jackspear_survivor(row: &[u64], longest: u64, out: &mut [u64]) -> Outcome
    ensures { Told (λ a. SurvivorWritten row.now longest out.old a out.new) result }
{
    survivor::survivor(row, longest, out).into()
}

// Whether a board passed.
#[unsafe(no_mangle)]
pub extern "C" fn jackspear_judge(row: &[u64], extra: u64, shown: &[u64]) -> Judged
    ensures { ToldJudged (Judgement row.now extra shown.now) result }
{
    verdict::judge(row, extra, shown).into()
}
