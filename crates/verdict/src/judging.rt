// Judging what was shown, test by test.
ghost use Rattle.std.specs.Prelude.{◌≡◌, length};
ghost use Rattle.machine.specs.Run.{model};
ghost use Rattle.verdict.specs.Judging.{on_next, Took, Ended, Judgement};

use crate::progress::Progress;
use crate::verdicts::Verdict;
use machine::{Machine, Refusal};
use suite::Sink;

// The verdict after one test more.
fn after_test(m: Machine, so_far: Verdict, number: u64, test: &[u64], shown: &[u64]) -> Verdict
    requires { length shown.now ≡ length test.now }
    ensures { result ≡ on_next (model m.entry) number test.now shown.now so_far }
{
    let Verdict::Passed = so_far else {
        return so_far;
    };
    match m.first_difference(test, shown) {
        None => Verdict::Passed,
        Some(difference) => Verdict::Failed {
            test: number,
            key: difference.key as u64,
            shown: shown[difference.key],
            expected: difference.expected,
        },
    }
}

impl Sink for Progress<'_> {
    ghost step = { Took };

    fn put(&mut self, test: &[u64]) {
        let number = self.tests;
        self.tests = number.saturating_add(1);
        let None = self.cut else {
            return;
        };
        let Some((shown, rest)) = self.rest.split_at_checked(test.len()) else {
            self.cut = Some(number);
            return;
        };
        self.verdict = after_test(self.machine, self.verdict, number, test, shown);
        self.rest = rest;
    }
}

impl Progress<'_> {
    // The verdict, or where what was shown is cut short, or how many tests there are if something is behind the last.
    fn conclude(self) -> Result<Verdict, Refusal>
        ensures { Ended self.entry result }
    {
        if let Some(test) = self.cut {
            return Err(Refusal::WrongLength(test));
        }
        if !self.rest.is_empty() {
            return Err(Refusal::WrongLength(self.tests));
        }
        Ok(self.verdict)
    }
}

// Judges what a board showed on the tests for the machine in a row and so many extra states.
pub fn judge<'a>(row: &'a [u64], extra: u64, shown: &'a [u64]) -> Result<Verdict, Refusal>
    ensures { Judgement row.now extra shown.now result }
{
    let specification = suite::prepare(row, extra)?;
    let mut progress = Progress {
        machine: specification.machine.machine,
        rest: shown,
        tests: 0,
        cut: None,
        verdict: Verdict::Passed,
    };
    specification.each_test(&mut progress);
    progress.conclude()
}
