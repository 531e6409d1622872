// What was counted.
ghost use Rattle.std.specs.Prelude.{◌≡◌, ◌+◌, ◌^◌, ◌<◌, ◌≤◌};

use crate::comparing::Comparison;
use std::fmt;
use verdict::Verdict;

// What the trial prints at its end.
#[derive(Clone, Copy)]
pub struct Tally {
    machines: usize,
    pairs: usize,
    passed: usize,
    failed: usize,
    later: usize,
    disagreements: usize,
    sum: u64,
    ghost of_pairs: { (passed ≤ pairs) × (failed ≤ pairs) × (later ≤ pairs) × (disagreements ≤ pairs) },
}

// A number more in a checksum below 2^32, as that of crates/vectors: programs can share libraries alone, and this line needs none.
fn with_number(sum: u64, number: u64) -> u64 {
    sum.wrapping_mul(31).wrapping_add(number) & 0xffff_ffff
}

// All that a verdict says, in a checksum.
fn with_verdict(sum: u64, verdict: Verdict) -> u64 {
    match verdict {
        Verdict::Passed => with_number(sum, 1),
        Verdict::Failed {
            test,
            key,
            shown,
            expected,
        } => [test, key, shown, expected]
            .into_iter()
            .fold(sum, with_number),
    }
}

impl Tally {
    // Before the first comparison.
    pub fn new() -> Tally
        ensures { (result.machines ≡ 0) × (result.pairs ≡ 0) }
    {
        Tally {
            machines: 0,
            pairs: 0,
            passed: 0,
            failed: 0,
            later: 0,
            disagreements: 0,
            sum: 0,
        }
    }

    // One minimal machine more.
    pub fn count_machine(&mut self)
        requires { self.old.machines < 2 ^ 32 }
        ensures machines { self.new.machines ≡ self.old.machines + 1 }
        ensures pairs { self.new.pairs ≡ self.old.pairs }
    {
        self.machines += 1;
    }

    // One comparison more, as it comes: none is kept.
    pub fn count(&mut self, comparison: &Comparison)
        requires { self.old.pairs < 2 ^ 32 }
        ensures pairs { self.new.pairs ≡ self.old.pairs + 1 }
        ensures machines { self.new.machines ≡ self.old.machines }
    {
        self.pairs += 1;
        if comparison.passed() {
            self.passed += 1;
        } else {
            self.failed += 1;
        }
        if comparison.fails_later {
            self.later += 1;
        }
        if !comparison.agrees {
            self.disagreements += 1;
        }
        self.sum = with_verdict(self.sum, comparison.verdict);
    }
}

impl fmt::Display for Tally {
    fn fmt<W: fmt::Write>(&self, f: &mut fmt::Formatter<W>) -> fmt::Result {
        let Tally {
            machines,
            pairs,
            passed,
            failed,
            later,
            disagreements,
            sum,
        } = self;
        writeln!(f, "{machines} minimal machines, {pairs} pairs")?;
        writeln!(f, "{passed} passed, {failed} failed")?;
        writeln!(f, "{later} passed and would fail with one extra state more")?;
        writeln!(f, "{sum} is the sum of the verdicts")?;
        write!(f, "{disagreements} disagreements")
    }
}
