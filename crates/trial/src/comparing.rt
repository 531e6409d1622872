// Comparing the verdict on a board with an independent decision.
ghost use Rattle.std.specs.Prelude.{◌≤◌};

use crate::boards::Board;
use crate::deciding::{equivalent, shown};
use std::alloc::{AllocError, Global};
use verdict::Verdict;

// What came of it: a board with at most so many states more has to pass exactly if it is equivalent, and a larger one that is equivalent has to pass.
#[derive(Clone, Copy)]
pub struct Comparison {
    pub verdict: Verdict,
    pub agrees: bool,
    // It passed, and fails for one extra state more.
    pub fails_later: bool,
}

impl Comparison {
    // Whether the board passed.
    pub fn passed(&self) -> bool {
        self.verdict == Verdict::Passed
    }
}

// Judges boards, with room for the tests.
#[derive(Drop)]
pub struct Judge {
    heap: Global,
    room: Vec<u64>,
}

impl Judge {
    // A judge with room for 16,384 numbers: no tests of the trial need more.
    pub fn new(heap: Global) -> Result<Judge, AllocError> {
        Ok(Judge {
            heap,
            room: vec![in heap; 0u64; 16384]?,
        })
    }

    // The verdict on a board that is to be as a machine is.
    fn verdict_on(
        &mut self,
        machine: &Board,
        extra: u64,
        board: &Board,
    ) -> anyhow::Result<Verdict> {
        let row = machine.row(self.heap)?;
        suite::write_tests(&row, extra, &mut self.room)?;
        let seen = shown(self.heap, board, &self.room)?;
        Ok(verdict::judge(&row, extra, &seen)?)
    }

    // Judges a board that is to be as a machine is, and decides by itself what the verdict has to be.
    pub fn compare(
        &mut self,
        machine: &Board,
        extra: u64,
        board: &Board,
    ) -> anyhow::Result<Comparison>
        requires { extra ≤ 3 }
    {
        let verdict = self.verdict_on(machine, extra, board)?;
        let passed = verdict == Verdict::Passed;
        let same = equivalent(self.heap, machine, board)?;
        let larger = board.states() as u64 > machine.states() as u64 + extra;
        let fails_later = larger
            && passed
            && self.verdict_on(machine, extra + 1, board)? != Verdict::Passed;
        Ok(Comparison {
            verdict,
            agrees: passed == same || passed && larger,
            fails_later,
        })
    }
}
