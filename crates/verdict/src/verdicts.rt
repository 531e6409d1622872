// What is said of a board.

// An enum of its own, as the project has it, and no Option: the verdict is told by its cases: passed, or the test and the key at which it failed, with what it showed and what it should have shown.
#[derive(Clone, Copy, Debug, PartialEq, Eq)]
pub enum Verdict {
    Passed,
    Failed {
        test: u64,
        key: u64,
        shown: u64,
        expected: u64,
    },
}
