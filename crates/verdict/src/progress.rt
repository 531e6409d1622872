// What is known of a board while the tests go by.
use crate::verdicts::Verdict;
use machine::Machine;

// What was shown on the tests to come; how many tests went by; the first of them that was cut short; the verdict so far, which stays what it was
// before the cut.
#[derive(Clone, Copy)]
pub struct Progress<'a> {
    pub(crate) machine: Machine<'a>,
    pub(crate) rest: &'a [u64],
    pub(crate) tests: u64,
    pub(crate) cut: Option<u64>,
    pub(crate) verdict: Verdict,
}
