// Judging what a board showed on the tests.
#![tactic(auto)]

mod judging;
mod progress;
mod promises;
mod verdicts;

pub use judging::judge;
pub use promises::beginnings_pass;
pub use verdicts::Verdict;
