// The libraries' calls, exported for other languages.
#![tactic(auto)]

mod calls;
mod outcomes;
mod verdicts;

pub use calls::{jackspear_judge, jackspear_minimize, jackspear_survivor, jackspear_write_tests};
pub use outcomes::Outcome;
pub use verdicts::Judged;
