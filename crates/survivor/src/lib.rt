// A machine that passes all tests of a given length and is not equivalent: no tests are enough without a bound on the states.
#![tactic(auto)]

mod longest;
mod making;
mod promises;

pub use longest::longest_test;
pub use making::survivor;
pub use promises::no_tests_suffice;
