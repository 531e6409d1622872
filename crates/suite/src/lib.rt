// The tests for a minimal machine and a number of extra states.
#![tactic(auto)]

mod apart;
mod enumeration;
mod factors;
mod keyed;
mod making;
mod marks;
mod promises;
mod reading;
mod rows;
mod sink;
mod sinks;
mod specification;
mod values;
mod writing;

pub use promises::{
    each_test_once, equivalent_passes, few_tests, more_extra_more_tests, passing_is_equivalent,
    tests_read_back,
};
pub use reading::{Tests, tests_in};
pub use rows::test_at;
pub use sink::Sink;
pub use specification::Specification;
pub use writing::{prepare, write_tests};
