// Which states are equivalent, and the minimal machine.
#![tactic(auto)]

mod checking;
mod classes;
mod levels;
mod minimal_machine;
mod minimizing;
mod promises;
mod redundancy;
mod searching;
mod tree;

pub use minimal_machine::MinimalMachine;
pub use minimizing::minimize;
pub use promises::{
    minimal_exists, minimal_numbered_unique, minimal_unique, short_difference, short_separation,
};
pub use redundancy::redundant;
pub use searching::reach;
pub use tree::{Found, Tree};
