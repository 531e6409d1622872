// Machines in lent rows of numbers: refusals, reading, running, writing; and the list of fixed room that the libraries keep things in.
#![tactic(auto)]

mod fixed_list;
mod listing;
mod making;
mod reading;
mod refusals;
mod running;
mod view;

pub use fixed_list::FixedList;
pub use making::{Computed, Derived, write_computed, write_machine};
pub use reading::{Shape, read_shape};
pub use refusals::Refusal;
pub use running::{Difference, Step, word_at};
pub use view::Machine;

#[cfg(test)]
mod tests;
