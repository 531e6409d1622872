// What the programs share: numbers out of bytes, the machine and the extra states out of an input, a word as text.
#![tactic(auto)]

mod failures;
mod input;
mod lending;
mod text;

pub use failures::Failure;
pub use input::{Input, numbers, read_input};
pub use lending::tests_row;
pub use text::{WordText, print_answer, word_text};

#[cfg(test)]
mod tests;
