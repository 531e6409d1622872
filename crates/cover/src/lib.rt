// Access words and separating words of a minimal machine.
#![tactic(auto)]

mod collecting;
mod cover;
mod covering;
mod levels;
mod pairs;
mod reaching;
mod words;

pub use cover::Cover;
pub use words::{Word, copied, followed};
