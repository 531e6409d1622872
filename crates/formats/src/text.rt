// What the programs print.
ghost use Rattle.std.specs.Prelude.{◌≡◌, Some, Err, IfOk, IsErr, string_bytes};
ghost use Rattle.formats.specs.declared.failures.Failure.TheVariants.{OutOfMemory};
ghost use Rattle.formats.specs.Text.{word_text};

use crate::failures::Failure;
use std::alloc::{AllocError, Global};
use std::fmt;

// A word as it is printed: a digit for each key, a dash for the empty word.
#[derive(Clone, Copy)]
pub struct WordText<'a>(pub &'a [u64]);

impl fmt::Display for WordText<'_> {
    ghost output = { λ text. Some (word_text text.0.now) };

    fn fmt<W: fmt::Write>(&self, f: &mut fmt::Formatter<W>) -> fmt::Result {
        if self.0.is_empty() {
            return write!(f, "-");
        }
        for key in self.0 {
            write!(f, "{}", char::from(b'0' + (*key % 10) as u8))?;
        }
        Ok(())
    }
}

// A word as text.
pub fn word_text(heap: Global, word: &[u64]) -> Result<String, AllocError>
    ensures { IfOk result (λ t. string_bytes t ≡ word_text word.now) }
{
    WordText(word).to_string(heap)
}

// An answer or a refusal as a line; want of memory is an error, and no line. What a write writes, no contract of std tells.
pub fn print_answer(rt: &impl Print, answer: Result<String, Failure>) -> anyhow::Result<()>
    ensures { answer ≡ Err OutOfMemory → IsErr result }
{
    match answer {
        Ok(text) => Ok(rt.println(text)?),
        Err(Failure::OutOfMemory) => Err(AllocError.into()),
        Err(refused) => Ok(rt.println(refused)?),
    }
}
