// Rows, words and refusals as text.
use machine::Refusal;
use std::fmt;

// A refusal as it is told here: its number and its place alone.
#[derive(Clone, Copy)]
pub struct Told(pub Refusal);

impl fmt::Display for Told {
    fn fmt<W: fmt::Write>(&self, f: &mut fmt::Formatter<W>) -> fmt::Result {
        write!(f, "{} {}", self.0.number(), self.0.place())
    }
}

// Numbers, or words, with blanks between them.
#[derive(Drop)]
pub struct Joined<'a, T>(pub &'a [T]);

impl<T: fmt::Display> fmt::Display for Joined<'_, T> {
    fn fmt<W: fmt::Write>(&self, f: &mut fmt::Formatter<W>) -> fmt::Result {
        let Some((first, others)) = self.0.split_first() else {
            return Ok(());
        };
        write!(f, "{first}")?;
        for other in others {
            write!(f, " {other}")?;
        }
        Ok(())
    }
}

// Each number behind 31 times the sum so far, below 2^32.
pub fn checksum(row: &[u64]) -> u64 {
    row.iter().fold(0u64, |sum, number| {
        sum.wrapping_mul(31).wrapping_add(*number) & 0xffff_ffff
    })
}

// The row of the machine of so many states that stands at the front of a row; the whole row if it is too short, which a written one never is.
pub fn machine_row(row: &[u64], states: u64) -> &[u64] {
    let keys = row.get(1).copied().unwrap_or(0);
    let needed = states
        .saturating_mul(keys)
        .saturating_mul(2)
        .saturating_add(2);
    row.get(..needed as usize).unwrap_or(row)
}
