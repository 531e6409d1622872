// Cases: lines of numbers, and what is answered to them.
use anyhow::{Context, Error};
use formats::Failure;
use machine::Refusal;
use std::alloc::{AllocError, Global};
use std::str::Split;

// A line: its parts, with a slash between them.
#[derive(Drop)]
pub struct Case<'a> {
    pub heap: Global,
    line: &'a str,
    parts: Split<'a, char>,
}

// Numbers with blanks between them.
fn numbers_in(heap: Global, text: &str) -> anyhow::Result<Vec<u64>> {
    let mut numbers = Vec::new(heap);
    for word in text.split_whitespace() {
        numbers.push(word.parse::<u64>()?)?;
    }
    Ok(numbers)
}

impl<'a> Case<'a> {
    // The case in a line, with no part taken yet.
    pub fn of(heap: Global, line: &'a str) -> Case<'a> {
        Case {
            heap,
            line,
            parts: line.split('/'),
        }
    }

    // The numbers of a line that is one row alone: a slash is no number.
    pub fn row(&self) -> anyhow::Result<Vec<u64>> {
        numbers_in(self.heap, self.line)
    }

    // The number in the next part.
    pub fn number(&mut self) -> anyhow::Result<u64> {
        let part = self.parts.next().context("a part is missing")?;
        Ok(part.trim().parse::<u64>()?)
    }

    // The numbers in the next part; none if there is no part.
    pub fn numbers(&mut self) -> anyhow::Result<Vec<u64>> {
        numbers_in(self.heap, self.parts.next().unwrap_or(""))
    }
}

// Why a case has no other answer. `formats::Failure` has nothing for a case that is no case.
#[derive(Drop)]
pub enum NoAnswer {
    // The request is refused.
    Refused(Refusal),
    // The case is no such case, or memory ran out.
    Failed(Error),
}

impl From<Refusal> for NoAnswer {
    fn from(refusal: Refusal) -> NoAnswer {
        NoAnswer::Refused(refusal)
    }
}

impl From<Error> for NoAnswer {
    fn from(error: Error) -> NoAnswer {
        NoAnswer::Failed(error)
    }
}

impl From<AllocError> for NoAnswer {
    fn from(error: AllocError) -> NoAnswer {
        NoAnswer::Failed(error.into())
    }
}

impl From<Failure> for NoAnswer {
    fn from(failure: Failure) -> NoAnswer {
        match failure {
            Failure::Refused(refusal) => NoAnswer::Refused(refusal),
            Failure::OutOfMemory => AllocError.into(),
        }
    }
}
