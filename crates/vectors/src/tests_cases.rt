// Cases of tests and of judging.
use crate::cases::{Case, NoAnswer};
use crate::text::{Joined, checksum};
use formats::WordText;
use std::alloc::{AllocError, Global};
use verdict::Verdict;

// The tests in a row, with blanks between them.
fn tests_text(heap: Global, row: &[u64]) -> Result<String, AllocError> {
    let tests: Vec<WordText> = suite::tests_in(row)
        .map(|test| WordText(test))
        .collect(heap)?;
    format!(in heap; "{}", Joined(&tests))
}

// A row and the extra states: the row of the tests.
fn tests_row(case: &mut Case) -> Result<Vec<u64>, NoAnswer> {
    let row = case.numbers()?;
    let extra = case.number()?;
    Ok(formats::tests_row(case.heap, &row, extra)?)
}

// A row and the extra states: the tests in order.
pub fn tests(mut case: Case) -> Result<String, NoAnswer> {
    let row = tests_row(&mut case)?;
    Ok(tests_text(case.heap, &row)?)
}

// A row and the extra states: how many tests, how many numbers they take, and a checksum of the written row.
pub fn large(mut case: Case) -> Result<String, NoAnswer> {
    let row = tests_row(&mut case)?;
    let count = suite::tests_in(&row).count();
    Ok(format!(in case.heap; "{count} {} {}", row.len(), checksum(&row))?)
}

// A row, the extra states and the room: the refusal.
pub fn refusal(mut case: Case) -> Result<String, NoAnswer> {
    let row = case.numbers()?;
    let extra = case.number()?;
    let room = case.number()?;
    let mut out = vec![in case.heap; 7u64; room as usize]?;
    let count = suite::write_tests(&row, extra, &mut out)?;
    Ok(format!(in case.heap; "{count} tests")?)
}

// A row, the extra states and what was shown: the verdict, with the failed test by its number, where judge_board prints its keys.
pub fn verdict(mut case: Case) -> Result<String, NoAnswer> {
    let row = case.numbers()?;
    let extra = case.number()?;
    let seen = case.numbers()?;
    Ok(match verdict::judge(&row, extra, &seen)? {
        Verdict::Passed => String::from_str(case.heap, "passed")?,
        Verdict::Failed {
            test,
            key,
            shown,
            expected,
        } => format!(in case.heap; "failed {test} at {key}: {shown} for {expected}")?,
    })
}
