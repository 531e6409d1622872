// Writes the tests for a machine: bytes in, lines out.
#![tactic(auto)]

use formats::{Failure, WordText};
use std::alloc::{AllocError, Global};
use std::fmt::Write;
use std::io::Read;

// A test a line, and how many there are.
fn lines(heap: Global, tests: &[u64]) -> Result<String, AllocError> {
    let mut text = String::new(heap);
    for test in suite::tests_in(tests) {
        writeln!(text, "{}", WordText(test))?;
    }
    write!(text, "{} tests", suite::tests_in(tests).count())?;
    Ok(text)
}

// The tests for the machine and the extra states in an input.
fn answer(heap: Global, bytes: &[u8]) -> Result<String, Failure> {
    let row = formats::numbers(heap, bytes)?;
    let input = formats::read_input(bytes, &row)?;
    let tests = formats::tests_row(heap, &row, u64::from(input.extra))?;
    Ok(lines(heap, &tests)?)
}

// As the `main` of judge_board but for `answer`: one function over both would have to ask that any input may be answered, and its proof did not close.
fn main(rt: HostRuntime) -> anyhow::Result<()> {
    let mut bytes = Vec::new(rt.alloc());
    rt.stdin().read_to_end(&mut bytes)?;
    formats::print_answer(&rt, answer(rt.alloc(), &bytes))
}
