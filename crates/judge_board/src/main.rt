// Judges what a board showed: bytes in, a line out.
#![tactic(auto)]

use formats::{Failure, WordText};
use std::alloc::{AllocError, Global};
use std::io::Read;
use verdict::Verdict;

// The verdict on what was shown, in bytes. The heap is lent to each function that takes memory, as the library has it.
fn verdict_on(heap: Global, row: &[u64], extra: u64, bytes: &[u8]) -> Result<Verdict, Failure> {
    let mut shown = formats::numbers(heap, bytes)?;
    let verdict = verdict::judge(row, extra, &shown)?;
    if bytes.len() % 4 == 0 {
        return Ok(verdict);
    }
    // Where nothing is cut short, bytes left over are something behind the last test.
    shown.push(0).map_err(AllocError::from)?;
    Ok(verdict::judge(row, extra, &shown)?)
}

// A verdict in words, with the keys of the test that failed.
fn verdict_text(
    heap: Global,
    row: &[u64],
    extra: u64,
    verdict: Verdict,
) -> Result<String, Failure> {
    match verdict {
        Verdict::Passed => Ok(String::from_str(heap, "passed")?),
        Verdict::Failed {
            test,
            key,
            shown,
            expected,
        } => {
            let tests = formats::tests_row(heap, row, extra)?;
            // The test is there: the verdict is on these tests.
            let word = WordText(suite::tests_in(&tests).nth(test as usize).unwrap_or(&[]));
            Ok(format!(in heap; "failed {word} at {key}: {shown} for {expected}")?)
        }
    }
}

// The verdict on what a board showed, in an input behind the machine and the extra states.
fn answer(heap: Global, bytes: &[u8]) -> Result<String, Failure> {
    let row = formats::numbers(heap, bytes)?;
    let input = formats::read_input(bytes, &row)?;
    let extra = u64::from(input.extra);
    let verdict = verdict_on(heap, &row, extra, input.rest)?;
    verdict_text(heap, &row, extra, verdict)
}

// As the `main` of write_tests but for `answer`: one function over both would have to ask that any input may be answered, and its proof did not close.
fn main(rt: HostRuntime) -> anyhow::Result<()> {
    let mut bytes = Vec::new(rt.alloc());
    rt.stdin().read_to_end(&mut bytes)?;
    formats::print_answer(&rt, answer(rt.alloc(), &bytes))
}
