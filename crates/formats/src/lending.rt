// The tests of a machine, in a row with room for them.
ghost use Rattle.formats.specs.Tests.{TestsMade};

use crate::failures::Failure;
use machine::Refusal;
use std::alloc::Global;

// The tests for the machine in a row, as `suite::write_tests` writes them: first how many numbers they need is asked, then so many are lent.
pub fn tests_row(heap: Global, row: &[u64], extra: u64) -> Result<Vec<u64>, Failure>
    ensures { TestsMade row.now extra result }
{
    let needed = match suite::write_tests(row, extra, &mut []) {
        Err(Refusal::NoRoomForTests(needed)) => needed,
        Err(refusal) => return Err(refusal.into()),
        // Never: tests take at least one number, their count, and an empty row has room for none.
        Ok(_) => 0,
    };
    let mut out = vec![in heap; 0u64; needed as usize]?;
    suite::write_tests(row, extra, &mut out)?;
    Ok(out)
}
