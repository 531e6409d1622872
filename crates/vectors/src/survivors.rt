// Cases of survivors.
use crate::cases::{Case, NoAnswer};
use crate::text::{Joined, Told, checksum, machine_row};
use anyhow::anyhow;
use formats::Failure;

// A row, the longest test and the room: how many states, or the refusal, and a checksum of the whole lent row.
pub fn survivor(mut case: Case) -> Result<String, NoAnswer> {
    let row = case.numbers()?;
    let longest = case.number()?;
    let room = case.number()?;
    let mut out = vec![in case.heap; 7u64; room as usize]?;
    let answer = survivor::survivor(&row, longest, &mut out);
    let sum = checksum(&out);
    Ok(match answer {
        Ok(states) => format!(in case.heap; "{states} states, {sum}")?,
        Err(refusal) => format!(in case.heap; "{}, {sum}", Told(refusal))?,
    })
}

// A row and the extra states: a survivor of the tests for them; with no tests it is no such case.
pub fn survive(mut case: Case) -> Result<String, NoAnswer> {
    let row = case.numbers()?;
    let extra = case.number()?;
    let tests = match formats::tests_row(case.heap, &row, extra) {
        Err(Failure::Refused(_)) => return Err(anyhow!("no tests").into()),
        answer => answer?,
    };
    let longest = survivor::longest_test(&tests);
    let mut out = vec![in case.heap; 0u64; 65538]?;
    let states = survivor::survivor(&row, longest, &mut out)?;
    let survived = Joined(machine_row(&out, states));
    Ok(format!(in case.heap; "{survived}")?)
}
