// Cases of machines alone: reading, minimizing, covering.
use crate::cases::{Case, NoAnswer};
use crate::text::{Joined, machine_row};
use anyhow::Context;
use cover::{Cover, Word};
use formats::WordText;
use machine::Machine;
use minimal::MinimalMachine;
use std::alloc::{AllocError, Global};

// A row: its numbers of states and keys.
pub fn read(case: Case) -> Result<String, NoAnswer> {
    let row = case.row()?;
    let machine = Machine::read(&row)?;
    Ok(format!(in case.heap; "{} states, {} keys", machine.states(), machine.keys())?)
}

// A row: the row of its minimal machine.
pub fn minimize(case: Case) -> Result<String, NoAnswer> {
    let row = case.row()?;
    let mut out = vec![in case.heap; 0u64; 258]?;
    let states = minimal::minimize(&row, &mut out)?;
    let minimized = Joined(machine_row(&out, states));
    Ok(format!(in case.heap; "{minimized}")?)
}

// Words with blanks between them.
fn words_text(heap: Global, words: &[Word]) -> Result<String, AllocError> {
    let texts: Vec<WordText> = words
        .iter()
        .map(|word| WordText(word.as_slice()))
        .collect(heap)?;
    format!(in heap; "{}", Joined(&texts))
}

// A minimal machine's row: its access words and its separating words; any other row is no such case.
pub fn words(case: Case) -> Result<String, NoAnswer> {
    let row = case.row()?;
    let machine = Machine::read(&row).ok().context("no machine")?;
    let minimal = MinimalMachine::check(machine).ok().context("not minimal")?;
    let cover = Cover::of(minimal);
    let access = words_text(case.heap, &cover.access)?;
    let separating = words_text(case.heap, &cover.separating)?;
    Ok(format!(in case.heap; "{access} | {separating}")?)
}
