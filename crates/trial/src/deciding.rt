// Deciding by itself whether two machines are equivalent, and what a machine shows: no library but for the tests.
use crate::boards::Board;
use std::alloc::{AllocError, Global};
use std::collections::BTreeSet;

// The pairs of a state of one machine and a state of another.
fn pairs(heap: Global, one: &Board, other: &Board) -> Result<BTreeSet<(usize, usize)>, AllocError> {
    (0..one.states())
        .flat_map(|s| (0..other.states()).map(move |t| (s, t)))
        .collect(heap)
}

// Whether two machines are equivalent: no pair of states that a word reaches shows different outputs for a key.
pub fn equivalent(heap: Global, one: &Board, other: &Board) -> Result<bool, AllocError> {
    let mut unreached = pairs(heap, one, other)?;
    let mut waiting = Vec::new(heap);
    unreached.remove(&(0, 0));
    waiting.push((0, 0))?;
    while let Some((s, t)) = waiting.pop() {
        for (here, there) in one.moves(s).iter().zip(other.moves(t)) {
            if here.output != there.output {
                return Ok(false);
            }
            let reached = (here.target, there.target);
            if unreached.remove(&reached) {
                waiting.push(reached)?;
            }
        }
    }
    Ok(true)
}

// Adds what a board shows on a test, begun in state 0.
fn add_shown(board: &Board, test: &[u64], all: &mut Vec<u64>) -> Result<(), AllocError> {
    let mut state = 0;
    for key in test {
        let Some(step) = board.moves(state).get(*key as usize) else {
            // No test has a key that the board has not.
            break;
        };
        all.push(step.output)?;
        state = step.target;
    }
    Ok(())
}

// What a board shows on the tests of a row, one after the other.
pub fn shown(heap: Global, board: &Board, tests: &[u64]) -> Result<Vec<u64>, AllocError> {
    let mut all = Vec::new(heap);
    for test in suite::tests_in(tests) {
        add_shown(board, test, &mut all)?;
    }
    Ok(all)
}
