// Machines made by chance: specifications, and boards that are to be as they are.
ghost use Rattle.std.specs.Prelude.{◌≡◌, ◌+◌, ◌<◌, ◌≤◌, All, OnOk, IfOk, vec_len};

use crate::random::Random;
use std::alloc::{AllocError, Global};

// Where a key leads, and what it shows; no `machine::Step`, for the trial shares nothing with what it tries.
#[derive(Clone, Copy)]
pub struct Move {
    pub target: usize,
    pub output: u64,
}

// A machine of at most five states and three keys: for each state a move for each key; state 0 is the beginning. Heap and chance are lent to
// what makes one, as the library lends the heap.
#[derive(Drop)]
pub struct Board {
    keys: usize,
    states: Vec<Vec<Move>>,
    ghost few_keys: { (0 < keys) × (keys ≤ 3) },
    ghost whole: { All (λ moves. vec_len moves ≡ keys) states.items },
    ghost few_states: { (0 < vec_len states) × (vec_len states ≤ 5) },
}

// By hand: on a struct with ghost fields `Clone` is derived only with `Copy`.
impl Clone for Board {
    ghost is_clone = { λ board copy. vec_len copy.states ≡ vec_len board.states };

    fn clone(&self) -> Result<Board, AllocError> {
        Ok(Board {
            keys: self.keys,
            states: self.states.clone()?,
        })
    }
}

// The moves of one state: each leads to one of so many states.
fn random_moves(
    heap: Global,
    random: &mut Random,
    states: usize,
    keys: usize,
) -> Result<Vec<Move>, AllocError>
    requires { 0 < states }
    ensures { IfOk result (λ moves. vec_len moves ≡ keys) }
{
    let mut moves = Vec::new(heap);
    for _ in 0..keys {
        let target = random.below(states);
        let output = random.below(2) as u64;
        moves.push(Move { target, output })?;
    }
    Ok(moves)
}

impl Board {
    // A machine of so many states and keys, with outputs 0 and 1.
    pub fn random(
        heap: Global,
        random: &mut Random,
        states: usize,
        keys: usize,
    ) -> Result<Board, AllocError>
        requires few_states { (0 < states) × (states ≤ 5) }
        requires few_keys { (0 < keys) × (keys ≤ 3) }
    {
        let mut all = Vec::new(heap);
        for _ in 0..states {
            all.push(random_moves(heap, random, states, keys)?)?;
        }
        Ok(Board { keys, states: all })
    }

    // A board that is to be as a machine is: a copy with changes, or, one time in five, any machine.
    pub fn random_like(
        heap: Global,
        random: &mut Random,
        machine: &Board,
    ) -> Result<Board, AllocError> {
        if random.one_in(5) {
            let states = random.below(5) + 1;
            return Board::random(heap, random, states, machine.keys);
        }
        let room = 5 - machine.states.len();
        let more = random.below(room + 1);
        let mut board = machine.clone()?;
        for _ in 0..more {
            board.split_state(random)?;
        }
        for _ in 0..random.below(3) {
            board.change(random);
        }
        Ok(board)
    }

    // The moves of a state once more, for a state behind the last; about half of what led to that state leads to the new one.
    fn split_state(&mut self, random: &mut Random) -> Result<(), AllocError>
        requires { vec_len self.old.states < 5 }
        ensures { OnOk result (vec_len self.new.states ≡ vec_len self.old.states + 1) }
    {
        let added = self.states.len();
        let old = random.below(added);
        let moves = self.states[old].clone()?;
        self.states.push(moves)?;
        for moves in self.states.iter_mut() {
            for step in moves.iter_mut() {
                if step.target == old && random.one_in(2) {
                    step.target = added;
                }
            }
        }
        Ok(())
    }

    // One move leads elsewhere, or shows the other output.
    fn change(&mut self, random: &mut Random) {
        let states = self.states.len();
        let number = random.below(states * self.keys);
        let step = &mut self.states[number / self.keys][number % self.keys];
        if random.one_in(2) {
            step.target = random.below(states);
        } else {
            step.output ^= 1;
        }
    }

    // How many states there are.
    pub fn states(&self) -> usize
        ensures { result ≡ vec_len self.now.states }
    {
        self.states.len()
    }

    // The moves of a state, by key; none if there is no such state, since no ghost field says that a move leads to a state.
    pub fn moves(&self, state: usize) -> &[Move] {
        match self.states.get(state) {
            Some(moves) => moves,
            None => &[],
        }
    }

    // The row that the libraries read the machine in.
    pub fn row(&self, heap: Global) -> Result<Vec<u64>, AllocError> {
        let mut row = vec![in heap; self.states.len() as u64, self.keys as u64]?;
        for step in self.states.iter().flatten() {
            row.push(step.target as u64)?;
            row.push(step.output)?;
        }
        Ok(row)
    }
}
