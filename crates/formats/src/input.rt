// Reading what the programs are given.
ghost use Rattle.std.specs.Prelude.{◌≡◌, IfOk};
ghost use Rattle.formats.specs.Input.{numbers_in, InputRead};

use machine::{Machine, Refusal, Shape};
use std::alloc::{AllocError, Global};

// A machine's shape, the number of extra states, and the bytes behind that.
#[derive(Clone, Copy)]
pub struct Input<'a> {
    pub shape: Shape,
    pub extra: u8,
    pub rest: &'a [u8],
}

// The whole numbers in some bytes, low byte first; one to three bytes at the end are none.
pub fn numbers(heap: Global, bytes: &[u8]) -> Result<Vec<u64>, AllocError>
    ensures { IfOk result (λ v. v.items ≡ numbers_in bytes.now) }
{
    let (fours, _) = bytes.as_chunks::<4>();
    fours
        .iter()
        .map(|four| u64::from(u32::from_le_bytes(*four)))
        .collect(heap)
}

// The machine and the extra states in an input, `row` being its numbers, or why it is refused.
#[tactic(auto, using(crate::proofs::Inputs::of_inputs))]
pub fn read_input<'a>(bytes: &'a [u8], row: &[u64]) -> Result<Input<'a>, Refusal>
    ensures { InputRead bytes.now row.now result }
{
    let shape = machine::read_shape(row, 8, 4)?;
    let place = 4 * (2 + 2 * (shape.states * shape.keys));
    let Some([extra, rest @ ..]) = bytes.get(place..) else {
        return Err(Refusal::Malformed(row.len() as u64));
    };
    // A bad move is told only if the extra byte is there.
    Machine::read(row)?;
    Ok(Input {
        shape,
        extra: *extra,
        rest,
    })
}
