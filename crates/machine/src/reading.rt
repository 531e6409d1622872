// Reading a machine out of a row, or saying why it holds none.
ghost use Rattle.std.specs.Prelude.{◌≡◌, ◌+◌, ◌*◌, ◌<◌, true, false, length, Some, None};
ghost use Rattle.machine.specs.First.{first};
ghost use Rattle.machine.specs.Reading.{Heads, ShapeRead, HoldsMachine, MachineRead};
ghost use Rattle.machine.specs.Refusals.{outside, shape_refusal, bad_move};
ghost use Rattle.machine.specs.Row.{machine_in, keys_in};
ghost use Rattle.machine.specs.Run.{model, keys_of};

use crate::refusals::Refusal;
use crate::view::Machine;

// How many states and keys a machine has.
#[derive(Clone, Copy)]
pub struct Shape {
    pub states: usize,
    pub keys: usize,
}

// A number from 1 to `most`.
fn within(n: u64, most: u8) -> Option<usize>
    ensures { elim result [ None ↦ outside most n ≡ true | Some v ↦ (outside most n ≡ false) × (v ≡ n) ] }
{
    if n < 1 || n > most as u64 {
        return None;
    }
    Some(n as usize)
}

// The shape of the machine in a row, of at most so many states and keys, or why there is none.
pub fn read_shape(row: &[u64], most_states: u8, most_keys: u8) -> Result<Shape, Refusal>
    ensures { ShapeRead most_states most_keys row.now result }
{
    let [n, k, ..] = row else {
        return Err(Refusal::Malformed(row.len() as u64));
    };
    let Some(states) = within(*n, most_states) else {
        return Err(Refusal::Malformed(*n));
    };
    let Some(keys) = within(*k, most_keys) else {
        return Err(Refusal::Malformed(*k));
    };
    if row.len() < 2 + 2 * (states * keys) {
        return Err(Refusal::Malformed(row.len() as u64));
    }
    Ok(Shape { states, keys })
}

// Whether the move of that number leads to no state or shows 2^32 or more.
fn is_bad(row: &[u64], number: usize) -> bool
    requires { (3 + 2 * number < length row.now) × (number < 128) }
    ensures { result ≡ bad_move row.now number }
{
    row[2 + 2 * number] >= row[0] || row[3 + 2 * number] >= 0x1_0000_0000
}

// The number of the first move that leads to no state or shows 2^32 or more.
// Nested loops over states and keys are left by their label.
fn first_bad_move(row: &[u64], shape: Shape) -> Option<u64>
    requires { (shape_refusal 16 8 row.now ≡ None) × (Heads row.now shape) }
    ensures { result ≡ first (bad_move row.now) (shape.states * shape.keys) }
{
    let mut bad = None;
    'scan: for state in 0..shape.states {
        for key in 0..shape.keys {
            let number = state * shape.keys + key;
            if is_bad(row, number) {
                bad = Some(number as u64);
                break 'scan;
            }
        }
    }
    bad
}

impl<'a> Machine<'a> {
    // The machine in a row that was read.
    pub fn over(row: &'a [u64], shape: Shape) -> Machine<'a>
        requires { HoldsMachine row.now shape }
        ensures { (model result ≡ machine_in row.now) × (keys_of result ≡ keys_in row.now) }
    {
        Machine {
            row,
            states: shape.states,
            keys: shape.keys,
        }
    }

    // The machine in a row, or why the row holds none.
    pub fn read(row: &'a [u64]) -> Result<Machine<'a>, Refusal>
        ensures { MachineRead row.now result }
    {
        let shape = read_shape(row, 16, 8)?;
        if let Some(number) = first_bad_move(row, shape) {
            return Err(Refusal::BadMove(number));
        }
        Ok(Machine::over(row, shape))
    }
}
