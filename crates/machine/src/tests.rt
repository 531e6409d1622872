// A machine whose type says that it can be written, and a caller of which nothing more is asked.
ghost use Rattle.machine.specs.Making.{Writable};
ghost use Rattle.machine.specs.Run.{model, keys_of};

use super::*;

// The machine in a row, to be written into another.
#[derive(Drop)]
struct Copied<'a> {
    machine: Machine<'a>,
    ghost writable: { Writable (keys_of machine) (model machine) },
}

impl Derived for Copied<'_> {
    ghost made = { λ copied. model copied.machine };

    ghost made_keys = { λ copied. keys_of copied.machine };

    ghost writable = { λ copied. copied.writable };

    fn states(&self) -> usize {
        self.machine.states()
    }

    fn keys(&self) -> usize {
        self.machine.keys()
    }

    fn step(&self, state: usize, key: usize) -> Step {
        self.machine.step(state, key)
    }
}

// A caller that knows no more of a machine than its trait.
fn save<D: Derived>(machine: &D, out: &mut [u64]) -> Result<u64, Refusal> {
    write_machine(machine, out)
}

fn copy(row: &[u64], out: &mut [u64]) -> Result<u64, Refusal> {
    let machine = Machine::read(row)?;
    save(&Copied { machine }, out)
}

// Two states and two keys: a coin leads to state 1; a push shows the state and leads to state 0.
const TURNSTILE: [u64; 10] = [2, 2, 1, 0, 0, 0, 1, 0, 0, 1];

#[test]
fn a_machine_stands_at_the_front_of_the_row(rt: HostRuntime) {
    let mut row = [7; 12];
    assert_eq!(rt; copy(&TURNSTILE, &mut row), Ok(2));
    assert_eq!(rt; row, [2, 2, 1, 0, 0, 0, 1, 0, 0, 1, 7, 7]);
}

#[test]
fn a_row_without_room_stays_as_it_was(rt: HostRuntime) {
    let mut row = [7; 9];
    assert_eq!(rt;
        copy(&TURNSTILE, &mut row),
        Err(Refusal::NoRoomForMachine(10))
    );
    assert_eq!(rt; row, [7; 9]);
}
