// Writing a machine that is worked out move by move.
ghost use Rattle.std.specs.Prelude.{◌≡◌, ℕ, ◌<◌, ◌≤◌, ◌++◌, length, drop};
ghost use Rattle.machine.specs.Machine.{Machine as Model, move};
ghost use Rattle.machine.specs.Making.{Writable, MachineWritten, ReadsBack};
ghost use Rattle.machine.specs.Row.{room, row_of};

use crate::refusals::Refusal;
use crate::running::Step;

// A machine that stands in no row: each of its moves is worked out when it is asked for. That it can be written is asked at each call.
pub trait Computed {
    // the machine
    ghost made: { Self → Model };
    // its number of keys
    ghost made_keys: { Self → ℕ };

    // How many states it has.
    fn states(&self) -> usize
        requires { Writable (made_keys self.now) (made self.now) }
        ensures { result ≡ length (made self.now) };

    // How many keys it has.
    fn keys(&self) -> usize
        ensures { result ≡ made_keys self.now };

    // What a key does in a state.
    fn step(&self, state: usize, key: usize) -> Step
        requires writable { Writable (made_keys self.now) (made self.now) }
        requires state_within { state < length (made self.now) }
        requires key_within { key < made_keys self.now }
        ensures to { result.to ≡ (move (made self.now) state key).to }
        ensures output { result.output ≡ (move (made self.now) state key).output };
}

// The whole row, over what the lent row held.
fn write<D: Computed>(machine: &D, out: &mut [u64])
    requires writable { Writable (D.made_keys machine.now) (D.made machine.now) }
    requires fits { room (length (D.made machine.now)) (D.made_keys machine.now) ≤ length out.old }
    ensures { out.new ≡ row_of (D.made_keys machine.now) (D.made machine.now) ++ drop (room (length (D.made machine.now)) (D.made_keys machine.now)) out.old }
{
    let states = machine.states();
    let keys = machine.keys();
    out[0] = states as u64;
    out[1] = keys as u64;
    // The place goes on with the moves: pieces of the row in step with two loops are no plainer, and reckoned anew it is multiplied out for each.
    let mut at = 2;
    for state in 0..states {
        for key in 0..keys {
            let step = machine.step(state, key);
            out[at] = step.to as u64;
            out[at + 1] = step.output;
            at += 2;
        }
    }
}

// Writes a machine into a lent row and answers its number of states, or refuses and writes nothing.
pub fn write_computed<D: Computed>(machine: &D, out: &mut [u64]) -> Result<u64, Refusal>
    requires { Writable (D.made_keys machine.now) (D.made machine.now) }
    ensures written { MachineWritten (D.made_keys machine.now) (D.made machine.now) out.old result out.new }
    ensures reads_back { ReadsBack (D.made_keys machine.now) (D.made machine.now) result out.new }
{
    let states = machine.states();
    let needed = 2 + 2 * (states * machine.keys());
    if out.len() < needed {
        return Err(Refusal::NoRoomForMachine(needed as u64));
    }
    write(machine, out);
    Ok(states as u64)
}

// A machine of a type whose values can all be written: its law says so once, and no call asks for it.
pub trait Derived {
    // the machine
    ghost made: { Self → Model };
    // its number of keys
    ghost made_keys: { Self → ℕ };

    // How many states it has.
    fn states(&self) -> usize
        ensures { result ≡ length (made self.now) };

    // How many keys it has.
    fn keys(&self) -> usize
        ensures { result ≡ made_keys self.now };

    // What a key does in a state.
    fn step(&self, state: usize, key: usize) -> Step
        requires state_within { state < length (made self.now) }
        requires key_within { key < made_keys self.now }
        ensures to { result.to ≡ (move (made self.now) state key).to }
        ensures output { result.output ≡ (move (made self.now) state key).output };

    // it can be written
    ghost writable: { (d : Self) → Writable (made_keys d) (made d) };
}

// Such a machine as one that is computed.
#[derive(Drop)]
struct Always<'a, D>(&'a D);

impl<D: Derived> Computed for Always<'_, D> {
    ghost made = { λ always. D.made always.0.now };

    ghost made_keys = { λ always. D.made_keys always.0.now };

    fn states(&self) -> usize {
        self.0.states()
    }

    fn keys(&self) -> usize {
        self.0.keys()
    }

    fn step(&self, state: usize, key: usize) -> Step {
        self.0.step(state, key)
    }
}

// Writes such a machine into a lent row and answers its number of states, or refuses and writes nothing.
pub fn write_machine<D: Derived>(machine: &D, out: &mut [u64]) -> Result<u64, Refusal>
    ensures written { MachineWritten (D.made_keys machine.now) (D.made machine.now) out.old result out.new }
    ensures reads_back { ReadsBack (D.made_keys machine.now) (D.made machine.now) result out.new }
{
    write_computed(&Always(machine), out)
}
