// Writing a survivor into a lent row.
ghost use Rattle.std.specs.Prelude.{◌≡◌, ◌+◌, ◌*◌, ◌^◌, ◌<◌, ◌≤◌, ◌==◌, ◌&&◌, cond, min, Ok, Err};
ghost use Rattle.machine.specs.Making.{Writable};
ghost use Rattle.machine.specs.Refusals.{reason, reason_of};
ghost use Rattle.machine.specs.Run.{model, keys_of};
ghost use Rattle.survivor.specs.Answer.{SurvivorWritten, SurvivorReadsBack};
ghost use Rattle.survivor.specs.Survivor.{wrong, survivor_of};

use machine::{Computed, Machine, Refusal, Step};

// The bound, if the survivor has at most 4,096 states.
fn small_bound(own: usize, longest: u64) -> Result<usize, Refusal>
    requires { 0 < own }
    ensures { elim result [ Ok l ↦ (l ≡ longest) × ((longest + 1) * own ≤ 4096) | Err f ↦ (4096 < (longest + 1) * own) × (reason_of f ≡ reason 7 (min ((longest + 1) * own) (2 ^ 32))) ] }
{
    let states = longest.saturating_add(1).saturating_mul(own as u64);
    if states > 4096 {
        return Err(Refusal::TooManyStates(states.min(0x1_0000_0000)));
    }
    Ok(longest as usize)
}

// Another output: one more, or 0 for the largest.
fn another(output: u64) -> u64
    requires { output < 2 ^ 32 }
    ensures { result ≡ wrong output }
{
    if output == 0xffff_ffff { 0 } else { output + 1 }
}

// What a key shows when so many were pressed: another output, if it is key 0 and as many were pressed as are counted.
fn shown(longest: usize, pressed: usize, key: usize, output: u64) -> u64
    requires { output < 2 ^ 32 }
    ensures { result ≡ cond (pressed == longest && key == 0) (wrong output) output }
{
    if pressed == longest && key == 0 {
        another(output)
    } else {
        output
    }
}

// A machine beside a count of the keys pressed, up to `longest`.
#[derive(Drop)]
struct Counted<'a> {
    machine: Machine<'a>,
    longest: usize,
    ghost writable: { Writable (keys_of machine) (survivor_of (keys_of machine) (model machine) longest) },
}

// A state stands for a state of the machine and how many keys were pressed.
impl Computed for Counted<'_> {
    ghost made = { λ counted. survivor_of (keys_of counted.machine) (model counted.machine) counted.longest };

    ghost made_keys = { λ counted. keys_of counted.machine };

    fn states(&self) -> usize {
        (self.longest + 1) * self.machine.states()
    }

    fn keys(&self) -> usize {
        self.machine.keys()
    }

    fn step(&self, state: usize, key: usize) -> Step {
        let own = self.machine.states();
        let step = self.machine.step(state % own, key);
        let layer = (state / own + 1).min(self.longest);
        Step {
            to: layer * own + step.to,
            output: shown(self.longest, state / own, key, step.output),
        }
    }
}

// Writes a machine that shows what the given one shows on every word of at most `longest` keys, and differs from it.
pub fn survivor(row: &[u64], longest: u64, out: &mut [u64]) -> Result<u64, Refusal>
    ensures written { SurvivorWritten row.now longest out.old result out.new }
    ensures reads_back { SurvivorReadsBack row.now longest result out.new }
{
    let machine = Machine::read(row)?;
    let longest = small_bound(machine.states(), longest)?;
    machine::write_computed(&Counted { machine, longest }, out)
}
