// Judges boards made by chance, and compares each verdict with an independent decision.
#![tactic(auto)]

ghost use Rattle.std.specs.Prelude.{◌≡◌, ◌+◌, ◌^◌, ◌≤◌, OnOk};

mod boards;
mod comparing;
mod deciding;
mod random;
mod tally;

use boards::Board;
use comparing::Judge;
use machine::Machine;
use random::Random;
use std::alloc::Global;
use tally::Tally;

// Whether a machine is minimal.
fn is_minimal(heap: Global, machine: &Board) -> anyhow::Result<bool> {
    let row = machine.row(heap)?;
    Ok(Machine::read(&row).is_ok_and(|machine| minimal::redundant(machine).is_none()))
}

// Some boards for a machine, each with 0, 1 and 2 extra states.
fn compare_boards(
    heap: Global,
    random: &mut Random,
    judge: &mut Judge,
    machine: &Board,
    tally: &mut Tally,
) -> anyhow::Result<()>
    requires { tally.old.pairs + 24 ≤ 2 ^ 32 }
    ensures { OnOk result ((tally.new.pairs ≡ tally.old.pairs + 24) × (tally.new.machines ≡ tally.old.machines)) }
{
    for _ in 0..8usize {
        let board = Board::random_like(heap, random, machine)?;
        for extra in 0..3 {
            tally.count(&judge.compare(machine, extra, &board)?);
        }
    }
    Ok(())
}

fn main(rt: HostRuntime) -> anyhow::Result<()> {
    let heap = rt.alloc();
    let mut random = Random::seeded(2024);
    let mut judge = Judge::new(heap)?;
    let mut tally = Tally::new();
    for _ in 0..1000usize {
        let states = random.below(3) + 1;
        let keys = random.below(3) + 1;
        let machine = Board::random(heap, &mut random, states, keys)?;
        if is_minimal(heap, &machine)? {
            compare_boards(heap, &mut random, &mut judge, &machine, &mut tally)?;
            tally.count_machine();
        }
    }
    println!(rt; "{tally}")?;
    Ok(())
}
