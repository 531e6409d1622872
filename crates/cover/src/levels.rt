// At which level two states are told apart: how many keys it takes.
ghost use Rattle.std.specs.Prelude.{◌≡◌, suc, ◌<◌, ◌≤◌, length};
ghost use Rattle.machine.specs.Run.{model, keys_of};
ghost use Rattle.minimal.specs.Levels.{alike, agrees_on};
ghost use Rattle.cover.specs.Levels.{entry, LevelsBelow, first_key};

use machine::Machine;

// For states s and t of a machine, at 16 * s + t, the level at which they are told apart, or the bound if no level below it does, as `level` of
// specs/Levels.antt has it. One array with a place for each pair there may be, as `entry` reads it: the libraries take no heap.
#[derive(Clone, Copy)]
pub(crate) struct Levels<'a> {
    pub(crate) machine: Machine<'a>,
    pub(crate) bound: usize,
    pub(crate) entries: [usize; 256],
    ghost few: { length (model machine) ≤ 16 },
    ghost some: { 0 < bound },
    ghost known: { LevelsBelow (keys_of machine) (model machine) bound entries },
}

impl<'a> Levels<'a> {
    // The level of two states.
    pub(crate) fn at(&self, s: usize, t: usize) -> usize
        requires { (s < 16) × (t < 16) }
        ensures { result ≡ entry self.now.entries s t }
    {
        self.entries[16 * s + t]
    }

    // Whether a key shows the same in two states and leads to states that are alike at a level.
    pub(crate) fn agree_on(&self, level: usize, s: usize, t: usize, key: usize) -> bool
        requires { level < self.now.bound }
        ensures { result ≡ agrees_on (keys_of self.now.machine) (model self.now.machine) level s t key }
    {
        let machine = self.machine;
        machine.output(s, key) == machine.output(t, key)
            && self.at(machine.next(s, key), machine.next(t, key)) > level
    }

    // The smallest key that does not agree on two states at a level, if there is one.
    pub(crate) fn first_key(&self, level: usize, s: usize, t: usize) -> Option<usize>
        requires { level < self.now.bound }
        ensures { result ≡ first_key (keys_of self.now.machine) (model self.now.machine) level s t }
    {
        (0..self.machine.keys()).find(|&key| !self.agree_on(level, s, t, key))
    }

    // Whether two states are alike at the bound: every key agrees on them one level lower.
    fn alike_at_bound(&self, s: usize, t: usize) -> bool
        ensures { result ≡ alike (keys_of self.now.machine) (model self.now.machine) self.now.bound s t }
    {
        self.first_key(self.bound - 1, s, t).is_none()
    }

    // With the bound at 1: no keys tell no states apart.
    fn begin(machine: Machine<'a>) -> Levels<'a>
        ensures { (result.machine ≡ machine.entry) × (result.bound ≡ 1) }
    {
        Levels {
            machine,
            bound: 1,
            entries: [1; 256],
        }
    }

    // One round: with the bound one higher.
    fn round(&self) -> Levels<'a>
        requires { self.now.bound < 16 }
        ensures { (result.machine ≡ self.now.machine) × (result.bound ≡ suc self.now.bound) }
    {
        let mut entries = self.entries;
        for s in 0..self.machine.states() {
            for t in 0..self.machine.states() {
                if self.alike_at_bound(s, t) {
                    entries[16 * s + t] = self.bound + 1;
                }
            }
        }
        Levels {
            machine: self.machine,
            bound: self.bound + 1,
            entries,
        }
    }

    // With the number of states for the bound.
    pub(crate) fn of(machine: Machine<'a>) -> Levels<'a>
        ensures { (result.machine ≡ machine.entry) × (result.bound ≡ length (model machine.entry)) }
    {
        let mut levels = Levels::begin(machine);
        for _ in 1..machine.states() {
            levels = levels.round();
        }
        levels
    }
}
