// Numbers that look random and are the same every time.
ghost use Rattle.std.specs.Prelude.{◌<◌};

// A generator, which is its last state.
#[derive(Drop)]
pub struct Random {
    state: u64,
}

impl Random {
    // The generator whose first state is the seed.
    pub fn seeded(seed: u64) -> Random {
        Random { state: seed }
    }

    // A number below the bound; 0 if the bound is 0.
    pub fn below(&mut self, bound: usize) -> usize
        ensures { 0 < bound → result < bound }
    {
        self.state = self
            .state
            .wrapping_mul(6364136223846793005)
            .wrapping_add(1442695040888963407);
        let high = (self.state >> 33) as usize;
        if bound == 0 { 0 } else { high % bound }
    }

    // True one time in so many, and always for 0.
    pub fn one_in(&mut self, times: usize) -> bool {
        self.below(times) == 0
    }
}
