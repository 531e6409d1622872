// What takes the tests, one after the other.
ghost use Rattle.std.specs.Prelude.{ℕ, List};

// A trait and no closure: its step is a relation of its own, which the enumeration's contract names.
pub trait Sink {
    // what taking a word makes of the sink
    ghost step: { Self → List ℕ → Self → Type 0 };

    // Takes a test.
    fn put(&mut self, test: &[u64])
        ensures { step self.old test.now self.new };
}
