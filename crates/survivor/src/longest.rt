// How long the longest test of a row is.
ghost use Rattle.std.specs.Prelude.{◌≡◌};
ghost use Rattle.survivor.specs.Longest.{longest_of, tests_in};

// The length of the longest test in a row of tests: with it a survivor passes them all.
pub fn longest_test(tests: &[u64]) -> u64
    ensures { result ≡ longest_of (tests_in tests.now) }
{
    let mut longest = 0u64;
    for test in suite::tests_in(tests) {
        longest = longest.max(test.len() as u64);
    }
    longest
}
