// What follows from the tests, each statement on the contract of a function; specs/Promises.antt spells them out.
ghost use Rattle.suite.specs.Promises.{EachTestOnce, EquivalentAlwaysPasses, FewTests, MoreExtraMoreTests, PassingSuiteIsEquivalent, TestsReadBack};

// Whatever passes the tests made of words that reach and words that tell apart, with at most so many states more, is equivalent.
pub fn passing_is_equivalent()
    ensures { PassingSuiteIsEquivalent }
{}

// Whatever is equivalent passes, however many states it has.
pub fn equivalent_passes()
    ensures { EquivalentAlwaysPasses }
{}

// There are at most as many tests as there are ways to make one.
pub fn few_tests()
    ensures { FewTests }
{}

// The tests for fewer extra states are among those for more.
pub fn more_extra_more_tests()
    ensures { MoreExtraMoreTests }
{}

// The enumeration gives each test once, in the order in which it first comes up.
pub fn each_test_once()
    ensures { EachTestOnce }
{}

// Reading back a row of tests gives the tests.
pub fn tests_read_back()
    ensures { TestsReadBack }
{}
