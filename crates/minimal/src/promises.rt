// Statements about minimal machines, each a function's promise: it does nothing, but that it is proved says something.
ghost use Rattle.minimal.specs.Promises.{MinimalExists, MinimalUnique, MinimalNumberedUnique, ShortDifference, ShortSeparation};

// For every machine there is an equivalent minimal one, with no more states.
pub fn minimal_exists()
    ensures { MinimalExists }
{}

// Two minimal machines that are equivalent are one but for the numbers of their states.
pub fn minimal_unique()
    ensures { MinimalUnique }
{}

// A machine has one minimal machine: numbered by first words, two of them are one.
pub fn minimal_numbered_unique()
    ensures { MinimalNumberedUnique }
{}

// Two machines that differ do so on a word with fewer keys than they have states together.
pub fn short_difference()
    ensures { ShortDifference }
{}

// Two states that differ do so on a word with fewer keys than there are states.
pub fn short_separation()
    ensures { ShortSeparation }
{}
