// A milk pump: its tests, and what they find of boards that are to be one. specs/Example.antt has the table.
#![tactic(auto)]

ghost use Rattle.milk_pump.specs.Example.{WorkedExample};

// Every entry of the table is right, for the tests and the verdicts that the other crates' contracts speak of.
pub fn worked_example()
    ensures { WorkedExample }
{}
