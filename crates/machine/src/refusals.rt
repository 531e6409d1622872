// Why a request is refused.
ghost use Rattle.std.specs.Prelude.{◌≡◌, Some};
ghost use Rattle.machine.specs.Refusals.{reason_of};
ghost use Rattle.machine.specs.Told.{refusal_text};

use std::error::Error;
use std::fmt;

// Each case holds its place; `reason_of` of specs/Refusals.antt gives its number. Where a place is 2^32 for all that is more, the list of refusals has it so.
#[derive(Clone, Copy, Debug, PartialEq, Eq)]
pub enum Refusal {
    // The machine is cut short, or its number of states or keys is out of bounds: its length, or that number.
    Malformed(u64),
    // A move leads to no state or shows 2^32 or more: the number of the move.
    BadMove(u64),
    // The smallest state that cannot be reached or is equivalent to a smaller one.
    NotMinimal(u64),
    // More than three extra states: how many.
    TooManyExtra(u64),
    // The lent row has no room for the tests: how many numbers they need, or 2^32 if more.
    NoRoomForTests(u64),
    // What was shown is cut short, in this test, or has something behind the last of so many tests.
    WrongLength(u64),
    // A survivor would have more than 4,096 states: how many, or 2^32 if more.
    TooManyStates(u64),
    // The lent row has no room for the machine made: how many numbers it needs.
    NoRoomForMachine(u64),
}

impl Refusal {
    // Its number in the list of reasons, 1 to 8: other languages and the programs' lines are told it by number and place.
    pub fn number(self) -> u64
        ensures { result ≡ (reason_of self).number }
    {
        match self {
            Refusal::Malformed(_) => 1,
            Refusal::BadMove(_) => 2,
            Refusal::NotMinimal(_) => 3,
            Refusal::TooManyExtra(_) => 4,
            Refusal::NoRoomForTests(_) => 5,
            Refusal::WrongLength(_) => 6,
            Refusal::TooManyStates(_) => 7,
            Refusal::NoRoomForMachine(_) => 8,
        }
    }

    // Where it applies, or the number that is refused: it is told with the number, to the same.
    pub fn place(self) -> u64
        ensures { result ≡ (reason_of self).place }
    {
        match self {
            Refusal::Malformed(place)
            | Refusal::BadMove(place)
            | Refusal::NotMinimal(place)
            | Refusal::TooManyExtra(place)
            | Refusal::NoRoomForTests(place)
            | Refusal::WrongLength(place)
            | Refusal::TooManyStates(place)
            | Refusal::NoRoomForMachine(place) => place,
        }
    }
}

impl fmt::Display for Refusal {
    ghost output = { λ refusal. Some (refusal_text refusal) };

    fn fmt<W: fmt::Write>(&self, f: &mut fmt::Formatter<W>) -> fmt::Result {
        let number = self.number();
        let place = self.place();
        write!(f, "refused {number} at {place}")
    }
}

impl Error for Refusal {}
