// What a call answers, as two numbers.
ghost use Rattle.std.specs.Prelude.{◌≡◌};
ghost use Rattle.exports.specs.Outcomes.{outcome_of};

use machine::Refusal;

// A refusal's number and place, or 0 and the value.
// Numbers in place of a Result: the C interface has no such type.
#[repr(C)]
#[derive(Clone, Copy)]
pub struct Outcome {
    pub refusal: u64,
    pub value: u64,
}

impl From<Result<u64, Refusal>> for Outcome {
    ghost from_gives = { λ answer outcome. outcome ≡ outcome_of answer };

    fn from(answer: Result<u64, Refusal>) -> Outcome {
        match answer {
            Ok(value) => Outcome { refusal: 0, value },
            Err(why) => Outcome {
                refusal: why.number(),
                value: why.place(),
            },
        }
    }
}
