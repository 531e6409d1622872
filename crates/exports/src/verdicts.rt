// What judging a board answers, as seven numbers.
ghost use Rattle.std.specs.Prelude.{◌≡◌};
ghost use Rattle.exports.specs.Outcomes.{judged_of};

use machine::Refusal;
use verdict::Verdict;

// A refusal's number and place; or 0 and 0, and then whether the board failed, and of a failure the test, the key, and what was and should have been shown.
// Numbers in place of an enum: the C interface has no such type.
#[repr(C)]
#[derive(Clone, Copy, Default)]
pub struct Judged {
    pub refusal: u64,
    pub place: u64,
    pub failed: u64,
    pub test: u64,
    pub key: u64,
    pub shown: u64,
    pub expected: u64,
}

impl From<Result<Verdict, Refusal>> for Judged {
    ghost from_gives = { λ answer judged. judged ≡ judged_of answer };

    fn from(answer: Result<Verdict, Refusal>) -> Judged {
        match answer {
            Ok(Verdict::Passed) => Judged::default(),
            Ok(
                Verdict::Failed {
                    test,
                    key,
                    shown,
                    expected,
                },
            ) => Judged {
                failed: 1,
                test,
                key,
                shown,
                expected,
                ..Judged::default()
            },
            Err(why) => Judged {
                refusal: why.number(),
                place: why.place(),
                ..Judged::default()
            },
        }
    }
}
