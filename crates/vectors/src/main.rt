// Runs stored cases through the libraries: a line `== NAME` begins the cases of one kind, each further line is a case.
#![tactic(auto)]

mod cases;
mod machines;
mod survivors;
mod tests_cases;
mod text;

use anyhow::{Error, anyhow};
use cases::{Case, NoAnswer};
use std::io::Read;
use std::str::FromStr;
use text::Told;

// What is asked of the cases.
#[derive(Clone, Copy)]
enum Kind {
    Read,
    Minimize,
    Words,
    Survivor,
    Survive,
    Tests,
    Large,
    Refusal,
    Verdict,
}

impl FromStr for Kind {
    type Err = Error;

    fn from_str(name: &str) -> Result<Kind, Error> {
        match name {
            "read" => Ok(Kind::Read),
            "minimize" => Ok(Kind::Minimize),
            "words" => Ok(Kind::Words),
            "survivor" => Ok(Kind::Survivor),
            "survive" => Ok(Kind::Survive),
            "tests" => Ok(Kind::Tests),
            "large" => Ok(Kind::Large),
            "refusals" => Ok(Kind::Refusal),
            "verdicts" => Ok(Kind::Verdict),
            _ => Err(anyhow!("no such kind of case")),
        }
    }
}

impl Kind {
    // The answer to a case of this kind; a match, since a table of functions would be no shorter, and the compiler sees that no kind is left out.
    fn answer(self, case: Case) -> Result<String, NoAnswer> {
        match self {
            Kind::Read => machines::read(case),
            Kind::Minimize => machines::minimize(case),
            Kind::Words => machines::words(case),
            Kind::Survivor => survivors::survivor(case),
            Kind::Survive => survivors::survive(case),
            Kind::Tests => tests_cases::tests(case),
            Kind::Large => tests_cases::large(case),
            Kind::Refusal => tests_cases::refusal(case),
            Kind::Verdict => tests_cases::verdict(case),
        }
    }
}

// Prints the answer to a case, or the refusal.
fn run_case(rt: &(impl Print + AllocGlobal), kind: Kind, line: &str) -> anyhow::Result<()> {
    match kind.answer(Case::of(rt.alloc(), line)) {
        Ok(answer) => println!(rt; "{answer}")?,
        Err(NoAnswer::Refused(refusal)) => println!(rt; "{}", Told(refusal))?,
        Err(NoAnswer::Failed(error)) => return Err(error),
    }
    Ok(())
}

fn main(rt: HostRuntime) -> anyhow::Result<()> {
    let mut input = String::new(rt.alloc());
    rt.stdin().read_to_string(&mut input)?;
    // Cases before any heading are rows to be read.
    let mut kind = Kind::Read;
    for line in input.lines() {
        if let Some(name) = line.strip_prefix("== ") {
            kind = name.parse::<Kind>()?;
        } else {
            run_case(&rt, kind, line)?;
        }
    }
    Ok(())
}
