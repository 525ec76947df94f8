// What a function comes to, as a list stores it.
ghost use Rattle.std.specs.Prelude.{◌≡◌, to_bits, IfOk, IfErr};
ghost use Rattle.std.specs.Float.{binary64};
ghost use Rattle.answer.specs.Answer.{number_of};
ghost use Rattle.replay.specs.Outcome.{outcome_of};

use answer::{Refusal, bits};
use std::fmt;

// 0 or the number of the refusal, and up to three answers: those that there are stand first. A refused call may have answers too, as
// what is left of the results, points or block that it was lent, and they are compared as well: so this is no `Result`.
#[derive(Clone, Copy, PartialEq, Eq)]
pub struct Outcome {
    pub status: u8,
    pub answers: [Option<u64>; 3],
}

// A refusal's number, and the answers.
impl fmt::Display for Outcome {
    fn fmt<W: fmt::Write>(&self, f: &mut fmt::Formatter<W>) -> fmt::Result {
        if self.status > 0 {
            let status = self.status;
            write!(f, " refusal {status}")?;
        }
        for bits in self.answers.iter().flatten() {
            write!(f, " {bits:016x}")?;
        }
        Ok(())
    }
}

// Answers that are whole numbers, or bits: they stand as they are.
pub fn answered(answers: [Option<u64>; 3]) -> Outcome
    ensures { result ≡ record { status = 0; answers = answers } }
{
    Outcome { status: 0, answers }
}

// A call that is carried out, and answers nothing.
pub fn done(_nothing: ()) -> Outcome
    ensures { result ≡ outcome_of 0 None None None }
{
    answered([None; 3])
}

// One answer. Three functions for one to three: over their number, a clause would ask for at most three of them, and fill up with None.
pub fn one(x: f64) -> Outcome
    ensures { result ≡ outcome_of 0 (Some (to_bits binary64 x)) None None }
{
    whole(bits(x))
}

// One answer that is a whole number: it stands as it is, not as a float.
pub fn whole(n: u64) -> Outcome
    ensures { result ≡ outcome_of 0 (Some n) None None }
{
    answered([Some(n), None, None])
}

// Two answers.
pub fn two(x: f64, y: f64) -> Outcome
    ensures { result ≡ outcome_of 0 (Some (to_bits binary64 x)) (Some (to_bits binary64 y)) None }
{
    answered([Some(bits(x)), Some(bits(y)), None])
}

// Three answers.
pub fn three(x: f64, y: f64, z: f64) -> Outcome
    ensures { result ≡ outcome_of 0 (Some (to_bits binary64 x)) (Some (to_bits binary64 y)) (Some (to_bits binary64 z)) }
{
    answered([Some(bits(x)), Some(bits(y)), Some(bits(z))])
}

// A refusal, which has no answers.
pub fn refused(number: u8) -> Outcome
    ensures { result ≡ outcome_of number None None None }
{
    Outcome {
        status: number,
        answers: [None; 3],
    }
}

// A record that asks for what is not there: 255, which is no call's refusal, so that the record is shown.
pub fn nowhere() -> Outcome
    ensures { result ≡ outcome_of 255 None None None }
{
    refused(255)
}

// What a call comes to: its refusal's number, or the outcome of what it gives.
pub fn told<T: Drop, F: FnOnce(T) -> Outcome>(given: Result<T, Refusal>, answers: F) -> Outcome
    requires { F.IsAlwaysCallable answers }
    ensures answered { IfOk given (λ value. F.post answers value result) }
    ensures refused { IfErr given (λ refusal. result ≡ outcome_of (number_of refusal) None None None) }
{
    match given {
        Ok(value) => answers(value),
        Err(refusal) => refused(refusal.number()),
    }
}
