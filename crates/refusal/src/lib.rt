// A refusal, as one value that every caller passes on whole: its number and its place.
#![tactic(auto)]

ghost use Rattle.std.specs.Prelude.{◌≡◌, Some};
ghost use Rattle.refusal.specs.Refusals.{rule_at, alone, code_of, done_code, refusal_in, code_in, printed};

use std::error::Error;
use std::fmt;

// Kept: two numbers and no enum, since document 01 names each refusal by its number, and `of_rule` and `alone` promise theirs at every number.
#[derive(Clone, Copy, Debug, PartialEq, Eq)]
pub struct Refusal {
    pub number: u8,
    pub place: u8,
}

impl Refusal {
    // A rule of the verdict, broken at block b. Some rules have no place.
    pub fn of_rule(number: u8, b: u8) -> Self
        ensures { result ≡ rule_at number b }
    {
        match number {
            0 | 1 | 15 | 17 => Self::alone(number),
            _ => Self { number, place: b },
        }
    }

    // A refusal that has no place.
    pub fn alone(number: u8) -> Self
        ensures { result ≡ alone number }
    {
        Self { number, place: 255 }
    }

    // What C gets.
    pub fn code(self) -> u32
        ensures { result ≡ code_of self }
    {
        u32::from(self)
    }
}

impl From<Refusal> for u32 {
    ghost from_gives = { λ r c. c ≡ code_of r };

    fn from(r: Refusal) -> u32 {
        u32::from(r.number) + 256 * u32::from(r.place)
    }
}

// As the programs print it: the number, and then the place.
impl fmt::Display for Refusal {
    ghost output = { λ r. Some (printed r) };

    fn fmt<W: fmt::Write>(&self, f: &mut fmt::Formatter<W>) -> fmt::Result {
        write!(f, "{} {}", self.number, self.place)
    }
}

impl Error for Refusal {}

// What C gets where nothing is refused.
pub fn done() -> u32
    ensures { result ≡ done_code }
{
    Refusal::alone(0).code()
}

// The number and the place of an answer: 0 and 255 where it is not refused.
pub fn refusal_in<T: Copy>(answer: Result<T, Refusal>) -> Refusal
    ensures { result ≡ refusal_in answer }
{
    match answer {
        Ok(_) => Refusal::alone(0),
        Err(refusal) => refusal,
    }
}

// What C gets of an answer.
pub fn code_in<T: Copy>(answer: Result<T, Refusal>) -> u32
    ensures { result ≡ code_in answer }
{
    refusal_in(answer).code()
}
