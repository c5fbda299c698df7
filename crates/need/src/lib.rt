// The need of a day, by document 01: which doses count by a choice, and by which amount, their sum on a day, and the day on which
// the choice stops.
#![tactic(auto)]

mod bits;
mod choice;
mod due;
mod stopping;

pub use bits::{bits_by, is_odd, told_by, told_of};
pub use choice::{amount, is_choice};
pub use due::due_on;
pub use stopping::stop_of;

// Which periods count, a bit for each block: by choices 1 and 2 the fixed and mixed ones, by 3 those with doses, by 4 the need and mixed
// ones.
#[derive(Clone, Copy, Debug, PartialEq, Eq)]
pub struct Told {
    pub fixed: u32,
    pub dosed: u32,
    pub needed: u32,
}
