// Pauses, by document 01: a list of records, each a first and a last day, in any order, overlap allowed. Each test is over a
// lent slice of records. The C call's packed bytes are unpacked, so that it lends records too.
#![tactic(auto)]

mod lent;
mod packed;
mod test;

pub use lent::{are_out, pause_at, paused, sight_from, sight_on};
pub use packed::{packed_count, packed_records};
pub use test::{is_in, is_out};

#[derive(Clone, Copy, Debug, PartialEq, Eq)]
pub struct Pause {
    pub first: u32,
    pub last: u32,
}

// What a list of pauses says from a day on: whether the day is paused, and up to which day that stays so.
#[derive(Clone, Copy, Debug, PartialEq, Eq)]
pub struct Sight {
    pub paused: bool,
    pub until: u32,
}
