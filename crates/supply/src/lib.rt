// Supply, by document 01: how far a pack lasts, in whole rounds where it can be (document 02, W12); and the set of dates of W1.
#![tactic(auto)]

mod ask;
mod begin;
mod lent;
mod packed;
mod place;
mod position;
mod rounds;
mod set;
mod survey;
mod taking;
mod today;
mod walk;
mod wanted;

pub use lent::{dates_of, supply_of};
pub use packed::{dates_packed, supply_packed};

// How far the pack lasts: days covered, the last of them, what is left, and why it ends.
// Kept: `reason` is a number, since C gets it as one, and `lasting_of` and `lasting_in` name 1, 2, 3 and 0 as document 01 does.
#[derive(Clone, Copy)]
pub struct Lasting {
    pub days: u32,
    pub last: u32,
    pub rest: u64,
    pub reason: u8,
}

// The dates that the counter wants, each the last covered day of a choice's supply, or the open mark where it is absent: one end date, or
// a minimum and a maximum; date 3, of all doses; and date 4, of those as needed.
#[derive(Clone, Copy)]
pub struct Dates {
    pub end: u32,
    pub minimum: u32,
    pub maximum: u32,
    pub third: u32,
    pub fourth: u32,
}
