// The approval register, by document 01: plans in slots of a lent buffer, and the two signers of each.
#![tactic(auto)]

mod ask;
mod change;
mod fill;
mod slots;
mod sound;
mod told;

pub use ask::{release, state_of};
pub use change::{clear, drop_plan, sign, submit};
pub use told::{length_in, state_in};

// What state gives: the held plan's revision and how many have signed it.
#[derive(Clone, Copy, PartialEq, Eq, Debug)]
pub struct State {
    pub revision: u32,
    pub signers: u8,
}
