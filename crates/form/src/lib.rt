// Rules 1 to 4: the form of a plan's bytes, under a length limit: a plan has at most 32 blocks, a part of a split one 64.
#![tactic(auto)]

mod block_form;
mod order;

pub use order::form_of;

pub const PLAN_LIMIT: u16 = 16384;

pub const PART_LIMIT: u16 = 32768;
