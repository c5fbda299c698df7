// The block, by document 01: 512 bytes, numbers least byte first, two sums at the end.
#![tactic(auto)]

mod read;
mod summing;
mod write;
mod zero_bytes;

pub use read::{byte_at, half_at, long_at, longs_at, word_at};
pub use summing::{seal, sums_right};
pub use write::{clear, put_bytes, put_half, put_long, put_word};
pub use zero_bytes::is_zero;

// The bytes of a block.
pub const SIZE: usize = 512;

// A block's two sums.
#[derive(Clone, Copy, Debug, PartialEq, Eq)]
pub struct Sums {
    pub first: u32,
    pub second: u32,
}

// Three 64-bit numbers.
#[derive(Clone, Copy, Debug, PartialEq, Eq)]
pub struct Longs {
    pub first: u64,
    pub second: u64,
    pub third: u64,
}
