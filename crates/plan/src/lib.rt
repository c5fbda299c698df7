// The plan, by document 01: a head, periods and their doses, read from the plan's bytes. Nothing is asked of the bytes:
// what lies past their end reads as 0.
#![tactic(auto)]

mod classes;
mod fields;
mod part;
mod periods;
mod records;

pub use classes::class_by;
pub use fields::{
    CONTINUATION, HEAD, PERIOD, count_of, end_of, first_of, header_of, interval_of, kind_of,
    last_of, plan_number_of, revision_of, unit_of, vka_of,
};
pub use periods::{block_of, class_of, dose_in, doses_here, doses_of, is_period, more_blocks};
pub use records::{
    RECORD, copy_dose, dose_at, dose_of, is_marked, is_record_marked, open_record, record_of,
    record_start, upper_of, write_dose,
};

// What doses a period has: none, unmarked ones, marked ones, or both.
#[derive(Clone, Copy, PartialEq, Eq, Debug)]
pub enum Class {
    Empty,
    Fixed,
    Need,
    Mixed,
}

// A dose record.
#[derive(Clone, Copy)]
pub struct Dose {
    pub day: u16,
    pub kind: u8,
    pub mark: u8,
    pub minute: u16,
    pub low: u64,
    pub high: u64,
}

// A dose record as it is read: its dose, and the bytes that no field has.
#[derive(Clone, Copy)]
pub struct Opened {
    pub dose: Dose,
    pub spare: u16,
}

// A head without its count and sums.
#[derive(Clone, Copy)]
pub struct Head {
    pub unit: u16,
    pub start: u32,
    pub end: u32,
    pub number: u32,
    pub revision: u32,
    pub vka: u8,
}

// What a period's first block says of it. Of a head, the two days are the treatment's.
#[derive(Clone, Copy)]
pub struct Header {
    pub interval: u16,
    pub first: u32,
    pub end: u32,
}
