// Days, by document 01: a day is a number of the calendar from 2000-01-01 to 2199-12-31, and may be shown as a date.
#![tactic(auto)]

mod calendar;
mod table;

ghost use Rattle.std.specs.Prelude.{◌≡◌, eqb};
ghost use Rattle.day.specs.Days.{first_number, last_number, open_mark, is_day, closed_day, is_no_span};

pub use calendar::{date_of, day_of};
use std::fmt;

// A day by its number, or the open mark.
#[derive(Clone, Copy, Debug, PartialEq, Eq, PartialOrd, Ord)]
pub struct Day {
    pub number: u32,
}

// A day by its year, its month from 1 and its day of the month from 1.
#[derive(Clone, Copy, Debug, PartialEq, Eq, PartialOrd, Ord)]
pub struct Date {
    pub year: u32,
    pub month: u32,
    pub day: u32,
}

impl Day {
    pub const FIRST: Day = Day { number: 0 };

    pub const LAST: Day = Day { number: 73048 };

    pub const OPEN: Day = Day { number: 4294967295 };

    pub fn new(number: u32) -> Self
        ensures { result.number ≡ number }
    {
        Self { number }
    }

    pub fn first() -> Self
        ensures { result.number ≡ first_number }
    {
        Self::FIRST
    }

    pub fn last() -> Self
        ensures { result.number ≡ last_number }
    {
        Self::LAST
    }

    pub fn open() -> Self
        ensures { result.number ≡ open_mark }
    {
        Self::OPEN
    }

    // Is it the open mark?
    pub fn is_open(self) -> bool
        ensures { result ≡ eqb self.number open_mark }
    {
        self == Self::OPEN
    }

    // Is it a day of the calendar?
    pub fn is_day(self) -> bool
        ensures { result ≡ is_day self.number }
    {
        self <= Self::LAST
    }

    // The day that an open end counts as: the calendar's last. Any other day is itself.
    pub fn closed(self) -> Self
        ensures { result.number ≡ closed_day self.number }
    {
        if self.is_open() { Self::LAST } else { self }
    }
}

// Are these no stretch of days of the calendar? The end may be the open mark.
pub fn is_no_span(first: u32, end: u32) -> bool
    ensures { result ≡ is_no_span first end }
{
    let from = Day::new(first);
    let to = Day::new(end);
    !from.is_day() | !(to.is_day() | to.is_open()) | (to.closed().number < first)
}

impl Date {
    pub fn new(year: u32, month: u32, day: u32) -> Self
        ensures { (result.year ≡ year) × (result.month ≡ month) × (result.day ≡ day) }
    {
        Self { year, month, day }
    }
}

// The year, and two digits each of the month and of the day of the month.
impl fmt::Display for Date {
    fn fmt<W: fmt::Write>(&self, f: &mut fmt::Formatter<W>) -> fmt::Result {
        let Self { year, month, day } = *self;
        write!(f, "{year}-{month:02}-{day:02}")
    }
}
