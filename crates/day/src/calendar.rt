// The two conversions, over one table.
ghost use Rattle.std.specs.Prelude.{◌≡◌, ◌+◌, ◌≤◌, ◌<◌};
ghost use Rattle.day.specs.Calendar.{before, year_length, year_start};
ghost use Rattle.day.specs.Days.{named_by, Shows};
ghost use Rattle.day.specs.Code.Inside.{Inside};

use crate::table::{days_before, is_leap, year_length};
use crate::{Date, Day};

// The day on which the year 2000 + k begins.
fn year_start(k: u32) -> u32
    requires { k ≤ 200 }
    ensures { (result ≡ year_start k) × (result ≤ 73200) }
{
    let mut start: u32 = 0;
    for i in 0..k {
        start += year_length(2000 + i);
    }
    start
}

// The month of the day `rest` of a year, both counted from 0: the first that ends behind the day.
fn month_of(leap: bool, rest: u32) -> usize
    requires { rest < before leap 12 }
    ensures { (result < 12) × (before leap result ≤ rest) × (rest < before leap (result + 1)) }
{
    (0..11)
        .find(|m| rest < days_before(leap, *m + 1))
        .unwrap_or(11)
}

// The date of the day `rest` of a year, counted from 0.
fn in_year(year: u32, rest: u32) -> Date
    requires { rest < year_length year }
    ensures { Inside year rest result }
{
    let leap = is_leap(year);
    let m = month_of(leap, rest);
    Date {
        year,
        month: m as u32 + 1,
        day: rest - days_before(leap, m) + 1,
    }
}

// The date of a day, or none where it is no day of the calendar. It counts through the years.
pub fn date_of(day: Day) -> Option<Date>
    ensures { Shows day.number result }
{
    let mut rest = day.number;
    for year in 2000..2200 {
        let length = year_length(year);
        if rest < length {
            return Some(in_year(year, rest));
        }
        rest -= length;
    }
    None
}

// The day of a date, or none where it is no date of the calendar.
pub fn day_of(date: Date) -> Option<Day>
    ensures { result ≡ named_by date }
{
    let Date { year, month, day } = date;
    if !(2000..=2199).contains(&year) | !(1..=12).contains(&month) {
        return None;
    }
    let leap = is_leap(year);
    let before = days_before(leap, month as usize - 1);
    let length = days_before(leap, month as usize) - before;
    if !(1..=length).contains(&day) {
        return None;
    }
    Some(Day::new(year_start(year - 2000) + before + (day - 1)))
}
