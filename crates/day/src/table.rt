// The months: "The days before each month stand in a table of two rows, common and leap years."
ghost use Rattle.std.specs.Prelude.{◌≡◌, ◌≤◌};
ghost use Rattle.day.specs.Calendar.{is_leap, before, year_length};

const BEFORE: [[u32; 12]; 2] = [
    [0, 31, 59, 90, 120, 151, 181, 212, 243, 273, 304, 334],
    [0, 31, 60, 91, 121, 152, 182, 213, 244, 274, 305, 335],
];

// Is it a leap year?
#[tactic(auto, unfolding(crate::specs::Calendar::is_leap))]
pub fn is_leap(year: u32) -> bool
    ensures { result ≡ is_leap year }
{
    (year % 4 == 0) & ((year % 100 != 0) | (year % 400 == 0))
}

// The days of the year's first m months. December is the last, and has 31.
pub fn days_before(leap: bool, m: usize) -> u32
    ensures { (result ≡ before leap m) × (result ≤ 366) }
{
    let row = BEFORE[usize::from(leap)];
    if m < 12 { row[m] } else { row[11] + 31 }
}

// The days of a year.
pub fn year_length(year: u32) -> u32
    ensures { (result ≡ year_length year) × (result ≤ 366) }
{
    days_before(is_leap(year), 12)
}
