// One pause, on plain numbers.
ghost use Rattle.std.specs.Prelude.{◌≡◌};
ghost use Rattle.day.specs.Days.{closed_day};
ghost use Rattle.pause.specs.Pauses.{is_in, is_out};
ghost use Rattle.pause.specs.Sight.{steady_to, seen_with};

use crate::{Pause, Sight};
use day::{Day, is_no_span};

// A record that holds no day: what stands past a list's end.
pub(crate) const NO_DAY: Pause = Pause {
    first: Day::OPEN.number,
    last: 0,
};

// Past every day: up to where a list stays as it is that does not change any more.
const NEVER: u32 = Day::OPEN.number;

// What a list without a pause says, from any day on.
pub(crate) const NO_PAUSE: Sight = Sight {
    paused: false,
    until: NEVER,
};

// Does the pause from `first` to `last`, which may be open, hold the day? The open mark is past every day of the calendar, so that for
// such a day nobody need ask whether the end is open; what day it is is known ahead of all pauses.
pub fn is_in(first: u32, last: u32, day: u32) -> bool
    ensures { result ≡ is_in first last day }
{
    if Day::new(day).is_day() {
        return (first <= day) & (day <= last);
    }
    (first <= day) & (day <= Day::new(last).closed().number)
}

// Does the pause end before it starts, or have a day outside the calendar other than an open last?
pub fn is_out(p: Pause) -> bool
    ensures { result ≡ is_out p }
{
    is_no_span(p.first, p.last)
}

// The day that an open last day counts as, or the last day itself.
fn end_of(p: Pause) -> u32
    ensures { result ≡ closed_day p.last }
{
    Day::new(p.last).closed().number
}

// Up to which day does the pause hold the days as it holds `day`, or does not? Both answers are made ahead of the choice: so the
// compiler has a select of it and no jump, and several pauses can be gone through at a time.
fn steady_to(p: Pause, day: u32) -> u32
    ensures { result ≡ steady_to p day }
{
    let end = end_of(p);
    let within = if day <= end { end } else { NEVER };
    let ahead = if p.first <= end {
        p.first.saturating_sub(1)
    } else {
        NEVER
    };
    if p.first <= day { within } else { ahead }
}

// What was in sight before, and this pause. `until` needs the pause's end, so that end serves the flag too, whatever the day.
pub(crate) fn with_pause_in_sight(s: Sight, p: Pause, day: u32) -> Sight
    ensures { result ≡ seen_with s p day }
{
    Sight {
        paused: s.paused | ((p.first <= day) & (day <= end_of(p))),
        until: s.until.min(steady_to(p, day)),
    }
}
