// The pass over a period's doses: what it keeps, and one dose more.
ghost use Rattle.std.specs.Prelude.{◌≡◌, ◌+◌, ◌≤◌, ◌<◌};
ghost use Rattle.plan.specs.Fields.{is_marked};
ghost use Rattle.period.specs.Doses.{is_timed, is_untimed, bad_range};
ghost use Rattle.period.specs.Code.Turn.{rank_of, from_of, is_crowded, is_other, is_asked, is_clock, last_at, turned, Room};

use plan::{Dose, is_marked, upper_of};
use std::hint::select_unpredictable;

// The last dose of its sort: its index and 1, 0 where there is none, and its amounts.
// Kept: a number and no Option, so that `from < at` asks at once whether there is one and whether it is of the day at hand.
#[derive(Clone, Copy)]
pub(crate) struct Last {
    pub at: u16,
    pub low: u64,
    pub high: u64,
}

impl Last {
    pub(crate) const NONE: Last = Last {
        at: 0,
        low: 0,
        high: 0,
    };
}

// What the pass keeps of the doses that it has passed.
#[derive(Clone, Copy)]
pub(crate) struct Walk {
    // the last day number, and the index of the first dose of its day
    pub day: u16,
    pub from: u16,
    // the largest rank of a clock dose
    pub top: u64,
    // the last unmarked dose of kind 0, and the last marked one
    pub fixed: Last,
    pub need: Last,
    // there is one of kinds 1 to 4; the last of each, its index and 1, 0 where there is none
    // Kept: four fields and no array, whose length the definitions `turned` and `last_at` would have to carry along with each state.
    pub timed: bool,
    pub morning: u16,
    pub noon: u16,
    pub evening: u16,
    pub night: u16,
    // how many have a need mark
    pub marked: u16,
    // the unmarked upper amounts, in two parts that no bytes can make too large: 2048 of `big` and one of `small`
    pub big: u64,
    pub small: u64,
    // the last day number of an unmarked dose
    pub most: u16,
    // a day has one of kinds 1 to 4 twice, or a clock dose had no higher rank than one ahead of it, so that rule 10 is still to be asked
    pub again: bool,
    // the lowest of rules 7 (a falling day number), 9, 11 and 13 that a dose has broken, or 14
    pub rule: u8,
}

impl Walk {
    // Before the first dose.
    pub(crate) const BEGUN: Walk = Walk {
        day: 0,
        from: 0,
        top: 0,
        fixed: Last::NONE,
        need: Last::NONE,
        timed: false,
        morning: 0,
        noon: 0,
        evening: 0,
        night: 0,
        marked: 0,
        big: 0,
        small: 0,
        most: 0,
        again: false,
        rule: 14,
    };
}

pub(crate) fn is_timed(d: Dose) -> bool
    ensures { result ≡ is_timed d }
{
    (1 <= d.kind) & (d.kind <= 4)
}

// A clock dose's day number and minute: where these rise, no minute stands twice in a day.
fn rank_of(d: Dose) -> u64
    ensures { result ≡ rank_of d }
{
    (d.day as u64) * 65536 + (d.minute as u64)
}

// The index of the first dose with the day number of dose j, which is d.
fn from_of(s: Walk, d: Dose, j: u16) -> u16
    requires { s.from ≤ j }
    ensures { (result ≡ from_of s d j) × (result ≤ j) }
{
    select_unpredictable(s.day == d.day, s.from, j)
}

// Rule 9 for dose j: 99 doses of its day are ahead of it.
pub(crate) fn is_crowded(s: Walk, d: Dose, j: u16) -> bool
    requires { s.from ≤ j }
    ensures { result ≡ is_crowded s d j }
{
    99 <= j - from_of(s, d, j)
}

// Rule 13.
pub(crate) fn is_bad_range(d: Dose) -> bool
    ensures { result ≡ bad_range d }
{
    !(d.high == 0) & !((d.low < d.high) & (0 < d.low))
}

// Rule 11 for dose j: of the doses of its day like it the last was kept, and the others have that one's amounts.
pub(crate) fn is_other(s: Walk, d: Dose, j: u16) -> bool
    requires { s.from ≤ j }
    ensures { result ≡ is_other s d j }
{
    let marked = is_marked(d);
    let last = select_unpredictable(marked, s.need, s.fixed);
    (d.kind == 0) & (from_of(s, d, j) < last.at) & !((last.low == d.low) & (last.high == d.high))
}

// Does dose j break one of the rules that the pass looks for?
pub(crate) fn is_asked(s: Walk, d: Dose, j: u16) -> bool
    requires { s.from ≤ j }
    ensures { result ≡ is_asked s d j }
{
    (d.day < s.day) | is_crowded(s, d, j) | is_other(s, d, j) | is_bad_range(d)
}

// The last dose of the kind of d, one of 1 to 4: its index and 1, 0 where there is none.
fn last_of(s: Walk, d: Dose) -> u16
    ensures { result ≡ last_at s d.kind }
{
    select_unpredictable(
        d.kind == 1,
        s.morning,
        select_unpredictable(
            d.kind == 2,
            s.noon,
            select_unpredictable(
                d.kind == 3,
                s.evening,
                select_unpredictable(d.kind == 4, s.night, 0),
            ),
        ),
    )
}

// One dose more: dose j, which is d, is untimed, of the clock and marked or not, and `rule` is the lowest broken with it.
// Kept: the three answers on `d` are parameters, so that it is compiled for each kind by itself; an enum of them would be matched to the same three.
fn turn_by(s: Walk, d: Dose, j: u16, rule: u8, untimed: bool, clock: bool, marked: bool) -> Walk
    requires room { Room j s }
    requires j_bound { (j < 1515) × (untimed ≡ is_untimed d) × (clock ≡ is_clock d) × (marked ≡ is_marked d) }
    ensures { (result ≡ turned s d j rule) × Room (j + 1) result }
{
    let from = from_of(s, d, j);
    let next = j + 1;
    let rank = rank_of(d);
    let upper = select_unpredictable(marked, 0, upper_of(d));
    let fixed = untimed & !marked;
    let need = untimed & marked;
    let last = Last {
        at: next,
        low: d.low,
        high: d.high,
    };
    Walk {
        day: d.day,
        from,
        top: select_unpredictable(clock & (s.top < rank), rank, s.top),
        fixed: select_unpredictable(fixed, last, s.fixed),
        need: select_unpredictable(need, last, s.need),
        timed: s.timed | is_timed(d),
        morning: select_unpredictable(d.kind == 1, next, s.morning),
        noon: select_unpredictable(d.kind == 2, next, s.noon),
        evening: select_unpredictable(d.kind == 3, next, s.evening),
        night: select_unpredictable(d.kind == 4, next, s.night),
        marked: s.marked + u16::from(marked),
        big: s.big + upper / 2048,
        small: s.small + upper % 2048,
        most: select_unpredictable(marked, s.most, d.day),
        again: s.again | (clock & (rank <= s.top)) | (from < last_of(s, d)),
        rule,
    }
}

// The same. Compiled for an untimed dose of each need mark, a clock dose and another by itself, it does little for each.
pub(crate) fn turn(s: Walk, d: Dose, j: u16, rule: u8) -> Walk
    requires room { Room j s }
    requires j_bound { j < 1515 }
    ensures { (result ≡ turned s d j rule) × Room (j + 1) result }
{
    if d.kind == 0 {
        if is_marked(d) {
            return turn_by(s, d, j, rule, true, false, true);
        }
        return turn_by(s, d, j, rule, true, false, false);
    }
    if d.kind == 5 {
        return turn_by(s, d, j, rule, false, true, is_marked(d));
    }
    turn_by(s, d, j, rule, false, false, is_marked(d))
}
