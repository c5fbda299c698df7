// The walk over the days, by steps.
ghost use Rattle.std.specs.Prelude.{◌≡◌, ◌-◌, ◌≤◌, cond, eqb};
ghost use Rattle.day.specs.Days.{open_mark};
ghost use Rattle.supply.specs.Code.Walking.{Going, Able, Stood, Stays, Advanced, Went, reason_at, lasting_at};

use crate::Lasting;
use crate::taking::{Stride, next_stride};
use crate::today::{Today, next_day, on_day};
use day::Day;
use pause::Sight;

// The walk stands on `day`, with a rest, after `count` steps, and goes on as long as that day lies ahead of day `end`: the one behind the
// stop day, or the walk's own, once it needs more than the rest. `chosen` has a bit for each block whose period has doses of the choice.
// The walk is handed on by value at each step: its fields and those of `Today` leave no gap (a `Period` has a spare byte, and its `Option`
// a tag), and stand in an order in which the compiler keeps them in registers.
#[derive(Clone, Copy)]
pub(crate) struct Walk {
    pub start: u32,
    pub stop: u32,
    pub end: u32,
    pub day: u32,
    pub count: u32,
    pub chosen: u32,
    pub rest: u64,
    pub today: Today,
}

// Why the walk ended: the day needs more than the rest, or it lies behind the stop day.
fn reason_at(day: u32, stop: u32) -> u8
    ensures { result ≡ reason_at day stop }
{
    if day <= stop {
        return 1;
    }
    if stop == Day::LAST.number { 3 } else { 2 }
}

// The walk, which knows where its day stands: as the step ahead left it, or worked out anew, on the first day and where periods changed.
fn stood(plan: &[u8], choice: u32, w: Walk) -> Walk
    requires { Going choice plan.now w }
    ensures { Stood choice plan.now w result }
{
    let mut r = w;
    let t = w.today;
    if (w.count == 0) | (t.until < w.day) {
        r.today = on_day(plan, choice, w.chosen, w.day);
    }
    r
}

// The walk after the days of a step, which the rest has the need of.
fn advance(plan: &[u8], choice: u32, w: Walk, x: Stride) -> Walk
    requires able { Able choice plan.now w }
    requires stays { Stays choice plan.now w x × (x.need ≤ w.rest) }
    ensures { Advanced choice plan.now w x result }
{
    let mut r = w;
    let day = w.day + x.days;
    r.rest = w.rest - x.need;
    r.day = day;
    r.count = w.count + 1;
    if w.stop < day {
        return r;
    }
    let t = w.today;
    if x.still | (t.until < day) {
        return r;
    }
    r.today = next_day(plan, choice, t);
    r
}

// The walk after its next step, or over, where the day needs more than the rest. The sight is what the list of pauses says of its day.
pub(crate) fn step(plan: &[u8], choice: u32, begun: Walk, s: Sight) -> Walk
    requires { Going choice plan.now begun × (begun.day ≤ s.until) }
    ensures { Went choice plan.now s begun result }
{
    let w = stood(plan, choice, begun);
    let x = next_stride(w, s);
    if w.rest < x.need {
        let mut r = w;
        r.end = w.day;
        return r;
    }
    advance(plan, choice, w, x)
}

// The last of the days from the start on to the one ahead of `day`: the open mark where there is none.
fn last_of_days(start: u32, day: u32) -> u32
    requires { start ≤ day }
    ensures { result ≡ cond (eqb (day - start) 0) open_mark (day - 1) }
{
    if day == start {
        return Day::OPEN.number;
    }
    day - 1
}

// The answer of a walk that is over.
pub(crate) fn ended(w: Walk) -> Lasting
    requires { w.start ≤ w.day }
    ensures { result ≡ lasting_at w }
{
    Lasting {
        days: w.day - w.start,
        last: last_of_days(w.start, w.day),
        rest: w.rest,
        reason: reason_at(w.day, w.stop),
    }
}
