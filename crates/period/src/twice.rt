// Rule 10 where the doses of a day do not stand in the order of their times.
ghost use Rattle.std.specs.Prelude.{◌≡◌, true, false, cond, ◌<◌, ltb};
ghost use Rattle.plan.specs.Periods.{dose_in};
ghost use Rattle.period.specs.Doses.{twice};
ghost use Rattle.period.specs.Code.Twice.{twice_at, has_twice, Rising, slot_of};

use crate::period_doses::Doses;
use crate::turn::is_timed;
use plan::{Dose, dose_in};
use std::hint::select_unpredictable;

// Rule 10 on two doses: need marks are disregarded.
fn is_twice(d: Dose, e: Dose) -> bool
    ensures { result ≡ twice d e }
{
    (d.day == e.day) & (d.kind == e.kind) & (is_timed(d) | ((d.kind == 5) & (d.minute == e.minute)))
}

// A dose's time as a number below 1445: 0 for no time, and one number for all minutes that no day has.
fn slot_of(d: Dose) -> usize
    ensures { (result ≡ slot_of d) × (result < 1445) }
{
    select_unpredictable(
        d.kind == 5,
        (d.minute as u64).min(1439) + 5,
        select_unpredictable(d.kind < 5, d.kind as u64, 0),
    ) as usize
}

// A day's tag, from 1 to 255: that of the day ahead of it and 1.
fn next_tag(tag: u8, same: bool) -> u8
    ensures { same ≡ true → result ≡ tag }
{
    if same { tag } else { tag % 255 + 1 }
}

// What is kept of a dose at the time k: its day's tag, but for those of no time nothing, so that they never find one.
fn kept_of(k: usize, tag: u8) -> u8
    ensures { result ≡ cond (ltb 0 k) tag 0 }
{
    if 0 < k { tag } else { 0 }
}

impl Doses<'_> {
    // Rule 10 on dose j and those ahead of it. Day numbers do not fall, so that only those of its day need be asked.
    // Kept: with `(0..j).rev().map(..).take_while(..).any(..)` the proof does not close at what the closure of `take_while` is known to do.
    fn is_twice_back(self, j: u16) -> bool
        requires { (j < self.n) × Rising (dose_in self.plan.now self.b) self.n }
        ensures { result ≡ twice_at (dose_in self.entry.plan.now self.entry.b) j }
    {
        let d = dose_in(self.plan, self.b, j);
        for i in 0..j {
            let e = dose_in(self.plan, self.b, j - 1 - i);
            if e.day != d.day {
                return false;
            }
            if is_twice(e, d) {
                return true;
            }
        }
        false
    }

    // The same, asked only where there is a sign of it.
    fn is_twice_by(self, j: u16, sign: bool) -> bool
        requires j_lt_n { (j < self.n) × Rising (dose_in self.plan.now self.b) self.n }
        requires j_value { sign ≡ false → twice_at (dose_in self.plan.now self.b) j ≡ false }
        ensures { result ≡ twice_at (dose_in self.entry.plan.now self.entry.b) j }
    {
        sign && self.is_twice_back(j)
    }

    // Has a dose a time that one ahead of it has on its day? The tag of the last dose at each time is kept: where
    // a dose does not find its own there, none of its day has its time.
    pub(crate) fn has_twice(self) -> bool
        requires { Rising (dose_in self.plan.now self.b) self.n }
        ensures { result ≡ has_twice (dose_in self.entry.plan.now self.entry.b) self.entry.n }
    {
        let mut last = [0u8; 1445];
        let mut day: u16 = 0;
        let mut tag: u8 = 1;
        for j in 0..self.n {
            let d = dose_in(self.plan, self.b, j);
            let k = slot_of(d);
            let own = next_tag(tag, day == d.day);
            if self.is_twice_by(j, last[k] == own) {
                return true;
            }
            last[k] = kept_of(k, own);
            day = d.day;
            tag = own;
        }
        false
    }
}
