// Rules 7 to 14, from what the pass over the period's doses has kept.
ghost use Rattle.std.specs.Prelude.{◌≡◌, ◌≤◌, ◌<◌};
ghost use Rattle.plan.specs.Periods.{dose_in};
ghost use Rattle.period.specs.Period.{rule_of};
ghost use Rattle.period.specs.Code.Turn.{Room, Passed};
ghost use Rattle.period.specs.Code.Twice.{has_twice};
ghost use Rattle.period.specs.Code.Finish.{is_past, is_any_day, is_both, round_by, is_too_much, NotYet};

use crate::period_doses::Doses;
use crate::turn::Walk;
use plan::dose_in;

// Rule 7: day numbers do not fall, so that the last is the largest.
fn is_past(s: Walk, limit: u32) -> bool
    ensures { result ≡ is_past s limit }
{
    (0 < limit) & (limit < (s.day as u32))
}

// Rule 12.
fn is_both(s: Walk) -> bool
    ensures { result ≡ is_both s }
{
    ((0 < s.fixed.at) | (0 < s.need.at)) & s.timed
}

// The days of rule 14: day numbers do not fall, so that the last of an unmarked dose is the largest.
fn round_of(s: Walk, limit: u32) -> u32
    ensures { result ≡ round_by s limit }
{
    if limit == 0 {
        s.most.max(1) as u32
    } else {
        limit
    }
}

// Rule 14. 100,000,000,000 is 2048 times 48,828,125, which makes both sides numbers of 64 bits.
fn is_too_much(s: Walk, limit: u32) -> bool
    requires { Room 1515 s }
    ensures { result ≡ is_too_much s limit }
{
    48828125 * (round_of(s, limit) as u64) <= s.big + s.small / 2048
}

impl Doses<'_> {
    // Rule 8: day numbers do not fall, so that the first dose has day number 0 if any has, and then all have if the last has.
    fn is_any_day(self, s: Walk) -> bool
        ensures { result ≡ is_any_day (dose_in self.entry.plan.now self.entry.b) s self.entry.n }
    {
        let first = dose_in(self.plan, self.b, 0);
        (0 < self.n) & (first.day == 0) & ((s.marked < self.n) | !(s.day == 0))
    }

    // Rule 10: it is kept where no day has one of kinds 1 to 4 twice, and every clock dose has a higher rank than those ahead of it.
    fn is_any_twice(self, s: Walk) -> bool
        requires { (7 < s.rule) × Passed self.plan.now self.b self.n s }
        ensures { result ≡ has_twice (dose_in self.entry.plan.now self.entry.b) self.entry.n }
    {
        s.again && self.has_twice()
    }

    // The lowest of rules 7 to 14 that the period breaks, or 15.
    pub(crate) fn rule_from_7(self, s: Walk) -> u8
        requires { Passed self.plan.now self.b self.n s }
        ensures { (NotYet self.entry.plan.now self.entry.b 7 → result ≡ rule_of self.entry.plan.now self.entry.b) × (result ≤ 15) }
    {
        if s.rule == 7 {
            return 7;
        }
        if is_past(s, self.limit) {
            return 7;
        }
        if self.is_any_day(s) {
            return 8;
        }
        if s.rule < 10 {
            return s.rule;
        }
        if self.is_any_twice(s) {
            return 10;
        }
        if s.rule < 12 {
            return s.rule;
        }
        if is_both(s) {
            return 12;
        }
        if s.rule < 14 {
            return s.rule;
        }
        if is_too_much(s, self.limit) {
            return 14;
        }
        15
    }
}
