// Rule 16: days that two periods share.
ghost use Rattle.std.specs.Prelude.{◌≡◌, true, ◌<◌};
ghost use Rattle.form.specs.Code.Found.{found_below};
ghost use Rattle.plan.specs.Periods.{blocks_of, is_period};
ghost use Rattle.verdict.specs.Coverage.{may_share, shares_with, shares};
ghost use Rattle.verdict.specs.Code.Walks.{free_on};

use crate::coverage::{Span, has_days};
use crate::{ClassedPlan, Group};
use plan::{Class, block_of, first_of, is_period, last_of};

// A walk over the periods of a group goes on over a period, unless that begins ahead of `free`, the first day behind all of
// them so far.
pub(crate) fn free_on(g: Group, q: Span, free: Option<u32>) -> Option<u32>
    ensures { result ≡ free_on g q free }
{
    let day = free?;
    if !g.holds(q.class) {
        return Some(day);
    }
    if q.first < day {
        return None;
    }
    Some(day.max(q.end))
}

// May periods of these classes share a day?
fn may_share(x: Class, y: Class) -> bool
    ensures { result ≡ may_share x y }
{
    matches!(
        (x, y),
        (Class::Need, Class::Fixed | Class::Empty) | (Class::Fixed | Class::Empty, Class::Need)
    )
}

impl ClassedPlan<'_> {
    // Do the periods at blocks a and b share a day, and may not?
    fn shares_with(self, b: u8, a: u8) -> bool
        requires { (b < blocks_of self.plan.now) × (is_period self.plan.now b ≡ true) × (a < b) }
        ensures { result ≡ shares_with self.entry.plan.now b a }
    {
        let block = block_of(self.plan, b as u16);
        is_period(self.plan, a)
            & has_days(self.plan, first_of(block), last_of(block), a)
            & !may_share(self.class_at(a), self.class_at(b))
    }

    // Does the period at block b break rule 16, as the later one?
    fn is_shared(self, b: u8) -> bool
        requires { b < blocks_of self.plan.now }
        ensures { result ≡ shares self.entry.plan.now b }
    {
        is_period(self.plan, b) && (0..b).any(|a| self.shares_with(b, a))
    }

    // Rule 16: the first block that breaks it. For plans that the walks of usual.rt do not let through: all pairs are compared.
    pub(crate) fn first_shared(self) -> Option<u8>
        ensures { result ≡ found_below (blocks_of self.entry.plan.now) (shares self.entry.plan.now) }
    {
        (0..self.blocks()).find(|b| self.is_shared(*b))
    }
}
