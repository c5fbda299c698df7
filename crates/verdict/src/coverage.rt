// Rule 15, and what rules 16 and 17 share: the group and the days of a period.
ghost use Rattle.std.specs.Prelude.{◌≡◌, true, ◌+◌, ◌<◌};
ghost use Rattle.plan.specs.Fields.{last_of};
ghost use Rattle.plan.specs.Periods.{blocks_of, is_period};
ghost use Rattle.verdict.specs.Coverage.{is_dosed, bare, has_days, in_group, is_member};
ghost use Rattle.verdict.specs.Code.Walks.{span_of};

use crate::{ClassedPlan, Group};
use plan::{Class, block_of, first_of, is_period, last_of, vka_of};

impl Group {
    // Is a period of class c in the group?
    pub(crate) fn holds(self, c: Class) -> bool
        ensures { result ≡ in_group self c }
    {
        match self {
            Group::All => true,
            Group::Fixed => c.has_fixed(),
            Group::Need => c.has_need(),
            Group::FixedOrEmpty => c.is_empty() | c.has_fixed(),
            Group::NeedOrEmpty => c.is_empty() | c.has_need(),
        }
    }
}

// Has the period at block b a day from lo to hi?
pub(crate) fn has_days(plan: &[u8], lo: u32, hi: u32, b: u8) -> bool
    ensures { result ≡ has_days plan.now lo hi b }
{
    let block = block_of(plan, b as u16);
    (first_of(block) <= hi) & (lo <= last_of(block))
}

// The day after a period, by its first block.
pub(crate) fn day_after(block: &[u8]) -> u32
    ensures { result ≡ last_of block.now + 1 }
{
    last_of(block) + 1
}

// A period as the walks over all of them take it: its class, its first day and the day after it.
#[derive(Clone, Copy)]
pub(crate) struct Span {
    pub class: Class,
    pub first: u32,
    pub end: u32,
}

impl ClassedPlan<'_> {
    // Does block b begin a period with doses?
    fn is_dosed(self, b: u8) -> bool
        requires { b < blocks_of self.plan.now }
        ensures { result ≡ is_dosed self.entry.plan.now b }
    {
        is_period(self.plan, b) & !self.class_at(b).is_empty()
    }

    // Rule 15. A period with doses, which a plan mostly begins with, ends the first search.
    pub(crate) fn is_bare(self) -> bool
        ensures { result ≡ bare self.entry.plan.now }
    {
        let n = self.blocks();
        if (0..n).any(|b| self.is_dosed(b)) {
            return false;
        }
        !(0..n).any(|b| is_period(self.plan, b)) | (vka_of(block_of(self.plan, 0)) != 1)
    }

    // Does block b begin a period of the group?
    pub(crate) fn is_member(self, g: Group, b: u8) -> bool
        requires { b < blocks_of self.plan.now }
        ensures { result ≡ is_member g self.entry.plan.now b }
    {
        is_period(self.plan, b) & g.holds(self.class_at(b))
    }

    // The period at block b.
    pub(crate) fn span_at(self, b: u8) -> Span
        requires { (b < blocks_of self.plan.now) × (is_period self.plan.now b ≡ true) }
        ensures { result ≡ span_of self.entry.plan.now b }
    {
        let block = block_of(self.plan, b as u16);
        Span {
            class: self.class_at(b),
            first: first_of(block),
            end: day_after(block),
        }
    }
}
