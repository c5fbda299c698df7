// Rules 15 to 17 of usual plans: two quick ways, each one walk over the periods. A walk that comes to a period where a rule may
// be broken ends with `None`.
ghost use Rattle.std.specs.Prelude.{◌≡◌, true, false, ℕ, ◌<◌};
ghost use Rattle.plan.specs.Periods.{blocks_of};
ghost use Rattle.verdict.specs.Coverage.{bare, shares, holes};
ghost use Rattle.verdict.specs.Code.Walks.{is_like, class_with};

use crate::holes::{NOWHERE, reach_on};
use crate::sharing::free_on;
use crate::{ClassedPlan, Group};
use plan::{Class, is_period};

// May a period of class c stand beside those so far, whose class is this one?
fn is_like(class: Class, c: Class) -> bool
    ensures { result ≡ is_like class c }
{
    c.is_empty() | class.is_empty() | (c == class)
}

// The class of those with doses.
fn class_with(class: Class, c: Class) -> Class
    ensures { result ≡ class_with class c }
{
    if c.is_empty() { class } else { c }
}

impl ClassedPlan<'_> {
    // Has the plan doses, follow its periods one another day by day, and are all that have doses of one class? Then it keeps
    // rules 15 to 17, and `true` is certain: no two share a day, and no group has a hole that all together have not.
    pub(crate) fn is_alike(self) -> bool
        ensures { result ≡ true → (bare self.entry.plan.now ≡ false) × ((b : ℕ) → b < blocks_of self.entry.plan.now → shares self.entry.plan.now b ≡ false) × (holes self.entry.plan.now ≡ false) }
    {
        let n = self.blocks();
        let mut free = Some(0);
        let mut all = Some(NOWHERE);
        let mut class = Class::Empty;
        for b in 0..n {
            if !is_period(self.plan, b) {
                continue;
            }
            let q = self.span_at(b);
            if !is_like(class, q.class) {
                return false;
            }
            class = class_with(class, q.class);
            free = free_on(Group::All, q, free);
            all = reach_on(Group::All, q, all);
        }
        !class.is_empty() & free.is_some() & all.is_some()
    }

    // Does the plan keep rules 16 and 17? `true` is certain. Two periods may share a day exactly where neither of two groups
    // holds both, so it is enough for rule 16 that in each of the two every period begins behind those ahead of it.
    // Kept: five names, for in an array the walks would go by number, with the group of each in another one.
    pub(crate) fn is_usual(self) -> bool
        ensures { result ≡ true → ((b : ℕ) → b < blocks_of self.entry.plan.now → shares self.entry.plan.now b ≡ false) × (holes self.entry.plan.now ≡ false) }
    {
        let n = self.blocks();
        let mut fixed_free = Some(0);
        let mut need_free = Some(0);
        let mut all = Some(NOWHERE);
        let mut fixed = Some(NOWHERE);
        let mut need = Some(NOWHERE);
        for b in 0..n {
            if !is_period(self.plan, b) {
                continue;
            }
            let q = self.span_at(b);
            fixed_free = free_on(Group::FixedOrEmpty, q, fixed_free);
            need_free = free_on(Group::Need, q, need_free);
            all = reach_on(Group::All, q, all);
            fixed = reach_on(Group::Fixed, q, fixed);
            need = reach_on(Group::Need, q, need);
        }
        let apart = fixed_free.is_some() & need_free.is_some();
        let covered = all.is_some() & fixed.is_some() & need.is_some();
        apart & covered
    }
}
