// Rule 17: days in no period.
ghost use Rattle.std.specs.Prelude.{◌≡◌, ◌<◌};
ghost use Rattle.plan.specs.Periods.{blocks_of};
ghost use Rattle.verdict.specs.Coverage.{meets_at, meets, hole_at, hole, holes};
ghost use Rattle.verdict.specs.Code.Groups.{cover_of, hole_after};
ghost use Rattle.verdict.specs.Code.Ready.{Dated};
ghost use Rattle.verdict.specs.Code.Walks.{reach_on};

use crate::coverage::{Span, day_after, has_days};
use crate::{ClassedPlan, Group};
use day::Day;
use plan::block_of;

impl Group {
    // The group that must have the days between the first and last day of this one.
    fn cover(self) -> Group
        ensures { result ≡ cover_of self }
    {
        match self {
            Group::Fixed => Group::FixedOrEmpty,
            Group::Need => Group::NeedOrEmpty,
            Group::All | Group::FixedOrEmpty | Group::NeedOrEmpty => self,
        }
    }
}

// A walk over the periods of a group and its cover: the cover has each day from `from` up to, and without, `to`, and no
// period of the group so far has another day. Until the group has begun, the days begin anew with each period of the cover
// that does not join them.
#[derive(Clone, Copy)]
pub(crate) struct Reach {
    pub from: u32,
    pub to: u32,
    pub began: bool,
}

pub(crate) const NOWHERE: Reach = Reach {
    from: 0,
    to: 0,
    began: false,
};

// The walk goes on over a period, unless the group has a hole ahead of it.
pub(crate) fn reach_on(g: Group, q: Span, reach: Option<Reach>) -> Option<Reach>
    ensures { result ≡ reach_on g q reach }
{
    let s = reach?;
    if !g.cover().holds(q.class) {
        return Some(s);
    }
    let spans = g.holds(q.class);
    if (s.from <= q.first) & (q.first <= s.to) {
        return Some(Reach {
            from: s.from,
            to: s.to.max(q.end),
            began: s.began | spans,
        });
    }
    match (s.began, spans) {
        (true, true) => None,
        (true, false) => Some(s),
        (false, _) => Some(Reach {
            from: q.first,
            to: q.end,
            began: spans,
        }),
    }
}

impl ClassedPlan<'_> {
    // Does block b begin a period of the group that has a day from lo to hi?
    fn meets_at(self, g: Group, lo: u32, hi: u32, b: u8) -> bool
        requires { b < blocks_of self.plan.now }
        ensures { result ≡ meets_at g self.entry.plan.now lo hi b }
    {
        self.is_member(g, b) & has_days(self.plan, lo, hi, b)
    }

    // Has some period of the group a day from lo to hi?
    fn meets(self, g: Group, lo: u32, hi: u32) -> bool
        ensures { result ≡ meets g self.entry.plan.now lo hi }
    {
        (0..self.blocks()).any(|b| self.meets_at(g, lo, hi, b))
    }

    // Is day d a hole of the group?
    fn is_hole(self, g: Group, d: u32) -> bool
        ensures { result ≡ hole_at g (cover_of g) self.entry.plan.now d }
    {
        let last = Day::LAST;
        self.meets(g, 0, d) & self.meets(g, d, last.number) & !self.meets(g.cover(), d, d)
    }

    // Is the day after the period at block b a hole of the group?
    fn is_hole_after(self, g: Group, b: u8) -> bool
        requires { b < blocks_of self.plan.now }
        ensures { result ≡ hole_after g self.entry.plan.now b }
    {
        self.is_member(g.cover(), b) && self.is_hole(g, day_after(block_of(self.plan, b as u16)))
    }

    // Has the group a hole? If it has one, the day after some period of its cover is one.
    fn has_hole(self, g: Group) -> bool
        requires { Dated self.plan.now }
        ensures { result ≡ hole g (cover_of g) self.entry.plan.now }
    {
        (0..self.blocks()).any(|b| self.is_hole_after(g, b))
    }

    // Rule 17, for plans that the walks of usual.rt do not let through.
    pub(crate) fn has_holes(self) -> bool
        requires { Dated self.plan.now }
        ensures { result ≡ holes self.entry.plan.now }
    {
        self.has_hole(Group::All) | self.has_hole(Group::Fixed) | self.has_hole(Group::Need)
    }
}
