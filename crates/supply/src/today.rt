// Where a day stands in the periods that have it. By rule 16 there are two at the most; the day has a place in each that has doses of the
// choice, which knows nothing of the other.
ghost use Rattle.std.specs.Prelude.{◌≡◌, cond, ◌&&◌, ◌+◌, ◌≤◌, ltb, IfSome};
ghost use Rattle.day.specs.Days.{last_number};
ghost use Rattle.need.specs.Telling.{Tells};
ghost use Rattle.supply.specs.Code.Standing.{Orderly, Placed, Known, Behind};

use crate::place::{
    NO_PLACE, Period, Place, due_in, is_still, kept, next_place, period_at, place_on,
};
use crate::rounds::{NO_ROUND, Round, free, rounds_on};
use crate::survey::survey_of;

// The day stands in the periods `first` and `second`, at a place in each. Up to day `until` all of this stays but the places, and up to
// day `same` each needs what the one ahead of it needs. `rounds` are those that may be taken, pauses apart.
#[derive(Clone, Copy)]
pub(crate) struct Today {
    pub first: Option<Period>,
    pub until: u32,
    pub in_first: Place,
    pub rounds: Round,
    pub second: Option<Period>,
    pub same: u32,
    pub in_second: Place,
}

// A day of which nothing is known.
pub(crate) const NO_DAY: Today = Today {
    first: None,
    until: 0,
    in_first: NO_PLACE,
    rounds: NO_ROUND,
    second: None,
    same: 0,
    in_second: NO_PLACE,
};

// Up to which day the days need the same, if the periods that they are in up to day `until` are still.
fn steady_until(still: bool, day: u32, until: u32) -> u32
    ensures { result ≡ cond still until day }
{
    if still { until } else { day }
}

// Up to which day nothing need be worked out anew. The periods stay up to day `until`; where the day is in one with doses of the choice,
// and rounds of it may be taken, others without such doses may come and go as far as those rounds go.
fn known_until(chosen: bool, rounds: Round, until: u32) -> u32
    ensures { result ≡ cond (chosen && ltb 0 rounds.interval) rounds.until until }
{
    if chosen & (0 < rounds.interval) {
        return rounds.until;
    }
    until
}

// A day's periods and places, worked out from the plan. `chosen` has a bit for each block.
pub(crate) fn on_day(plan: &[u8], choice: u32, chosen: u32, day: u32) -> Today
    requires { Orderly choice plan.now × Tells choice plan.now chosen × (day ≤ last_number) }
    ensures { Known choice plan.now day result }
{
    let s = survey_of(plan, chosen, day);
    let one = period_at(plan, s.first);
    let other = period_at(plan, s.second);
    let first = kept(one, s.one);
    let second = kept(other, s.other);
    let in_first = place_on(plan, choice, day, first);
    let in_second = place_on(plan, choice, day, second);
    let due = due_in(in_first, in_second);
    let alone = free(one, s.other).or(free(other, s.one));
    let rounds = rounds_on(plan, choice, s.clear, alone, due);
    let until = known_until(first.is_some() | second.is_some(), rounds, s.until);
    Today {
        first,
        in_first,
        until,
        same: steady_until(is_still(first) & is_still(second), day, until),
        rounds,
        second,
        in_second,
    }
}

// The day behind that of t, while the periods stay.
pub(crate) fn next_day(plan: &[u8], choice: u32, t: Today) -> Today
    requires first { IfSome t.first (λ x. Placed choice plan.now x t.in_first × (t.in_first.position ≤ last_number + 1)) }
    requires second { IfSome t.second (λ x. Placed choice plan.now x t.in_second × (t.in_second.position ≤ last_number + 1)) }
    ensures { Behind choice plan.now t result }
{
    let mut r = t;
    r.in_first = next_place(plan, choice, t.first, t.in_first);
    if t.second.is_none() {
        return r;
    }
    r.in_second = next_place(plan, choice, t.second, t.in_second);
    r
}
