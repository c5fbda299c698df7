// Where a day stands in a period: its position there, and what the doses of that position need. A day later the doses are gone through
// from where the day ahead ended, so that a walk reads each dose once a round.
ghost use Rattle.std.specs.Prelude.{◌≡◌, ◌+◌, ◌≤◌, ◌<◌, IfSome};
ghost use Rattle.day.specs.Days.{last_number};
ghost use Rattle.doses.specs.Doses.{position_of};
ghost use Rattle.plan.specs.Fields.{interval_of, header_of};
ghost use Rattle.plan.specs.Periods.{block_at, doses_of};
ghost use Rattle.supply.specs.Code.Standing.{Sorted, Small, From, lowest_at, position_behind, dose_from, is_still, Placed, Moved, Stands, InPeriod, period_at, kept_of};

use crate::position::{due_at, first_from};
use doses::position_of;
use plan::{block_of, doses_of, interval_of};

// The period at block b, in rounds of `interval` days, has `doses` doses.
#[derive(Clone, Copy)]
pub(crate) struct Period {
    pub b: u8,
    pub doses: u16,
    pub interval: u32,
}

// A day has a position in a period. The doses of that position need `due`, and dose `behind` is the one behind them.
#[derive(Clone, Copy)]
pub(crate) struct Place {
    pub due: u64,
    pub position: u32,
    pub behind: u32,
}

// A day's place in no period: nothing is due.
pub(crate) const NO_PLACE: Place = Place {
    due: 0,
    position: 0,
    behind: 0,
};

// The period at block b as the plan has it, of any class, if there is such a block.
pub(crate) fn period_at(plan: &[u8], b: u8) -> Option<Period>
    ensures { result ≡ period_at plan.now b }
{
    if usize::from(b) < plan.len() / 512 {
        return Some(Period {
            b,
            doses: doses_of(plan, b),
            interval: interval_of(block_of(plan, u16::from(b))) as u32,
        });
    }
    None
}

// The period, if it has doses of the choice: the others need nothing.
pub(crate) fn kept(t: Option<Period>, chosen: bool) -> Option<Period>
    ensures { result ≡ kept_of t chosen }
{
    if chosen { t } else { None }
}

// In the period, does each day need what the one ahead of it needs, as in rounds of one day?
pub(crate) fn is_still(t: Option<Period>) -> bool
    ensures { result ≡ is_still t }
{
    match t {
        Some(t) => t.interval == 1,
        None => true,
    }
}

// A day's position in the period. In rounds of one day it is the first, and nothing is divided.
fn position_in(plan: &[u8], day: u32, t: Period) -> u32
    requires { (t.interval ≡ interval_of (block_at plan.now t.b)) × (day ≤ last_number) }
    ensures { result ≡ position_of (header_of (block_at plan.now t.b)) day }
{
    if t.interval == 1 {
        return 1;
    }
    position_of(block_of(plan, u16::from(t.b)), day) as u32
}

// The dose at which those of a position begin. Those of the first begin with the period's first dose, since day number 0 counts there; the
// others have to be looked for.
fn dose_from(plan: &[u8], t: Period, position: u32) -> u16
    requires { Sorted plan.now t.b × (t.doses ≡ doses_of plan.now t.b) }
    ensures { From plan.now t.b t.doses (lowest_at position) result }
{
    if position == 1 {
        return 0;
    }
    first_from(plan, t.b, t.doses, position)
}

// The place at a position of the period, whose doses begin at dose `from`.
fn place_at(plan: &[u8], choice: u32, t: Period, position: u32, from: u16) -> Place
    requires sorted { Sorted plan.now t.b × Small choice plan.now t.b × (t.doses ≡ doses_of plan.now t.b) × (t.interval ≡ interval_of (block_at plan.now t.b)) }
    requires position_nonzero { (0 < position) × From plan.now t.b t.doses (lowest_at position) from }
    ensures { Placed choice plan.now t result × (result.position ≡ position) }
{
    let due = due_at(plan, choice, t.b, t.doses, position, from);
    Place {
        due: due.need,
        position,
        behind: u32::from(due.behind),
    }
}

// The day's place in the period.
pub(crate) fn place_on(plan: &[u8], choice: u32, day: u32, t: Option<Period>) -> Place
    requires { IfSome t (InPeriod choice plan.now day) × (day ≤ last_number) }
    ensures { Stands choice plan.now day t result }
{
    let Some(t) = t else {
        return NO_PLACE;
    };
    let position = position_in(plan, day, t);
    let from = dose_from(plan, t, position);
    place_at(plan, choice, t, position, from)
}

// What the day needs in two periods, by its places there.
pub(crate) fn due_in(x: Place, y: Place) -> u64
    requires { x.due + y.due < 18446744073709551616 }
    ensures { result ≡ x.due + y.due }
{
    x.due + y.due
}

// The position of the day behind: it rises, and begins again where a round ends. A remainder would take longer.
fn position_behind(interval: u32, position: u32) -> u32
    requires { position ≤ last_number + 1 }
    ensures { result ≡ position_behind interval position }
{
    if position == interval {
        return 1;
    }
    position + 1
}

// The dose at which those of a position begin: behind those of the position ahead, or the first where a round begins.
fn doses_from(position: u32, behind: u32) -> u16
    requires { behind < 65536 }
    ensures { result ≡ dose_from position behind }
{
    if position == 1 { 0 } else { behind as u16 }
}

// The place of the day behind that of s, in the period t.
pub(crate) fn next_place(plan: &[u8], choice: u32, t: Option<Period>, s: Place) -> Place
    requires { IfSome t (λ t. Placed choice plan.now t s × (s.position ≤ last_number + 1)) }
    ensures { Moved choice plan.now t s result }
{
    let Some(t) = t else {
        return s;
    };
    let position = position_behind(t.interval, s.position);
    let from = doses_from(position, s.behind);
    place_at(plan, choice, t, position, from)
}
