// Supply and the set of dates with the pauses as a lent list of records: the ways in, and the walk, which asks the list what it says from a
// day on. Each is short, and leaves its work to functions on values.
ghost use Rattle.std.specs.Prelude.{◌≡◌};
ghost use Rattle.supply.specs.Dates.{dates_of};
ghost use Rattle.supply.specs.Supply.{supply_of};
ghost use Rattle.supply.specs.Code.Asking.{Judged, answered_by};
ghost use Rattle.supply.specs.Code.Walking.{Ready, Ended};

use crate::ask::{Asked, ask, ask_dates};
use crate::begin::begin;
use crate::set::set_of;
use crate::walk::{Walk, ended, step};
use crate::{Dates, Lasting};
use pause::{Pause, are_out, sight_from, sight_on};
use refusal::Refusal;

// The walk, step by step. Of each day that is looked at the list of pauses is asked whether it is paused: this is document 01's thin test
// of a day, and pauses split the walk by it. How far that stays so is asked only of a day behind those that it is known of.
fn walked(plan: &[u8], choice: u32, pauses: &[Pause], begun: Walk) -> Walk
    requires { Ready choice plan.now begun }
    ensures { Ended choice plan.now pauses.now begun result }
{
    let mut w = begun;
    let mut s = sight_from(pauses, w.day);
    while w.day < w.end {
        w = step(plan, choice, w, s);
        s = sight_on(pauses, w.day, s);
    }
    w
}

// How far the pack lasts by a choice, once the plan is judged.
pub(crate) fn supply_by(
    plan: &[u8],
    asked: Asked,
    choice: u32,
    pauses: &[Pause],
) -> Result<Lasting, Refusal>
    requires { Judged plan.now asked }
    ensures { result ≡ answered_by plan.now asked choice pauses.now }
{
    let begun = begin(plan, asked, choice)?;
    Ok(ended(walked(plan, choice, pauses, begun)))
}

// How far a pack lasts, with the pauses as a lent list of records.
// Kept: a choice is a number, since `supply_of` promises its answer at every number, 23 where it is no choice.
pub fn supply_of(
    plan: &[u8],
    start: u32,
    pack: u64,
    choice: u32,
    pauses: &[Pause],
) -> Result<Lasting, Refusal>
    ensures { result ≡ supply_of plan.now start pack choice pauses.now }
{
    let asked = ask(plan, start, pack, are_out(pauses))?;
    supply_by(plan, asked, choice, pauses)
}

// The set of dates, with the pauses as a lent list of records: the plan is judged once, and walked by each choice that has a date.
pub fn dates_of(plan: &[u8], start: u32, pack: u64, pauses: &[Pause]) -> Result<Dates, Refusal>
    ensures { result ≡ dates_of plan.now start pack pauses.now }
{
    let asked = ask_dates(plan, start, pack, are_out(pauses))?;
    Ok(set_of(
        asked,
        supply_by(plan, asked, 1, pauses),
        supply_by(plan, asked, 2, pauses),
        supply_by(plan, asked, 3, pauses),
        supply_by(plan, asked, 4, pauses),
    ))
}
