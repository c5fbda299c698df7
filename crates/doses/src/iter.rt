// The doses of a day, one after the other, for callers to make of them what they like. A function that took a closure of theirs would have
// to ask that it may be called, and no public function asks anything: so they are handed the doses, and fold them themselves.
ghost use Rattle.std.specs.Prelude.{◌≡◌, min};
ghost use Rattle.std.specs.Iterator.{YieldsFirst, item_count};
ghost use Rattle.plan.specs.Periods.{blocks_of};
ghost use Rattle.doses.specs.Doses.{doses_on};
ghost use Rattle.doses.specs.Code.Left.{had_on, left_in};

use crate::{is_applied, is_covering, position_of};
use plan::{Dose, block_of, dose_in, doses_of};
use std::marker::Model;

// What is left of the doses of the period at `block`: those from `next` on, ahead of `end`, that apply at `position`.
#[derive(Clone, Copy)]
struct Rest {
    block: u8,
    next: u16,
    end: u16,
    position: u64,
}

impl Rest {
    const NOTHING: Rest = Rest {
        block: 0,
        next: 0,
        end: 0,
        position: 0,
    };

    // All doses of a period on a day: none where it has not the day.
    fn of_period(plan: &[u8], day: u32, b: u8) -> Rest
        ensures { left_in plan.now result ≡ had_on plan.now day b }
    {
        if !is_covering(plan, day, b) {
            return Rest::NOTHING;
        }
        Rest {
            block: b,
            next: 0,
            end: doses_of(plan, b),
            position: position_of(block_of(plan, u16::from(b)), day),
        }
    }

    // The next dose that applies.
    fn next(&mut self, plan: &[u8]) -> Option<Dose>
        ensures { YieldsFirst (left_in plan.now) self.old result self.new }
    {
        for j in self.next..self.end {
            let d = dose_in(plan, self.block, j);
            if is_applied(self.position, d) {
                self.next = j + 1;
                return Some(d);
            }
        }
        // so that a further call looks at no dose again
        self.next = self.end;
        None
    }
}

// The doses of a day that are left: those of a period, and then those of the periods from block `block` on.
#[derive(Drop)]
pub struct DosesOn<'a> {
    plan: &'a [u8],
    day: u32,
    block: u8,
    rest: Rest,
}

// The doses of a day, of all its periods, in their order.
pub fn doses_on(plan: &[u8], day: u32) -> DosesOn<'_>
    ensures { result ≡ doses_on plan.now day }
{
    DosesOn {
        plan,
        day,
        block: 0,
        rest: Rest::NOTHING,
    }
}

// Contracts see it as the list of the doses that are left.
impl<'a> Model for DosesOn<'a> {
    ghost use Rattle.std.specs.Prelude.{List};
    ghost use Rattle.plan.specs.declared.Dose.{Dose};
    ghost use Rattle.doses.specs.Code.Left.{doses_left};

    ghost Value = { List Dose };

    ghost view = { doses_left };
}

// A plan's blocks; no storage has more than 64.
fn count_blocks(plan: &[u8]) -> u8
    ensures { result ≡ min (blocks_of plan.now) 64 }
{
    (plan.len() / 512).min(64) as u8
}

impl Iterator for DosesOn<'_> {
    type Item = Dose;

    ghost next_gives = { YieldsFirst (λ ds. ds) };

    ghost remaining = { item_count (λ ds. ds) };

    fn next(&mut self) -> Option<Dose> {
        let blocks = count_blocks(self.plan);
        let mut found = self.rest.next(self.plan);
        while found.is_none() && self.block < blocks {
            self.rest = Rest::of_period(self.plan, self.day, self.block);
            self.block += 1;
            found = self.rest.next(self.plan);
        }
        found
    }
}
