// The runs between the dosed periods of a part, and what the empty periods share with them.
ghost use Rattle.std.specs.Prelude.{◌≡◌, ◌-◌, ◌<◌};
ghost use Rattle.plan.specs.Fields.{first_of};
ghost use Rattle.plan.specs.Periods.{blocks_of, block_at};
ghost use Rattle.split.specs.Parts.{run_first, shares_run, shared, shared_by, shared_in};
ghost use Rattle.split.specs.Code.Wanted.{is_need, run_behind};
ghost use Rattle.split.specs.Code.Adding.{Adds};

use crate::parts::Part;
use crate::periods::next_dosed;
use plan::{Header, block_of, first_of, is_period, last_of};
use verdict::ClassedPlan;
use writer::{Place, add_period};

// Its days.
#[derive(Clone, Copy)]
pub(crate) struct Run {
    pub first: u32,
    pub last: u32,
}

// The run behind the period at block b begins on the day after its last.
fn run_first(plan: &[u8], b: u8) -> u32
    ensures { result ≡ run_first plan.now b }
{
    last_of(block_of(plan, b as u16)) + 1
}

// It ends on the day ahead of the first of the period at block c.
fn run_last(plan: &[u8], c: u8) -> u32
    ensures { result ≡ first_of (block_at plan.now c) - 1 }
{
    first_of(block_of(plan, c as u16)).saturating_sub(1)
}

// The run behind the dosed period at block b, if there is one.
pub(crate) fn run_behind(classed: ClassedPlan<'_>, part: Part, b: u8) -> Option<Run>
    requires { b < blocks_of classed.plan.now }
    ensures { result ≡ run_behind (is_need part) classed.entry.plan.now b }
{
    let c = next_dosed(classed, part, b)?;
    let run = Run {
        first: run_first(classed.plan, b),
        last: run_last(classed.plan, c),
    };
    (run.first <= run.last).then_some(run)
}

impl Run {
    // Shares the empty period at block e days with the run?
    fn is_shared(self, classed: ClassedPlan<'_>, e: u8) -> bool
        requires { e < blocks_of classed.plan.now }
        ensures { result ≡ shares_run classed.entry.plan.now self.first self.last e }
    {
        let block = block_of(classed.plan, e as u16);
        is_period(classed.plan, e)
            & classed.class_at(e).is_empty()
            & ((first_of(block) <= self.last) & (self.first <= last_of(block)))
    }

    // The days that they share, as a period.
    fn shared_days(self, plan: &[u8], e: u8) -> Header
        ensures { result ≡ (shared plan.now self.first self.last e).header }
    {
        let block = block_of(plan, e as u16);
        Header {
            interval: 0,
            first: self.first.max(first_of(block)),
            end: self.last.min(last_of(block)),
        }
    }
}

// What the empty period at block e shares with the run.
fn add_shared_of(out: &mut [u8], at: Place, classed: ClassedPlan<'_>, run: Run, e: u8) -> Place
    requires { e < blocks_of classed.plan.now }
    ensures { Adds (shared_by classed.entry.plan.now run.first run.last e) at out.old result out.new }
{
    if !run.is_shared(classed, e) {
        return at;
    }
    add_period(out, at, run.shared_days(classed.plan, e))
}

// What all of them share with it.
pub(crate) fn add_shared(out: &mut [u8], at: Place, classed: ClassedPlan<'_>, run: Run) -> Place
    ensures { Adds (shared_in classed.entry.plan.now run.first run.last) at out.old result out.new }
{
    let mut place = at;
    for e in 0..classed.blocks() {
        place = add_shared_of(&mut *out, place, classed, run, e);
    }
    place
}
