// One part of an accepted plan, written period by period.
ghost use Rattle.std.specs.Prelude.{◌≡◌, true, [], ◌∷◌, ◌≤◌, ◌<◌, MatchOption, length, Ok};
ghost use Rattle.below.specs.Lists.{keep};
ghost use Rattle.form.specs.Form.{form_of};
ghost use Rattle.plan.specs.Periods.{blocks_of};
ghost use Rattle.layout.specs.Reading.{doses_at};
ghost use Rattle.verdict.specs.Verdict.{plan_limit};
ghost use Rattle.split.specs.Parts.{is_dosed_in, is_of_part, dosed_period, next_dosed, behind, brought_by, part_of, part_bytes};
ghost use Rattle.split.specs.Code.Wanted.{is_need, is_other, is_alone};
ghost use Rattle.split.specs.Code.Adding.{HasRoom, Adds, AddsDoses};
ghost use Rattle.split.specs.Split.{over};

use crate::copying::add_kept;
use crate::parts::Part;
use crate::run::{add_shared, run_behind};
use block::put_bytes;
use layout::{head_of, header_at};
use plan::{block_of, doses_here, doses_of, is_period};
use verdict::ClassedPlan;
use writer::{Place, add_period, begin, finish};

// Is the period at block b one of the part's dosed periods?
#[tactic(auto, using(crate::proofs::Adding::dosed_is))]
fn is_dosed(classed: ClassedPlan<'_>, part: Part, b: u8) -> bool
    requires { b < blocks_of classed.plan.now }
    ensures { result ≡ is_dosed_in (is_need part) classed.entry.plan.now b }
{
    is_period(classed.plan, b) & part.has(classed.class_at(b))
}

// The next of them behind block b.
pub(crate) fn next_dosed(classed: ClassedPlan<'_>, part: Part, b: u8) -> Option<u8>
    requires { b < blocks_of classed.plan.now }
    ensures { MatchOption result (blocks_of classed.entry.plan.now ≤ next_dosed (is_need part) classed.entry.plan.now b) (λ c. (c < blocks_of classed.entry.plan.now) × (c ≡ next_dosed (is_need part) classed.entry.plan.now b)) }
{
    (b + 1..classed.blocks()).find(|c| is_dosed(classed, part, *c))
}

// All doses of the period that are the part's, block by block.
// Kept: a place beside the buffer, here and in all that add to a part. A struct that holds both needs one clause more in each of
// them: that its buffer is still the same one.
fn add_doses(out: &mut [u8], at: Place, plan: &[u8], b: u8, part: Part) -> Place
    ensures { AddsDoses (keep (is_of_part (is_need part)) (doses_at plan.now b)) at out.old result out.new }
{
    let n = doses_of(plan, b);
    let mut place = at;
    for i in 0..n.div_ceil(20) {
        let block = block_of(plan, (b as u16) + i);
        place = add_kept(&mut *out, place, block, doses_here(n, i), part);
    }
    place
}

// A dosed period.
fn add_dosed(out: &mut [u8], at: Place, plan: &[u8], b: u8, part: Part) -> Place
    ensures { Adds (dosed_period (is_need part) plan.now b ∷ []) at out.old result out.new }
{
    let place = add_period(&mut *out, at, header_at(plan, b));
    add_doses(out, place, plan, b, part)
}

// What comes for the run behind the dosed period at block b.
fn add_behind(out: &mut [u8], at: Place, classed: ClassedPlan<'_>, part: Part, b: u8) -> Place
    requires { b < blocks_of classed.plan.now }
    ensures { Adds (behind (is_need part) classed.entry.plan.now b) at out.old result out.new }
{
    match run_behind(classed, part, b) {
        Some(run) => add_shared(out, at, classed, run),
        None => at,
    }
}

// What comes into the part for block b.
fn add_brought(out: &mut [u8], at: Place, classed: ClassedPlan<'_>, part: Part, b: u8) -> Place
    requires { b < blocks_of classed.plan.now }
    ensures { Adds (brought_by (is_need part) classed.entry.plan.now b) at out.old result out.new }
{
    if !is_dosed(classed, part, b) {
        return at;
    }
    let place = add_dosed(&mut *out, at, classed.plan, b, part);
    add_behind(out, place, classed, part, b)
}

// Is the period at block b, if one begins there, of another class than the part's own?
fn is_other(classed: ClassedPlan<'_>, part: Part, b: u8) -> bool
    requires { b < blocks_of classed.plan.now }
    ensures { result ≡ is_other (is_need part) classed.entry.plan.now b }
{
    is_period(classed.plan, b) & !part.has_alone(classed.class_at(b))
}

// Has every period doses of the part alone?
fn is_alone(classed: ClassedPlan<'_>, part: Part) -> bool
    ensures { result ≡ is_alone (is_need part) classed.entry.plan.now }
{
    !(0..classed.blocks()).any(|b| is_other(classed, part, b))
}

// Writes a part period by period, and gives its length.
fn write_periods(out: &mut [u8], classed: ClassedPlan<'_>, part: Part) -> u32
    requires { HasRoom out.old (part_of (is_need part) classed.plan.now) }
    ensures { (out.new ≡ over (part_bytes (is_need part) classed.entry.plan.now) out.old) × (result ≡ length (part_bytes (is_need part) classed.entry.plan.now)) }
{
    let mut at = begin(&mut *out, head_of(classed.plan));
    for b in 0..classed.blocks() {
        at = add_brought(&mut *out, at, classed, part, b);
    }
    finish(out, at)
}

// Writes the part that is the plan itself, sums and all (proofs/Alone.antt), and gives its length.
fn write_whole(out: &mut [u8], plan: &[u8], part: Part) -> u32
    requires { (is_alone (is_need part) plan.now ≡ true) × (form_of plan_limit plan.now ≡ Ok tt) × (blocks_of plan.now ≤ 32) × (32768 ≤ length out.old) }
    ensures { (out.new ≡ over (part_bytes (is_need part) plan.now) out.old) × (result ≡ length (part_bytes (is_need part) plan.now)) }
{
    put_bytes(out, 0, plan);
    plan.len() as u32
}

// Writes a part, and gives its length. A plan that has doses of the part alone and no empty period, as most have, is the part
// already.
pub(crate) fn write_part(out: &mut [u8], classed: ClassedPlan<'_>, part: Part) -> u32
    requires { (form_of plan_limit classed.plan.now ≡ Ok tt) × HasRoom out.old (part_of (is_need part) classed.plan.now) }
    ensures { (out.new ≡ over (part_bytes (is_need part) classed.entry.plan.now) out.old) × (result ≡ length (part_bytes (is_need part) classed.entry.plan.now)) }
{
    if is_alone(classed, part) {
        return write_whole(out, classed.plan, part);
    }
    write_periods(out, classed, part)
}
