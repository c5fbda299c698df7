// Split, by document 01: a plan into its fixed and its as-needed part.
#![tactic(auto)]

mod copying;
mod parts;
mod periods;
mod run;

ghost use Rattle.std.specs.Prelude.{◌≡◌, true, false, Ok};
ghost use Rattle.form.specs.Form.{form_of};
ghost use Rattle.verdict.specs.Verdict.{plan_limit};
ghost use Rattle.split.specs.Parts.{part_of, part_bytes};
ghost use Rattle.split.specs.Code.Adding.{HasRoom};
ghost use Rattle.split.specs.Split.{over, lengths_of, split_of, left_by};

use parts::Part;
use periods::write_part;
use refusal::{Refusal, refusal_in};
use verdict::{ClassedPlan, verdict_with_classes};

// The lengths of the two parts, in bytes.
#[derive(Clone, Copy)]
pub struct Lengths {
    pub fixed: u32,
    pub need: u32,
}

// The bytes that each of the two buffers must have.
pub const ROOM: usize = 32768;

// Both parts.
fn write_parts(classed: ClassedPlan<'_>, fixed: &mut [u8], need: &mut [u8]) -> Lengths
    requires { (form_of plan_limit classed.plan.now ≡ Ok tt) × HasRoom fixed.old (part_of false classed.plan.now) × HasRoom need.old (part_of true classed.plan.now) }
    ensures value { result ≡ lengths_of classed.entry.plan.now }
    ensures fixed_after { fixed.new ≡ over (part_bytes false classed.entry.plan.now) fixed.old }
    ensures need_after { need.new ≡ over (part_bytes true classed.entry.plan.now) need.old }
{
    Lengths {
        fixed: write_part(fixed, classed, Part::Fixed),
        need: write_part(need, classed, Part::Need),
    }
}

// Splits a plan. A refusal changes no byte of the buffers.
pub fn split(plan: &[u8], fixed: &mut [u8], need: &mut [u8]) -> Result<Lengths, Refusal>
    ensures value { result ≡ split_of plan.now fixed.old need.old }
    ensures fixed_after { fixed.new ≡ left_by result (part_bytes false plan.now) fixed.old }
    ensures need_after { need.new ≡ left_by result (part_bytes true plan.now) need.old }
{
    // Kept: document 01 names let .. else for this place, and no `?`.
    let answer = verdict_with_classes(plan);
    let Ok(classes) = answer else {
        return Err(refusal_in(answer));
    };
    if (fixed.len() < ROOM) | (need.len() < ROOM) {
        return Err(Refusal::alone(25));
    }
    let classed = ClassedPlan {
        plan,
        classes: &classes,
    };
    Ok(write_parts(classed, fixed, need))
}
