// The order of the rules, and the answer.
ghost use Rattle.std.specs.Prelude.{◌≡◌, ◌+◌, ◌≤◌, ◌<◌, replicate};
ghost use Rattle.plan.specs.Periods.{blocks_of};
ghost use Rattle.verdict.specs.Code.Ready.{Dated};
ghost use Rattle.verdict.specs.Classes.{classes_by};
ghost use Rattle.verdict.specs.Code.Judging.{rule_in, Judged, Unbroken, HasClasses};
ghost use Rattle.verdict.specs.Verdict.{verdict_of};

use crate::ClassedPlan;
use form::{PLAN_LIMIT, form_of};
use period::judge_period;
use plan::{Class, is_period};
use refusal::Refusal;

// What the pass over the periods has found: the lowest broken rule from 5 to 14, with its first block.
#[derive(Clone, Copy)]
struct Found {
    rule: u8,
    place: u8,
}

// The rule, 15 where none is broken.
fn rule_in(found: Option<Found>) -> u8
    ensures { result ≡ rule_in found }
{
    found.map_or(15, |f| f.rule)
}

// Block b more. The classes stay in the array that is lent: to hand it on by value would wait for the byte just stored.
fn with_block(found: Option<Found>, cs: &mut [Class; 32], plan: &[u8], b: u8) -> Option<Found>
    requires { (b < 32) × Judged plan.now b found cs.old }
    ensures { Judged plan.now (b + 1) result cs.new }
{
    if !is_period(plan, b) {
        return found;
    }
    let judged = judge_period(plan, b);
    cs[b as usize] = judged.class;
    if judged.rule < rule_in(found) {
        return Some(Found {
            rule: judged.rule,
            place: b,
        });
    }
    found
}

// Rules 5 to 14 of all periods, in one pass over their doses; and the class of each.
fn judge_periods(plan: &[u8], cs: &mut [Class; 32]) -> Option<Found>
    requires { (blocks_of plan.now ≤ 32) × (cs.old ≡ replicate 32 Class.Empty) }
    ensures { Judged plan.now (blocks_of plan.now) result cs.new }
{
    let n = (plan.len() / 512) as u8;
    let mut found = None;
    for b in 0..n {
        found = with_block(found, &mut *cs, plan, b);
    }
    found
}

// Rules 15 to 17, where none before them is broken.
fn judge_together(plan: ClassedPlan<'_>) -> Result<usize, Refusal>
    requires dated { Dated plan.plan.now }
    requires unbroken { Unbroken plan.plan.now 15 }
    ensures { result ≡ verdict_of plan.entry.plan.now }
{
    let accepted = Ok(plan.plan.len());
    if plan.is_alike() {
        return accepted;
    }
    if plan.is_bare() {
        return Err(Refusal::of_rule(15, 0));
    }
    if plan.is_usual() {
        return accepted;
    }
    if let Some(b) = plan.first_shared() {
        return Err(Refusal::of_rule(16, b));
    }
    if plan.has_holes() {
        return Err(Refusal::of_rule(17, 0));
    }
    accepted
}

// The verdict on a plan; where it is accepted, `cs` then has the classes of its periods.
fn judge(plan: &[u8], cs: &mut [Class; 32]) -> Result<usize, Refusal>
    requires { cs.old ≡ replicate 32 Class.Empty }
    ensures { (result ≡ verdict_of plan.now) × HasClasses result plan.now cs.new }
{
    form_of(plan, PLAN_LIMIT)?;
    if let Some(broken) = judge_periods(plan, &mut *cs) {
        return Err(Refusal::of_rule(broken.rule, broken.place));
    }
    judge_together(ClassedPlan {
        plan,
        classes: &*cs,
    })
}

// The verdict on a plan.
pub fn verdict(plan: &[u8]) -> Result<usize, Refusal>
    ensures { result ≡ verdict_of plan.now }
{
    let mut cs = [Class::Empty; 32];
    judge(plan, &mut cs)
}

// The classes of an accepted plan's periods, for whoever goes on with them: by block, empty where no period begins.
pub fn verdict_with_classes(plan: &[u8]) -> Result<[Class; 32], Refusal>
    ensures { result ≡ classes_by (verdict_of plan.now) plan.now }
{
    let mut cs = [Class::Empty; 32];
    judge(plan, &mut cs)?;
    Ok(cs)
}
