// Rules 1 to 4 in their order.
ghost use Rattle.std.specs.Prelude.{◌≡◌};
ghost use Rattle.form.specs.Form.{bad_length, sums_wrong, no_head, goes_on, misplaced, form_of};
ghost use Rattle.form.specs.Code.Front.{broken_at};

use crate::block_form::block_wrong;
use block::sums_right;
use plan::{CONTINUATION, HEAD, PERIOD, block_of, count_of, kind_of};
use refusal::Refusal;

// Rule 1.
fn bad_length(plan: &[u8], limit: u16) -> bool
    ensures { result ≡ bad_length limit plan.now }
{
    plan.is_empty() | (plan.len() % 512 != 0) | ((limit as usize) < plan.len())
}

// Rule 2 at block b.
fn sums_wrong(plan: &[u8], b: u8) -> bool
    ensures { result ≡ sums_wrong plan.now b }
{
    !sums_right(block_of(plan, b as u16))
}

// Rule 3 at block 0.
fn no_head(plan: &[u8]) -> bool
    ensures { result ≡ no_head plan.now }
{
    let head = block_of(plan, 0);
    (kind_of(head) != HEAD) | ((count_of(head) as usize) + 1 != plan.len() / 512)
}

// May a continuation stand behind block b?
fn goes_on(plan: &[u8], b: u8) -> bool
    ensures { result ≡ goes_on plan.now b }
{
    let r = block_of(plan, b as u16);
    let kind = kind_of(r);
    ((kind == PERIOD) | (kind == CONTINUATION)) & (count_of(r) == 20)
}

// Rule 3 at block b.
fn is_misplaced(plan: &[u8], b: u8) -> bool
    ensures { result ≡ misplaced plan.now b }
{
    if b == 0 {
        return no_head(plan);
    }
    match kind_of(block_of(plan, b as u16)) {
        PERIOD => false,
        CONTINUATION => !goes_on(plan, b - 1),
        _ => true,
    }
}

// Block b breaks rule 2, 3 or 4.
fn is_broken(plan: &[u8], b: u8) -> bool
    ensures { result ≡ broken_at plan.now b }
{
    if is_misplaced(plan, b) {
        return true;
    }
    let Some(block) = block_of(plan, b as u16).as_array() else {
        return true;
    };
    block_wrong(block)
}

// Do rules 1 to 4 hold, or which is the first that is broken? The usual plan is gone through once, with rules 2 to 4 at each block;
// rule by rule only where one is broken. Where no block breaks rule 2 or 3, the lowest broken one breaks rule 4.
pub fn form_of(plan: &[u8], limit: u16) -> Result<(), Refusal>
    ensures { result ≡ form_of limit plan.now }
{
    if bad_length(plan, limit) {
        return Err(Refusal::of_rule(1, 0));
    }
    let n = (plan.len() / 512) as u8;
    let Some(broken) = (0..n).find(|b| is_broken(plan, *b)) else {
        return Ok(());
    };
    if let Some(b) = (0..n).find(|b| sums_wrong(plan, *b)) {
        return Err(Refusal::of_rule(2, b));
    }
    if let Some(b) = (0..n).find(|b| is_misplaced(plan, *b)) {
        return Err(Refusal::of_rule(3, b));
    }
    Err(Refusal::of_rule(4, broken))
}
