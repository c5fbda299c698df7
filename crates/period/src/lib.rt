// Rules 5 to 14, by document 01: what one period may break, found exactly in one pass over its doses. Nothing is asked of
// the bytes.
#![tactic(auto)]

mod finish;
mod header;
mod period_doses;
mod quick;
mod turn;
mod twice;
mod walk;

ghost use Rattle.std.specs.Prelude.{◌≡◌, ◌≤◌};
ghost use Rattle.plan.specs.Periods.{class_of};
ghost use Rattle.period.specs.Period.{rule_of};
ghost use Rattle.period.specs.Code.Finish.{NotYet};

use header::{is_early, is_outside};
use period_doses::Doses;
use plan::{Class, block_of, class_by, class_of, header_of};

// What was found of a period: its lowest broken rule from 5 to 14, or 15, and its class.
#[derive(Clone, Copy)]
pub struct Judged {
    pub rule: u8,
    pub class: Class,
}

impl Doses<'_> {
    // What the exact pass finds of a period that keeps rules 5 and 6.
    fn judge(self) -> Judged
        requires { NotYet self.plan.now self.b 7 }
        ensures { (result.rule ≡ rule_of self.entry.plan.now self.entry.b) × (result.class ≡ class_of self.entry.plan.now self.entry.b) × (result.rule ≤ 15) }
    {
        let s = self.walk();
        Judged {
            rule: self.rule_from_7(s),
            class: class_by(s.marked < self.n, 0 < s.marked),
        }
    }
}

// The lowest of rules 5 to 14 that the period at block b breaks, 15 where it breaks none; and its class. It is found exactly, and
// with nothing taken from the quick way.
fn judge_exactly(plan: &[u8], b: u8) -> Judged
    ensures { (result.rule ≡ rule_of plan.now b) × (result.class ≡ class_of plan.now b) × (result.rule ≤ 15) }
{
    let head = header_of(block_of(plan, 0));
    let h = header_of(block_of(plan, b as u16));
    if is_outside(head, h) {
        return Judged {
            rule: 5,
            class: class_of(plan, b),
        };
    }
    if is_early(plan, b, h.first) {
        return Judged {
            rule: 6,
            class: class_of(plan, b),
        };
    }
    Doses::with_header(plan, b, h).judge()
}

// The same, by the quick way where that lets the period through. Where it does not, the exact way begins anew, and is called in each
// place by itself: a function with one call is compiled into its caller, where it would take the registers from the quick way.
pub fn judge_period(plan: &[u8], b: u8) -> Judged
    ensures { (result.rule ≡ rule_of plan.now b) × (result.class ≡ class_of plan.now b) × (result.rule ≤ 15) }
{
    let at = (b as usize) * 512;
    let end = at + 512;
    if plan.len() < end {
        return judge_exactly(plan, b);
    }
    let head = header_of(&plan[..512]);
    let h = header_of(&plan[at..end]);
    if is_outside(head, h) {
        return judge_exactly(plan, b);
    }
    if is_early(plan, b, h.first) {
        return judge_exactly(plan, b);
    }
    let doses = Doses::with_header(plan, b, h);
    if let Some(marked) = doses.glance() {
        return Judged {
            rule: 15,
            class: class_by(marked < (doses.n as u64), 0 < marked),
        };
    }
    judge_exactly(plan, b)
}
