// The doses of a period, block by block.
ghost use Rattle.std.specs.Prelude.{◌≡◌, ◌+◌, ◌*◌, ◌≤◌, ◌<◌, min};
ghost use Rattle.period.specs.Code.Turn.{lowest, rule_with, next_rule, Passed};

use crate::period_doses::Doses;
use crate::turn::{Walk, is_asked, is_bad_range, is_crowded, is_other, turn};
use plan::{Dose, block_of, dose_at};

// The lowest broken rule, by the test of each; 14 where none is.
// Kept: a number also where none is broken, as `rule_of` has 15: so the lowest of two is their `min`, and of a rule above all is asked by `<`.
fn lowest_of(t7: bool, t9: bool, t11: bool, t13: bool) -> u8
    ensures { result ≡ lowest t7 t9 t11 t13 }
{
    if t7 {
        7
    } else if t9 {
        9
    } else if t11 {
        11
    } else if t13 {
        13
    } else {
        14
    }
}

// The lowest rule broken with dose j, which is d.
fn rule_with(s: Walk, d: Dose, j: u16) -> u8
    requires { s.from ≤ j }
    ensures { result ≡ rule_with s d j }
{
    let rule = lowest_of(
        d.day < s.day,
        is_crowded(s, d, j),
        is_other(s, d, j),
        is_bad_range(d),
    );
    rule.min(s.rule)
}

// The same, at little cost where nothing is broken.
fn next_rule(s: Walk, d: Dose, j: u16) -> u8
    requires { s.from ≤ j }
    ensures { result ≡ next_rule s d j }
{
    if is_asked(s, d, j) {
        return rule_with(s, d, j);
    }
    s.rule
}

// The first m doses of block q of the period, the pass having come to that block.
fn walk_block(plan: &[u8], b: u8, q: u16, m: u16, s0: Walk) -> Walk
    requires m_bound { (m ≤ 20) × (q * 20 + m ≤ 1515) }
    requires passed { Passed plan.now b (q * 20) s0 }
    ensures { Passed plan.now b (q * 20 + m) result }
{
    let r = block_of(plan, (b as u16) + q);
    let mut s = s0;
    for i in 0..m {
        let j = q * 20 + i;
        let d = dose_at(r, i as u8);
        s = turn(s, d, j, next_rule(s, d, j));
    }
    s
}

impl Doses<'_> {
    // The pass over all of them.
    // Kept: with `for q in 0..n.div_ceil(20)` in place of the `while` the exact pass over a full plan takes about a tenth longer.
    pub(crate) fn walk(self) -> Walk
        ensures { Passed self.entry.plan.now self.entry.b self.entry.n result }
    {
        let n = self.n;
        let mut s = Walk::BEGUN;
        let mut q: u16 = 0;
        while q * 20 < n {
            s = walk_block(self.plan, self.b, q, (n - q * 20).min(20), s);
            q += 1;
        }
        s
    }
}
