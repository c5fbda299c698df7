// A quick pass over the doses of a period. It is right one way only: what it lets through breaks none of rules 7 to 14. The
// usual plan is let through, and pays for no more than this; all others are judged by the exact pass.
ghost use Rattle.std.specs.Prelude.{IfSome, OnSome, ◌≡◌, true, false, ◌+◌, ◌*◌, ◌≤◌, ◌<◌};
ghost use Rattle.below.specs.Below.{count_below};
ghost use Rattle.plan.specs.Fields.{is_marked, upper_of};
ghost use Rattle.period.specs.Doses.{bad_range};
ghost use Rattle.plan.specs.Periods.{dose_in};
ghost use Rattle.period.specs.Code.Finish.{NotYet};
ghost use Rattle.period.specs.Code.Quick.{quick_rank, quick_turned, QuickRoom, Quickly, may_pass, may_any_day, may_both, may_too_much, Apart};

use crate::period_doses::Doses;
use block::SIZE;
use plan::{Dose, block_of, dose_at, dose_in, is_marked, upper_of};
use std::hint::select_unpredictable;

// What the pass keeps of the doses that it has passed: ranks have risen, no range is wrong, and no amount is too large. It looks at
// nothing but the dose ahead, and ends with the first dose that is out of turn.
#[derive(Clone, Copy, Default)]
pub(crate) struct Quick {
    // the rank of the last dose; before the first it is 0, which only an unmarked dose of day number 0 has, and rule 8 refuses that
    pub rank: u64,
    // how many have no time
    pub untimed: u64,
    // how many have a need mark
    pub marked: u64,
    // the unmarked upper amounts
    pub total: u64,
}

// The upper amount of a right range that is not too large. The tests come one by one: a processor guesses them well, and joined by `&`
// they make a period of one block take some 30 % longer.
fn sound_upper(d: Dose) -> Option<u64>
    ensures { IfSome result (λ upper. (upper ≤ 9999999999) × (bad_range d ≡ false) × (upper ≡ upper_of d)) }
{
    if d.high != 0 && (d.low == 0 || d.high <= d.low) {
        return None;
    }
    let upper = upper_of(d);
    if 9999999999 < upper {
        return None;
    }
    Some(upper)
}

// The day number, and then the time: doses that clash by rule 10 or 11 have one rank.
fn quick_rank(d: Dose) -> u64
    ensures { result ≡ quick_rank d }
{
    let base = (d.day as u64) * 4294967296 + (d.kind as u64) * 65536;
    if d.kind == 0 {
        return base + u64::from(is_marked(d));
    }
    if d.kind == 5 {
        return base + (d.minute as u64);
    }
    base
}

// One dose more, dose j, with its rank and its upper amount.
fn quick_turn(s: Quick, d: Dose, rank: u64, upper: u64, j: u16) -> Quick
    requires { (j < 1515) × QuickRoom j s × (upper ≤ 9999999999) }
    ensures { (result ≡ quick_turned s d rank upper) × QuickRoom (j + 1) result }
{
    let marked = is_marked(d);
    Quick {
        rank,
        untimed: s.untimed + u64::from(d.kind == 0),
        marked: s.marked + u64::from(marked),
        total: s.total + select_unpredictable(marked, 0, upper),
    }
}

// The first m doses of block q of the period, the pass having come to that block. A block that the plan does not have whole is left to
// the exact pass.
fn quick_block(plan: &[u8], b: u8, q: u16, m: u16, s0: Quick) -> Option<Quick>
    requires m_bound { (m ≤ 20) × (q * 20 + m ≤ 1515) }
    requires quickly { Quickly (dose_in plan.now b) (q * 20) s0 }
    ensures { IfSome result (Quickly (dose_in plan.now b) (q * 20 + m)) }
{
    let r = block_of(plan, (b as u16) + q);
    if r.len() != SIZE {
        return None;
    }
    let mut s = s0;
    for i in 0..m {
        let d = dose_at(r, i as u8);
        let rank = quick_rank(d);
        if rank <= s.rank {
            return None;
        }
        s = quick_turn(s, d, rank, sound_upper(d)?, q * 20 + i);
    }
    Some(s)
}

// Rule 7: ranks rise, so that the last day number is the largest.
fn may_pass(s: Quick, limit: u32) -> bool
    ensures { result ≡ may_pass s limit }
{
    (0 < limit) & ((limit as u64) < s.rank / 4294967296)
}

// Rule 12: some have no time, and some have one. Clock doses beside doses with no time are left to the exact pass.
fn may_both(s: Quick, n: u16) -> bool
    ensures { result ≡ may_both s n }
{
    (0 < s.untimed) & (s.untimed < (n as u64))
}

// Rule 14, with a round of one day where nothing limits it. A round has one day at least, so that a sum below one
// day's is enough: usual plans pay for no division.
fn may_too_much(s: Quick, limit: u32) -> bool
    ensures { result ≡ may_too_much s limit }
{
    if s.total < 100000000000 {
        return false;
    }
    (limit.max(1) as u64) <= s.total / 100000000000
}

impl Doses<'_> {
    // The pass over all of them. The first block, which most periods have alone, is called for by itself: compiled
    // for Arm, a full plan then takes 4 % fewer instructions; for x86-64 it takes 1 % more.
    fn quick_pass(self) -> Option<Quick>
        ensures { IfSome result (Quickly (dose_in self.entry.plan.now self.entry.b) self.entry.n) }
    {
        let n = self.n;
        let mut s = quick_block(self.plan, self.b, 0, n.min(20), Quick::default())?;
        for q in 1..n.div_ceil(20) {
            s = quick_block(self.plan, self.b, q, (n - q * 20).min(20), s)?;
        }
        Some(s)
    }

    // Rule 8: ranks rise, so that the first day number is the smallest.
    fn may_any_day(self, s: Quick) -> bool
        ensures { result ≡ may_any_day (dose_in self.entry.plan.now self.entry.b) s self.entry.n }
    {
        let first = dose_in(self.plan, self.b, 0);
        (0 < self.n) & (first.day == 0) & ((s.marked < (self.n as u64)) | !(s.rank < 4294967296))
    }

    // Rule 9: a hundred doses of one day would reach from some block's first dose to that of the fourth block behind it.
    fn are_apart(self) -> bool
        ensures { result ≡ true → Apart (dose_in self.entry.plan.now self.entry.b) self.entry.n }
    {
        if self.n <= 99 {
            return true;
        }
        (0..(self.n - 80).div_ceil(20)).all(|q| dose_in(self.plan, self.b, q * 20).day
            != dose_in(self.plan, self.b, q * 20 + 80).day)
    }

    // How many doses of a period have a need mark, where the quick way finds that it breaks none of rules 7 to 14. It ends with the
    // first test that fails: what is behind that would only be paid for by periods that the exact pass judges anyhow.
    pub(crate) fn glance(self) -> Option<u64>
        ensures unbroken { OnSome result (NotYet self.entry.plan.now self.entry.b 7 → NotYet self.entry.plan.now self.entry.b 15) }
        ensures marked { IfSome result (λ marked. marked ≡ count_below self.entry.n (λ j. is_marked (dose_in self.entry.plan.now self.entry.b j))) }
    {
        let s = self.quick_pass()?;
        if may_pass(s, self.limit)
            || self.may_any_day(s)
            || may_both(s, self.n)
            || may_too_much(s, self.limit)
            || !self.are_apart()
        {
            return None;
        }
        Some(s.marked)
    }
}
