// What a period needs at a position. It does not look at every dose: day numbers do not fall, so the doses of a position stand
// together, and those of the next position stand behind them.
ghost use Rattle.std.specs.Prelude.{◌≡◌, ◌+◌};
ghost use Rattle.plan.specs.Periods.{doses_of};
ghost use Rattle.supply.specs.Code.Standing.{Sorted, Small, From, lowest_at, need_at};

use need::amount;
use plan::dose_in;

// The first of n doses whose day number is x or more: halves the doses in doubt each turn.
// Kept: by hand, since the doses are read from the bytes of several blocks, and `partition_point` is a slice's.
pub(crate) fn first_from(plan: &[u8], b: u8, n: u16, x: u32) -> u16
    requires sorted { Sorted plan.now b }
    requires n_value { n ≡ doses_of plan.now b }
    ensures { From plan.now b n x result }
{
    let mut lo: u16 = 0;
    let mut hi = n;
    while lo < hi {
        let mid = lo + (hi - lo) / 2;
        if u32::from(dose_in(plan, b, mid).day) < x {
            lo = mid + 1;
        } else {
            hi = mid;
        }
    }
    lo
}

// What a position needs, and the dose behind its doses.
#[derive(Clone, Copy)]
pub(crate) struct Due {
    pub need: u64,
    pub behind: u16,
}

// What the period at block b needs at a position whose doses begin at dose `from` of n.
pub(crate) fn due_at(plan: &[u8], choice: u32, b: u8, n: u16, position: u32, from: u16) -> Due
    requires sorted { Sorted plan.now b }
    requires small { Small choice plan.now b }
    requires n_value { n ≡ doses_of plan.now b }
    requires from { From plan.now b n (lowest_at position) from }
    ensures { (result.need ≡ need_at choice plan.now b position) × From plan.now b n (position + 1) result.behind }
{
    let mut need = 0;
    for j in from..n {
        let d = dose_in(plan, b, j);
        if position < u32::from(d.day) {
            return Due { need, behind: j };
        }
        need += amount(choice, d);
    }
    Due { need, behind: n }
}
