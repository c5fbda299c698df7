// Whole rounds: of which period they may be taken on a day, pauses apart, what a round needs, and up to which day the days are that
// period's alone.
ghost use Rattle.std.specs.Prelude.{◌≡◌, IfSome};
ghost use Rattle.plan.specs.Periods.{doses_of};
ghost use Rattle.supply.specs.Code.Standing.{Small, Counts, round_need, free_of, rounds_of, rounds_on};

use crate::place::Period;
use need::amount;
use plan::{block_of, dose_in, last_of};

// Rounds of `interval` days, each of which needs `need`. Up to day `until` the days are in their period, and in no other with doses of the
// choice. Where `interval` is 0 there are none.
// Kept: 0 is what a plan says of a period without rounds, and `Rounded` speaks of either by that one number.
#[derive(Clone, Copy)]
pub(crate) struct Round {
    pub need: u64,
    pub interval: u32,
    pub until: u32,
}

pub(crate) const NO_ROUND: Round = Round {
    need: 0,
    interval: 0,
    until: 0,
};

// What a period of n doses needs in a round: in as many days in a row as its interval says each dose applies once.
// Kept: a loop, since `sum` asks that the amounts of any run of its chain fit, and here it is shown turn by turn.
fn round_need(plan: &[u8], choice: u32, b: u8, n: u16) -> u64
    requires small { Small choice plan.now b }
    requires n_value { n ≡ doses_of plan.now b }
    ensures { result ≡ round_need choice plan.now b }
{
    let mut need = 0;
    for j in 0..n {
        need += amount(choice, dose_in(plan, b, j));
    }
    need
}

// What a period needs in a round. In rounds of one day that is what the day needs, which is known.
fn need_in_round(plan: &[u8], choice: u32, t: Period, due: u64) -> u64
    requires { Counts choice plan.now t due }
    ensures { result ≡ round_need choice plan.now t.b }
{
    if t.interval == 1 {
        return due;
    }
    round_need(plan, choice, t.b, t.doses)
}

// The rounds of a period: up to its last day, or to the one ahead of the next period with doses of the choice, which is day `clear`.
fn rounds_of(plan: &[u8], choice: u32, clear: u32, t: Period, due: u64) -> Round
    requires { Counts choice plan.now t due }
    ensures { result ≡ rounds_of choice plan.now clear t }
{
    Round {
        need: need_in_round(plan, choice, t, due),
        interval: t.interval,
        until: last_of(block_of(plan, u16::from(t.b))).min(clear),
    }
}

// The period, if whole rounds of it may be taken: it is iterated, and `crowded` says whether another has doses of the choice.
pub(crate) fn free(t: Option<Period>, crowded: bool) -> Option<Period>
    ensures { result ≡ free_of t crowded }
{
    match t {
        Some(t) if (0 < t.interval) & !crowded => Some(t),
        _ => None,
    }
}

// The rounds that may be taken on a day that needs `due`: those of the period t, if there is one. No other with doses of the choice begins
// up to day `clear`.
pub(crate) fn rounds_on(plan: &[u8], choice: u32, clear: u32, t: Option<Period>, due: u64) -> Round
    requires { IfSome t (λ t. Counts choice plan.now t due) }
    ensures { result ≡ rounds_on choice plan.now clear t }
{
    match t {
        Some(t) => rounds_of(plan, choice, clear, t, due),
        None => NO_ROUND,
    }
}
