// What the plan's periods say of a day, by one walk over the blocks.
ghost use Rattle.std.specs.Prelude.{◌≡◌, true, ℕ, ◌+◌, ◌≤◌, ◌<◌};
ghost use Rattle.need.specs.Telling.{Tells};
ghost use Rattle.plan.specs.Periods.{blocks_of, is_period};
ghost use Rattle.supply.specs.Steps.{is_chosen};
ghost use Rattle.supply.specs.Code.Surveying.{Surveyed, with_later, with_period};

use day::Day;
use need::is_odd;
use plan::{block_of, first_of, kind_of, last_of};

// No change lies ahead.
const NEVER: u32 = Day::OPEN.number;

// The first two blocks whose periods have the day; where there is no such block the number lies past all blocks. `one` and `other` say
// whether these have doses of the choice. Up to day `until` the days are in the periods that have this one, and in no others. From the day
// behind this one up to day `clear` no period with doses of the choice begins.
// Kept: a number past all blocks and no Option, so that one comparison tells whether a block comes first (`with_period`).
#[derive(Clone, Copy)]
pub(crate) struct Survey {
    pub first: u8,
    pub second: u8,
    pub one: bool,
    pub other: bool,
    pub until: u32,
    pub clear: u32,
}

// The survey with a period more: it begins on day `first`, which lies ahead.
fn with_later(s: Survey, chosen: bool, first: u32) -> Survey
    requires { 0 < first }
    ensures { result ≡ with_later s chosen first }
{
    let mut r = s;
    r.until = s.until.min(first - 1);
    if chosen {
        r.clear = s.clear.min(first - 1);
    }
    r
}

// The survey with a period more, at block b: it has the day, and ends on day `last`. If it is the first that has it, `first` was past all
// blocks, and now `second` is. By rule 16 there is no third.
fn with_period(s: Survey, chosen: bool, b: u8, last: u32) -> Survey
    ensures { result ≡ with_period s chosen b last }
{
    let mut r = s;
    r.until = s.until.min(last);
    if b < s.first {
        r.first = b;
        r.one = chosen;
        r.second = s.first;
        return r;
    }
    if b < s.second {
        r.second = b;
        r.other = chosen;
    }
    r
}

// The survey with the period at block b, if there is one; `chosen` says whether it has doses of the choice.
fn with_block(plan: &[u8], day: u32, s: Survey, chosen: bool, b: u8) -> Survey
    ensures { (choice : ℕ) → b < blocks_of plan.now → (is_period plan.now b ≡ true → chosen ≡ is_chosen choice plan.now b) → Surveyed choice plan.now day b s → Surveyed choice plan.now day (b + 1) result }
{
    let block = block_of(plan, u16::from(b));
    if kind_of(block) != 2 {
        return s;
    }
    let first = first_of(block);
    if day < first {
        return with_later(s, chosen, first);
    }
    let last = last_of(block);
    if last < day {
        return s;
    }
    with_period(s, chosen, b, last)
}

// What the periods say of the day. `chosen` has a bit for each block.
pub(crate) fn survey_of(plan: &[u8], chosen: u32, day: u32) -> Survey
    requires { blocks_of plan.now ≤ 32 }
    ensures { (choice : ℕ) → Tells choice plan.now chosen → Surveyed choice plan.now day (blocks_of plan.now) result }
{
    let n = (plan.len() / 512) as u8;
    let mut bits = chosen;
    let mut s = Survey {
        first: n,
        second: n + 1,
        one: false,
        other: false,
        until: NEVER,
        clear: NEVER,
    };
    for b in 0..n {
        s = with_block(plan, day, s, is_odd(bits), b);
        bits /= 2;
    }
    s
}
