// Which dates a set has, by the periods that end on or after the start. Which count comes with the verdict, so that no mark is read again.
ghost use Rattle.std.specs.Prelude.{◌≡◌, ◌≤◌};
ghost use Rattle.need.specs.Telling.{Tells};
ghost use Rattle.plan.specs.Periods.{blocks_of};
ghost use Rattle.supply.specs.Dates.{has_interval, is_ranging, is_needed};
ghost use Rattle.supply.specs.Code.Asking.{ranges_with};

use need::{is_odd, stop_of};
use plan::{block_of, dose_in, doses_of, is_marked, is_period, last_of};

// Has the period at block b an unmarked interval dose?
fn has_interval(plan: &[u8], b: u8) -> bool
    ensures { result ≡ has_interval plan.now b }
{
    (0..doses_of(plan, b)).any(|j| {
        let d = dose_in(plan, b, j);
        !is_marked(d) & (d.high != 0)
    })
}

// Has it one, and is it a period that ends on or after the start, which `fixed` says to be fixed or mixed?
fn is_ranging_at(plan: &[u8], start: u32, fixed: bool, b: u8) -> bool
    ensures { result ≡ ranges_with start fixed plan.now b }
{
    if !is_period(plan, b) {
        return false;
    }
    if !fixed {
        return false;
    }
    if last_of(block_of(plan, u16::from(b))) < start {
        return false;
    }
    has_interval(plan, b)
}

// Is there a minimum and a maximum date, and not one end date?
// Kept: a loop, since the bits are gone through beside the blocks, and `any` would change them behind its test.
pub(crate) fn is_ranging(plan: &[u8], start: u32, chosen: u32) -> bool
    requires { Tells 1 plan.now chosen × (blocks_of plan.now ≤ 32) }
    ensures { result ≡ is_ranging start plan.now }
{
    let n = (plan.len() / 512) as u8;
    let mut bits = chosen;
    for b in 0..n {
        if is_ranging_at(plan, start, is_odd(bits), b) {
            return true;
        }
        bits /= 2;
    }
    false
}

// Are there dates 3 and 4? Some need or mixed period ends on or after the start if the last of them does, where choice 4 stops.
pub(crate) fn is_needed(plan: &[u8], start: u32, chosen: u32) -> bool
    requires { Tells 4 plan.now chosen }
    ensures { result ≡ is_needed start plan.now }
{
    stop_of(plan, chosen).is_some_and(|day| start <= day)
}
