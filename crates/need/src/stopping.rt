// The day on which a choice stops. The periods that count come with the verdict's classes, so that no mark is read again.
ghost use Rattle.std.specs.Prelude.{◌≡◌, ◌&&◌, is_some};
ghost use Rattle.std.specs.Option.{unwrap_or};
ghost use Rattle.plan.specs.Periods.{is_period};
ghost use Rattle.need.specs.Telling.{is_set, any_told, told_day};

use crate::bits::is_odd;
use plan::{block_of, is_period, last_of};

// Does a period begin at block b, whose bit is the lowest, and does it count?
fn is_told(plan: &[u8], bits: u32, b: u8) -> bool
    ensures { result ≡ (is_period plan.now b && is_set bits 0) }
{
    is_period(plan, b) && is_odd(bits)
}

// The last day of any period that counts, if there is one. `chosen` has a bit for each block.
pub fn stop_of(plan: &[u8], chosen: u32) -> Option<u32>
    ensures { (is_some result ≡ any_told chosen plan.now) × (unwrap_or result 0 ≡ told_day chosen plan.now) }
{
    let mut bits = chosen;
    let mut stop = None;
    for b in 0..(plan.len() / 512).min(32) as u8 {
        if is_told(plan, bits, b) {
            stop = stop.max(Some(last_of(block_of(plan, u16::from(b)))));
        }
        bits /= 2;
    }
    stop
}
