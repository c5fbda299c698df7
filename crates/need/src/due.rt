// What the doses of a day need, pauses apart: every dose of every period that has the day. A walk over many days keeps what it knows
// of the day ahead; this is for a day by itself.
ghost use Rattle.std.specs.Prelude.{◌≡◌, ◌+◌, ◌%◌, ◌^◌};
ghost use Rattle.below.specs.Lists.{sum_over};
ghost use Rattle.doses.specs.Doses.{doses_of_period};
ghost use Rattle.need.specs.Need.{chosen, due_on};

use crate::choice::amount;
use doses::{is_applied, is_covering, position_of};
use plan::{block_of, dose_in, doses_of};

// The sum with what the doses of the period at block b need on the day.
// Kept: loops of its own, here and over the blocks, as they first stood; a fold over `doses_on` says the same (`due_by` of `day_list`), and
// takes about as long.
fn with_period(plan: &[u8], choice: u32, day: u32, b: u8, sum: u64) -> u64
    ensures { result ≡ (sum + sum_over (chosen choice) (doses_of_period plan.now day b)) % 2 ^ 64 }
{
    let position = position_of(block_of(plan, u16::from(b)), day);
    let mut s = sum;
    for j in 0..doses_of(plan, b) {
        let d = dose_in(plan, b, j);
        if is_applied(position, d) {
            s = s.wrapping_add(amount(choice, d));
        }
    }
    s
}

// What the doses of a day need by the choice, in numbers of 64 bits: what an accepted plan needs never passes them.
pub fn due_on(plan: &[u8], choice: u32, day: u32) -> u64
    ensures { result ≡ due_on choice plan.now day % 2 ^ 64 }
{
    let mut sum = 0;
    for b in 0..(plan.len() / 512).min(64) as u8 {
        if is_covering(plan, day, b) {
            sum = with_period(plan, choice, day, b, sum);
        }
    }
    sum
}
