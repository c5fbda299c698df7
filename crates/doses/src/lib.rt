// A day's doses, by document 01: which doses of a plan apply on a day, and their four sums.
#![tactic(auto)]

ghost use Rattle.std.specs.Prelude.{◌≡◌};
ghost use Rattle.std.specs.List.{FoldsTo};
ghost use Rattle.plan.specs.Fields.{header_of};
ghost use Rattle.doses.specs.Doses.{covers, position_of, applies, doses_of_period, doses_on, grown, added, day_sums};

mod iter;

pub use iter::{DosesOn, doses_on};
use plan::{
    Dose, block_of, dose_in, doses_of, first_of, interval_of, is_marked, kind_of, last_of, upper_of,
};

// Has the period at block b this day?
pub fn is_covering(plan: &[u8], day: u32, b: u8) -> bool
    ensures { result ≡ covers plan.now day b }
{
    let block = block_of(plan, u16::from(b));
    kind_of(block) == 2 && first_of(block) <= day && day <= last_of(block)
}

// The position of a day in the period whose first block is r.
#[tactic(auto, unfolding(crate::specs::Doses::position_of))]
pub fn position_of(r: &[u8], day: u32) -> u64
    ensures { result ≡ position_of (header_of r.now) day }
{
    let since = u64::from(day.saturating_sub(first_of(r)));
    let interval = u64::from(interval_of(r));
    if interval == 0 {
        return since + 1;
    }
    since % interval + 1
}

// Does a dose apply at a position?
pub fn is_applied(position: u64, d: Dose) -> bool
    ensures { result ≡ applies position d }
{
    let day = u64::from(d.day);
    (day == position) | ((day == 0) & (position == 1))
}

fn row_with(row: [u64; 2], d: Dose) -> [u64; 2]
    ensures { result ≡ grown row d }
{
    [row[0].wrapping_add(d.low), row[1].wrapping_add(upper_of(d))]
}

// The four sums with a dose more.
#[tactic(auto, unfolding(crate::specs::Doses::added))]
fn sums_with(sums: [[u64; 2]; 2], d: Dose) -> [[u64; 2]; 2]
    ensures { result ≡ added sums d }
{
    let mut next = sums;
    if is_marked(d) {
        next[1] = row_with(sums[1], d);
    } else {
        next[0] = row_with(sums[0], d);
    }
    next
}

// What `f` makes of a start and the doses of the period at block b on the day, one after the other.
fn fold_period<S, F: Fn(S, Dose) -> S>(plan: &[u8], day: u32, b: u8, start: S, f: &F) -> S
    requires { F.IsAlwaysCallable f.now }
    ensures { FoldsTo (λ s d t. F.post f.now s d t) start (doses_of_period plan.now day b) result }
{
    let position = position_of(block_of(plan, u16::from(b)), day);
    let mut state = start;
    for j in 0..doses_of(plan, b) {
        let d = dose_in(plan, b, j);
        if is_applied(position, d) {
            state = f(state, d);
        }
    }
    state
}

// What `f` makes of a start and the doses of a day, one after the other.
fn fold_doses<S, F: Fn(S, Dose) -> S>(plan: &[u8], day: u32, start: S, f: F) -> S
    requires { F.IsAlwaysCallable f }
    ensures { FoldsTo (λ s d t. F.post f s d t) start (doses_on plan.now day) result }
{
    let mut state = start;
    for b in 0..(plan.len() / 512).min(64) as u8 {
        if is_covering(plan, day, b) {
            state = fold_period(plan, day, b, state, &f);
        }
    }
    state
}

// The four sums of a day.
pub fn day_sums(plan: &[u8], day: u32) -> [[u64; 2]; 2]
    ensures { result ≡ day_sums plan.now day }
{
    fold_doses(plan, day, [[0; 2]; 2], sums_with)
}
