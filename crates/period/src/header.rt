// What a period's header says: its place in the treatment, the period ahead of it, and its longest day number. A header comes by
// value, so that it is read once; what is said of it here holds of every block that has it.
ghost use Rattle.std.specs.Prelude.{MatchOption, List, ◌≡◌, ℕ, ◌<◌, true, false, eqb};
ghost use Rattle.day.specs.Days.{open_mark, closed_day};
ghost use Rattle.plan.specs.Fields.{first_of, header_of};
ghost use Rattle.plan.specs.Periods.{block_at, is_period};
ghost use Rattle.period.specs.Period.{outside, ahead_of, early, limit_of};

use day::Day;
use plan::{Header, block_of, first_of, is_period};

// Has it no last day?
fn is_open(h: Header) -> bool
    ensures { result ≡ eqb h.end open_mark }
{
    h.end == Day::OPEN.number
}

// Its last day: an open end counts as the calendar's last.
fn last_day(h: Header) -> u32
    ensures { result ≡ closed_day h.end }
{
    let last = Day::new(h.end).closed();
    last.number
}

// Rule 5, by the headers of block 0 and of the period.
pub(crate) fn is_outside(head: Header, h: Header) -> bool
    ensures { (p : List ℕ) (b : ℕ) → head ≡ header_of (block_at p 0) → h ≡ header_of (block_at p b) → result ≡ outside p b }
{
    (h.first < head.first) | (last_day(head) < last_day(h)) | (is_open(h) & !is_open(head))
}

// The nearest period ahead of block b.
fn ahead_of(plan: &[u8], b: u8) -> Option<u8>
    ensures { MatchOption result ((k : ℕ) → k < b → is_period plan.now k ≡ false) (λ a. (a < b) × (is_period plan.now a ≡ true) × ((k : ℕ) → a < k → k < b → is_period plan.now k ≡ false)) }
{
    (0..b).rev().find(|a| is_period(plan, *a))
}

// Rule 6, with the first day of the period at block b.
pub(crate) fn is_early(plan: &[u8], b: u8, first: u32) -> bool
    requires { first ≡ first_of (block_at plan.now b) }
    ensures { result ≡ early plan.now b }
{
    match ahead_of(plan, b) {
        Some(a) => first < first_of(block_of(plan, a as u16)),
        None => false,
    }
}

// The largest day number that the period has room for, 0 where nothing limits it.
// Kept: 0 and no Option, as the definition `limit_of` has it, by which rules 7 and 14 are stated.
pub(crate) fn limit_of(h: Header) -> u32
    ensures { (r : List ℕ) → h ≡ header_of r → result ≡ limit_of r }
{
    if h.interval != 0 {
        return h.interval as u32;
    }
    if is_open(h) {
        return 0;
    }
    let last = last_day(h);
    if last < h.first {
        return 1;
    }
    last - h.first + 1
}
