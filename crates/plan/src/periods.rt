// The blocks of a plan, its periods and their doses.
ghost use Rattle.std.specs.Prelude.{◌≡◌, ◌+◌, ◌-◌, ◌*◌, ◌/◌, ◌≤◌, ◌<◌, min, not, ◌||◌, length};
ghost use Rattle.below.specs.Below.{any_below};
ghost use Rattle.plan.specs.Fields.{record_at, dose_of, is_marked};
ghost use Rattle.plan.specs.Periods.{block_at, is_period, is_continuation, more_of, doses_of, dose_in, class_of};

use crate::classes::class_by;
use crate::fields::{CONTINUATION, PERIOD, count_of, kind_of};
use crate::part::part_of;
use crate::records::{dose_at, is_marked, is_marked_in};
use crate::{Class, Dose};

// Block b: a part in the plan's middle.
pub fn block_of(plan: &[u8], b: u16) -> &[u8]
    ensures { result.now ≡ block_at plan.now b }
{
    part_of(plan, (b as usize) * 512, 512)
}

// Does a period begin at block b?
pub fn is_period(plan: &[u8], b: u8) -> bool
    ensures { result ≡ is_period plan.now b }
{
    kind_of(block_of(plan, b as u16)) == PERIOD
}

// Does block b + 1 + i end the period of block b?
fn is_behind(plan: &[u8], b: u8, i: u8) -> bool
    ensures { result ≡ not (is_continuation plan.now (b + 1 + i)) }
{
    kind_of(block_of(plan, (b as u16) + 1 + (i as u16))) != CONTINUATION
}

// How many continuation blocks follow block b.
pub fn more_blocks(plan: &[u8], b: u8) -> u8
    ensures { (result ≡ more_of plan.now b) × (result ≤ 63) }
{
    (0..63).find(|&i| is_behind(plan, b, i)).unwrap_or(63)
}

// How many doses the period at block b has.
pub fn doses_of(plan: &[u8], b: u8) -> u16
    ensures { (result ≡ doses_of plan.now b) × (result ≤ 1515) }
{
    let more = more_blocks(plan, b) as u16;
    let last = count_of(block_of(plan, (b as u16) + more)) as u16;
    more * 20 + last
}

// Dose j of the period at block b.
pub fn dose_in(plan: &[u8], b: u8, j: u16) -> Dose
    ensures { result ≡ dose_in plan.now b j }
{
    dose_at(block_of(plan, (b as u16) + j / 20), (j % 20) as u8)
}

// The class of the period at block b with its n doses, dose by dose.
fn class_by_doses(plan: &[u8], b: u8, n: u16) -> Class
    requires { n ≡ doses_of plan.now b }
    ensures { result ≡ class_of plan.now b }
{
    let unmarked = (0..n).any(|j| !is_marked(dose_in(plan, b, j)));
    let marked = (0..n).any(|j| is_marked(dose_in(plan, b, j)));
    class_by(unmarked, marked)
}

// Are there unmarked doses, and marked ones?
#[derive(Clone, Copy)]
struct Marks {
    unmarked: bool,
    marked: bool,
}

// The same with the first n doses of a block. There is no early way out, so that the compiled loop is wide.
fn with_marks(m: Marks, r: &[u8], n: u8) -> Marks
    requires { (length r.now ≡ 512) × (n ≤ 20) }
    ensures { (result.unmarked ≡ (m.unmarked || any_below n (λ i. not (is_marked (dose_of (record_at r.now i)))))) × (result.marked ≡ (m.marked || any_below n (λ i. is_marked (dose_of (record_at r.now i))))) }
{
    let mut unmarked = m.unmarked;
    let mut marked = m.marked;
    for i in 0..n {
        let mark = is_marked_in(r, i);
        unmarked |= !mark;
        marked |= mark;
    }
    Marks { unmarked, marked }
}

// Of n doses, 20 to a block, those in block i.
pub fn doses_here(n: u16, i: u16) -> u8
    ensures { result ≡ min 20 (n - i * 20) }
{
    let ahead = u32::from(i) * 20;
    u32::from(n).saturating_sub(ahead).min(20) as u8
}

// The class of the period at block b with its n doses, block by block.
fn class_by_blocks(plan: &[u8], b: u8, n: u16) -> Class
    requires { (n ≡ doses_of plan.now b) × (n ≤ 1515) × ((b + (n + 19) / 20) * 512 ≤ length plan.now) }
    ensures { result ≡ class_of plan.now b }
{
    let mut m = Marks {
        unmarked: false,
        marked: false,
    };
    for i in 0..n.div_ceil(20) {
        m = with_marks(m, block_of(plan, (b as u16) + i), doses_here(n, i));
    }
    class_by(m.unmarked, m.marked)
}

// The class of the period at block b.
// Kept: block by block where all are there; dose by dose alone, a verdict takes a third longer where rule 5 or 6 is broken.
pub fn class_of(plan: &[u8], b: u8) -> Class
    ensures { result ≡ class_of plan.now b }
{
    let n = doses_of(plan, b);
    let end = (usize::from(b) + usize::from(n).div_ceil(20)) * 512;
    if plan.len() < end {
        return class_by_doses(plan, b, n);
    }
    class_by_blocks(plan, b, n)
}
