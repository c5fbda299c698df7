// The doses of the part that a block of the plan holds, put behind those in the last block of the part. Where they all have room
// there, their records are copied as they stand and counted once.
ghost use Rattle.std.specs.Prelude.{◌≡◌, [], ◌∷◌, ◌+◌, ◌-◌, ◌*◌, ◌≤◌, ◌<◌, length, IfSome};
ghost use Rattle.below.specs.Lists.{keep};
ghost use Rattle.plan.specs.Fields.{record_at, dose_of};
ghost use Rattle.split.specs.Parts.{is_of_part};
ghost use Rattle.split.specs.Code.Wanted.{is_need};
ghost use Rattle.split.specs.Code.Adding.{AddsDoses, kept_in, records_put};

use crate::parts::Part;
use block::{SIZE, put_bytes};
use plan::{RECORD, copy_dose, dose_at, is_marked, is_record_marked, record_of, record_start};
use writer::{Place, add_dose};

// Dose i of block r goes behind m others into the block that begins at `block`, if it is one of the part's. Gives how many there
// are then.
fn put_kept(out: &mut [u8], block: usize, m: u8, r: &[u8; SIZE], i: u8, part: Part) -> u8
    requires { (block + 512 ≤ length out.old) × (m < 20) × (i < 20) }
    ensures { (out.new ≡ records_put out.old block m (keep (is_of_part (is_need part)) (dose_of (record_at r.now i) ∷ []))) × (result ≡ m + length (keep (is_of_part (is_need part)) (dose_of (record_at r.now i) ∷ []))) }
{
    let source = record_of(r, i);
    if !part.has_mark(is_record_marked(source)) {
        return m;
    }
    let from = block + record_start(m);
    let until = from + RECORD;
    copy_dose(&mut out[from..until], source);
    m + 1
}

// Those of its doses from dose `from` to the nth.
fn put_all_kept(
    out: &mut [u8],
    block: usize,
    held: u8,
    r: &[u8; SIZE],
    from: u8,
    n: u8,
    part: Part,
) -> u8
    requires { (block + 512 ≤ length out.old) × (from ≤ n) × (n ≤ 20) × (held + (n - from) ≤ 20) }
    ensures { (out.new ≡ records_put out.old block held (kept_in (is_need part) r.now from n)) × (result ≡ held + length (kept_in (is_need part) r.now from n)) × (result ≤ held + (n - from)) }
{
    let mut m = held;
    for i in from..n {
        m = put_kept(&mut *out, block, m, r, i, part);
    }
    m
}

// They all have room in the last block, which counts them.
fn add_together(out: &mut [u8], at: Place, r: &[u8; SIZE], from: u8, n: u8, part: Part) -> Place
    requires { (from ≤ n) × (2 ≤ at.blocks) × (at.blocks * 512 ≤ length out.old) × (n ≤ 20) × (at.doses + (n - from) ≤ 20) }
    ensures { AddsDoses (kept_in (is_need part) r.now from n) at out.old result out.new }
{
    let block = ((at.blocks - 1) as usize) * SIZE;
    let m = put_all_kept(&mut *out, block, at.doses, r, from, n, part);
    if m == at.doses {
        return at;
    }
    put_bytes(&mut *out, block + 1, &[m]);
    Place {
        blocks: at.blocks,
        doses: m,
    }
}

// Dose i of block r by itself, if it is one of the part's.
fn add_dose_of(out: &mut [u8], at: Place, r: &[u8], i: u8, part: Part) -> Place
    ensures { AddsDoses (keep (is_of_part (is_need part)) (dose_of (record_at r.now i) ∷ [])) at out.old result out.new }
{
    let d = dose_at(r, i);
    if !part.has_mark(is_marked(d)) {
        return at;
    }
    add_dose(out, at, d)
}

// Block r, if it is a whole one, and the last block has room for its doses from dose `from` to the nth.
fn fitting<'a>(out: &[u8], at: Place, r: &'a [u8], from: u8, n: u8) -> Option<&'a [u8; SIZE]>
    requires { from ≤ n }
    ensures { IfSome result (λ whole. (whole.now ≡ r.now) × (2 ≤ at.blocks) × (at.blocks * 512 ≤ length out.now) × (n ≤ 20) × (at.doses + (n - from) ≤ 20)) }
{
    let has_room = (2 <= at.blocks)
        & ((at.blocks as usize) * SIZE <= out.len())
        & (n <= 20)
        & ((at.doses as u16) + ((n - from) as u16) <= 20);
    if has_room { r.as_array() } else { None }
}

// The doses of the part among the first n of block r: each by itself, until those that are left all have room in the last block.
pub(crate) fn add_kept(out: &mut [u8], at: Place, r: &[u8], n: u8, part: Part) -> Place
    ensures { AddsDoses (kept_in (is_need part) r.now 0 n) at out.old result out.new }
{
    let mut place = at;
    for i in 0..n {
        if let Some(whole) = fitting(&*out, place, r, i, n) {
            return add_together(&mut *out, place, whole, i, n, part);
        }
        place = add_dose_of(&mut *out, place, r, i, part);
    }
    place
}
