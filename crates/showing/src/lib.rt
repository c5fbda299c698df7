// Showing a day, by document 01: the blocks of a part's first period that has the day.
#![tactic(auto)]

ghost use Rattle.std.specs.Prelude.{◌≡◌, ◌+◌, ◌≤◌, length, take, drop};
ghost use Rattle.doses.specs.Doses.{covers};
ghost use Rattle.form.specs.Code.Found.{found_below};
ghost use Rattle.form.specs.Code.Whole.{Whole};
ghost use Rattle.plan.specs.Periods.{blocks_of};
ghost use Rattle.showing.specs.Showing.{blocks_shown, shown_in, wanted, stretch_of, shown};

use doses::is_covering;
use form::{PART_LIMIT, form_of};
use plan::more_blocks;

// A stretch of a part: where it begins, and how many bytes it has.
// Kept: numbers and no slice, since `chivetassel_show_day` hands both out to C.
#[derive(Clone, Copy)]
pub struct Stretch {
    pub at: u32,
    pub length: u32,
}

// An empty stretch.
const NOTHING: Stretch = Stretch { at: 0, length: 0 };

// The first period that has the day.
fn first_covering(part: &[u8], day: u32) -> Option<u8>
    requires { Whole part.now }
    ensures { result ≡ found_below (blocks_of part.now) (covers part.now day) }
{
    let blocks = (part.len() / 512) as u8;
    (0..blocks).find(|b| is_covering(part, day, *b))
}

// The blocks of the period at block b: its first and the continuations behind it.
fn blocks_shown(part: &[u8], b: u8) -> Stretch
    ensures { result ≡ blocks_shown part.now b }
{
    let more = u32::from(more_blocks(part, b));
    Stretch {
        at: u32::from(b) * 512,
        length: (1 + more) * 512,
    }
}

// Where in a part the blocks lie that show a day.
pub fn stretch_in(part: &[u8], day: u32) -> Stretch
    ensures value { result ≡ shown_in part.now day }
    ensures inside { result.at + result.length ≤ length part.now }
{
    if form_of(part, PART_LIMIT).is_err() {
        return NOTHING;
    }
    match first_covering(part, day) {
        Some(b) => blocks_shown(part, b),
        None => NOTHING,
    }
}

// The part of the list wanted: 1 fixed, 2 need. No bytes are a part that shows nothing.
// Kept: a list by its number, since `stretch_of` and `show_day` promise an answer for every number.
fn wanted<'a>(fixed: &'a [u8], need: &'a [u8], list: u32) -> &'a [u8]
    ensures value { result.now ≡ wanted fixed.now need.now list }
    ensures own_fixed { list ≡ 1 → (result.ref_ptr.0 ≡ fixed.entry.ref_ptr.0) × (result.ref_ptr.1 ≡ fixed.entry.ref_ptr.1) }
    ensures own_need { list ≡ 2 → (result.ref_ptr.0 ≡ need.entry.ref_ptr.0) × (result.ref_ptr.1 ≡ need.entry.ref_ptr.1) }
{
    match list {
        1 => fixed,
        2 => need,
        _ => &[],
    }
}

// .. in the part of the list wanted.
#[tactic(auto, unfolding(crate::specs::Showing::stretch_of))]
pub fn stretch_of(fixed: &[u8], need: &[u8], list: u32, day: u32) -> Stretch
    ensures { result ≡ stretch_of fixed.now need.now list day }
{
    stretch_in(wanted(fixed, need, list), day)
}

// A part's own bytes that show a day.
fn show_in<'a>(part: &'a [u8], day: u32) -> &'a [u8]
    ensures result_value { result.now ≡ take (shown_in part.now day).length (drop (shown_in part.now day).at part.now) }
    ensures own { (result.ref_ptr.0 ≡ part.entry.ref_ptr.0) × (result.ref_ptr.1 ≡ part.entry.ref_ptr.1 + (shown_in part.now day).at) }
{
    let stretch = stretch_in(part, day);
    let at = stretch.at as usize;
    let end = at + stretch.length as usize;
    &part[at..end]
}

// Showing a day: the blocks of the first period that has it, as a stretch of the wanted part's own bytes.
pub fn show_day<'a>(fixed: &'a [u8], need: &'a [u8], list: u32, day: u32) -> &'a [u8]
    ensures result_value { result.now ≡ shown fixed.now need.now list day }
    ensures own_fixed { list ≡ 1 → (result.ref_ptr.0 ≡ fixed.entry.ref_ptr.0) × (result.ref_ptr.1 ≡ fixed.entry.ref_ptr.1 + (shown_in fixed.now day).at) }
    ensures own_need { list ≡ 2 → (result.ref_ptr.0 ≡ need.entry.ref_ptr.0) × (result.ref_ptr.1 ≡ need.entry.ref_ptr.1 + (shown_in need.now day).at) }
{
    show_in(wanted(fixed, need, list), day)
}
