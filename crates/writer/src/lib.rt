// A plan is written into a lent buffer, call by call: its head, then each period, and behind it its doses. The sums come
// last and all at once, so that no block is summed twice.
#![tactic(auto)]

mod fill;

ghost use Rattle.std.specs.Prelude.{◌≡◌, ◌+◌, ◌*◌, ◌≤◌, ◌<◌, length};
ghost use Rattle.writer.specs.Steps.{has_room, has_begun, begun, begun_place, period_added, period_place, dose_put, dose_added, dose_place, sealed_from, finished, finished_length};

use block::{SIZE, put_bytes, seal};
use fill::{fill_continuation, fill_head, fill_period};
use plan::{Dose, Head, Header, RECORD, record_start, write_dose};

// Where the writing stands: the blocks begun, and the doses in the last of them.
// Kept: a place beside the buffer, and no struct that holds both: `begin`, `add_period`, `add_dose` and `finish` take any buffer with any place.
#[derive(Clone, Copy, Debug, PartialEq, Eq)]
pub struct Place {
    pub blocks: u8,
    pub doses: u8,
}

// The doses that a block has room for.
const FULL: u8 = 20;

impl Place {
    // Is there room for a block more?
    #[tactic(auto, unfolding(crate::specs::Steps::has_room))]
    fn has_room(self, out: &[u8]) -> bool
        ensures { result ≡ has_room out.now self.blocks }
    {
        (self.blocks < 255) & (((self.blocks as usize) + 1) * SIZE <= out.len())
    }

    // Are n blocks begun, and does the buffer have the bytes of all that are? A place that these calls gave says so by itself.
    #[tactic(auto, unfolding(crate::specs::Steps::has_begun))]
    fn has_begun(self, out: &[u8], n: u8) -> bool
        ensures { result ≡ has_begun out.now self.blocks n }
    {
        (n <= self.blocks) & ((self.blocks as usize) * SIZE <= out.len())
    }
}

// Begins a plan, with its head in block 0. A buffer with no room for that stays as it is.
pub fn begin(out: &mut [u8], head: Head) -> Place
    ensures { (out.new ≡ begun out.old head) × (result ≡ begun_place out.old) }
{
    if out.len() < SIZE {
        return Place {
            blocks: 0,
            doses: 0,
        };
    }
    fill_head(&mut out[..SIZE], head);
    Place {
        blocks: 1,
        doses: 0,
    }
}

// Adds a period, with no doses yet, in a block of its own. Where that has no room, all stays as it is.
pub fn add_period(out: &mut [u8], at: Place, header: Header) -> Place
    ensures { (out.new ≡ period_added out.old at header) × (result ≡ period_place out.old at) }
{
    if !at.has_room(out) {
        return at;
    }
    let from = (at.blocks as usize) * SIZE;
    let end = from + SIZE;
    fill_period(&mut out[from..end], header);
    Place {
        blocks: at.blocks + 1,
        doses: 0,
    }
}

// Puts a dose into block b, behind n others, and counts it.
fn put_dose(out: &mut [u8], b: u8, n: u8, dose: Dose)
    requires { ((b + 1) * 512 ≤ length out.old) × (n < 20) }
    ensures { out.new ≡ dose_put out.old b n dose }
{
    let block = (b as usize) * SIZE;
    let from = block + record_start(n);
    let end = from + RECORD;
    write_dose(&mut out[from..end], dose);
    put_bytes(out, block + 1, &[n + 1]);
}

// Adds a dose to the last period: into the last block or, where that is full, into a continuation. Where that has no room, or
// there is no period, all stays as it is.
pub fn add_dose(out: &mut [u8], at: Place, dose: Dose) -> Place
    ensures { (out.new ≡ dose_added out.old at dose) × (result ≡ dose_place out.old at) }
{
    if !at.has_begun(out, 2) {
        return at;
    }
    if at.doses < FULL {
        put_dose(out, at.blocks - 1, at.doses, dose);
        return Place {
            blocks: at.blocks,
            doses: at.doses + 1,
        };
    }
    if !at.has_room(out) {
        return at;
    }
    let from = (at.blocks as usize) * SIZE;
    let end = from + SIZE;
    fill_continuation(&mut out[from..end]);
    put_dose(out, at.blocks, 0, dose);
    Place {
        blocks: at.blocks + 1,
        doses: 1,
    }
}

// Writes the sums of the first n blocks.
fn seal_blocks(out: &mut [u8], n: u8)
    requires { n * 512 ≤ length out.old }
    ensures { out.new ≡ sealed_from n 0 out.old }
{
    // Kept: by the block's number, since of a loop over `chunks_exact_mut` no proof says what the buffer holds afterwards.
    for b in 0..n {
        let from = (b as usize) * SIZE;
        let end = from + SIZE;
        seal(&mut out[from..end]);
    }
}

// Ends the plan: the head's count of further blocks, then the sums. Gives the plan's length in bytes, 0 where none was begun.
pub fn finish(out: &mut [u8], at: Place) -> u32
    ensures { (out.new ≡ finished out.old at) × (result ≡ finished_length out.old at) }
{
    if !at.has_begun(out, 1) {
        return 0;
    }
    put_bytes(out, 1, &[at.blocks - 1]);
    seal_blocks(out, at.blocks);
    (at.blocks as u32) * 512
}
