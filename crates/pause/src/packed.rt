// The packed pauses of the C call, as the records that it lends.
ghost use Rattle.std.specs.Prelude.{not, ◌||◌, ◌≡◌, ◌/◌, ◌%◌, eqb, ltb, length, get_or};
ghost use Rattle.pause.specs.Pauses.{no_day, first_of, pauses_in, lent_of};

use crate::Pause;
use crate::test::NO_DAY;

// The packed pause at place `i`: 8 bytes, first then last day.
fn packed_at(s: &[u8], i: usize) -> Pause
    ensures { result ≡ get_or (pauses_in s.now) i no_day }
{
    if i < s.len() / 8 {
        return Pause {
            first: block::word_at(s, i * 8),
            last: block::word_at(s, i * 8 + 4),
        };
    }
    NO_DAY
}

// The first 32 pauses of the bytes. Only those that are there are gone through: a call without pauses is the usual one.
fn records(s: &[u8]) -> [Pause; 32]
    ensures { result ≡ first_of 32 (pauses_in s.now) }
{
    let mut at = [NO_DAY; 32];
    for i in 0..(s.len() / 8).min(32) {
        at[i] = packed_at(s, i);
    }
    at
}

// Whether the bytes are no list to lend: no whole number of pauses, or more than 32.
fn is_no_list(s: &[u8]) -> bool
    ensures { result ≡ (not (eqb (length s.now % 8) 0) || ltb 32 (length s.now / 8)) }
{
    (s.len() % 8 != 0) | (32 < s.len() / 8)
}

// How many records the C call's bytes lend, at most 32: their pauses, or one that is out. The count and the array come from two
// functions: a struct of both is copied once more on its way to the lender, and a call without pauses is short enough to feel it.
pub fn packed_count(s: &[u8]) -> usize
    ensures { result ≡ length (lent_of s.now) }
{
    if is_no_list(s) {
        return 1;
    }
    s.len() / 8
}

// The records that they lend, at the front of an array.
pub fn packed_records(s: &[u8]) -> [Pause; 32]
    ensures { result ≡ first_of 32 (lent_of s.now) }
{
    if is_no_list(s) {
        return [NO_DAY; 32];
    }
    records(s)
}
