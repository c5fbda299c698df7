// The fields of a block.
ghost use Rattle.std.specs.Prelude.{◌≡◌};
ghost use Rattle.plan.specs.Fields.{kind_of, count_of, interval_of, first_of, end_of, last_of, header_of, unit_of, plan_number_of, revision_of, vka_of};

use crate::Header;
use crate::part::part_of;
use block::{byte_at, half_at, word_at};
use day::Day;

// The kinds of a block.
pub const HEAD: u8 = 1;

pub const PERIOD: u8 = 2;

pub const CONTINUATION: u8 = 3;

// The kind, of which there may be others.
pub fn kind_of(r: &[u8]) -> u8
    ensures { result ≡ kind_of r.now }
{
    byte_at(r, 0)
}

// Of a head the further blocks, else the doses of this block.
pub fn count_of(r: &[u8]) -> u8
    ensures { result ≡ count_of r.now }
{
    byte_at(r, 1)
}

// A period's iteration interval, 0 where it is not iterated.
pub fn interval_of(r: &[u8]) -> u16
    ensures { result ≡ interval_of r.now }
{
    half_at(r, 2)
}

// The treatment's start, or a period's first day.
pub fn first_of(r: &[u8]) -> u32
    ensures { result ≡ first_of r.now }
{
    word_at(r, 4)
}

// The treatment's end, or a period's last day, as it is written: a day or the open mark.
pub fn end_of(r: &[u8]) -> u32
    ensures { result ≡ end_of r.now }
{
    word_at(r, 8)
}

// The same as a day: an open end counts as the calendar's last day.
pub fn last_of(r: &[u8]) -> u32
    ensures { result ≡ last_of r.now }
{
    Day::new(end_of(r)).closed().number
}

// The interval and both days together: of a part of known length they are read behind one test instead of three.
pub fn header_of(r: &[u8]) -> Header
    ensures { result ≡ header_of r.now }
{
    let h = part_of(r, 0, 12);
    Header {
        interval: interval_of(h),
        first: first_of(h),
        end: end_of(h),
    }
}

pub fn unit_of(r: &[u8]) -> u16
    ensures { result ≡ unit_of r.now }
{
    half_at(r, 2)
}

pub fn plan_number_of(r: &[u8]) -> u32
    ensures { result ≡ plan_number_of r.now }
{
    word_at(r, 12)
}

pub fn revision_of(r: &[u8]) -> u32
    ensures { result ≡ revision_of r.now }
{
    word_at(r, 16)
}

// 1 for a VKA plan, else 0.
pub fn vka_of(r: &[u8]) -> u8
    ensures { result ≡ vka_of r.now }
{
    byte_at(r, 20)
}
