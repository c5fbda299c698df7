// The dose records of a block: where they stand, and which of their bytes each field has. No other file knows either.
ghost use Rattle.std.specs.Prelude.{◌≡◌, ◌≤◌, ◌<◌, length};
ghost use Rattle.block.specs.Bytes.{put};
ghost use Rattle.plan.specs.Fields.{record_start, record_at, dose_of, spare_of, dose_bytes, is_marked, upper_of};

use crate::part::part_of;
use crate::{Dose, Opened};
use block::{
    byte_at, half_at, long_at, longs_at, put_bytes, put_half, put_long, put_word, word_at,
};

// The bytes of a record. As many stand ahead of the first one in its block.
pub const RECORD: usize = 24;

// Where record i begins in its block.
pub fn record_start(i: u8) -> usize
    ensures { (result ≡ record_start i) × (result ≤ 6144) }
{
    RECORD + (i as usize) * RECORD
}

// Record i of a block: a part in its middle.
pub fn record_of(r: &[u8], i: u8) -> &[u8]
    ensures { result.now ≡ record_at r.now i }
{
    part_of(r, record_start(i), RECORD)
}

// A record as it is read. Its first eight bytes make one number.
pub fn open_record(record: &[u8]) -> Opened
    ensures { (result.dose ≡ dose_of «record».now) × (result.spare ≡ spare_of «record».now) }
{
    let x = longs_at(record, 0);
    let [d0, d1, kind, mark, m0, m1, s0, s1] = x.first.to_le_bytes();
    Opened {
        dose: Dose {
            day: u16::from_le_bytes([d0, d1]),
            kind,
            mark,
            minute: u16::from_le_bytes([m0, m1]),
            low: x.second,
            high: x.third,
        },
        spare: u16::from_le_bytes([s0, s1]),
    }
}

// The dose that a record holds.
pub fn dose_of(record: &[u8]) -> Dose
    ensures { result ≡ dose_of «record».now }
{
    open_record(record).dose
}

// Is the dose of a record as needed? No other field is read.
pub fn is_record_marked(record: &[u8]) -> bool
    ensures { result ≡ is_marked (dose_of «record».now) }
{
    byte_at(record, 3) == 1
}

// The same of record i of a whole block.
pub(crate) fn is_marked_in(r: &[u8], i: u8) -> bool
    requires { (length r.now ≡ 512) × (i < 20) }
    ensures { result ≡ is_marked (dose_of (record_at r.now i)) }
{
    let at = record_start(i) + 3;
    r[at] == 1
}

// Dose i of a block.
pub fn dose_at(r: &[u8], i: u8) -> Dose
    ensures { result ≡ dose_of (record_at r.now i) }
{
    dose_of(record_of(r, i))
}

// Writes a dose over a record. What has no room for one stays as it is.
pub fn write_dose(record: &mut [u8], dose: Dose)
    ensures { «record».new ≡ put «record».old 0 (dose_bytes dose) }
{
    if record.len() < RECORD {
        return;
    }
    put_half(&mut *record, 0, dose.day);
    put_bytes(&mut *record, 2, &[dose.kind, dose.mark]);
    put_half(&mut *record, 4, dose.minute);
    put_half(&mut *record, 6, 0);
    put_long(&mut *record, 8, dose.low);
    put_long(&mut *record, 16, dose.high);
}

// Writes the dose of another record over a record: where that is whole, by numbers as wide as they can be, since the sums read them
// as words.
pub fn copy_dose(record: &mut [u8], source: &[u8])
    ensures { «record».new ≡ put «record».old 0 (dose_bytes (dose_of source.now)) }
{
    if record.len() < RECORD {
        return;
    }
    if source.len() < RECORD {
        return write_dose(record, dose_of(source));
    }
    let day_kind_mark = word_at(source, 0);
    let minute = half_at(source, 4);
    let low = long_at(source, 8);
    let high = long_at(source, 16);
    put_word(&mut *record, 0, day_kind_mark);
    put_word(&mut *record, 4, minute as u32);
    put_long(&mut *record, 8, low);
    put_long(&mut *record, 16, high);
}

// Is it as needed?
pub fn is_marked(d: Dose) -> bool
    ensures { result ≡ is_marked d }
{
    d.mark == 1
}

pub fn upper_of(d: Dose) -> u64
    ensures { result ≡ upper_of d }
{
    if d.high == 0 { d.low } else { d.high }
}
