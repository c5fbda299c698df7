// Rules 2 and 4 of one whole block: its fields and dose records, and then its zero bytes and sums.
ghost use Rattle.std.specs.Prelude.{◌≡◌, ◌≤◌, ◌<◌, not, ◌||◌, length};
ghost use Rattle.block.specs.Sums.{sums_right};
ghost use Rattle.plan.specs.Fields.{record_at};
ghost use Rattle.form.specs.Form.{days_out, not_zero, record_out, block_out};
ghost use Rattle.form.specs.Code.Front.{time_out, records_out, head_front, period_front, continuation_front, front_out, records_of};

use block::{SIZE, is_zero, long_at, sums_right, word_at};
use day::is_no_span;
use plan::{
    Dose, HEAD, PERIOD, count_of, end_of, first_of, kind_of, open_record, record_of, record_start,
};

// Is one of the bytes from a up to e not zero?
fn not_zero(r: &[u8; SIZE], a: usize, e: usize) -> bool
    requires { (a ≤ e) × (e ≤ 512) }
    ensures { result ≡ not_zero r.now a e }
{
    !is_zero(&r[a..e])
}

fn days_out(r: &[u8; SIZE]) -> bool
    ensures { result ≡ days_out r.now }
{
    is_no_span(first_of(r), end_of(r))
}

// A dose's time kind, need mark and minute, and the bytes behind the minute.
fn time_out(d: Dose, spare: u16) -> bool
    ensures { result ≡ time_out d spare }
{
    if d.kind < 5 {
        return (1 < d.mark) | (0 < d.minute) | (spare != 0);
    }
    (5 < d.kind) | (1 < d.mark) | (1439 < d.minute) | (spare != 0)
}

fn record_out(record: &[u8]) -> bool
    requires { length «record».now ≡ 24 }
    ensures { result ≡ record_out «record».now }
{
    let r = open_record(record);
    (9999999999 < r.dose.low.max(r.dose.high)) || time_out(r.dose, r.spare)
}

// Dose record i of a block, handed on as a part of it.
fn dose_out(r: &[u8; SIZE], i: u8) -> bool
    requires { i < 20 }
    ensures { result ≡ record_out (record_at r.now i) }
{
    record_out(record_of(r, i))
}

fn records_out(r: &[u8; SIZE]) -> bool
    ensures { result ≡ records_out r.now }
{
    let n = count_of(r);
    (20 < n) || (0..n).any(|i| dose_out(r, i))
}

// Bytes 20 to 23 are read as one number, at most 1 where the VKA byte is and the three behind it are zero.
fn head_out(r: &[u8; SIZE]) -> bool
    ensures { result ≡ head_front r.now }
{
    days_out(r) | (1 < word_at(r, 20))
}

// Bytes 12 to 23 are zero where the two numbers that they make are.
fn period_out(r: &[u8; SIZE]) -> bool
    ensures { result ≡ period_front r.now }
{
    let fields = days_out(r) | (word_at(r, 12) != 0) | (long_at(r, 16) != 0);
    fields || records_out(r)
}

fn continuation_out(r: &[u8; SIZE]) -> bool
    ensures { result ≡ continuation_front r.now }
{
    let fields = (count_of(r) == 0) | not_zero(r, 2, 24);
    fields || records_out(r)
}

// Rule 4 of a block, by its kind, without the zeros behind its records.
fn front_out(r: &[u8; SIZE]) -> bool
    ensures { result ≡ front_out r.now }
{
    match kind_of(r) {
        HEAD => head_out(r),
        PERIOD => period_out(r),
        _ => continuation_out(r),
    }
}

fn records_of(r: &[u8; SIZE]) -> u8
    ensures { result ≡ records_of r.now }
{
    if kind_of(r) == HEAD { 0 } else { count_of(r) }
}

// Rules 2 and 4 of a block: its front, then the zeros behind its records, then its sums.
pub(crate) fn block_wrong(r: &[u8; SIZE]) -> bool
    ensures { result ≡ (block_out r.now || not (sums_right r.now)) }
{
    if front_out(r) {
        return true;
    }
    not_zero(r, record_start(records_of(r)), 504) || !sums_right(r)
}
