// The calls of the C approval screen, as a library. The crate screen_c gives them to C, under the same names.
#![tactic(auto)]

ghost use Rattle.std.specs.Prelude.{◌≡◌, true, false, cond, ◌≤◌, length};
ghost use Rattle.verdict.specs.Verdict.{verdict_of};
ghost use Rattle.doses.specs.Doses.{day_sums};
ghost use Rattle.supply.specs.Dates.{packed_dates_of};
ghost use Rattle.supply.specs.Supply.{packed_supply_of};
ghost use Rattle.refusal.specs.Refusals.{code_of, done_code, code_in};
ghost use Rattle.split.specs.Parts.{part_bytes};
ghost use Rattle.split.specs.Split.{split_of, left_by};
ghost use Rattle.showing.specs.Showing.{stretch_of};
ghost use Rattle.register.specs.Steps.{Call.clear, Call.submit, Call.sign, Call.release, Call.drop as dropped, Call.state, answered, after, room_after};
ghost use Rattle.screen.specs.Calls.{version, written, too_short, code26, supply_out, dates_out, split_out, stretch_out, released_out, state_out, sums_out};

use block::put_long;
use doses::day_sums;
use refusal::{Refusal, code_in, done};
use register::{clear, drop_plan, release, sign, state_of, submit};
use showing::stretch_of;
use split::split;
use supply::{dates_packed, supply_packed};
use verdict::verdict;

// The version of the header that declares these calls, so that a caller sees whether this library is that header's.
pub fn chivetassel_version() -> u32
    ensures { result ≡ version }
{
    10101
}

// The verdict on a plan: the number plus 256 times the place.
pub fn chivetassel_verdict(plan: &[u8]) -> u32
    ensures { result ≡ code_in (verdict_of plan.now) }
{
    code_in(verdict(plan))
}

// Numbers of 64 bits, least byte first, one behind another.
fn put_numbers(out: &mut [u8], numbers: &[u64])
    requires { length numbers.now ≤ 5 }
    ensures { out.new ≡ written out.old 0 numbers.now }
{
    let mut at = 0;
    for x in numbers {
        put_long(&mut *out, at, *x);
        at += 8;
    }
}

// How far a pack lasts.
// Kept: each call with a buffer asks for its room by two lines, since `let Some(room) = out.first_chunk_mut::<32>() else { .. }` is longer.
pub fn chivetassel_supply(
    plan: &[u8],
    start: u32,
    pack: u64,
    choice: u32,
    pauses: &[u8],
    out: &mut [u8],
) -> u32
    ensures value { result ≡ cond (too_short 32 out.old) code26 (code_in (packed_supply_of plan.now start pack choice pauses.now)) }
    ensures out_after { out.new ≡ cond (too_short 32 out.old) out.old (supply_out out.old (packed_supply_of plan.now start pack choice pauses.now)) }
{
    if out.len() < 32 {
        return Refusal::alone(26).code();
    }
    let answer = supply_packed(plan, start, pack, choice, pauses);
    if let Ok(x) = answer {
        put_numbers(
            out,
            &[
                u64::from(x.days),
                u64::from(x.last),
                x.rest,
                u64::from(x.reason),
            ],
        );
    }
    code_in(answer)
}

// The dates that the counter wants.
pub fn chivetassel_dates(plan: &[u8], start: u32, pack: u64, pauses: &[u8], out: &mut [u8]) -> u32
    ensures value { result ≡ cond (too_short 40 out.old) code26 (code_in (packed_dates_of plan.now start pack pauses.now)) }
    ensures out_after { out.new ≡ cond (too_short 40 out.old) out.old (dates_out out.old (packed_dates_of plan.now start pack pauses.now)) }
{
    if out.len() < 40 {
        return Refusal::alone(26).code();
    }
    let answer = dates_packed(plan, start, pack, pauses);
    if let Ok(x) = answer {
        put_numbers(
            out,
            &[x.end, x.minimum, x.maximum, x.third, x.fourth].map(u64::from),
        );
    }
    code_in(answer)
}

// A plan into its two parts.
pub fn chivetassel_split(plan: &[u8], fixed: &mut [u8], need: &mut [u8], out: &mut [u8]) -> u32
    ensures value { result ≡ cond (too_short 16 out.old) code26 (code_in (split_of plan.now fixed.old need.old)) }
    ensures fixed_after { fixed.new ≡ cond (too_short 16 out.old) fixed.old (left_by (split_of plan.now fixed.old need.old) (part_bytes false plan.now) fixed.old) }
    ensures need_after { need.new ≡ cond (too_short 16 out.old) need.old (left_by (split_of plan.now fixed.old need.old) (part_bytes true plan.now) need.old) }
    ensures out_after { out.new ≡ cond (too_short 16 out.old) out.old (split_out out.old (split_of plan.now fixed.old need.old)) }
{
    if out.len() < 16 {
        return Refusal::alone(26).code();
    }
    let answer = split(plan, fixed, need);
    if let Ok(n) = answer {
        put_numbers(out, &[u64::from(n.fixed), u64::from(n.need)]);
    }
    code_in(answer)
}

// The blocks of a part's first period that has the day, by their place in the wanted part.
pub fn chivetassel_show_day(fixed: &[u8], need: &[u8], list: u32, day: u32, out: &mut [u8]) -> u32
    ensures value { result ≡ cond (too_short 16 out.old) code26 done_code }
    ensures out_after { out.new ≡ cond (too_short 16 out.old) out.old (stretch_out out.old (stretch_of fixed.now need.now list day)) }
{
    if out.len() < 16 {
        return Refusal::alone(26).code();
    }
    let s = stretch_of(fixed, need, list, day);
    put_numbers(out, &[u64::from(s.at), u64::from(s.length)]);
    done()
}

// A day's four sums.
pub fn chivetassel_day_sums(plan: &[u8], day: u32, out: &mut [u8]) -> u32
    ensures value { result ≡ cond (too_short 32 out.old) code26 (code_in (verdict_of plan.now)) }
    ensures out_after { out.new ≡ cond (too_short 32 out.old) out.old (sums_out out.old (verdict_of plan.now) (day_sums plan.now day)) }
{
    if out.len() < 32 {
        return Refusal::alone(26).code();
    }
    let answer = verdict(plan);
    if answer.is_ok() {
        let sums = day_sums(plan, day);
        put_numbers(out, &[sums[0][0], sums[0][1], sums[1][0], sums[1][1]]);
    }
    code_in(answer)
}

// Frees every slot of a register.
pub fn chivetassel_clear(register: &mut [u8]) -> u32
    ensures value { result ≡ code_of (answered register.old clear).refusal }
    ensures register_after { register.new ≡ after register.old clear }
{
    code_in(clear(register))
}

// Takes a plan into a register.
pub fn chivetassel_submit(register: &mut [u8], plan: &[u8]) -> u32
    ensures value { result ≡ code_of (answered register.old (submit plan.now)).refusal }
    ensures register_after { register.new ≡ after register.old (submit plan.now) }
{
    code_in(submit(register, plan))
}

// Signs a plan that is held.
pub fn chivetassel_sign(register: &mut [u8], signer: u32, plan: &[u8]) -> u32
    ensures value { result ≡ code_of (answered register.old (sign signer plan.now)).refusal }
    ensures register_after { register.new ≡ after register.old (sign signer plan.now) }
{
    code_in(sign(register, signer, plan))
}

// Gives a plan that two have signed.
pub fn chivetassel_release(register: &[u8], number: u32, room: &mut [u8], out: &mut [u8]) -> u32
    ensures value { result ≡ cond (too_short 8 out.old) code26 (code_of (answered register.now (release number room.old)).refusal) }
    ensures room_after { room.new ≡ cond (too_short 8 out.old) room.old (room_after register.now number room.old) }
    ensures out_after { out.new ≡ cond (too_short 8 out.old) out.old (released_out out.old (answered register.now (release number room.old))) }
{
    if out.len() < 8 {
        return Refusal::alone(26).code();
    }
    let answer = release(register, number, room);
    if let Ok(length) = answer {
        put_numbers(out, &[u64::from(length)]);
    }
    code_in(answer)
}

// Drops a plan.
pub fn chivetassel_drop(register: &mut [u8], number: u32) -> u32
    ensures value { result ≡ code_of (answered register.old (dropped number)).refusal }
    ensures register_after { register.new ≡ after register.old (dropped number) }
{
    code_in(drop_plan(register, number))
}

// A held plan's revision, and how many have signed it.
pub fn chivetassel_state(register: &[u8], number: u32, out: &mut [u8]) -> u32
    ensures value { result ≡ cond (too_short 16 out.old) code26 (code_of (answered register.now (state number)).refusal) }
    ensures out_after { out.new ≡ cond (too_short 16 out.old) out.old (state_out out.old (answered register.now (state number))) }
{
    if out.len() < 16 {
        return Refusal::alone(26).code();
    }
    let answer = state_of(register, number);
    if let Ok(x) = answer {
        put_numbers(out, &[u64::from(x.revision), u64::from(x.signers)]);
    }
    code_in(answer)
}
