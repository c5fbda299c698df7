// The C library: each call of the crate screen under its C name, with the clauses of that call. include/chivetassel.h declares them.
// It is a crate of its own since a crate is a library or an archive for C, and never both.
#![tactic(auto)]

ghost use Rattle.std.specs.Prelude.{◌≡◌, true, false, cond};
ghost use Rattle.verdict.specs.Verdict.{verdict_of};
ghost use Rattle.doses.specs.Doses.{day_sums};
ghost use Rattle.supply.specs.Dates.{packed_dates_of};
ghost use Rattle.supply.specs.Supply.{packed_supply_of};
ghost use Rattle.refusal.specs.Refusals.{code_of, done_code, code_in};
ghost use Rattle.split.specs.Parts.{part_bytes};
ghost use Rattle.split.specs.Split.{split_of, left_by};
ghost use Rattle.showing.specs.Showing.{stretch_of};
ghost use Rattle.register.specs.Steps.{Call.clear, Call.submit, Call.sign, Call.release, Call.drop as dropped, Call.state, answered, after, room_after};
ghost use Rattle.screen.specs.Calls.{version, too_short, code26, supply_out, dates_out, split_out, stretch_out, released_out, state_out, sums_out};

// The version of the header that declares these calls, so that a caller sees whether this library is that header's.
#[unsafe(no_mangle)]
pub extern "C" fn chivetassel_version() -> u32
    ensures { result ≡ version }
{
    screen::chivetassel_version()
}

// The verdict on a plan: the number plus 256 times the place.
#[unsafe(no_mangle)]
pub extern "C" fn chivetassel_verdict(plan: &[u8]) -> u32
    ensures { result ≡ code_in (verdict_of plan.now) }
{
    screen::chivetassel_verdict(plan)
}

// How far a pack lasts.
#[unsafe(no_mangle)]
pub extern "C" fn chivetassel_supply(
    plan: &[u8],
    start: u32,
    pack: u64,
    choice: u32,
    pauses: &[u8],
    out: &mut [u8],
) -> u32
    ensures value { result ≡ cond (too_short 32 out.old) code26 (code_in (packed_supply_of plan.now start pack choice pauses.now)) }
    ensures out_after { out.new ≡ cond (too_short 32 out.old) out.old (supply_out out.old (packed_supply_of plan.now start pack choice pauses.now)) }
{
    screen::chivetassel_supply(plan, start, pack, choice, pauses, out)
}

// The dates that the counter wants.
#[unsafe(no_mangle)]
pub extern "C" fn chivetassel_dates(
    plan: &[u8],
    start: u32,
    pack: u64,
    pauses: &[u8],
    out: &mut [u8],
) -> u32
    ensures value { result ≡ cond (too_short 40 out.old) code26 (code_in (packed_dates_of plan.now start pack pauses.now)) }
    ensures out_after { out.new ≡ cond (too_short 40 out.old) out.old (dates_out out.old (packed_dates_of plan.now start pack pauses.now)) }
{
    screen::chivetassel_dates(plan, start, pack, pauses, out)
}

// A plan into its two parts.
#[unsafe(no_mangle)]
pub extern "C" fn chivetassel_split(
    plan: &[u8],
    fixed: &mut [u8],
    need: &mut [u8],
    out: &mut [u8],
) -> u32
    ensures value { result ≡ cond (too_short 16 out.old) code26 (code_in (split_of plan.now fixed.old need.old)) }
    ensures fixed_after { fixed.new ≡ cond (too_short 16 out.old) fixed.old (left_by (split_of plan.now fixed.old need.old) (part_bytes false plan.now) fixed.old) }
    ensures need_after { need.new ≡ cond (too_short 16 out.old) need.old (left_by (split_of plan.now fixed.old need.old) (part_bytes true plan.now) need.old) }
    ensures out_after { out.new ≡ cond (too_short 16 out.old) out.old (split_out out.old (split_of plan.now fixed.old need.old)) }
{
    screen::chivetassel_split(plan, fixed, need, out)
}

// The blocks of a part's first period that has the day, by their place in the wanted part.
#[unsafe(no_mangle)]
pub extern "C" fn chivetassel_show_day(
    fixed: &[u8],
    need: &[u8],
    list: u32,
    day: u32,
    out: &mut [u8],
) -> u32
    ensures value { result ≡ cond (too_short 16 out.old) code26 done_code }
    ensures out_after { out.new ≡ cond (too_short 16 out.old) out.old (stretch_out out.old (stretch_of fixed.now need.now list day)) }
{
    screen::chivetassel_show_day(fixed, need, list, day, out)
}

// A day's four sums.
#[unsafe(no_mangle)]
pub extern "C" fn chivetassel_day_sums(plan: &[u8], day: u32, out: &mut [u8]) -> u32
    ensures value { result ≡ cond (too_short 32 out.old) code26 (code_in (verdict_of plan.now)) }
    ensures out_after { out.new ≡ cond (too_short 32 out.old) out.old (sums_out out.old (verdict_of plan.now) (day_sums plan.now day)) }
{
    screen::chivetassel_day_sums(plan, day, out)
}

// Frees every slot of a register.
#[unsafe(no_mangle)]
pub extern "C" fn chivetassel_clear(register: &mut [u8]) -> u32
    ensures value { result ≡ code_of (answered register.old clear).refusal }
    ensures register_after { register.new ≡ after register.old clear }
{
    screen::chivetassel_clear(register)
}

// Takes a plan into a register.
#[unsafe(no_mangle)]
pub extern "C" fn chivetassel_submit(register: &mut [u8], plan: &[u8]) -> u32
    ensures value { result ≡ code_of (answered register.old (submit plan.now)).refusal }
    ensures register_after { register.new ≡ after register.old (submit plan.now) }
{
    screen::chivetassel_submit(register, plan)
}

// Signs a plan that is held.
#[unsafe(no_mangle)]
pub extern "C" fn chivetassel_sign(register: &mut [u8], signer: u32, plan: &[u8]) -> u32
    ensures value { result ≡ code_of (answered register.old (sign signer plan.now)).refusal }
    ensures register_after { register.new ≡ after register.old (sign signer plan.now) }
{
    screen::chivetassel_sign(register, signer, plan)
}

// Gives a plan that two have signed.
#[unsafe(no_mangle)]
pub extern "C" fn chivetassel_release(
    register: &[u8],
    number: u32,
    room: &mut [u8],
    out: &mut [u8],
) -> u32
    ensures value { result ≡ cond (too_short 8 out.old) code26 (code_of (answered register.now (release number room.old)).refusal) }
    ensures room_after { room.new ≡ cond (too_short 8 out.old) room.old (room_after register.now number room.old) }
    ensures out_after { out.new ≡ cond (too_short 8 out.old) out.old (released_out out.old (answered register.now (release number room.old))) }
{
    screen::chivetassel_release(register, number, room, out)
}

// Drops a plan.
#[unsafe(no_mangle)]
pub extern "C" fn chivetassel_drop(register: &mut [u8], number: u32) -> u32
    ensures value { result ≡ code_of (answered register.old (dropped number)).refusal }
    ensures register_after { register.new ≡ after register.old (dropped number) }
{
    screen::chivetassel_drop(register, number)
}

// A held plan's revision, and how many have signed it.
#[unsafe(no_mangle)]
pub extern "C" fn chivetassel_state(register: &[u8], number: u32, out: &mut [u8]) -> u32
    ensures value { result ≡ cond (too_short 16 out.old) code26 (code_of (answered register.now (state number)).refusal) }
    ensures out_after { out.new ≡ cond (too_short 16 out.old) out.old (state_out out.old (answered register.now (state number))) }
{
    screen::chivetassel_state(register, number, out)
}
