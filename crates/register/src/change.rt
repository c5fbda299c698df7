// The calls that write a register.
ghost use Rattle.std.specs.Prelude.{◌≡◌};
ghost use Rattle.register.specs.Steps.{Call.clear, Call.submit, Call.sign, Call.drop as dropped, Called};
ghost use Rattle.register.specs.Paper.{nothing};

use crate::fill::{free_slot, put_slot};
use crate::slots::{first_signer, free_at, has_two, held_at, held_in, plan_in, slots_of};
use crate::sound::check_sound;
use plan::{plan_number_of, revision_of};
use refusal::{Refusal, refusal_in};
use verdict::verdict;

// Frees every slot, whatever stood in it.
pub fn clear(register: &mut [u8]) -> Result<(), Refusal>
    ensures { Called register.old clear nothing result register.new }
{
    let n = slots_of(&*register).len();
    if n == 0 {
        return Err(Refusal::alone(30));
    }
    for i in 0..n {
        free_slot(&mut *register, i);
    }
    Ok(())
}

// Frees the slot of the plan with this number.
pub fn drop_plan(register: &mut [u8], number: u32) -> Result<(), Refusal>
    ensures { Called register.old (dropped number) nothing result register.new }
{
    check_sound(&*register)?;
    let held = held_in(&*register, number)?;
    free_slot(&mut *register, held);
    Ok(())
}

// Takes a plan in: in the place of the plan that has its number, or into the lowest free slot. Nobody has signed it then.
pub fn submit(register: &mut [u8], plan: &[u8]) -> Result<(), Refusal>
    ensures { Called register.old (submit plan.now) nothing result register.new }
{
    check_sound(&*register)?;
    // Kept: document 01 names let .. else for this place, and no `?`.
    let answer = verdict(plan);
    let Ok(_) = answer else {
        return Err(refusal_in(answer));
    };
    if let Some(held) = held_at(&*register, plan_number_of(plan)) {
        let old = &slots_of(&*register)[held];
        if revision_of(plan) <= revision_of(plan_in(old)) {
            return Err(Refusal::alone(32));
        }
        put_slot(&mut *register, held, plan, 0, 0);
        return Ok(());
    }
    let free = free_at(&*register).ok_or(Refusal::alone(31))?;
    put_slot(&mut *register, free, plan, 0, 0);
    Ok(())
}

// Signs the plan that is held, where it is byte for byte the one that the signer has seen.
pub fn sign(register: &mut [u8], signer: u32, plan: &[u8]) -> Result<(), Refusal>
    ensures { Called register.old (sign signer plan.now) nothing result register.new }
{
    check_sound(&*register)?;
    if signer == 0 {
        return Err(Refusal::alone(35));
    }
    verdict(plan)?;
    let held = held_in(&*register, plan_number_of(plan))?;
    let slot = &slots_of(&*register)[held];
    if plan != plan_in(slot) {
        return Err(Refusal::alone(34));
    }
    if has_two(slot) {
        return Err(Refusal::alone(37));
    }
    let first = first_signer(slot);
    if first == signer {
        return Err(Refusal::alone(36));
    }
    if first == 0 {
        put_slot(&mut *register, held, plan, signer, 0);
    } else {
        put_slot(&mut *register, held, plan, first, signer);
    }
    Ok(())
}
