// The calls that leave the register as it is.
ghost use Rattle.std.specs.Prelude.{cond, ◌≡◌, eqb, Ok, Err};
ghost use Rattle.refusal.specs.Refusals.{alone};
ghost use Rattle.register.specs.Slots.{held_at, is_held, first_signer, second_signer};
ghost use Rattle.register.specs.Steps.{Call.release, Call.state, signers_in, room_after, Called};
ghost use Rattle.register.specs.Paper.{released, stated};

use crate::State;
use crate::slots::{Slot, first_signer, has_two, held_in, plan_in, second_signer, slots_of};
use crate::sound::check_sound;
use block::put_bytes;
use plan::revision_of;
use refusal::Refusal;

// The room that release asks for.
const ROOM: usize = 16384;

// Puts the plan with this number into the room, and gives its length.
pub fn release(register: &[u8], number: u32, room: &mut [u8]) -> Result<u32, Refusal>
    ensures { Called register.now (release number room.old) released result register.now × (room.new ≡ room_after register.now number room.old) }
{
    check_sound(register)?;
    if room.len() < ROOM {
        return Err(Refusal::alone(39));
    }
    let held = held_in(register, number)?;
    let slot = &slots_of(register)[held];
    if !has_two(slot) {
        return Err(Refusal::alone(38));
    }
    let plan = plan_in(slot);
    put_bytes(room, 0, plan);
    Ok(plan.len() as u32)
}

// How many signers stand.
fn signers_in(slot: &Slot) -> u8
    ensures { result ≡ signers_in slot.now }
{
    match (first_signer(slot), second_signer(slot)) {
        (0, _) => 0,
        (_, 0) => 1,
        _ => 2,
    }
}

// The revision of the plan with this number, and how many have signed it.
pub fn state_of(register: &[u8], number: u32) -> Result<State, Refusal>
    ensures { Called register.now (state number) stated result register.now }
{
    check_sound(register)?;
    let held = held_in(register, number)?;
    let slot = &slots_of(register)[held];
    Ok(State {
        revision: revision_of(plan_in(slot)),
        signers: signers_in(slot),
    })
}
