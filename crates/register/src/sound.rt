// The soundness of a register, slot by slot.
ghost use Rattle.std.specs.Prelude.{◌≡◌, ◌≤◌, ◌<◌, ◌&&◌, not, cond, Ok, Err};
ghost use Rattle.refusal.specs.Refusals.{alone};
ghost use Rattle.register.specs.Slots.{slots_of, slot_at, blocks_in};
ghost use Rattle.register.specs.Sound.{control_right, signers_right, content_right, slot_right, clashes, sound};

use crate::slots::{
    Slot, blocks_in, first_signer, holds, is_free, plan_in, second_signer, slots_of,
};
use block::{SIZE, byte_at, is_zero, sums_right};
use plan::plan_number_of;
use refusal::Refusal;
use verdict::verdict;

// Is a slot's control block right in form and sums?
#[tactic(auto, unfolding(crate::specs::Sound::control_right))]
fn control_right(slot: &Slot) -> bool
    ensures { result ≡ control_right slot.now }
{
    byte_at(slot, 0) == 4
        && blocks_in(slot) <= 32
        && is_zero(&slot[2..4])
        && is_zero(&slot[12..504])
        && sums_right(&slot[..SIZE])
}

// Does a second signer stand only beside a different first?
fn signers_right(slot: &Slot) -> bool
    ensures { result ≡ signers_right slot.now }
{
    let first = first_signer(slot);
    let second = second_signer(slot);
    second == 0 || (first != 0 && first != second)
}

// A free slot has no signers, a held plan is accepted, and behind it there is nothing but zero.
#[tactic(auto, using(crate::proofs::Reading::rest_is))]
fn content_right(slot: &Slot) -> bool
    requires { blocks_in slot.now ≤ 32 }
    ensures { result ≡ content_right slot.now }
{
    let behind = SIZE + usize::from(blocks_in(slot)) * SIZE;
    let right = if is_free(slot) {
        first_signer(slot) == 0 && second_signer(slot) == 0
    } else {
        verdict(plan_in(slot)).is_ok()
    };
    right && is_zero(&slot[behind..])
}

// Is a slot as a sound register has it?
#[tactic(auto, using(crate::proofs::Reading::control_blocks), unfolding(crate::specs::Sound::slot_right))]
fn slot_right(slot: &Slot) -> bool
    ensures { result ≡ slot_right slot.now }
{
    control_right(slot) && signers_right(slot) && content_right(slot)
}

// Does slot j hold the number of a slot ahead of it?
fn clashes(register: &[u8], j: usize) -> bool
    requires { j < slots_of register.now }
    ensures { result ≡ clashes register.now j }
{
    let slots = slots_of(register);
    let slot = &slots[j];
    if is_free(slot) {
        return false;
    }
    let number = plan_number_of(plan_in(slot));
    slots[..j].iter().any(|ahead| holds(ahead, number))
}

// Is slot j right, and does it not clash?
fn fits(register: &[u8], j: usize) -> bool
    requires { j < slots_of register.now }
    ensures { result ≡ (slot_right (slot_at register.now j) && not (clashes register.now j)) }
{
    slot_right(&slots_of(register)[j]) && !clashes(register, j)
}

// Is a register sound? No slot is judged behind the first that does not fit.
fn is_sound(register: &[u8]) -> bool
    ensures { result ≡ sound register.now }
{
    let slots = slots_of(register);
    !slots.is_empty() && (0..slots.len()).all(|j| fits(register, j))
}

// What every call asks but clear.
pub(crate) fn check_sound(register: &[u8]) -> Result<(), Refusal>
    ensures { result ≡ cond (sound register.now) (Ok tt) (Err (alone 30)) }
{
    if is_sound(register) {
        Ok(())
    } else {
        Err(Refusal::alone(30))
    }
}
