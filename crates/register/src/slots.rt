// The slots of a register, and what stands in one.
ghost use Rattle.std.specs.Prelude.{◌≡◌, ◌≤◌, ◌<◌, ℕ, cond, not, eqb, length, get_or, [], Some, None, Ok, Err};
ghost use Rattle.refusal.specs.Refusals.{alone};
ghost use Rattle.register.specs.Slots.{slots_of, slot_at, blocks_in, first_signer, second_signer, is_free, plan_in, holds, held_at, is_held, free_at, has_free};

use block::{SIZE, byte_at, word_at};
use plan::plan_number_of;
use refusal::Refusal;

// The bytes of a slot.
pub(crate) const SLOT: usize = 16896;

pub(crate) type Slot = [u8; SLOT];

// The slots that a register has at most.
const LIMIT: usize = 64;

// The slots of a register. The bytes behind them belong to none.
pub(crate) fn slots_of(register: &[u8]) -> &[Slot]
    ensures { (length result.now ≡ slots_of register.now) × ((i : ℕ) → i < slots_of register.now → get_or result.now i [] ≡ slot_at register.now i) }
{
    let (slots, _) = register.as_chunks::<SLOT>();
    &slots[..slots.len().min(LIMIT)]
}

// The blocks of the plan that a slot holds, 0 where it is free.
pub(crate) fn blocks_in(slot: &Slot) -> u8
    ensures { result ≡ blocks_in slot.now }
{
    byte_at(slot, 1)
}

pub(crate) fn is_free(slot: &Slot) -> bool
    ensures { result ≡ is_free slot.now }
{
    blocks_in(slot) == 0
}

// The first signer, 0 where there is none.
// Kept: a number and no Option, here and of the second: a 0 is compared with no signer's number, and goes back into a slot as it is.
pub(crate) fn first_signer(slot: &Slot) -> u32
    ensures { result ≡ first_signer slot.now }
{
    word_at(slot, 4)
}

// The second signer, 0 where there is none.
pub(crate) fn second_signer(slot: &Slot) -> u32
    ensures { result ≡ second_signer slot.now }
{
    word_at(slot, 8)
}

// Have two signed?
pub(crate) fn has_two(slot: &Slot) -> bool
    ensures { result ≡ not (eqb (second_signer slot.now) 0) }
{
    second_signer(slot) != 0
}

// The plan that a slot holds: a part in its middle. The slot's end cuts it short.
pub(crate) fn plan_in(slot: &Slot) -> &[u8]
    ensures { (result.now ≡ plan_in slot.now) × (length result.now ≤ 16384) }
{
    let end = SIZE + usize::from(blocks_in(slot)) * SIZE;
    &slot[SIZE..end.min(SLOT)]
}

// Does a slot hold a plan with this number?
pub(crate) fn holds(slot: &Slot, number: u32) -> bool
    ensures { result ≡ holds slot.now number }
{
    !is_free(slot) && plan_number_of(plan_in(slot)) == number
}

// The slot that holds this number.
pub(crate) fn held_at(register: &[u8], number: u32) -> Option<usize>
    ensures { result ≡ cond (is_held register.now number) (Some (held_at register.now number)) None }
{
    slots_of(register)
        .iter()
        .position(|slot| holds(slot, number))
}

// The same, of a number that is to be held.
pub(crate) fn held_in(register: &[u8], number: u32) -> Result<usize, Refusal>
    ensures { result ≡ cond (is_held register.now number) (Ok (held_at register.now number)) (Err (alone 33)) }
{
    held_at(register, number).ok_or(Refusal::alone(33))
}

// The lowest free slot.
pub(crate) fn free_at(register: &[u8]) -> Option<usize>
    ensures { result ≡ cond (has_free register.now) (Some (free_at register.now)) None }
{
    slots_of(register).iter().position(is_free)
}
