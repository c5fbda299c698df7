// A slot's bytes, written.
ghost use Rattle.std.specs.Prelude.{◌≡◌, ◌≤◌, ◌<◌, length};
ghost use Rattle.register.specs.Slots.{slots_of, control_bytes, slot_bytes, with_slot};
ghost use Rattle.register.specs.Steps.{free_slot};

use crate::slots::SLOT;
use block::{SIZE, clear, put_bytes, put_word, seal};

// A control block: the plan's blocks, the signers and the sums.
fn control_block(blocks: u8, first: u32, second: u32) -> [u8; SIZE]
    ensures { result ≡ control_bytes blocks first second }
{
    let mut control = [0u8; SIZE];
    put_bytes(&mut control, 0, &[4, blocks]);
    put_word(&mut control, 4, first);
    put_word(&mut control, 8, second);
    seal(&mut control);
    control
}

// A slot: its control block, the plan, and zero behind it. No byte of the plan is written twice.
fn fill_slot(slot: &mut [u8], plan: &[u8], first: u32, second: u32)
    requires { (length slot.old ≡ 16896) × (length plan.now ≤ 16384) }
    ensures { slot.new ≡ slot_bytes plan.now first second }
{
    let blocks = (plan.len() / SIZE) as u8;
    put_bytes(&mut *slot, 0, &control_block(blocks, first, second));
    put_bytes(&mut *slot, SIZE, plan);
    clear(&mut slot[SIZE + plan.len()..]);
}

// Slot i is written anew.
pub(crate) fn put_slot(register: &mut [u8], i: usize, plan: &[u8], first: u32, second: u32)
    requires { (i < slots_of register.old) × (length plan.now ≤ 16384) }
    ensures { register.new ≡ with_slot register.old i (slot_bytes plan.now first second) }
{
    let from = i * SLOT;
    fill_slot(&mut register[from..from + SLOT], plan, first, second);
}

// Slot i is freed.
pub(crate) fn free_slot(register: &mut [u8], i: usize)
    requires { i < slots_of register.old }
    ensures { register.new ≡ with_slot register.old i free_slot }
{
    put_slot(register, i, &[], 0, 0);
}
