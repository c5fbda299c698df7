// Which periods count by a choice, told in a number: a bit for each block, the first the lowest. They are made once, of the classes that
// come with the verdict; a walk carries the number, where the array of the classes would be copied with it.
ghost use Rattle.std.specs.Prelude.{◌≡◌, ◌+◌, ◌*◌, ◌<◌, ◌≤◌, min, ◌||◌, if◌then◌else◌};
ghost use Rattle.need.specs.Telling.{is_set, number_of, number_stops, told_by, told_of, bits_in};

use crate::Told;
use crate::choice::is_stopping;
use plan::Class;

// The bits with that of a block more, ahead of the others.
fn with_bit(bits: u32, t: bool) -> u32
    requires { bits < 2147483648 }
    ensures { result ≡ (if t then 1 else 0) + 2 * bits }
{
    bits * 2 + u32::from(t)
}

// The same of all choices, by the number of the class of the block's period.
fn with_class(x: Told, class: u8) -> Told
    requires { (x.fixed < 2147483648) × (x.dosed < 2147483648) × (x.needed < 2147483648) }
    ensures { (result.fixed ≡ (if number_stops 1 class then 1 else 0) + 2 * x.fixed) × (result.dosed ≡ (if number_stops 3 class then 1 else 0) + 2 * x.dosed) × (result.needed ≡ (if number_stops 4 class then 1 else 0) + 2 * x.needed) }
{
    Told {
        fixed: with_bit(x.fixed, is_stopping(1, class)),
        dosed: with_bit(x.dosed, is_stopping(3, class)),
        needed: with_bit(x.needed, is_stopping(4, class)),
    }
}

// The bits of the plan's blocks, 32 at the most. `classes` has the number of the class of the period at each block (`number_of`). A
// number that no class has is not that of an empty period: it counts by choice 3 alone.
pub fn told_by(plan: &[u8], classes: [u8; 32]) -> Told
    ensures { result ≡ told_by classes plan.now }
{
    let mut x = Told {
        fixed: 0,
        dosed: 0,
        needed: 0,
    };
    for b in (0..(plan.len() / 512).min(32)).rev() {
        x = with_class(x, classes[b]);
    }
    x
}

// The number of a class.
fn number_of(class: Class) -> u8
    ensures { result ≡ number_of class }
{
    match class {
        Class::Empty => 0,
        Class::Fixed => 1,
        Class::Need => 2,
        Class::Mixed => 3,
    }
}

// The same by the classes themselves, as they come with the verdict.
// Kept: a loop, since `classes.map(number_of)` takes eight times as long, about 100 ns more.
pub fn told_of(plan: &[u8], classes: [Class; 32]) -> Told
    ensures { result ≡ told_of classes plan.now }
{
    let mut numbers = [0; 32];
    for (b, class) in classes.iter().enumerate() {
        numbers[b] = number_of(*class);
    }
    told_by(plan, numbers)
}

// The bits of a choice.
pub fn bits_by(x: Told, choice: u32) -> u32
    ensures { result ≡ bits_in x choice }
{
    match choice {
        1 | 2 => x.fixed,
        3 => x.dosed,
        4 => x.needed,
        _ => 0,
    }
}

// Is the lowest bit set?
pub fn is_odd(bits: u32) -> bool
    ensures { result ≡ is_set bits 0 }
{
    bits % 2 == 1
}
