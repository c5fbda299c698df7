// What a choice says of a dose, and of a period's class.
ghost use Rattle.std.specs.Prelude.{◌≡◌};
ghost use Rattle.need.specs.Need.{choice_of, chosen, is_choice};
ghost use Rattle.need.specs.Telling.{number_stops};

use plan::{Dose, is_marked, upper_of};

// Does a dose count by the choice?
// Kept: a `match` of the choice is slower: its jumps stay in the loops of the walk, 5 percent of the time of 28 doses in rounds of 7 days.
fn is_counting(choice: u32, d: Dose) -> bool
    ensures { result ≡ (choice_of choice).counts d }
{
    if (choice == 1) | (choice == 2) {
        return !is_marked(d);
    }
    if choice == 4 {
        return is_marked(d);
    }
    choice == 3
}

// What a dose counts by the choice.
pub fn amount(choice: u32, d: Dose) -> u64
    ensures { result ≡ chosen choice d }
{
    if is_counting(choice, d) {
        if choice == 1 {
            return d.low;
        }
        return upper_of(d);
    }
    0
}

// Does the last day of a period whose class has this number count for the stop day? 0 is empty, 1 fixed, 2 need and 3 mixed.
// Kept: a class by its number, since `told_by` promises an answer at every number.
pub(crate) fn is_stopping(choice: u32, class: u8) -> bool
    ensures { result ≡ number_stops choice class }
{
    if (choice == 1) | (choice == 2) {
        return (class == 1) | (class == 3);
    }
    if choice == 4 {
        return (class == 2) | (class == 3);
    }
    (choice == 3) & (class != 0)
}

// Is it one of the four choices?
pub fn is_choice(choice: u32) -> bool
    ensures { result ≡ is_choice choice }
{
    (1..=4).contains(&choice)
}
