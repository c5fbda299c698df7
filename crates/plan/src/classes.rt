// What a class says of a period's doses.
ghost use Rattle.std.specs.Prelude.{◌≡◌};
ghost use Rattle.plan.specs.Classes.{is_empty, has_fixed, has_need};
ghost use Rattle.plan.specs.Periods.{class_by};

use crate::Class;

impl Class {
    // No doses at all?
    pub fn is_empty(self) -> bool
        ensures { result ≡ is_empty self }
    {
        self == Class::Empty
    }

    // Unmarked doses?
    pub fn has_fixed(self) -> bool
        ensures { result ≡ has_fixed self }
    {
        matches!(self, Class::Fixed | Class::Mixed)
    }

    // Marked doses?
    pub fn has_need(self) -> bool
        ensures { result ≡ has_need self }
    {
        matches!(self, Class::Need | Class::Mixed)
    }
}

// The class by what doses there are.
pub fn class_by(unmarked: bool, marked: bool) -> Class
    ensures { result ≡ class_by unmarked marked }
{
    match (unmarked, marked) {
        (false, false) => Class::Empty,
        (true, false) => Class::Fixed,
        (false, true) => Class::Need,
        (true, true) => Class::Mixed,
    }
}
