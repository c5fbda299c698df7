// The two parts of a plan, and what goes into each.
ghost use Rattle.std.specs.Prelude.{◌≡◌};
ghost use Rattle.std.specs.Bool.{beq};
ghost use Rattle.plan.specs.Classes.{same_class};
ghost use Rattle.verdict.specs.Coverage.{in_group};
ghost use Rattle.split.specs.Parts.{group_of};
ghost use Rattle.split.specs.Code.Wanted.{is_need, own_class};

use plan::Class;

#[derive(Clone, Copy, PartialEq, Eq)]
pub(crate) enum Part {
    Fixed,
    Need,
}

impl Part {
    // Is a dose with the need mark, or one without it, of the part?
    pub(crate) fn has_mark(self, marked: bool) -> bool
        ensures { result ≡ beq marked (is_need self) }
    {
        marked == (self == Part::Need)
    }

    // Has a period of the class doses of the part?
    pub(crate) fn has(self, class: Class) -> bool
        ensures { result ≡ in_group (group_of (is_need self)) class }
    {
        match self {
            Part::Fixed => class.has_fixed(),
            Part::Need => class.has_need(),
        }
    }

    // Has it those, and no others?
    pub(crate) fn has_alone(self, class: Class) -> bool
        ensures { result ≡ same_class class (own_class (is_need self)) }
    {
        match self {
            Part::Fixed => class == Class::Fixed,
            Part::Need => class == Class::Need,
        }
    }
}
