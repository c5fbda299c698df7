// A plan with the classes of its periods, which are worked out once for all that asks for them.
ghost use Rattle.std.specs.Prelude.{◌≡◌, true, ◌<◌, get_or};
ghost use Rattle.plan.specs.Periods.{blocks_of, is_period, class_of};
ghost use Rattle.verdict.specs.Code.Ready.{Classed};

use plan::Class;

// Entry b of the classes is that of the period at block b; the other entries say nothing. Both are lent: to hand the classes on
// by value would wait for the byte just stored.
#[derive(Clone, Copy)]
pub struct ClassedPlan<'a> {
    pub plan: &'a [u8],
    pub classes: &'a [Class; 32],
    pub ghost classed: { Classed plan.now classes.now },
}

impl ClassedPlan<'_> {
    // How many blocks the plan has.
    pub fn blocks(self) -> u8
        ensures { result ≡ blocks_of self.entry.plan.now }
    {
        (self.plan.len() / 512) as u8
    }

    // Entry b of the classes: the class of the period at block b, if one begins there.
    pub fn class_at(self, b: u8) -> Class
        ensures value { result ≡ get_or self.entry.classes.now b Class.Empty }
        ensures known { b < blocks_of self.entry.plan.now → is_period self.entry.plan.now b ≡ true → result ≡ class_of self.entry.plan.now b }
    {
        let classes = self.classes;
        classes.get(b as usize).copied().unwrap_or(Class::Empty)
    }
}
