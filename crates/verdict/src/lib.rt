// The verdict, by document 01: a plan is accepted exactly when no rule is broken.
#![tactic(auto)]

mod classed_plan;
mod coverage;
mod holes;
mod order;
mod sharing;
mod usual;

pub use classed_plan::ClassedPlan;
pub use order::{verdict, verdict_with_classes};

// The groups of periods that rule 17 names.
#[derive(Clone, Copy, PartialEq, Eq, Debug)]
pub enum Group {
    All,
    Fixed,
    Need,
    FixedOrEmpty,
    NeedOrEmpty,
}
