// The doses of one period, with what the rules over them go by.
ghost use Rattle.std.specs.Prelude.{◌≡◌, ◌≤◌};
ghost use Rattle.plan.specs.Fields.{header_of};
ghost use Rattle.plan.specs.Periods.{doses_of, block_at};
ghost use Rattle.period.specs.Period.{limit_of};

use crate::header::limit_of;
use plan::{Header, doses_of};

// The n doses of the period at block b, and the largest day number that it has room for, 0 where nothing limits it.
#[derive(Clone, Copy)]
pub(crate) struct Doses<'a> {
    pub plan: &'a [u8],
    pub b: u8,
    pub n: u16,
    pub limit: u32,
    ghost counted: { n ≡ doses_of plan.now b },
    ghost few: { n ≤ 1515 },
    ghost limited: { limit ≡ limit_of (block_at plan.now b) },
}

impl Doses<'_> {
    // The doses of the period that has this header.
    pub(crate) fn with_header(plan: &[u8], b: u8, h: Header) -> Doses<'_>
        requires { h ≡ header_of (block_at plan.now b) }
        ensures { (result.plan.now ≡ plan.now) × (result.b ≡ b) }
    {
        Doses {
            plan,
            b,
            n: doses_of(plan, b),
            limit: limit_of(h),
        }
    }
}
