// What a plan's bytes are made of: its head and its periods, and how they are read from the bytes. How they are laid out in
// blocks stands in specs/Layout.antt; that reading is the inverse of laying out, and laying out that of reading, in
// proofs/.
#![tactic(auto)]

ghost use Rattle.std.specs.Prelude.{◌≡◌};
ghost use Rattle.layout.specs.Reading.{head_of, header_at};

use plan::{
    Head, Header, block_of, end_of, first_of, header_of, plan_number_of, revision_of, unit_of,
    vka_of,
};

// The head of a plan.
pub fn head_of(plan: &[u8]) -> Head
    ensures { result ≡ head_of plan.now }
{
    let block = block_of(plan, 0);
    Head {
        unit: unit_of(block),
        start: first_of(block),
        end: end_of(block),
        number: plan_number_of(block),
        revision: revision_of(block),
        vka: vka_of(block),
    }
}

// The period at block b, without its doses.
#[tactic(auto, unfolding(crate::specs::Reading::header_at))]
pub fn header_at(plan: &[u8], b: u8) -> Header
    ensures { result ≡ header_at plan.now b }
{
    header_of(block_of(plan, b as u16))
}
