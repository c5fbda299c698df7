// The ways in to supply and to the set of dates with the packed pauses of the C calls: they are unpacked, and lent as records.
ghost use Rattle.std.specs.Prelude.{◌≡◌};
ghost use Rattle.supply.specs.Dates.{packed_dates_of};
ghost use Rattle.supply.specs.Supply.{packed_supply_of};

use crate::lent::{dates_of, supply_of};
use crate::{Dates, Lasting};
use pause::{packed_count, packed_records};
use refusal::Refusal;

// How far a pack lasts, with pauses of 8 bytes each. Another length is 21.
pub fn supply_packed(
    plan: &[u8],
    start: u32,
    pack: u64,
    choice: u32,
    pauses: &[u8],
) -> Result<Lasting, Refusal>
    ensures { result ≡ packed_supply_of plan.now start pack choice pauses.now }
{
    let records = packed_records(pauses);
    supply_of(plan, start, pack, choice, &records[..packed_count(pauses)])
}

// The set of dates likewise.
pub fn dates_packed(plan: &[u8], start: u32, pack: u64, pauses: &[u8]) -> Result<Dates, Refusal>
    ensures { result ≡ packed_dates_of plan.now start pack pauses.now }
{
    let records = packed_records(pauses);
    dates_of(plan, start, pack, &records[..packed_count(pauses)])
}
