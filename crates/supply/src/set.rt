// The set of dates, from the supplies of its choices.
ghost use Rattle.std.specs.Prelude.{◌≡◌, cond};
ghost use Rattle.day.specs.Days.{open_mark};
ghost use Rattle.supply.specs.Supply.{lasting_in};
ghost use Rattle.supply.specs.Code.Asking.{set_from};

use crate::ask::Asked;
use crate::{Dates, Lasting};
use day::Day;
use refusal::Refusal;

// The last covered day of a supply, where it is wanted: absent where it is not, or where there is none.
fn date_if(wanted: bool, supply: Result<Lasting, Refusal>) -> u32
    ensures { result ≡ cond wanted (lasting_in supply).last open_mark }
{
    match supply {
        Ok(x) if wanted => x.last,
        _ => Day::OPEN.number,
    }
}

// The set. A choice that was not asked for has no date in it.
pub(crate) fn set_of(
    a: Asked,
    low: Result<Lasting, Refusal>,
    upper: Result<Lasting, Refusal>,
    both: Result<Lasting, Refusal>,
    needed: Result<Lasting, Refusal>,
) -> Dates
    ensures { result ≡ set_from a low upper both needed }
{
    Dates {
        end: date_if(!a.upper, low),
        minimum: date_if(a.upper, low),
        maximum: date_if(a.upper, upper),
        third: date_if(a.needed, both),
        fourth: date_if(a.needed, needed),
    }
}
