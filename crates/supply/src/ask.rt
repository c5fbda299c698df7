// What is asked, judged once, by however many choices it is then walked: the verdict, then refusals 20 to 22 in their order.
ghost use Rattle.std.specs.Prelude.{◌≡◌};
ghost use Rattle.supply.specs.Supply.{asked_by};
ghost use Rattle.supply.specs.Code.Asking.{unless_given, ForSupply, ForDates};

use crate::wanted::{is_needed, is_ranging};
use day::Day;
use need::{Told, told_of};
use refusal::{Refusal, refusal_in};
use verdict::verdict_with_classes;

// The largest pack.
const PACK_LIMIT: u64 = 1000000000000;

// A start day and a pack, and which of the plan's periods count by each choice. A set of dates does not ask for every choice: for 2 only
// where `upper` says so, for 3 and 4 only where `needed` does.
#[derive(Clone, Copy)]
pub(crate) struct Asked {
    pub upper: bool,
    pub needed: bool,
    pub start: u32,
    pub told: Told,
    pub pack: u64,
}

// The first of 20 to 22, where one is given. `out` says that 21 is due, in its turn.
fn asked_by(start: u32, pack: u64, out: bool) -> Result<(), Refusal>
    ensures { result ≡ unless_given (asked_by start pack out 0) tt }
{
    if PACK_LIMIT < pack {
        return Err(Refusal::alone(20));
    }
    if out {
        return Err(Refusal::alone(21));
    }
    if !Day::new(start).is_day() {
        return Err(Refusal::alone(22));
    }
    Ok(())
}

// For supply, by any choice.
pub(crate) fn ask(plan: &[u8], start: u32, pack: u64, out: bool) -> Result<Asked, Refusal>
    ensures { ForSupply plan.now start pack out result }
{
    // Kept: document 01 names let .. else for this place, and no `?`.
    let answer = verdict_with_classes(plan);
    let Ok(classes) = answer else {
        return Err(refusal_in(answer));
    };
    asked_by(start, pack, out)?;
    Ok(Asked {
        upper: true,
        needed: true,
        start,
        told: told_of(plan, classes),
        pack,
    })
}

// For the set of dates: by the choices that it has a date of.
pub(crate) fn ask_dates(plan: &[u8], start: u32, pack: u64, out: bool) -> Result<Asked, Refusal>
    ensures { ForDates plan.now start pack out result }
{
    let asked = ask(plan, start, pack, out)?;
    Ok(Asked {
        upper: is_ranging(plan, start, asked.told.fixed),
        needed: is_needed(plan, start, asked.told.needed),
        ..asked
    })
}
