// Where the walk by a choice begins: the choice's own refusals, 23 and 24, and else the first day.
ghost use Rattle.std.specs.Prelude.{◌≡◌, is_some, unwrap_or};
ghost use Rattle.supply.specs.Supply.{own_by};
ghost use Rattle.supply.specs.Code.Asking.{is_asked, unless_given, Judged, Begun};

use crate::ask::Asked;
use crate::today::NO_DAY;
use crate::walk::Walk;
use need::{bits_by, is_choice, stop_of};
use refusal::Refusal;

// Is the choice asked for?
fn is_asked(a: Asked, choice: u32) -> bool
    ensures { result ≡ is_asked a choice }
{
    if choice == 2 {
        return a.upper;
    }
    if 2 < choice {
        return a.needed;
    }
    true
}

// The first of 23 and 24, where one is given, and else the stop day.
#[tactic(auto, unfolding(crate::specs::Supply::own_by))]
fn own_stop(start: u32, choice: u32, stop: Option<u32>) -> Result<u32, Refusal>
    ensures { result ≡ unless_given (own_by start choice (is_some stop) (unwrap_or stop 0)) (unwrap_or stop 0) }
{
    if !is_choice(choice) {
        return Err(Refusal::alone(23));
    }
    match stop {
        Some(day) if start <= day => Ok(day),
        _ => Err(Refusal::alone(24)),
    }
}

// The walk as it begins, or refused. A choice that is not asked for is refused as no choice.
pub(crate) fn begin(plan: &[u8], asked: Asked, choice: u32) -> Result<Walk, Refusal>
    requires { Judged plan.now asked }
    ensures { Begun plan.now asked choice result }
{
    if !is_asked(asked, choice) {
        return Err(Refusal::alone(23));
    }
    let chosen = bits_by(asked.told, choice);
    let stop = own_stop(asked.start, choice, stop_of(plan, chosen))?;
    Ok(Walk {
        chosen,
        start: asked.start,
        stop,
        end: stop + 1,
        day: asked.start,
        count: 0,
        rest: asked.pack,
        today: NO_DAY,
    })
}
