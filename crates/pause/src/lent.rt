// Pauses as a lent slice of records. Each function here is short, and leaves its work to functions on plain numbers and values.
ghost use Rattle.std.specs.Prelude.{◌≡◌, get_or};
ghost use Rattle.pause.specs.Pauses.{no_day, is_paused, are_out};
ghost use Rattle.pause.specs.Sight.{sight_of, sight_on};

use crate::test::{NO_DAY, NO_PAUSE, is_in, is_out, with_pause_in_sight};
use crate::{Pause, Sight};

// The pause at place `i` of the list; past the end, one that holds no day.
pub fn pause_at(ps: &[Pause], i: usize) -> Pause
    ensures { result ≡ get_or ps.now i no_day }
{
    ps.get(i).copied().unwrap_or(NO_DAY)
}

// Does some pause of the list hold the day? It goes through all of them: with no way out ahead of the end, several are tested at a time.
pub fn paused(ps: &[Pause], day: u32) -> bool
    ensures { result ≡ is_paused ps.now day }
{
    let mut hit = false;
    for p in ps {
        hit |= is_in(p.first, p.last, day);
    }
    hit
}

// 21: are there more than 32 pauses, or is one of them out? Here too all of them are looked at, several at a time.
pub fn are_out(ps: &[Pause]) -> bool
    ensures { result ≡ are_out ps.now }
{
    let mut out = false;
    for p in ps {
        out |= is_out(*p);
    }
    (32 < ps.len()) | out
}

// Is the day paused, and up to which day does that stay so?
pub fn sight_from(ps: &[Pause], day: u32) -> Sight
    ensures { result ≡ sight_of ps.now day }
{
    let mut s = NO_PAUSE;
    for p in ps {
        s = with_pause_in_sight(s, *p, day);
    }
    s
}

// The same, where `known` is what the list says from an earlier day on: up to the day that it names nothing changes, so that the list is
// only asked whether the day is paused.
pub fn sight_on(ps: &[Pause], day: u32, known: Sight) -> Sight
    ensures { result ≡ sight_on ps.now day known }
{
    if day <= known.until {
        return Sight {
            paused: paused(ps, day),
            ..known
        };
    }
    sight_from(ps, day)
}
