// What a step takes: a block of whole rounds, as many as may be taken, or else one day.
ghost use Rattle.std.specs.Prelude.{◌≡◌, cond, ◌+◌, ◌/◌, ◌≤◌, ◌<◌};
ghost use Rattle.day.specs.Days.{last_number};
ghost use Rattle.supply.specs.Code.Walking.{Most, RoundsDue, Takes};

use crate::place::due_in;
use crate::today::Today;
use crate::walk::Walk;
use pause::Sight;

// No rounds may be taken.
const NO_ROUNDS: u64 = 0;

// The days of a step, and what they need. `still` says that the day behind them stands in the same periods as the first of them does.
#[derive(Clone, Copy)]
pub(crate) struct Stride {
    pub need: u64,
    pub days: u32,
    pub still: bool,
}

// The whole rounds in so many days. Most are of one day.
fn whole_rounds(room: u64, interval: u64) -> u64
    requires { 0 < interval }
    ensures { result ≡ room / interval }
{
    if interval == 1 {
        return room;
    }
    room / interval
}

// As many rounds of `interval` days, each of which needs `need`, as there is room for in so many days and as the rest has. Where there is
// none, as on most single days, nothing is divided.
fn rounds_in(interval: u64, need: u64, room: u64, rest: u64) -> u64
    requires { 0 < interval }
    ensures { Most interval need room rest result }
{
    if (room < interval) | (rest < need) {
        return NO_ROUNDS;
    }
    let rounds = whole_rounds(room, interval);
    if need == 0 {
        return rounds;
    }
    rounds.min(rest / need)
}

// What the day needs: nothing if it is paused.
fn need_of(t: Today, paused: bool) -> u64
    requires { t.in_first.due + t.in_second.due < 18446744073709551616 }
    ensures { result ≡ cond paused 0 (t.in_first.due + t.in_second.due) }
{
    if paused {
        return 0;
    }
    due_in(t.in_first, t.in_second)
}

// As many whole rounds as may be taken, with no pause in sight; 0 where none may.
fn rounds_due(w: Walk, s: Sight) -> u64
    requires { (w.day ≤ s.until) × (w.day ≤ w.stop) × (w.stop ≤ last_number) × (0 < w.today.rounds.interval → w.day ≤ w.today.rounds.until) }
    ensures { RoundsDue w s result }
{
    let t = w.today;
    let r = t.rounds;
    if s.paused | (r.interval == 0) {
        return NO_ROUNDS;
    }
    let room = r.until.min(s.until).min(w.stop) + 1 - w.day;
    rounds_in(u64::from(r.interval), r.need, u64::from(room), w.rest)
}

// The step that is due: a block of rounds, or else a day.
pub(crate) fn next_stride(w: Walk, s: Sight) -> Stride
    requires day_le_until { (w.day ≤ s.until) × (w.day ≤ w.stop) × (w.stop ≤ last_number) × (0 < w.today.rounds.interval → w.day ≤ w.today.rounds.until) }
    requires due_bound { w.today.in_first.due + w.today.in_second.due < 18446744073709551616 }
    ensures { Takes w s result }
{
    let rounds = rounds_due(w, s);
    let t = w.today;
    if rounds == NO_ROUNDS {
        return Stride {
            need: need_of(t, s.paused),
            days: 1,
            still: w.day < t.same,
        };
    }
    let r = t.rounds;
    Stride {
        need: rounds * r.need,
        days: (rounds * u64::from(r.interval)) as u32,
        still: true,
    }
}
