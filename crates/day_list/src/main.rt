// Lists the doses of some days of the plan on standard input, and what each choice needs on them: what another program makes of a day's
// doses, by a function of its own. The plan and what document 01 says of it are made by tests/day_list.py.
#![tactic(auto)]

ghost use Rattle.std.specs.Prelude.{◌≡◌, ◌%◌, ◌^◌};
ghost use Rattle.std.specs.List.{FoldsTo};
ghost use Rattle.doses.specs.Doses.{doses_on};
ghost use Rattle.need.specs.Need.{due_on};

use doses::doses_on;
use need::amount;
use plan::{Dose, is_marked, upper_of};
use std::io;
use std::io::Read;

// Room for the longest plan. Behind a shorter one stand zeros, which are no period.
const ROOM: usize = 16384;

const DAYS: [u32; 5] = [7999, 8000, 8001, 8003, 8004];

// What `f` makes of a start and the doses of a day, one after the other.
fn fold_doses<S, F: Fn(S, Dose) -> S>(plan: &[u8], day: u32, start: S, f: F) -> S
    requires { F.IsAlwaysCallable f }
    ensures { FoldsTo (λ s d t. F.post f s d t) start (doses_on plan.now day) result }
{
    doses_on(plan, day).fold(start, f)
}

// What the doses of a day need by the choice.
fn due_by(plan: &[u8], choice: u32, day: u32) -> u64
    ensures { result ≡ due_on choice plan.now day % 2 ^ 64 }
{
    fold_doses(plan, day, 0, |sum: u64, d| {
        sum.wrapping_add(amount(choice, d))
    })
}

fn report_dose(out: &impl Print, d: Dose) -> io::Result<()> {
    let mark = if is_marked(d) { ", as needed" } else { "" };
    println!(out; "  {} to {}{mark}", d.low, upper_of(d))
}

fn report(out: &impl Print, plan: &[u8], day: u32) -> io::Result<()> {
    let needs = [1, 2, 3, 4].map(|choice| due_by(plan, choice, day));
    println!(out;
        "day {day}: {} {} {} {}",
        needs[0], needs[1], needs[2], needs[3]
    )?;
    for d in doses_on(plan, day) {
        report_dose(out, d)?;
    }
    Ok(())
}

fn main(rt: HostRuntime) -> io::Result<()> {
    let mut plan = [0u8; ROOM];
    io::copy(&mut rt.stdin().take(ROOM as u64), &mut &mut plan[..])?;
    for day in DAYS {
        report(&rt, &plan, day)?;
    }
    Ok(())
}
