// Shows the run at work: a known overload, the edges of its checks, and random lists against a slow simulation.
#![tactic(auto)]

mod cases;
mod random;
mod slow;
mod trial;

use anyhow::anyhow;
use supply::Timetable;

fn main(rt: HostRuntime) -> anyhow::Result<()> {
    let Ok(half) = Timetable::new(2, 2) else {
        return Err(anyhow!("every second slot is a timetable"));
    };
    cases::show(&rt, &half)?;
    random::compare(&rt, &half)
}
