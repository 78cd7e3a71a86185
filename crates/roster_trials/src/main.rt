// Compares random rosters with slow counts, written from the definitions alone: jobs, slots and instants one by one.
#![tactic(auto)]

mod certificate;
mod figures;
mod jobs;
mod model;
mod trials;

use trial_tools::print;

fn main(rt: HostRuntime) -> anyhow::Result<()> {
    print(&rt, &trials::compared())?;
    Ok(())
}
