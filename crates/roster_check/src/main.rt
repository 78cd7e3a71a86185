// Compares the roster with figures that are known, and with bad input.
#![tactic(auto)]

mod bad_input;
mod calls;
mod held;
mod known;
mod listed;
mod nothing;
mod witnesses;

use trial_tools::print;

// Prints for each group how many answers were compared and how many differ.
fn compare(rt: &HostRuntime) -> anyhow::Result<()> {
    let listed = [
        witnesses::compared(),
        nothing::compared(),
        listed::compared(),
    ];
    for groups in [
        known::compared().as_slice(),
        bad_input::compared().as_slice(),
        listed.as_slice(),
    ] {
        print(rt, groups)?;
    }
    Ok(())
}

fn main(rt: HostRuntime) -> anyhow::Result<()> {
    compare(&rt)
}
