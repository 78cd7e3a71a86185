// Compares the library with figures that are known, and with slow counts of random lines and of many supplies, which are written
// from the definitions alone. Prints what was compared, the figures of small supplies, and what is refused of bad input.
#![tactic(auto)]

mod expected;
mod known;
mod refused;
mod sets;
mod shown;
mod slots;
mod supplies;
mod taken;
mod worded;

use trial_tools::print;

fn main(rt: HostRuntime) -> anyhow::Result<()> {
    shown::show(&rt)?;
    print(&rt, &known::compared())?;
    print(
        &rt,
        &[
            supplies::whole(),
            supplies::timetables(),
            supplies::piles(),
            refused::compared(),
            worded::reasons(rt.alloc()),
            worded::layers(rt.alloc()),
            worded::ends(rt.alloc()),
            worded::refusals(rt.alloc())?,
        ],
    )?;
    sets::compare(&rt)
}
