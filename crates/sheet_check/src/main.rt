// Compares what is read of sheets, reported on them and written, with a plain reader, which cuts off one record after another by its
// mark and judges it.
#![tactic(auto)]

mod alike;
mod base;
mod comparison;
mod draft;
mod edges;
mod known;
mod named;
mod outputs;
mod plain;
mod random;
mod sheets;
mod supplies;
mod told;

use crate::comparison::Comparison;
use trial_tools::print;

// Compares every group, and prints for each how many answers were compared and how many differ.
fn main(rt: HostRuntime) -> anyhow::Result<()> {
    let mut all = Comparison::new();
    let [named, checked] = named::compare();
    let known = known::compare(&mut all);
    let lengths = edges::compare_lengths(&mut all);
    let cites = edges::compare_cites(&mut all);
    let cut_off = base::compare_cut_off(&mut all);
    let changed = base::compare_changed(&mut all);
    let [good, damaged, fronts, odd] = sheets::compare(&mut all);
    print(
        &rt,
        &[
            named,
            checked,
            known,
            lengths,
            cites,
            cut_off,
            changed,
            good,
            damaged,
            fronts,
            odd,
            all.accepted,
            all.certified,
            all.refused,
            all.reread,
            all.reported,
            all.written,
            all.read_back,
            all.rewritten,
            all.reasons(),
        ],
    )?;
    Ok(())
}
