// The whole processor, timetables of many lengths, and piles of two shares over a timetable, in every phase and over many numbers
// of slots.
use crate::slots::{Slots, slots};
use supply::{Share, Supply, Timetable, Whole};
use trial_tools::{Steps, Tally};

static WINDOWS: [u16; 17] = [
    0, 1, 2, 3, 4, 5, 8, 13, 31, 64, 65, 127, 128, 300, 511, 700, 65_535,
];

static PILES: [Slots; 7] = [
    slots!(4, 3, 1 in 2, 2 in 3),
    slots!(1, 1, 2 in 3, 3 in 3),
    slots!(5, 22, 4 in 4, 1 in 5),
    slots!(8, 181, 3 in 5, 5 in 7),
    slots!(7, 64, 1 in 6, 1 in 9),
    slots!(64, 0x8000_0000_0000_0001, 1 in 2, 1 in 2),
    slots!(2, 2, 63 in 64, 1 in 64),
];

// Compares the answers of the whole processor, which gives each slot and has one phase, so that each number stands for it.
pub(crate) fn whole() -> Tally {
    let mut tally = Tally::of("whole processor");
    tally.note(Whole.phases() == 1);
    for n in [0, 1, 2, 13, 32768, u16::MAX] {
        for phase in [0, 1, 2, u32::MAX] {
            tally.note(Whole.count(phase, n) == n);
        }
        tally.note(Whole.least(n) == (n, 0));
    }
    tally
}

// Compares a supply over n slots: the count in every phase, and as far above it as whole rounds of the phases go, the least with
// its phase, and the number of phases.
// Phase p + N x r comes after r times the N phases below, so the place in the row goes round fastest.
fn compare<S: Supply>(tally: &mut Tally, supply: &S, mut slots: Slots, n: u16) {
    let (number, worst) = supply.least(n);
    tally.note(worst == slots.worst_phase(n));
    let phases = supply.phases();
    let rounds = u32::MAX / phases.max(1);
    let far = rounds.saturating_sub(1).wrapping_mul(phases);
    let mut fewest = u16::MAX;
    // Counted along, and not by a formula: which phase follows which is what is compared.
    let mut phase: u32 = 0;
    for outer in 0..slots.outer.turn {
        slots.outer.place = outer;
        for inner in 0..slots.inner.turn {
            slots.inner.place = inner;
            for place in 0..slots.length {
                slots.place = place;
                let given = slots.given(n);
                tally.note(supply.count(phase, n) == given);
                tally.note(supply.count(far.wrapping_add(phase), n) == given);
                fewest = fewest.min(given);
                phase = phase.wrapping_add(1);
            }
        }
    }
    tally.note(number == fewest);
    tally.note(phases == phase);
}

// Compares a supply over many numbers of slots, the largest only where it has few phases. One that was not made is a difference.
fn compare_windows<S: Supply + Copy>(tally: &mut Tally, made: Option<S>, slots: Slots) {
    match made {
        Some(supply) => {
            for n in WINDOWS {
                if n < 1000 || supply.phases() < 100 {
                    compare(tally, &supply, slots, n);
                }
            }
        }
        None => tally.note(false),
    }
}

// Compares timetables of every length, with all slots given and with some that a generator picks.
pub(crate) fn timetables() -> Tally {
    let mut tally = Tally::of("timetables");
    let mut steps = Steps::new(1);
    for length in 1..65 {
        let spare = 64 - length;
        let some = (steps.step() >> spare).max(1);
        for word in [u64::MAX >> spare, some] {
            let made = Timetable::new(length, word).ok();
            compare_windows(&mut tally, made, slots!(length, word));
        }
    }
    tally
}

// The pile of these numbers, if they make one.
pub(crate) fn pile(slots: Slots) -> Option<Share<Share<Timetable>>> {
    let table = Timetable::new(slots.length, slots.word).ok()?;
    let inner = Share::new(table, slots.inner.taken, slots.inner.turn).ok()?;
    Share::new(inner, slots.outer.taken, slots.outer.turn).ok()
}

// Compares every pile.
pub(crate) fn piles() -> Tally {
    let mut tally = Tally::of("piles of two shares");
    for slots in PILES {
        compare_windows(&mut tally, pile(slots), slots);
    }
    tally
}
