// Random sets of small lines: what the library answers, against the counts by the definitions.
use crate::expected::{Answers, Instant, expected};
use lines::{Lines, Row, WatchList};
use std::alloc::{AllocError, Global};
use trial_tools::{Generator, Random, Tally, print};

// How many sets there are.
const SETS: u16 = 3000;

// The most lines of a set.
const LINES: u16 = 4;

// The longest period of a random line.
const LONGEST: u16 = 24;

// The highest cost of a random line.
const DEAREST: u16 = 9;

// Counts are compared at each instant below this one.
const EACH: u16 = 64;

// At so many random instants besides.
const SOME: u16 = 4;

// The groups of comparisons.
#[derive(Drop)]
struct Sets {
    answers: Tally,
    hyperperiods: Tally,
    rests: Tally,
    lists: Tally,
    counts: Tally,
    demands: Tally,
}

impl Sets {
    // A set that is taken.
    fn compare_taken(&mut self, lines: &Lines, list: &WatchList, answers: &Answers) {
        let watched = answers.watched.as_slice();
        self.hyperperiods
            .note(lines.hyperperiod() == answers.hyperperiod);
        self.rests.note(lines.first_rest() == answers.rest);
        self.lists.note(list.as_slice() == watched);
        self.lists.note(lines.full_list().as_slice() == watched);
    }

    // The count of each line at an instant, and what they ask for together. Where lines are missing, that is a difference.
    fn compare_counts(&mut self, lines: &Lines, rows: &[Row], t: u16) {
        if lines.len() != rows.len() {
            self.counts.note(false);
        }
        let mut demand = 0u32;
        for (number, row) in rows.iter().enumerate() {
            let instant = Instant::of(row, t);
            demand = demand.saturating_add(instant.work);
            match lines.get(number) {
                Some(line) => self.counts.note(line.count(t) == instant.count),
                None => self.counts.note(false),
            }
        }
        self.demands.note(lines.demand(t) == demand);
    }

    // Counts at many instants.
    fn compare_instants(&mut self, lines: &Lines, rows: &[Row], random: &mut Random) {
        for t in 0..EACH {
            self.compare_counts(lines, rows, t);
        }
        for _ in 0..SOME {
            self.compare_counts(lines, rows, random.up_to(u16::MAX));
        }
    }

    // One set, whose lines are added one by one until one is refused.
    fn compare_set(&mut self, heap: Global, random: &mut Random) -> Result<(), AllocError> {
        let mut lines = Lines::none();
        let mut rows = Vec::new(heap);
        for _ in 0..random.up_to(LINES) {
            let period = random.up_to(LONGEST);
            let row = random.row(period, DEAREST);
            rows.push(row)?;
            let expected = expected(heap, rows.as_slice())?;
            match (lines.add(row), expected) {
                (Ok((more, list)), Ok(answers)) => {
                    self.answers.note(true);
                    self.compare_taken(&more, &list, &answers);
                    self.compare_instants(&more, rows.as_slice(), random);
                    lines = more;
                }
                (Err(refusal), Err(reason)) => {
                    self.answers.note(refusal.reason == reason);
                    break;
                }
                _ => {
                    self.answers.note(false);
                    break;
                }
            }
        }
        Ok(())
    }
}

// Compares every set, and prints the groups.
pub(crate) fn compare(rt: &HostRuntime) -> anyhow::Result<()> {
    let mut random = Random::new(1);
    let mut sets = Sets {
        answers: Tally::of("random sets taken or refused"),
        hyperperiods: Tally::of("random hyperperiods"),
        rests: Tally::of("random rest points"),
        lists: Tally::of("random watch lists"),
        counts: Tally::of("random counts"),
        demands: Tally::of("random demands"),
    };
    for _ in 0..SETS {
        sets.compare_set(rt.alloc(), &mut random)?;
    }
    print(
        rt,
        &[
            sets.answers,
            sets.hyperperiods,
            sets.rests,
            sets.lists,
            sets.counts,
            sets.demands,
        ],
    )?;
    Ok(())
}
