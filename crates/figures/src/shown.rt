// The figures of small supplies, and what is refused of bad ones, and how.
use crate::slots::slots;
use crate::supplies::pile;
use refusal::Refusal;
use std::io;
use supply::{Share, Supply, Timetable};

// Prints what the least question answers for n from 0 to 8.
fn print_least<S: Supply>(rt: &impl Print, name: &str, supply: &S) -> io::Result<()> {
    println!(rt; "{name}")?;
    for n in 0..9 {
        let (number, phase) = supply.least(n);
        println!(rt; "  least({n}) is {number} in phase {phase}")?;
    }
    Ok(())
}

// Prints the number of phases of a supply that was made of two numbers, or why it was refused.
fn print_made(
    rt: &impl Print,
    name: &str,
    a: u8,
    b: u64,
    made: Result<u32, Refusal>,
) -> io::Result<()> {
    match made {
        Ok(phases) => println!(rt; "{name} {a} {b}: {phases} phases"),
        Err(refusal) => println!(rt; "{name} {a} {b}: {refusal}"),
    }
}

// Tries a timetable, and says what came of it.
fn print_timetable(rt: &impl Print, length: u8, word: u64) -> io::Result<()> {
    let made = match Timetable::new(length, word) {
        Ok(table) => Ok(table.phases()),
        Err(refusal) => Err(refusal),
    };
    print_made(rt, "timetable", length, word, made)
}

// Tries a share, and says what came of it; a refused share hands the supply below back.
fn print_share<B: Supply + Copy>(rt: &impl Print, below: B, s: u8, f: u8) -> io::Result<()> {
    let turn = u64::from(f);
    match Share::new(below, s, f) {
        Ok(share) => print_made(rt, "share", s, turn, Ok(share.phases())),
        Err(refused) => {
            print_made(rt, "share", s, turn, Err(refused.refusal))?;
            let back = Ok(refused.below.phases());
            print_made(rt, "  handed back from", s, turn, back)
        }
    }
}

// Prints the figures of a timetable and of a share over it; and what is made of timetables, of shares over that one, and of shares
// over a supply of 125,000 phases: 8 times that is a million.
pub(crate) fn show(rt: &impl Print) -> io::Result<()> {
    for (length, word) in [
        (0, 1),
        (1, 1),
        (64, u64::MAX),
        (65, 1),
        (4, 16),
        (4, 15),
        (4, 0),
        (64, 0),
    ] {
        print_timetable(rt, length, word)?;
    }
    if let Ok(table) = Timetable::new(4, 3) {
        print_least(rt, "timetable of length 4, number 3", &table)?;
        if let Ok(half) = Share::new(table, 1, 2) {
            print_least(rt, "share of 1 in 2 over it", &half)?;
        }
        for (s, f) in [(0, 2), (3, 2), (1, 65), (64, 64), (1, 64), (1, 1)] {
            print_share(rt, table, s, f)?;
        }
    }
    if let Some(pile) = pile(slots!(50, 1, 1 in 50, 1 in 50)) {
        print_share(rt, pile, 7, 8)?;
        print_share(rt, pile, 7, 9)?;
    }
    Ok(())
}
