ghost use Rattle.std.specs.Prelude.{◌≡◌, ◌+◌, ◌<◌, ◌^◌, true, false};

use std::{fmt, io};

// How many answers of a group were compared, and how many of them differ.
#[derive(Clone, Copy)]
pub struct Tally {
    pub group: &'static str,
    pub compared: u64,
    pub differ: u64,
}

impl Tally {
    // A group of which nothing is compared yet.
    pub fn of(group: &'static str) -> Tally
        ensures of_that_group { result.group.now ≡ group.now }
        ensures nothing_compared { result.compared ≡ 0 }
        ensures nothing_differs { result.differ ≡ 0 }
    {
        Tally {
            group,
            compared: 0,
            differ: 0,
        }
    }

    // One comparison more, and whether it came out the same.
    pub fn note(&mut self, same: bool)
        ensures keeps_the_group { self.new.group.now ≡ self.old.group.now }
        ensures counts_one_comparison { self.old.compared + 1 < 2 ^ 64 → self.new.compared ≡ self.old.compared + 1 }
        ensures same_counts_no_difference { same ≡ true → self.new.differ ≡ self.old.differ }
        ensures other_counts_one_difference { same ≡ false → self.old.differ + 1 < 2 ^ 64 → self.new.differ ≡ self.old.differ + 1 }
    {
        self.compared = self.compared.saturating_add(1);
        if !same {
            self.differ = self.differ.saturating_add(1);
        }
    }
}

impl fmt::Display for Tally {
    fn fmt<W: fmt::Write>(&self, f: &mut fmt::Formatter<W>) -> fmt::Result {
        let group = self.group;
        let compared = self.compared;
        let differ = self.differ;
        write!(f, "{group}: {compared} compared, {differ} differ")
    }
}

// Prints some groups, each on a line. (No clause: the library promises nothing of what a `Print` lets out.)
pub fn print(rt: &impl Print, groups: &[Tally]) -> io::Result<()> {
    for group in groups {
        println!(rt; "{group}")?;
    }
    Ok(())
}
