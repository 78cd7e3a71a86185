// Commands that change the lines of the roster.
use crate::session::Session;
use commands::{Trouble, Usage, figure, number, only};
use lines::Row;

impl Session {
    // Takes one line more.
    pub(crate) fn enrol(&mut self, words: &[&str]) -> Result<String, Trouble> {
        let [period, deadline, cost] = words else {
            return Err(Trouble::Usage(Usage::Enrol));
        };
        let row = Row {
            period: number(period, Usage::Enrol)?,
            deadline: number(deadline, Usage::Enrol)?,
            cost: number(cost, Usage::Enrol)?,
        };
        let line = self.roster.enrol(row)?;
        self.cuts.clear();
        figure(self.heap, "enrolled line", u32::from(line))
    }

    // Lets a line go.
    pub(crate) fn strike(&mut self, words: &[&str]) -> Result<String, Trouble> {
        let line: u8 = only(words, Usage::Strike)?;
        self.roster.strike(line)?;
        self.cuts.clear();
        figure(self.heap, "struck line", u32::from(line))
    }

    // Gives a line a new cost.
    pub(crate) fn recost(&mut self, words: &[&str]) -> Result<String, Trouble> {
        let [line, cost] = words else {
            return Err(Trouble::Usage(Usage::Recost));
        };
        let line: u8 = number(line, Usage::Recost)?;
        let cost = number(cost, Usage::Recost)?;
        self.roster.recost(line, cost)?;
        figure(self.heap, "recosted line", u32::from(line))
    }
}
