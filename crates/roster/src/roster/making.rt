ghost use Rattle.roster.specs.Calling.{call_of};
ghost use Rattle.roster.specs.Working.{Works};

use crate::call::Call;
use crate::roster::Roster;
use refusal::Refusal;
use supply::Supply;

impl<S: Supply> Roster<S> {
    // Makes a call, whichever it is. A match: a call is a value that lists hold, so it can't be the closure of what is done.
    pub fn make(&mut self, call: Call) -> Result<(), Refusal>
        ensures works_as_that_call { Works (S.meaning self.old.supply) self.old self.new (call_of call.entry) result (λ _. Unit {0}) }
    {
        match call {
            Call::Enrol(row) => self.enrol(row).map(|_| ()),
            Call::Strike(line) => self.strike(line),
            Call::Recost { line, cost } => self.recost(line, cost),
            Call::Cut {
                deadline,
                divisor,
                cites,
            } => self.cut(deadline, divisor, cites),
        }
    }
}
