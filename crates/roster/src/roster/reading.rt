ghost use Rattle.std.specs.Prelude.{◌≡◌};

use crate::roster::Roster;
use lines::{Lines, WatchList};

impl<S> Roster<S> {
    // The supply that the lines share.
    pub fn supply(&self) -> &S
        ensures shows_its_supply { result.now ≡ self.now.supply }
    {
        &self.supply
    }

    // The lines, by number.
    pub fn lines(&self) -> &Lines
        ensures shows_its_lines { result.now ≡ self.now.lines }
    {
        &self.lines
    }

    // The deadlines that are looked at.
    pub fn watched(&self) -> &WatchList
        ensures shows_its_watch_list { result.now ≡ self.now.watched }
    {
        &self.watched
    }
}
