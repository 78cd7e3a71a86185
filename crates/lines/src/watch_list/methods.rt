ghost use Rattle.std.specs.Prelude.{◌≡◌, ◌≤◌, [], ◌∷◌, ◌++◌, length, Decides, MatchResult};
ghost use Rattle.lines.specs.Changes.{without};
ghost use Rattle.lines.specs.Of.{watched};
ghost use Rattle.std.specs.List.{ContainsAt as Has};

use crate::watch_list::WatchList;
use short_list::{Full, ShortList};

impl WatchList {
    // The list of no deadline.
    pub fn none() -> WatchList
        ensures watches_nothing { watched result ≡ [] }
    {
        WatchList {
            deadlines: ShortList::none(0),
        }
    }

    // The deadlines, in their order.
    pub fn as_slice(&self) -> &[u16]
        ensures shows_deadlines_in_order { result.now ≡ watched self.now }
    {
        self.deadlines.as_slice()
    }

    // How many deadlines are watched.
    pub fn len(&self) -> usize
        ensures counts_deadlines { result ≡ length (watched self.now) }
    {
        self.as_slice().len()
    }

    // Whether d is watched.
    pub fn contains(&self, d: u16) -> bool
        ensures true_exactly_if_watched { Decides result (Has (watched self.now) d) }
    {
        self.as_slice().contains(&d)
    }

    // The list without d.
    pub fn without(&self, d: u16) -> WatchList
        ensures that_deadline_alone_leaves { watched result ≡ without d (watched self.now) }
    {
        WatchList {
            deadlines: self.deadlines.without(d),
        }
    }

    // One deadline more at the end; nothing changes where the list is full.
    pub(crate) fn push(&mut self, d: u16) -> Result<(), Full>
        ensures { MatchResult result (λ _. watched self.new ≡ watched self.old ++ (d ∷ [])) (λ _. (256 ≤ length (watched self.old)) × (watched self.new ≡ watched self.old)) }
    {
        self.deadlines.push(d)
    }
}
