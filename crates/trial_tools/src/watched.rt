use lines::WatchList;

// What is known of a watch list: its deadlines, or only how many they are.
pub enum Watched {
    These(&'static [u16]),
    Many(usize),
}

impl Watched {
    ghost use Rattle.std.specs.Prelude.{◌↔◌, IsTrue};
    ghost use Rattle.trial_tools.specs.Watched.{Are};

    // Whether a watch list is as it is known.
    pub fn are(&self, list: &WatchList) -> bool
        ensures exactly_where_as_known { IsTrue result ↔ Are self.now list.now }
    {
        match self {
            Watched::These(deadlines) => list.as_slice() == *deadlines,
            Watched::Many(many) => list.len() == *many,
        }
    }
}
