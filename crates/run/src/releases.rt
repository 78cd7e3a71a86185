ghost use Rattle.std.specs.Prelude.{◌≡◌, length, replicate};

// What the jobs of a list that were taken leave to the next one: the last release, the instant from which on each line may
// release again, and the largest deadline. (An array: there are 8 lines, and a run takes no heap.)
#[derive(Clone, Copy)]
pub(crate) struct Releases {
    pub(crate) last: u16,
    pub(crate) free: [u16; 8],
    pub(crate) largest: u16,
    ghost room: { length free ≡ 8 },
}

impl Releases {
    // Before the first job.
    pub(crate) fn none() -> Releases
        ensures { (result.last ≡ 0) × (result.free ≡ replicate 8 0) × (result.largest ≡ 0) }
    {
        Releases {
            last: 0,
            free: [0; 8],
            largest: 0,
        }
    }
}
