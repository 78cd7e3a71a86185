ghost use Rattle.std.specs.Prelude.{◌≡◌, ◌%◌};
ghost use Rattle.supply.specs.Meaning.{Meaning, Counts, Windows, Attained, Lawful};

// A supply of slots. It may begin in any of its phases, and nobody knows in which.
// A question is never refused and changes nothing; a phase that is not there stands for its remainder.
pub trait Supply {
    // What the supply means, as one value.
    ghost meaning: { Self → Meaning };

    // The number of phases.
    fn phases(&self) -> u32
        ensures counts_phases { result ≡ (meaning self.now).phases };

    // How many of the first n slots are given in a phase.
    fn count(&self, phase: u32, n: u16) -> u16
        ensures counts_given_slots { result ≡ (meaning self.now).count (phase % (meaning self.now).phases) n };

    // How many given slots any n slots in a row hold at least, and a phase that begins with so few.
    fn least(&self, n: u16) -> (u16, u32)
        ensures fewest_given_slots { result.0 ≡ (meaning self.now).least n }
        ensures phase_with_so_few { result.1 ≡ (meaning self.now).worst n };

    ghost counts: { (s : Self) → Counts (meaning s) };

    ghost windows: { (s : Self) → Windows (meaning s) };

    ghost attained: { (s : Self) → Attained (meaning s) };

    // The laws together.
    ghost lawful: { (s : Self) → Lawful (meaning s) } = { λ s. record { counts = counts s; windows = windows s; attained = attained s } };
}
