ghost use Rattle.grammar.specs.Supplies.{field_checks, supply_of, whole_fields};
ghost use Rattle.refusal.specs.Answers.{refusal_of};
ghost use Rattle.std.specs.Prelude.{◌≡◌};
ghost use Rattle.supply.specs.Whole.{whole};

// The fields of a sheet's first record, plain: a timetable by its length and its number, and a share of `share` in `of`. (Length 0 is
// the whole processor, and 0 of 0 no share, as the record's bytes have them; `supply_of` makes a `Named` of them.)
#[derive(Clone, Copy, PartialEq, Eq)]
pub struct Fields {
    pub length: u8,
    pub word: u64,
    pub share: u8,
    pub of: u8,
}

impl Fields {
    // Those of the whole processor.
    pub fn whole() -> Fields
        ensures all_are_zero { result ≡ whole_fields }
        ensures no_check_fails { refusal_of (field_checks result) ≡ None }
        ensures names_the_whole_processor { supply_of result ≡ whole }
    {
        Fields {
            length: 0,
            word: 0,
            share: 0,
            of: 0,
        }
    }
}
