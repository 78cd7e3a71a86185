// Random figures.
use grammar::Fields;
use lines::Row;
use trial_tools::{Generator, Upper};

// Numbers that look random, of two bytes above the lower half of each state. The same seed gives the same numbers.
pub(crate) type Random = Upper<0x1_0000_0000, 0x1_0000>;

// Any byte.
pub(crate) fn byte(random: &mut Random) -> u8 {
    random.below(256) as u8
}

// Fields that name the whole processor or a timetable, most of whose slots are given, and half of the time a share of it.
pub(crate) fn fields(random: &mut Random) -> Fields {
    let mut fields = Fields::whole();
    if random.below(3) > 0 {
        let length = byte(random) % 64 + 1;
        let row = random.steps.step() | random.steps.step() | random.steps.step();
        fields.length = length;
        fields.word = (row.rotate_left(32) >> (64 - length)).max(1);
    }
    if random.below(2) > 0 {
        let of = byte(random) % 64 + 1;
        fields.of = of;
        fields.share = byte(random) % of + 1;
    }
    fields
}

// The figures of a lawful line, due late in its period.
pub(crate) fn row(random: &mut Random) -> Row {
    let period = random.up_to(20);
    Row {
        period,
        deadline: period.saturating_sub(random.below(4)).max(1),
        cost: random.up_to(3),
    }
}

// Figures of which some are out of range.
pub(crate) fn odd_row(random: &mut Random) -> Row {
    Row {
        period: random.up_to(1100),
        deadline: random.below(1100),
        cost: random.below(1100),
    }
}
