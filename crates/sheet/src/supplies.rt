// The supplies that a sheet can name.
ghost use Rattle.grammar.specs.Supplies.{bottom_of, supply_of, bottom_checks, field_checks};
ghost use Rattle.refusal.specs.Answers.{Answered};
ghost use Rattle.supply.specs.Named as means;
ghost use Rattle.std.specs.Prelude.{◌≡◌};

use grammar::Fields;
use refusal::Refusal;
use supply::{Bottom, Named, Share, Timetable, Whole};

// What stands below a share: the whole processor or a timetable.
fn below(fields: Fields) -> Result<Bottom, Refusal>
    ensures { Answered result (bottom_checks fields) (λ b. means.bottom b ≡ bottom_of fields) }
{
    if fields.length == 0 && fields.word == 0 {
        return Ok(Bottom::Whole(Whole));
    }
    Ok(Bottom::Timetable(Timetable::new(fields.length, fields.word)?))
}

// The supply that the fields of a sheet's first record name.
pub fn supply_of(fields: Fields) -> Result<Named, Refusal>
    ensures named_or_refused_by_checks { Answered result (field_checks fields) (λ n. means.named n ≡ supply_of fields) }
{
    let bottom = below(fields)?;
    if fields.share == 0 && fields.of == 0 {
        return Ok(Named::Plain(bottom));
    }
    Ok(Named::Shared(Share::new(bottom, fields.share, fields.of)?))
}
