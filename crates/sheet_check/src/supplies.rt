// The supplies that the fields of a sheet name, by the rules: slot by slot for a timetable.
use grammar::Fields;
use refusal::{Layer, Reason, Refusal};
use supply::{Bottom, Named, Share, Timetable, Whole};

// Whether a timetable gives some slot of its length, and none behind. A slot is given where its digit of the word is 1.
fn lawful(length: u8, word: u64) -> bool {
    let mut gives = false;
    for slot in 0u8..64 {
        if word.wrapping_shr(u32::from(slot)) % 2 == 1 {
            if slot >= length {
                return false;
            }
            gives = true;
        }
    }
    gives && length <= 64
}

// The timetable, or the whole processor where both figures are 0.
fn bottom(length: u8, word: u64) -> Result<Bottom, Refusal> {
    if length == 0 && word == 0 {
        return Ok(Bottom::Whole(Whole));
    }
    if !lawful(length, word) {
        return Err(Refusal::by(Layer::Supply, Reason::TimetableUnlawful));
    }
    Ok(Bottom::Timetable(Timetable::new(length, word)?))
}

// The supply of some fields. The phases of a share are at most 64 x 64, which is never too many.
pub(crate) fn named(fields: Fields) -> Result<Named, Refusal> {
    let below = bottom(fields.length, fields.word)?;
    if fields.share == 0 && fields.of == 0 {
        return Ok(Named::Plain(below));
    }
    if fields.share == 0 || fields.share > fields.of || fields.of > 64 {
        return Err(Refusal::by(Layer::Supply, Reason::ShareUnlawful));
    }
    Ok(Named::Shared(Share::new(below, fields.share, fields.of)?))
}
