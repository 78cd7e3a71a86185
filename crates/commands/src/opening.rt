// The supply that the words of an `open` name, by the fields that a sheet has for it.
ghost use Rattle.commands.specs.Opening.{EndsInShare, NamesBottom, NamesShare, NamesShareOver, NamesTimetable};

use crate::trouble::Trouble;
use crate::usage::Usage;
use crate::words::number;
use grammar::Fields;
use supply::{Share, Timetable, Whole};

// The fields of a timetable. One that is unlawful is refused here: length and number 0 would name the whole processor.
fn timetable(length: &str, word: &str) -> Result<Fields, Trouble>
    ensures { NamesTimetable length.now word.now result }
{
    let length = number(length, Usage::Open)?;
    let word = number(word, Usage::Open)?;
    Timetable::new(length, word)?;
    Ok(Fields {
        length,
        word,
        ..Fields::whole()
    })
}

// The fields of a share of S in F. One that is unlawful is refused here: S and F 0 would name no share.
fn shared(below: Fields, s: &str, f: &str) -> Result<Fields, Trouble>
    ensures { NamesShare below s.now f.now result }
{
    let share = number(s, Usage::Open)?;
    let of = number(f, Usage::Open)?;
    Share::new(Whole, share, of)?;
    Ok(Fields { share, of, ..below })
}

// The fields of the whole processor, or of a timetable.
fn bottom(words: &[&str]) -> Result<Fields, Trouble>
    ensures { NamesBottom words.now result }
{
    match words {
        ["whole"] => Ok(Fields::whole()),
        ["timetable", length, word] => timetable(length, word),
        _ => Err(Trouble::Usage(Usage::Open)),
    }
}

// The fields of the supply that is named: a bottom, alone or with a share of it. (Which supply fields are is the promise of
// `supply_of`.)
pub fn named(words: &[&str]) -> Result<Fields, Trouble>
    ensures plain_by_its_words { ¬ (EndsInShare words.now) → NamesBottom words.now result }
    ensures share_over_what_stands_in_front { EndsInShare words.now → NamesShareOver words.now result }
{
    match words {
        [below @ .., "share", s, f] => shared(bottom(below)?, s, f),
        _ => bottom(words),
    }
}
