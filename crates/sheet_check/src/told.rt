// What is to be told of a sheet: four lines of a roster, or one of a refusal.
use crate::plain::Outcome;
use refusal::Layer;
use short_list::ShortList;

// A text of a report, with room for the longest.
pub(crate) type Text = ShortList<u8, 64>;

// The digits of a figure stand for these. No figure of a report has more.
static POWERS: [u32; 6] = [100_000, 10_000, 1000, 100, 10, 1];

// Tells some words and a figure behind them.
fn tell(text: &mut Text, words: &str, figure: u32) {
    let _ = text.extend_from_slice(words.as_bytes());
    for power in &POWERS {
        if figure >= *power || *power == 1 {
            let _ = text.push(b'0' + (figure / *power % 10) as u8);
        }
    }
}

// The words between the number of a refusal and the record. The layer's is written again here since the library's words are what is
// compared.
fn layer(layer: Layer) -> &'static str {
    match layer {
        Layer::Supply => " supply record ",
        Layer::Roster => " roster record ",
        Layer::Run => " run record ",
        Layer::Sheet => " sheet record ",
    }
}

// What is to be told of an outcome.
pub(crate) fn told(outcome: &Outcome) -> Text {
    let mut text = ShortList::none(0);
    if let Some(refused) = outcome.refused {
        let why = refused.refusal;
        tell(&mut text, "refused ", u32::from(why.reason.number()));
        tell(&mut text, layer(why.layer), refused.record);
        tell(&mut text, " byte ", refused.byte);
    } else {
        let roster = &outcome.roster;
        tell(&mut text, "lines ", roster.lines().len() as u32);
        tell(&mut text, "\nrest ", u32::from(roster.lines().first_rest()));
        tell(&mut text, "\nwatched ", roster.watched().len() as u32);
        match roster.verdict() {
            Some(t) => tell(&mut text, "\noverloaded ", u32::from(t)),
            None => {
                let _ = text.extend_from_slice(b"\nfits");
            }
        }
    }
    let _ = text.push(b'\n');
    text
}
