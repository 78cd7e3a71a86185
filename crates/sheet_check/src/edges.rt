// Sheets about as long as they may be, and certificates with few cites and with many.
use crate::comparison::Comparison;
use crate::draft::Draft;
use crate::plain::{at, by_sheet};
use grammar::Fields;
use lines::Lines;
use refusal::{Layer, Reason, Refusal};
use trial_tools::Tally;

// Compares a good sheet with zeros behind it, of the longest length and around it.
pub(crate) fn compare_lengths(comparison: &mut Comparison) -> Tally {
    let mut group = Tally::of("sheets up to the longest and longer ones");
    let mut bytes = [0; 70_000];
    bytes[..17].copy_from_slice(b"SU\0\0\0\0\0\0\0\0\0\0\0EN\0\x01");
    for length in [18, 16_383, 16_384, 16_385, 70_000] {
        let refused = if length > 16_384 {
            at(by_sheet(Reason::TooLarge), 0, 0)
        } else {
            at(by_sheet(Reason::BytesAfterEnd), 3, 17)
        };
        comparison.compare_refused(&mut group, &bytes[..length], refused);
    }
    group
}

// A sheet that ends behind a certificate of some number of cites.
fn with_cites(number: u8) -> Draft {
    let mut draft = Draft::open(Fields::whole(), &Lines::none());
    draft.cut(5, 1, number, &[]);
    for _ in 0..number {
        draft.raw(b"\0\x05\0\x01");
    }
    draft
}

// Compares certificates of many numbers of cites, whole and without their last byte. Nothing is watched on a sheet without lines.
pub(crate) fn compare_cites(comparison: &mut Comparison) -> Tally {
    let mut group = Tally::of("certificates by their number of cites");
    let cut_short = at(by_sheet(Reason::SheetCutShort), 2, 13);
    for number in [0u8, 1, 7, 8, 9, 64, 128, 255] {
        let reason = if number == 0 || number > 8 {
            Reason::CertificateOutOfRange
        } else {
            Reason::NotWatched
        };
        let draft = with_cites(number);
        let refused = at(Refusal::by(Layer::Roster, reason), 2, 13);
        comparison.compare_refused(&mut group, draft.bytes.as_slice(), refused);
        let length = draft.bytes.len().saturating_sub(1);
        comparison.compare_refused(&mut group, draft.front(length), cut_short);
    }
    group
}
