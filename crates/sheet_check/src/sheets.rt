// Random sheets: good ones, the same damaged or cut off, and ones of odd records in any order.
use crate::comparison::Comparison;
use crate::draft::Draft;
use crate::random::{Random, byte, fields, odd_row, row};
use lines::Lines;
use trial_tools::{Generator, Tally};

// How many sheets there are of each kind.
const SHEETS: u16 = 2000;

// Some lines that can be taken together.
fn lines(random: &mut Random) -> Lines {
    let mut lines = Lines::none();
    for _ in 0..random.below(6) {
        if let Ok((more, _)) = lines.add(row(random)) {
            lines = more;
        }
    }
    lines
}

// Two deadlines of a list that add up to a third.
fn parts(list: &[u16], sum: u16) -> Option<(u16, u16)> {
    for one in list {
        let other = sum.saturating_sub(*one);
        if list.contains(&other) {
            return Some((*one, other));
        }
    }
    None
}

// Some certificates that cite two deadlines for their sum. The supply always covers them. (A draft and the generator go together,
// and stay two: the draft goes on alone, and the generator to the next.)
fn certificates(draft: &mut Draft, random: &mut Random, lines: &Lines) {
    let mut list = lines.full_list();
    for _ in 0..8 {
        let deadline = random.of(list.as_slice());
        if let Some((one, other)) = parts(list.as_slice(), deadline) {
            let weight = random.up_to(1000);
            draft.cut(deadline, weight, 2, &[one, weight, other, weight]);
            list = list.without(deadline);
        }
    }
}

// A sheet whose records are good, unless a certificate of its does not cover a count.
fn good(random: &mut Random) -> Draft {
    let fields = fields(random);
    let lines = lines(random);
    let mut draft = Draft::open(fields, &lines);
    if random.below(2) == 0 {
        certificates(&mut draft, random, &lines);
    }
    draft.close();
    draft
}

// Changes up to three bytes.
fn damage(draft: &mut Draft, random: &mut Random) {
    let many = u16::try_from(draft.bytes.len()).unwrap_or(0);
    for _ in 0..random.up_to(3) {
        let _ = draft
            .bytes
            .replace(usize::from(random.below(many)), byte(random));
    }
}

// A record with figures of any kind, or a few bytes. (A match: a table of closures over the draft and the generator is no plainer.)
fn odd_record(draft: &mut Draft, random: &mut Random) {
    match random.below(12) {
        0 => draft.supply(fields(random)),
        1 => draft.close_with(random.below(4)),
        2 => draft.raw(&[byte(random), byte(random), byte(random)]),
        3 => draft.line(odd_row(random)),
        4 => draft.cut(random.up_to(40), random.up_to(2), 1, &[random.up_to(40), 1]),
        5 => draft.cut(5, 1, byte(random), &[5, 1, 5, 1, 5, 1]),
        6 => draft.close(),
        _ => draft.line(row(random)),
    }
}

// Odd records behind one that names a supply.
fn odd(random: &mut Random) -> Draft {
    let mut draft = Draft::open(fields(random), &Lines::none());
    for _ in 0..random.below(12) {
        odd_record(&mut draft, random);
    }
    draft.close();
    draft
}

// Compares good sheets, their fronts, and the sheets with damaged bytes.
pub(crate) fn compare(comparison: &mut Comparison) -> [Tally; 4] {
    let mut random = Random::new(1);
    let mut whole = Tally::of("random sheets");
    let mut damaged = Tally::of("random sheets with damaged bytes");
    let mut cut_off = Tally::of("random sheets cut off");
    let mut any_order = Tally::of("random records in any order");
    for _ in 0..SHEETS {
        let mut draft = good(&mut random);
        comparison.compare(&mut whole, draft.bytes.as_slice());
        let length = usize::from(random.below(100));
        comparison.compare(&mut cut_off, draft.front(length));
        damage(&mut draft, &mut random);
        comparison.compare(&mut damaged, draft.bytes.as_slice());
        let odd = odd(&mut random);
        comparison.compare(&mut any_order, odd.bytes.as_slice());
    }
    [whole, damaged, cut_off, any_order]
}
