// Random certificates, and what their cites come to.
use crate::figures::{Figures, at};
use roster::Cite;
use short_list::ShortList;
use trial_tools::{Generator, Random};

// The deadline that is to leave, the divisor, the cites, and their bytes: deadline and weight, two bytes each, the high byte first.
// (A type of its own beside the one of explanations, which is plain: this one counts by the definitions.)
#[derive(Clone, Copy)]
pub(crate) struct Certificate {
    pub(crate) deadline: u16,
    pub(crate) divisor: u16,
    pub(crate) cites: ShortList<Cite, 8>,
    pub(crate) bytes: ShortList<u8, 32>,
}

// The cite that fills a list.
const NO_CITE: Cite = Cite {
    deadline: 0,
    weight: 0,
};

// A figure times its weight.
fn weighed(weight: u16, figure: u16) -> u64 {
    u64::from(weight).saturating_mul(u64::from(figure))
}

// The last of a rising list that comes by t.
fn last_by(list: &[u16], t: u16) -> Option<u16> {
    let mut last = None;
    for d in list {
        if *d <= t {
            last = Some(*d);
        }
    }
    last
}

// A deadline of a list that comes by t, the last or any, and mostly another than d.
fn cited(random: &mut Random, list: &[u16], d: u16, t: u16) -> Option<u16> {
    let most = if random.below(2) == 0 {
        t
    } else {
        random.of(list).min(t)
    };
    let last = last_by(list, most);
    if last == Some(d) && random.below(16) != 0 {
        return last_by(list, d.saturating_sub(1));
    }
    last
}

impl Certificate {
    // A certificate for a deadline of a list, with cites that together come to about its length.
    pub(crate) fn random(random: &mut Random, list: &[u16]) -> Certificate {
        let deadline = random.of(list);
        let divisor = random.up_to(2);
        let mut left = deadline.saturating_mul(divisor);
        let mut certificate = Certificate {
            deadline,
            divisor,
            cites: ShortList::none(NO_CITE),
            bytes: ShortList::none(0),
        };
        for _ in 0..8 {
            // Where none comes before the deadline itself, 0 is cited, which is never watched.
            let cited = cited(random, list, deadline, left).unwrap_or(0);
            let weight = random.up_to(3).saturating_sub(1).max(1);
            left = left.saturating_sub(cited.saturating_mul(weight));
            certificate.cite(cited, weight);
            if last_by(list, left).is_none() {
                break;
            }
        }
        certificate
    }

    // One cite more.
    fn cite(&mut self, deadline: u16, weight: u16) {
        let _ = self.cites.push(Cite { deadline, weight });
        let _ = self.bytes.extend_from_slice(&deadline.to_be_bytes());
        let _ = self.bytes.extend_from_slice(&weight.to_be_bytes());
    }

    // A figure of the deadline, times the divisor.
    pub(crate) fn own(&self, figures: &Figures) -> u64 {
        weighed(self.divisor, at(figures, self.deadline))
    }

    // A figure of each cited deadline times its weight, together.
    pub(crate) fn cited(&self, figures: &Figures) -> u64 {
        let mut sum = 0u64;
        for cite in self.cites.as_slice() {
            sum = sum.saturating_add(weighed(cite.weight, at(figures, cite.deadline)));
        }
        sum
    }
}
