// The records of an accepted sheet, and what they say beside its lines: the supply, and the cuts.
ghost use Rattle.std.specs.Prelude.{length};
ghost use Rattle.std.specs.Iterator.{at_most};

use explanations::Certificate;
use grammar::Fields;
use roster::Cite;
use std::alloc::{AllocError, Global};

// One record behind the first, as far as the console looks into it.
#[derive(Drop)]
pub(crate) enum Record<'a> {
    Line,
    Cut(CutRecord<'a>),
}

// The record of a cut.
#[derive(Drop)]
pub(crate) struct CutRecord<'a> {
    deadline: u16,
    divisor: u16,
    // Four bytes to a cite.
    cites: &'a [u8],
}

impl<'a> CutRecord<'a> {
    // The certificate of the cut.
    pub(crate) fn certificate(&self, heap: Global) -> Result<Certificate, AllocError> {
        let (records, _) = self.cites.as_chunks::<4>();
        let mut cites = Vec::new(heap);
        for [d1, d0, w1, w0] in records {
            cites.push(Cite {
                deadline: u16::from_be_bytes([*d1, *d0]),
                weight: u16::from_be_bytes([*w1, *w0]),
            })?;
        }
        Ok(Certificate {
            deadline: self.deadline,
            divisor: self.divisor,
            cites,
        })
    }
}

// The records of a sheet behind the first and up to the last, one after the other.
#[derive(Drop)]
pub(crate) struct Records<'a> {
    rest: &'a [u8],
}

// The fields that the first record of a sheet spells, and the records behind it. The fields are read once more here: the sheet's
// reader opens their supply and keeps none of them.
pub(crate) fn opened(sheet: &[u8]) -> Option<(Fields, Records<'_>)> {
    let (first, rest) = sheet.split_first_chunk::<13>()?;
    let [_, _, length, w7, w6, w5, w4, w3, w2, w1, w0, share, of] = *first;
    let fields = Fields {
        length,
        word: u64::from_be_bytes([w7, w6, w5, w4, w3, w2, w1, w0]),
        share,
        of,
    };
    Some((fields, Records { rest }))
}

impl<'a> Iterator for Records<'a> {
    type Item = Record<'a>;

    ghost remaining = { λ records. at_most (length records.rest.now) };

    fn next(&mut self) -> Option<Record<'a>> {
        match self.rest {
            [b'L', b'N', _, _, _, _, _, _, rest @ ..] => {
                self.rest = rest;
                Some(Record::Line)
            }
            [b'C', b'U', d1, d0, q1, q0, number, rest @ ..] => {
                let (cites, rest) = rest.split_at_checked(4 * usize::from(*number))?;
                self.rest = rest;
                Some(Record::Cut(CutRecord {
                    deadline: u16::from_be_bytes([*d1, *d0]),
                    divisor: u16::from_be_bytes([*q1, *q0]),
                    cites,
                }))
            }
            _ => None,
        }
    }
}
