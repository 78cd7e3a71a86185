// Commands about the deadlines that are watched: cut one, and explain one.
use crate::session::Session;
use commands::{Trouble, Usage, all, figure, number, only, text};
use explanations::{Certificate, Explanation};
use roster::Cite;
use std::alloc::{AllocError, Global};

// The bytes of cites: for each its deadline and its weight, two bytes each, the high byte first.
fn bytes(heap: Global, cites: &[Cite]) -> Result<Vec<u8>, AllocError> {
    let mut bytes = Vec::new(heap);
    for cite in cites {
        bytes.extend_from_slice(&cite.deadline.to_be_bytes())?;
        bytes.extend_from_slice(&cite.weight.to_be_bytes())?;
    }
    Ok(bytes)
}

// The certificate that the words of a `cut` name.
fn certificate(heap: Global, words: &[&str]) -> Result<Certificate, Trouble> {
    let [deadline, divisor, cites @ ..] = words else {
        return Err(Trouble::Usage(Usage::Cut));
    };
    Ok(Certificate {
        deadline: number(deadline, Usage::Cut)?,
        divisor: number(divisor, Usage::Cut)?,
        cites: all(heap, cites, Usage::Cut)?,
    })
}

impl Session {
    // Takes a deadline out of the watch list by a certificate, which is kept for an explanation.
    pub(crate) fn cut(&mut self, words: &[&str]) -> Result<String, Trouble> {
        let certificate = certificate(self.heap, words)?;
        let deadline = certificate.deadline;
        let cites = bytes(self.heap, certificate.cites.as_slice())?;
        self.roster
            .cut(deadline, certificate.divisor, cites.as_slice())?;
        self.cuts.push(certificate)?;
        figure(self.heap, "cut", u32::from(deadline))
    }

    // The certificate by which a deadline was cut, if it was.
    fn cut_of(&self, deadline: u16) -> Option<&Certificate> {
        for certificate in self.cuts.as_slice() {
            if certificate.deadline == deadline {
                return Some(certificate);
            }
        }
        None
    }

    // Why a deadline is or is not watched.
    pub(crate) fn explain(&self, words: &[&str]) -> Result<String, Trouble> {
        let at = only(words, Usage::Explain)?;
        let explanation = Explanation {
            roster: &self.roster,
            at,
            cut: self.cut_of(at),
        };
        text(self.heap, &explanation)
    }
}
