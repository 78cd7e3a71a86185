// The cites of a certificate one after another. They come as bytes, four for each: its deadline and its weight, the high byte first.
ghost use Rattle.roster.specs.Certificate.{Whole};

use crate::cite::Cite;

// The cites that are still to come.
#[derive(Drop)]
pub(crate) struct Cites<'a> {
    bytes: &'a [u8],
    ghost whole: { Whole bytes.now },
}

impl<'a> Cites<'a> {
    ghost use Rattle.roster.specs.Cites.{cites_left};
    ghost use Rattle.roster.specs.Certificate.{cites_of};
    ghost use Rattle.std.specs.Prelude.{◌≡◌};

    // The cites that bytes of whole cites spell.
    pub(crate) fn of(bytes: &'a [u8]) -> Cites<'a>
        requires { Whole bytes.now }
        ensures { cites_left result ≡ cites_of bytes.now }
    {
        Cites { bytes }
    }
}

impl<'a> Iterator for Cites<'a> {
    ghost use Rattle.roster.specs.Cites.{cite_of, cites_left};
    ghost use Rattle.std.specs.Iterator.{YieldsFirstBy, item_count};

    type Item = Cite;

    ghost next_gives = { YieldsFirstBy cite_of cites_left };

    ghost remaining = { item_count cites_left };

    fn next(&mut self) -> Option<Cite> {
        let [d1, d0, w1, w0, rest @ ..] = self.bytes else {
            return None;
        };
        self.bytes = rest;
        Some(Cite {
            deadline: u16::from_be_bytes([*d1, *d0]),
            weight: u16::from_be_bytes([*w1, *w0]),
        })
    }
}
