// The certificate of a cut, and its checks.
ghost use Rattle.roster.specs.Certificate.{Whole};

mod checks;

// A certificate: the deadline that is to leave, the divisor of its figures, and the bytes of the cites, 1 to 8 and nothing else.
#[derive(Clone, Copy)]
pub(crate) struct Certificate<'a> {
    deadline: u16,
    divisor: u16,
    bytes: &'a [u8],
    ghost whole: { Whole bytes.now },
}
