// A cite of a certificate: a deadline, and the weight of the figures that are compared there.
#[derive(Clone, Copy)]
pub struct Cite {
    pub deadline: u16,
    pub weight: u16,
}
