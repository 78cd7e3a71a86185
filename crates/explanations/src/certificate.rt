use roster::Cite;

// Why a deadline need not be watched: so many times what is due by it is covered by what is due by the cites.
#[derive(Drop)]
pub struct Certificate {
    pub deadline: u16,
    pub divisor: u16,
    pub cites: Vec<Cite>,
}
