// A witness: a phase and a number of jobs, which stand at the front of the list that was lent. No schedule meets them in that phase.
#[derive(Clone, Copy, PartialEq, Eq)]
pub struct Witness {
    pub phase: u32,
    pub jobs: usize,
}
