// A job: its line's number, the instant of its release, and its cost in slots. Laid out as C does, so that lists of jobs can
// be lent by C code.
#[repr(C)]
#[derive(Clone, Copy, PartialEq, Eq)]
pub struct Job {
    pub line: u8,
    pub release: u16,
    pub cost: u16,
}
