// The plain figures of a line: a job comes at most once in a period, is due a deadline after it came, and costs at most so many slots.
#[derive(Clone, Copy, PartialEq, Eq)]
pub struct Row {
    pub period: u16,
    pub deadline: u16,
    pub cost: u16,
}
