use lines::Row;
use refusal::Refusal;

// A line that is refused beside others, which are taken, and how.
pub struct Untaken {
    pub before: &'static [Row],
    pub row: Row,
    pub refused: Option<Refusal>,
}
