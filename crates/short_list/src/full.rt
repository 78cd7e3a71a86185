// There was no room for what was to be added.
#[derive(Clone, Copy, PartialEq, Eq)]
pub struct Full;
