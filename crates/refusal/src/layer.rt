// The part of the gateway that refused.
#[derive(Clone, Copy, PartialEq, Eq)]
pub enum Layer {
    Supply,
    Roster,
    Run,
    Sheet,
}
