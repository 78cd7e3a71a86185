ghost use Rattle.std.specs.Prelude.{◌↔◌, IsTrue};
ghost use Rattle.trial_tools.specs.Front.{HoldsFront};

// Whether a list begins with some items, and holds behind them what it held before.
pub fn holds<T: PartialEq + Copy>(list: &[T], front: &[T], before: T) -> bool
    ensures front_and_then_as_before { IsTrue result ↔ HoldsFront T.eq list.now front.now before }
{
    for (place, item) in list.iter().enumerate() {
        if *item != front.get(place).copied().unwrap_or(before) {
            return false;
        }
    }
    true
}
