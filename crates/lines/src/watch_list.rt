ghost use Rattle.std.specs.Prelude.{◌≤◌, length};

mod methods;

use short_list::ShortList;

// The deadlines at which demand is compared with supply: at most 256.
#[derive(Clone, Copy)]
pub struct WatchList {
    deadlines: ShortList<u16, 256>,
    ghost within: { length deadlines.items ≤ 256 },
}
