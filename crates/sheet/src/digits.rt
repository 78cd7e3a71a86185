ghost use Rattle.std.specs.Prelude.{◌≡◌, decimal};

use short_list::ShortList;

// The decimal digits of a number, 10 at most. The library's own printing may fail by its contract, or takes memory, and a
// report may do neither.
pub(crate) fn digits(n: u32) -> ShortList<u8, 10>
    ensures { result.items ≡ decimal n }
{
    let mut front = if n < 10 {
        ShortList::none(0)
    } else {
        digits(n / 10)
    };
    front.push(b'0' + (n % 10) as u8).unwrap();
    front
}
