ghost use Rattle.std.specs.Prelude.{◌≡◌, ◌+◌, nat_lt, cond};

// The next place of a turn: after the last comes the first.
pub fn next_place(place: u8, turn: u8) -> u8
    ensures first_comes_after_the_last { result ≡ cond (nat_lt (place + 1) turn) (place + 1) 0 }
{
    let after = place.saturating_add(1);
    if after < turn { after } else { 0 }
}
