use lines::{Lines, Row, WatchList};

// Some lines together and their watch list, unless one of them is refused.
pub(crate) fn taken(rows: &[Row]) -> Option<(Lines, WatchList)> {
    let mut taken = (Lines::none(), WatchList::none());
    for row in rows {
        taken = taken.0.add(*row).ok()?;
    }
    Some(taken)
}
