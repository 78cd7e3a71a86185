ghost use Rattle.std.specs.Prelude.{◌≡◌, ◌<◌, ◌≤◌, ◌+◌, [], ◌∷◌, ◌++◌, not, length, filter, MatchOption, MatchResult, nat_le, slice_get, slice_set};
ghost use Rattle.std.specs.List.{remove};

use crate::full::Full;
use std::marker::Model;

// At most N values, which lie in the value itself. It stands beside the library's ArrayVec, which is not Copy: whoever holds
// lines or a watch list is promised that they are.
#[derive(Clone, Copy)]
pub struct ShortList<T, const N: usize> {
    places: [T; N],
    len: usize,
}

impl<T, const N: usize> Model for ShortList<T, N> {
    ghost use Rattle.std.specs.Prelude.{◌≡◌, ◌≤◌, ◌++◌, length, take, drop};
    ghost use Rattle.std.proofs.Common.{arith, take-append-drop, length-take-le};
    ghost use Rattle.short_list.specs.Short.{Short};

    ghost Value = { Short T };

    ghost view = { λ s. record { items = take s.len s.places; spare = drop s.len s.places } };

    ghost invariant = { λ s. (s.len ≤ N) × (length s.places ≡ N) };

    ghost inverse = { λ s. record { places = s.items ++ s.spare; len = length s.items } };

    ghost inverse_ok = { λ s h i. record {
      places = take-append-drop s.len s.places i;
      len = length-take-le s.len s.places (omega (arith, h.0, h.1)) i;
    } };
}

impl<T: Copy, const N: usize> ShortList<T, N> {
    // The list of nothing. The blank fills the places that hold no value.
    pub fn none(blank: T) -> ShortList<T, N>
        ensures holds_nothing { result.items ≡ [] }
    {
        ShortList {
            places: [blank; N],
            len: 0,
        }
    }

    // The values, in their order.
    pub fn as_slice(&self) -> &[T]
        ensures shows_all_items { result.now ≡ self.now.items }
        ensures within_capacity { length result.now ≤ N }
    {
        &self.places[..self.len]
    }

    // How many values there are.
    pub fn len(&self) -> usize
        ensures counts_items { result ≡ length self.now.items }
        ensures within_capacity { result ≤ N }
    {
        self.as_slice().len()
    }

    // Whether there is no room for one more.
    pub fn is_full(&self) -> bool
        ensures full_at_capacity { result ≡ nat_le N (length self.now.items) }
    {
        self.len >= N
    }

    // One value more at the end; nothing changes where there is no room.
    pub fn push(&mut self, value: T) -> Result<(), Full>
        ensures appends_unless_full { MatchResult result (λ _. (length self.old.items < N) × (self.new.items ≡ self.old.items ++ (value ∷ []))) (λ _. (N ≤ length self.old.items) × (self.new ≡ self.old)) }
    {
        if self.is_full() {
            return Err(Full);
        }
        self.places[self.len] = value;
        self.len += 1;
        Ok(())
    }

    // The values of a slice more at the end; nothing changes where there is no room for all.
    pub fn extend_from_slice(&mut self, values: &[T]) -> Result<(), Full>
        ensures appends_all_or_nothing { MatchResult result (λ _. self.new.items ≡ self.old.items ++ values.now) (λ _. (N < length self.old.items + length values.now) × (self.new ≡ self.old)) }
    {
        if values.len() > N - self.len {
            return Err(Full);
        }
        let end = self.len + values.len();
        let places = &mut self.places[..];
        places[self.len..end].copy_from_slice(values);
        self.len = end;
        Ok(())
    }

    // Another value at a place; the value that stood there, if there is one.
    pub fn replace(&mut self, at: usize, value: T) -> Option<T>
        ensures answers_item_before { result ≡ slice_get self.old.items at }
        ensures changes_that_place_alone { self.new.items ≡ slice_set self.old.items at value }
    {
        if at >= self.len {
            return None;
        }
        let old = self.places[at];
        self.places[at] = value;
        Some(old)
    }

    // The value of a place leaves, and the later ones move down; nothing changes where there is none.
    pub fn remove(&mut self, at: usize) -> Option<T>
        ensures answers_item_removed { result ≡ slice_get self.old.items at }
        ensures closes_the_gap { self.new.items ≡ remove self.old.items at }
    {
        if at >= self.len {
            return None;
        }
        let old = self.places[at];
        self.places.copy_within(at + 1..self.len, at);
        self.len -= 1;
        Some(old)
    }
}

impl<T: Copy + PartialEq, const N: usize> ShortList<T, N> {
    // The values other than one, in their order.
    pub fn without(&self, value: T) -> ShortList<T, N>
        ensures drops_that_value_alone { result.items ≡ filter (λ x. not (T.eq x value)) self.now.items }
    {
        // The number of those kept stands beside the places, and goes into the list only at the end.
        let mut places = self.places;
        let mut kept = 0;
        for x in self.as_slice() {
            if *x != value {
                places[kept] = *x;
                kept += 1;
            }
        }
        ShortList { places, len: kept }
    }
}
