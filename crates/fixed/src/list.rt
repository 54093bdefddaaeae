ghost use Rattle.std.specs.Prelude.{◌≡◌, ◌<◌, ◌≤◌, ◌↔◌, ⊤, [], ◌∷◌, ◌++◌, length, ◌==◌, slice_set, IsOk, OnOk, OnErr};
ghost use Rattle.fixed.specs.Filled.{filled, IsFilled};

use crate::blank::Blank;
use std::alloc::AllocError;

// There was no place left.
#[derive(Clone, Copy, PartialEq, Eq, Debug)]
pub struct Full;

// At most `N` values in order, which lie in the list itself; the other places are blank.
pub struct FixedList<T: Blank, const N: usize> {
    places: [T; N],
    len: usize,
    ghost held: { IsFilled N T.Blank.blank len places },
}

impl<T: Blank, const N: usize> Clone for FixedList<T, N> {
    ghost is_clone = { λ list copy. copy ≡ list };

    ghost is_infallible = { λ _. ⊤ };

    fn clone(&self) -> Result<FixedList<T, N>, AllocError> {
        Ok(*self)
    }
}

impl<T: Blank, const N: usize> Copy for FixedList<T, N> {}

impl<T: Blank, const N: usize> FixedList<T, N> {
    ghost use Rattle.fixed.specs.Values.{values};

    pub fn new() -> FixedList<T, N>
        ensures { values result ≡ [] }
    {
        FixedList {
            places: [T::blank(); N],
            len: 0,
        }
    }

    pub fn len(&self) -> usize
        ensures value { result ≡ length (values self.now) }
        ensures few { length (values self.now) ≤ N }
    {
        self.as_slice().len()
    }

    pub fn is_empty(&self) -> bool
        ensures { result ≡ (length (values self.now) == 0) }
    {
        self.as_slice().is_empty()
    }

    // The values.
    pub fn as_slice(&self) -> &[T]
        ensures values { result.now ≡ values self.now }
        ensures few { length (values self.now) ≤ N }
    {
        &self.places[..self.len]
    }

    // All places: the values, then blanks.
    pub fn places(&self) -> &[T; N]
        ensures { result.now ≡ filled N T.Blank.blank (values self.now) }
    {
        &self.places
    }

    // Adds a value at the end, or refuses it where the list is full.
    pub fn push(&mut self, value: T) -> Result<(), Full>
        ensures room { IsOk result ↔ (length (values self.old) < N) }
        ensures ok { OnOk result (values self.new ≡ values self.old ++ value ∷ []) }
        ensures err { OnErr result (self.new ≡ self.old) }
    {
        if self.len == N {
            return Err(Full);
        }
        self.places[self.len] = value;
        self.len += 1;
        Ok(())
    }

    // Puts another value in the place of one; where the list has no such place, nothing changes.
    pub fn set(&mut self, place: usize, value: T)
        ensures values { values self.new ≡ slice_set (values self.old) place value }
        ensures outside { length (values self.old) ≤ place → self.new ≡ self.old }
    {
        if place < self.len {
            self.places[place] = value;
        }
    }
}
