//! Locations: leaf indices and leaf counts.
ghost use Rattle.std.specs.Prelude.{◌≡◌, ◌+◌, ◌<◌, ◌≤◌, ◌↔◌, ◌++◌, ℕ, IsTrue, if◌then◌else◌, nat_le, Some, codes};
ghost use Rattle.std.specs.Option.{SomeIff};
ghost use Rattle.std.specs.Fmt.{decimal};

use crate::error::Error;
use crate::family::Family;
pub use crate::number::{Leaves, Number};
use crate::position::Position;
use std::fmt;
use std::ops::Range;

/// A leaf index (location) or a leaf count of a family; it prints as `Location(42)`.
///
/// # Examples
///
/// ```
/// // In a Mountain Range the leaf at location 2 is the node at position 3, and node 2 is a parent.
/// let leaf: mmr::Location = Location::new(2);
/// assert!(rt; mmr::Position::try_from(leaf).ok() == Some(Position::new(3)));
/// assert!(rt; mmr::Location::try_from(mmr::Position::new(3)).ok() == Some(leaf));
/// assert!(rt; mmr::Location::try_from(mmr::Position::new(2)).is_err());
/// assert!(rt; leaf + 1 == Location::new(3) && leaf.checked_sub(3).is_none());
/// ```
pub type Location<F> = Number<F, Leaves>;

impl<F: Family> Location<F> {
    /// Whether this is a possible leaf count: at most [`MAX_LEAVES`](Family::MAX_LEAVES).
    pub fn is_valid(self) -> bool
        ensures { IsTrue result ↔ (self ≤ F.MAX_LEAVES) }
    {
        self.index <= F::MAX_LEAVES
    }

    /// Whether a leaf can be at this location: below [`MAX_LEAVES`](Family::MAX_LEAVES).
    pub fn is_valid_index(self) -> bool
        ensures { IsTrue result ↔ (self < F.MAX_LEAVES) }
    {
        self.index < F::MAX_LEAVES
    }

    /// Returns the sum, or `None` if it exceeds [`MAX_LEAVES`](Family::MAX_LEAVES).
    pub fn checked_add(self, rhs: u64) -> Option<Self>
        ensures { SomeIff result (self + rhs ≤ F.MAX_LEAVES) (self + rhs) }
    {
        let maximum = F::MAX_LEAVES;
        if self.index <= maximum && rhs <= maximum - self.index {
            Some(Self::new(self.index + rhs))
        } else {
            None
        }
    }

    /// Returns the sum, or [`MAX_LEAVES`](Family::MAX_LEAVES) if the sum exceeds it.
    pub fn saturating_add(self, rhs: u64) -> Self
        ensures { result ≡ (if nat_le (self + rhs) F.MAX_LEAVES then self + rhs else F.MAX_LEAVES) }
    {
        match self.index.checked_add(rhs) {
            Some(sum) if sum <= F::MAX_LEAVES => Self::new(sum),
            _ => Self::new(F::MAX_LEAVES),
        }
    }
}

impl<F> fmt::Display for Location<F> {
    ghost output = { λ p. Some (codes "Location(" ++ decimal p ++ codes ")") };

    fn fmt<W: fmt::Write>(&self, f: &mut fmt::Formatter<W>) -> fmt::Result {
        write!(f, "Location({})", self.index)
    }
}

impl<F> fmt::Debug for Location<F> {
    ghost debug_output = { λ p. Some (codes "Location(" ++ decimal p ++ codes ")") };

    fn fmt<W: fmt::Write>(&self, f: &mut fmt::Formatter<W>) -> fmt::Result {
        fmt::Display::fmt(self, f)
    }
}

/// The location of the leaf at a position, which is also the leaf count of a structure with that
/// many nodes.
///
/// # Errors
///
/// - `PositionOverflow` if the position exceeds [`MAX_NODES`](Family::MAX_NODES)
/// - `NonLeaf` if no leaf count has that many nodes
impl<F: Family> TryFrom<Position<F>> for Location<F> {
    ghost use Rattle.std.specs.Prelude.{◌≡◌, ◌≢◌, ◌<◌, ◌≤◌, Ok, Err};
    ghost use Rattle.merkle_base.specs.Forest.{size};
    ghost use Rattle.merkle_base.specs.declared.error.Error.TheVariants.{PositionOverflow, NonLeaf};

    type Error = Error<F>;

    ghost try_from_gives = { λ p r. (F.MAX_NODES < p → r ≡ Err (PositionOverflow p))
        × (p ≤ F.MAX_NODES → ((n : ℕ) → size F.rule n ≡ p → r ≡ Ok n) × (((n : ℕ) → size F.rule n ≢ p) → r ≡ Err (NonLeaf p))) };

    fn try_from(position: Position<F>) -> Result<Self, Error<F>> {
        if !position.is_valid() {
            return Err(Error::PositionOverflow(position));
        }
        match F::position_to_location(position) {
            Some(location) => Ok(location),
            None => Err(Error::NonLeaf(position)),
        }
    }
}

/// Conversion of ranges of locations to ranges of indices.
pub trait LocationRangeExt {
    // the numbers of both ends
    ghost start_of: { Self → ℕ };

    ghost end_of: { Self → ℕ };

    /// Returns the range with both ends as `usize`, which they fit.
    fn to_usize_range(&self) -> Range<usize>
        ensures start { result.start ≡ start_of self.now }
        ensures end { result.end ≡ end_of self.now };
}

impl<F> LocationRangeExt for Range<Location<F>> {
    ghost start_of = { λ r. r.start };

    ghost end_of = { λ r. r.end };

    fn to_usize_range(&self) -> Range<usize> {
        self.start.index as usize..self.end.index as usize
    }
}
