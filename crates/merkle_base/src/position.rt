//! Positions: node indices and sizes in nodes.
ghost use Rattle.std.specs.Prelude.{◌≡◌, ◌+◌, ◌<◌, ◌≤◌, ◌↔◌, ◌++◌, IsTrue, if◌then◌else◌, nat_le, Some, codes};
ghost use Rattle.std.specs.Option.{SomeIff};
ghost use Rattle.std.specs.Fmt.{decimal};
ghost use Rattle.merkle_base.specs.Places.{IsSize};

use crate::error::Error;
use crate::family::Family;
use crate::location::Location;
pub use crate::number::{Nodes, Number};
use std::fmt;

/// A node index (position) or a size in nodes of a family; it prints as `Position(42)`.
///
/// # Examples
///
/// ```
/// // Three leaves of a Mountain Range have four nodes: the leaves 0, 1 and 3, and the parent 2.
/// let size: mmr::Position = Position::new(4);
/// assert!(rt; size.is_valid_size() && !(size + 1).is_valid_size());
/// assert!(rt; mmr::Location::try_from(size).ok() == Some(Location::new(3)));
/// ```
pub type Position<F> = Number<F, Nodes>;

impl<F: Family> Position<F> {
    /// Whether this is at most [`MAX_NODES`](Family::MAX_NODES), the greatest size.
    pub fn is_valid(self) -> bool
        ensures { IsTrue result ↔ (self ≤ F.MAX_NODES) }
    {
        self.index <= F::MAX_NODES
    }

    /// Whether a node can be at this position: below [`MAX_NODES`](Family::MAX_NODES).
    pub fn is_valid_index(self) -> bool
        ensures { IsTrue result ↔ (self < F.MAX_NODES) }
    {
        self.index < F::MAX_NODES
    }

    /// Returns the sum, or `None` if it exceeds [`MAX_NODES`](Family::MAX_NODES).
    pub fn checked_add(self, rhs: u64) -> Option<Self>
        ensures { SomeIff result (self + rhs ≤ F.MAX_NODES) (self + rhs) }
    {
        let maximum = F::MAX_NODES;
        if self.index <= maximum && rhs <= maximum - self.index {
            Some(Self::new(self.index + rhs))
        } else {
            None
        }
    }

    /// Returns the sum, or [`MAX_NODES`](Family::MAX_NODES) if the sum exceeds it.
    pub fn saturating_add(self, rhs: u64) -> Self
        ensures { result ≡ (if nat_le (self + rhs) F.MAX_NODES then self + rhs else F.MAX_NODES) }
    {
        match self.index.checked_add(rhs) {
            Some(sum) if sum <= F::MAX_NODES => Self::new(sum),
            _ => Self::new(F::MAX_NODES),
        }
    }

    /// Whether some leaf count of the family has this many nodes.
    pub fn is_valid_size(self) -> bool
        ensures { IsTrue result ↔ IsSize F.rule F.MAX_LEAVES self }
    {
        F::is_valid_size(self)
    }
}

impl<F> fmt::Display for Position<F> {
    ghost output = { λ p. Some (codes "Position(" ++ decimal p ++ codes ")") };

    fn fmt<W: fmt::Write>(&self, f: &mut fmt::Formatter<W>) -> fmt::Result {
        write!(f, "Position({})", self.index)
    }
}

impl<F> fmt::Debug for Position<F> {
    ghost debug_output = { λ p. Some (codes "Position(" ++ decimal p ++ codes ")") };

    fn fmt<W: fmt::Write>(&self, f: &mut fmt::Formatter<W>) -> fmt::Result {
        fmt::Display::fmt(self, f)
    }
}

/// The position of the leaf at a location, which is also the size in nodes of a structure with that
/// many leaves.
///
/// # Errors
///
/// - `LocationOverflow` if the location exceeds [`MAX_LEAVES`](Family::MAX_LEAVES)
impl<F: Family> TryFrom<Location<F>> for Position<F> {
    ghost use Rattle.std.specs.Prelude.{◌≡◌, ◌<◌, ◌≤◌, Ok, Err};
    ghost use Rattle.merkle_base.specs.Forest.{size};
    ghost use Rattle.merkle_base.specs.declared.error.Error.TheVariants.{LocationOverflow};

    type Error = Error<F>;

    ghost try_from_gives = { λ l r. (l ≤ F.MAX_LEAVES → r ≡ Ok (size F.rule l)) × (F.MAX_LEAVES < l → r ≡ Err (LocationOverflow l)) };

    fn try_from(location: Location<F>) -> Result<Self, Error<F>> {
        if location.is_valid() {
            Ok(F::location_to_position(location))
        } else {
            Err(Error::LocationOverflow(location))
        }
    }
}
