//! Numbers with a family and a unit: nodes or leaves.
ghost use Rattle.std.specs.Prelude.{◌≡◌, ◌+◌, ◌-◌, ◌^◌, ◌<◌, ◌≤◌, ◌==◌, ℕ, ⊤};
ghost use Rattle.std.specs.Option.{SomeIff};
ghost use Rattle.std.proofs.Common.{rules};
ghost use Rattle.std.specs.Cmp.{partial_order_from_own_ties};
ghost use Rattle.std.specs.Cmp.Rules.{comparing, hashing};
ghost use Rattle.std.specs.Ordering.{nat_cmp, as_partial_cmp};
ghost use Rattle.std.specs.Hash as fed;

use std::alloc::AllocError;
use std::cmp::Ordering;
use std::hash::{Hash, Hasher};
use std::marker::{Model, PhantomData};
use std::ops::{Add, AddAssign, Sub, SubAssign};

/// The unit of positions and sizes in nodes.
#[derive(Clone, Copy, Debug, Default, PartialEq, Eq)]
pub struct Nodes;

/// The unit of locations and leaf counts.
#[derive(Clone, Copy, Debug, Default, PartialEq, Eq)]
pub struct Leaves;

/// An index or a count of family `F` in the unit `U`, which is [`Nodes`] or [`Leaves`].
///
/// Sums must fit a `u64`, and differences must not be negative: see
/// [`checked_sub`](Number::checked_sub).
pub struct Number<F, U> {
    pub(crate) index: u64,
    of: PhantomData<(F, U)>,
}

impl<F, U> Model for Number<F, U> {
    ghost use Rattle.std.specs.Prelude.{ℕ};

    ghost Value = { ℕ };

    ghost view = { λ p. p.index };

    ghost inverse = { λ n. record { index = n; of = _ } };
}

impl<F, U> Clone for Number<F, U> {
    ghost is_clone = { λ x y. y ≡ x };

    ghost is_infallible = { λ _. ⊤ };

    fn clone(&self) -> Result<Self, AllocError> {
        Ok(Number {
            index: self.index,
            of: PhantomData,
        })
    }
}

impl<F, U> Copy for Number<F, U> {}

impl<F, U> PartialEq for Number<F, U> {
    ghost eq = { ◌==◌ };

    ghost laws = { Prim.search (comparing, rules) };

    fn eq(&self, other: &Self) -> bool {
        self.index == other.index
    }
}

impl<F, U> Eq for Number<F, U> {
    ghost laws = { Prim.search (comparing, rules) };
}

impl<F, U> PartialOrd for Number<F, U> {
    ghost partial_cmp = { as_partial_cmp nat_cmp };

    ghost laws = { partial_order_from_own_ties (Prim.search (comparing, rules)) (Prim.search (comparing, rules)) };

    fn partial_cmp(&self, other: &Self) -> Option<Ordering> {
        Some(self.index.cmp(&other.index))
    }
}

impl<F, U> Ord for Number<F, U> {
    ghost cmp = { nat_cmp };

    ghost total = { Prim.search (comparing, rules) };

    ghost matches_partial_cmp = { Prim.search (comparing, rules) };

    ghost matches_eq = { Prim.search (comparing, rules) };

    fn cmp(&self, other: &Self) -> Ordering {
        self.index.cmp(&other.index)
    }
}

impl<F, U> Hash for Number<F, U> {
    ghost hash_input = { λ p. fed.u64 p };

    ghost respects_eq = { Prim.search (hashing, rules) };

    fn hash<H: Hasher>(&self, state: &mut H) {
        self.index.hash(state);
    }
}

impl<F, U> Default for Number<F, U> {
    ghost is_default = { λ p. p ≡ 0 };

    fn default() -> Self {
        Self::new(0)
    }
}

impl<F, U> Number<F, U> {
    /// Wraps an index or a count. Any `u64` is allowed; the limits of the family are not checked.
    pub fn new(index: u64) -> Self
        ensures { result ≡ index }
    {
        Number {
            index,
            of: PhantomData,
        }
    }

    /// Returns the index or count without its unit.
    pub fn as_u64(self) -> u64
        ensures { result ≡ self }
    {
        u64::from(self)
    }

    /// Returns the difference, or `None` if it is negative.
    pub fn checked_sub(self, rhs: u64) -> Option<Self>
        ensures { SomeIff result (rhs ≤ self) (self - rhs) }
    {
        if rhs <= self.index {
            Some(Self::new(self.index - rhs))
        } else {
            None
        }
    }

    /// Returns the difference, or 0 if it is negative.
    pub fn saturating_sub(self, rhs: u64) -> Self
        ensures { result ≡ self - rhs }
    {
        Self::new(self.index.saturating_sub(rhs))
    }
}

impl<F, U> Add for Number<F, U> {
    type Output = Self;

    ghost can_add = { λ a b. a + b < 2 ^ 64 };

    ghost add_gives = { λ a b r. r ≡ a + b };

    fn add(self, rhs: Self) -> Self {
        Number {
            index: self.index + rhs.index,
            of: PhantomData,
        }
    }
}

impl<F, U> Add<u64> for Number<F, U> {
    type Output = Self;

    ghost can_add = { λ a b. a + b < 2 ^ 64 };

    ghost add_gives = { λ a b r. r ≡ a + b };

    fn add(self, rhs: u64) -> Self {
        Number {
            index: self.index + rhs,
            of: PhantomData,
        }
    }
}

impl<F, U> Sub for Number<F, U> {
    type Output = Self;

    ghost can_sub = { λ a b. b ≤ a };

    ghost sub_gives = { λ a b r. r ≡ a - b };

    fn sub(self, rhs: Self) -> Self {
        Number {
            index: self.index - rhs.index,
            of: PhantomData,
        }
    }
}

impl<F, U> Sub<u64> for Number<F, U> {
    type Output = Self;

    ghost can_sub = { λ a b. b ≤ a };

    ghost sub_gives = { λ a b r. r ≡ a - b };

    fn sub(self, rhs: u64) -> Self {
        Number {
            index: self.index - rhs,
            of: PhantomData,
        }
    }
}

impl<F, U> AddAssign<u64> for Number<F, U> {
    ghost can_add_assign = { λ a b. a + b < 2 ^ 64 };

    ghost add_assign_gives = { λ a b r. r ≡ a + b };

    fn add_assign(&mut self, rhs: u64) {
        self.index += rhs;
    }
}

impl<F, U> SubAssign<u64> for Number<F, U> {
    ghost can_sub_assign = { λ a b. b ≤ a };

    ghost sub_assign_gives = { λ a b r. r ≡ a - b };

    fn sub_assign(&mut self, rhs: u64) {
        self.index -= rhs;
    }
}

impl<F, U> From<u64> for Number<F, U> {
    ghost from_gives = { λ n p. p ≡ n };

    fn from(index: u64) -> Self {
        Self::new(index)
    }
}

impl<F, U> From<usize> for Number<F, U> {
    ghost from_gives = { λ n p. p ≡ n };

    fn from(index: usize) -> Self {
        Self::new(index as u64)
    }
}

impl<F, U> From<Number<F, U>> for u64 {
    ghost from_gives = { λ p n. n ≡ p };

    fn from(number: Number<F, U>) -> u64 {
        number.index
    }
}
