//! Digests that a proof supplies by position.
ghost use Rattle.std.specs.Prelude.{◌≡◌, ◌↔◌, ◌<◌, ℕ, IfSome, IsTrue, get_or};
ghost use Rattle.std.specs.Option.{unwrap_or};
ghost use Rattle.std.specs.List.Sorted.{IsStrictlyIncreasing};
ghost use Rattle.merkle_base.specs.Table.{digest_for};
ghost use Rattle.merkle_scattered.specs.Searched.{IsFirstFrom};

use merkle_base::family::Family;
use merkle_base::position::Position;
use merkle_digest::digest::Digest;

/// How many positions are looked at one by one before all are searched.
const NEAR: usize = 32;

/// The digests of nodes by position, as a proof of scattered leaves supplies them.
#[derive(Drop)]
pub struct SuppliedDigests<'a, F, D> {
    /// The positions, strictly ascending.
    pub positions: &'a [Position<F>],
    /// The digests, one for each position.
    pub digests: &'a [D],
}

impl<F: Family, D: Digest> SuppliedDigests<'_, F, D> {
    /// Returns the digest that is supplied for `position`, or `None`.
    pub fn get(&self, position: Position<F>) -> Option<D>
        requires { IsStrictlyIncreasing self.now.positions.now }
        ensures { result ≡ digest_for self.now.positions.now self.now.digests.now position }
    {
        match self.positions.binary_search(&position) {
            Ok(index) => self.digests.get(index).copied(),
            Err(_) => None,
        }
    }

    // Whether the first `count` positions are before `position`.
    fn are_before(&self, count: usize, position: Position<F>) -> bool
        requires { IsStrictlyIncreasing self.now.positions.now }
        ensures { IsTrue result → (k : ℕ) → k < count → get_or self.now.positions.now k 0 < position }
    {
        if count == 0 {
            return true;
        }
        match self.positions.get(count - 1) {
            Some(last) => *last < position,
            None => false,
        }
    }

    // Returns the index of the first position that is `position` or after it, if it is among the next
    // few from index `from` on and no earlier position is.
    fn index_near(&self, position: Position<F>, from: usize) -> Option<usize>
        requires { IsStrictlyIncreasing self.now.positions.now }
        ensures { IfSome result (λ i. IsFirstFrom self.now.positions.now position i) }
    {
        if !self.are_before(from, position) {
            return None;
        }
        let end = from.saturating_add(NEAR).min(self.positions.len());
        for index in from..end {
            if self.positions[index] >= position {
                return Some(index);
            }
        }
        None
    }

    // Returns the index of the first position that is `position` or after it. It is found at once if it
    // is one of the next few from index `from` on.
    fn index_from(&self, position: Position<F>, from: usize) -> usize
        requires { IsStrictlyIncreasing self.now.positions.now }
        ensures { IsFirstFrom self.now.positions.now position result }
    {
        if let Some(index) = self.index_near(position, from) {
            return index;
        }
        match self.positions.binary_search(&position) {
            Ok(index) => index,
            Err(index) => index,
        }
    }

    /// Returns the digest that is supplied for `position`, or `None`.
    ///
    /// Digests that are asked for by ascending positions are found sooner: `place` is where the search
    /// begins, and then where it ended. Its value does not change the result.
    fn get_next(&self, position: Position<F>, place: &mut usize) -> Option<D>
        requires { IsStrictlyIncreasing self.now.positions.now }
        ensures { result ≡ digest_for self.now.positions.now self.now.digests.now position }
    {
        let index = self.index_from(position, *place);
        *place = index;
        let Some(found) = self.positions.get(index) else {
            return None;
        };
        if *found == position {
            return self.digests.get(index).copied();
        }
        None
    }

    /// Returns the digest that is supplied for `position`, or the empty one. The search begins at
    /// `place`.
    pub(crate) fn or_empty(&self, position: Position<F>, place: &mut usize) -> D
        requires { IsStrictlyIncreasing self.now.positions.now }
        ensures { result ≡ unwrap_or (digest_for self.now.positions.now self.now.digests.now position) D.EMPTY }
    {
        match self.get_next(position, place) {
            Some(digest) => digest,
            None => D::EMPTY,
        }
    }

    /// Whether no digest other than `computed` is supplied for `position`. The search begins at `place`.
    pub(crate) fn agrees(&self, position: Position<F>, computed: &D, place: &mut usize) -> bool
        requires { IsStrictlyIncreasing self.now.positions.now }
        ensures { IsTrue result ↔ IfSome (digest_for self.now.positions.now self.now.digests.now position) (λ d. d ≡ computed.now) }
    {
        match self.get_next(position, place) {
            Some(digest) => digest == *computed,
            None => true,
        }
    }
}
