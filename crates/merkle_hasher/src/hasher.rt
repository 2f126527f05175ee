//! Hashers: the digests of leaves, parent nodes, folded peaks and roots.
ghost use Rattle.std.specs.Prelude.{◌≡◌, ◌<◌, ◌≤◌, [], ◌∷◌, length, fold, map};
ghost use Rattle.std.proofs.Common.{ap};
ghost use Rattle.std.specs.Option.{SomeIff};
ghost use Rattle.merkle_digest.specs.Bytes.{joined_parts};
ghost use Rattle.merkle_base.specs.declared.family.Bagging.{Bagging};
ghost use Rattle.merkle_base.specs.Hashing.{Hashing, IsOver};
ghost use Rattle.merkle_base.specs.Scheme.{Scheme, scheme_of};
ghost use Rattle.merkle_base.specs.Root.{HasPeaksRoot, peaks_root};

pub use crate::root::root_string;
use crate::root::{empty_root, fold_peaks, root_of_folded};
use merkle_base::error::Error;
use merkle_base::family::{Bagging, Family};
use merkle_base::location::Location;
use merkle_base::position::Position;
use merkle_digest::digest::{BLOCK_COUNT_BOUND, Digest};

/// A parent node: its position, and the digests of its left and its right child.
pub type Parent<F, D> = (Position<F>, D, D);

/// Computes the digests of a family's leaves, parent nodes, folded peaks and roots.
///
/// Every digest depends only on the arguments and on the value of the hasher; a clone computes the
/// same digests.
pub trait Hasher<F: Family>: Clone {
    /// The digest type.
    type Digest: Digest;

    // the functions that it computes
    ghost hashing: { Self → Hashing Self.Digest };

    // how it folds peaks
    ghost bagging_of: { Self → Bagging };

    // everything that roots and proofs of the family depend on
    ghost scheme: { Self → Scheme Self.Digest };

    /// Returns the digest of the concatenated parts.
    fn hash(&self, parts: &[&[u8]]) -> Self::Digest
        ensures { result ≡ (hashing self.now).hash (joined_parts parts.now) };

    /// Returns how the peaks are folded for a root.
    fn root_bagging(&self) -> Bagging
        ensures { result ≡ bagging_of self.now };

    /// Returns the digest of the parent node at `position` from the digests of its children.
    fn node_digest(
        &self,
        position: Position<F>,
        left: &Self::Digest,
        right: &Self::Digest,
    ) -> Self::Digest
        ensures { result ≡ (hashing self.now).node position left.now right.now };

    /// Returns the digests of two parent nodes, each as by [`node_digest`](Hasher::node_digest). An
    /// implementation may compute them together.
    fn node_digest_pair(&self, nodes: [Parent<F, Self::Digest>; 2]) -> (Self::Digest, Self::Digest)
        ensures { (d : _) (e : _) → nodes ≡ d ∷ e ∷ [] → (result.0 ≡ (hashing self.now).node d.0 d.1 d.2) × (result.1 ≡ (hashing self.now).node e.0 e.1 e.2) };

    /// Returns the digests of three parent nodes, each as by [`node_digest`](Hasher::node_digest). An
    /// implementation may compute them together; without one of its own, they are computed as a pair
    /// and one more.
    ///
    /// Requires that there are three nodes.
    fn node_digests_three(
        &self,
        nodes: &[Parent<F, Self::Digest>],
    ) -> (Self::Digest, Self::Digest, Self::Digest)
        requires { length nodes.now ≡ 3 }
        ensures { map (λ n. (hashing self.now).node n.0 n.1 n.2) nodes.now ≡ result.0 ∷ result.1 ∷ result.2 ∷ [] }
    {
        let (first, second) = self.node_digest_pair([nodes[0], nodes[1]]);
        let last = nodes[2];
        let third = self.node_digest(last.0, &last.1, &last.2);
        (first, second, third)
    }

    /// Returns the digests of four parent nodes, each as by [`node_digest`](Hasher::node_digest). An
    /// implementation may compute them together; without one of its own, they are computed as two
    /// pairs. [`node_digests`](crate::nodes::node_digests) takes any number of nodes.
    ///
    /// Requires that there are four nodes.
    fn node_digests_four(
        &self,
        nodes: &[Parent<F, Self::Digest>],
    ) -> (Self::Digest, Self::Digest, Self::Digest, Self::Digest)
        requires { length nodes.now ≡ 4 }
        ensures { map (λ n. (hashing self.now).node n.0 n.1 n.2) nodes.now ≡ result.0 ∷ result.1 ∷ result.2 ∷ result.3 ∷ [] }
    {
        let (first, second) = self.node_digest_pair([nodes[0], nodes[1]]);
        let (third, fourth) = self.node_digest_pair([nodes[2], nodes[3]]);
        (first, second, third, fourth)
    }

    /// Returns the digest of the leaf at `position` with this element.
    fn leaf_digest(&self, position: Position<F>, element: &[u8]) -> Self::Digest
        ensures { result ≡ (hashing self.now).leaf position element.now };

    /// Returns the digests of four leaves, each as by [`leaf_digest`](Hasher::leaf_digest). An
    /// implementation may compute them together; without one of its own, they are computed one after
    /// another. `leaf_digests` of merkle_leaves takes any number of leaves.
    ///
    /// Requires that there are four leaves.
    fn leaf_digests_four(
        &self,
        leaves: &[(Position<F>, &[u8])],
    ) -> (Self::Digest, Self::Digest, Self::Digest, Self::Digest)
        requires { length leaves.now ≡ 4 }
        ensures { map (λ l. (hashing self.now).leaf l.0 l.1.now) leaves.now ≡ result.0 ∷ result.1 ∷ result.2 ∷ result.3 ∷ [] }
    {
        let first = self.leaf_digest(leaves[0].0, leaves[0].1);
        let second = self.leaf_digest(leaves[1].0, leaves[1].1);
        let third = self.leaf_digest(leaves[2].0, leaves[2].1);
        let fourth = self.leaf_digest(leaves[3].0, leaves[3].1);
        (first, second, third, fourth)
    }

    /// Returns whether four digests can take less time by
    /// [`node_digests_four`](Hasher::node_digests_four) and
    /// [`leaf_digests_four`](Hasher::leaf_digests_four) than one by one. The default is `false`. Callers
    /// may arrange nodes and leaves in groups of four if they can. No digest depends on it.
    fn hashes_together(&self) -> bool {
        false
    }

    /// Returns the number of blocks in which a leaf with an element of `length` bytes is hashed, or one number for all leaves
    /// that are too long to be hashed together with others. It is less than [`BLOCK_COUNT_BOUND`]. The default is 0. Callers
    /// may put leaves in the order of these numbers. No digest depends on it.
    fn leaf_block_count(&self, length: usize) -> usize
        ensures { result < BLOCK_COUNT_BOUND }
    {
        let _ = length;
        0
    }

    /// Returns whether [`leaf_digests_four`](Hasher::leaf_digests_four) hashes four leaves with these numbers of blocks
    /// together, in the time of the longest one. The default is `false`. Callers may estimate the time of leaves by it. No
    /// digest depends on it.
    fn pays_together(&self, a: usize, b: usize, c: usize, d: usize) -> bool {
        let _ = (a, b, c, d);
        false
    }

    /// Returns the digest of `bytes`.
    fn digest(&self, bytes: &[u8]) -> Self::Digest
        ensures { result ≡ (hashing self.now).hash bytes.now };

    /// Returns the digest of one step of a fold of peaks.
    ///
    /// When folding left to right, `acc` is the result so far and `peak` is the next peak; when
    /// folding right to left, `acc` is the next peak and `peak` is the result so far.
    fn fold(&self, acc: &Self::Digest, peak: &Self::Digest) -> Self::Digest
        ensures { result ≡ (hashing self.now).fold acc.now peak.now };

    /// Returns the root over the digests of the peaks, oldest first; `None` if `to_fold` exceeds
    /// the number of peaks, or if there are no peaks and `committed` is not 0.
    ///
    /// With [`Bagging::BackwardFold`] the first `to_fold` peaks are folded left to right and the
    /// rest right to left; with [`Bagging::ForwardFold`] all are folded left to right. `committed`
    /// is the number of inactive peaks that is hashed into the root. [`root`](Hasher::root) passes
    /// the same number for both; they differ if one of the digests is already the fold of several
    /// inactive peaks.
    final fn root_with_folded_peaks(
        &self,
        leaves: Location<F>,
        to_fold: usize,
        committed: usize,
        peaks: &[Self::Digest],
    ) -> Option<Self::Digest>
        ensures { SomeIff result (HasPeaksRoot to_fold committed peaks.now) (peaks_root (scheme self.now) leaves to_fold committed peaks.now) }
    {
        let bagging = self.root_bagging();
        let Some((first, others)) = peaks.split_first() else {
            if to_fold == 0 && committed == 0 {
                return Some(empty_root(self, bagging, leaves));
            }
            return None;
        };
        if to_fold > peaks.len() {
            return None;
        }
        let folded = fold_peaks(self, bagging, to_fold, *first, others);
        Some(root_of_folded(self, bagging, leaves, committed, &folded))
    }

    /// Returns the root over the digests of the peaks, oldest first, of which the first `inactive`
    /// are inactive.
    ///
    /// The root is the hash of the family's [`DOMAIN`](Family::DOMAIN) byte, the bagging's byte,
    /// the leaf count and, if there are peaks, `inactive` unless it is 0, and the digest of the
    /// folded peaks. The two numbers are written as 8 bytes, the most significant first.
    ///
    /// # Errors
    ///
    /// - `InvalidInactivePeaks` if `inactive` exceeds the number of peaks
    final fn root(
        &self,
        leaves: Location<F>,
        inactive: usize,
        peaks: &[Self::Digest],
    ) -> Result<Self::Digest, Error<F>>
        ensures ok { inactive ≤ length peaks.now
            → result ≡ Ok (peaks_root (scheme self.now) leaves inactive inactive peaks.now) }
        ensures err { length peaks.now < inactive → result ≡ Err (Error.InvalidInactivePeaks inactive (length peaks.now)) }
    {
        match self.root_with_folded_peaks(leaves, inactive, inactive, peaks) {
            Some(root) => Ok(root),
            None => Err(Error::InvalidInactivePeaks {
                requested: inactive,
                peaks: peaks.len(),
            }),
        }
    }

    ghost clone_keeps: { (x y : Self) → Self.is_clone x y → (hashing y ≡ hashing x) × (bagging_of y ≡ bagging_of x) };

    ghost scheme_is: { (x : Self) → scheme x ≡ scheme_of (hashing x) (bagging_of x) F.rule F.MAX_LEAVES F.DOMAIN };

    ghost over_digest: { (x : Self) → IsOver (hashing x) Self.Digest.bytes Self.Digest.eq Self.Digest.EMPTY };
}

impl<F: Family, T: Hasher<F>> Hasher<F> for &T {
    type Digest = T::Digest;

    ghost hashing = { λ s. T.hashing s.now };

    ghost bagging_of = { λ s. T.bagging_of s.now };

    ghost scheme = { λ s. T.scheme s.now };

    fn hash(&self, parts: &[&[u8]]) -> T::Digest {
        (**self).hash(parts)
    }

    fn root_bagging(&self) -> Bagging {
        (**self).root_bagging()
    }

    fn node_digest(&self, position: Position<F>, left: &T::Digest, right: &T::Digest) -> T::Digest
        ensures { result ≡ (T.hashing self.now.now).node position left.now right.now }
    {
        (**self).node_digest(position, left, right)
    }

    fn node_digest_pair(&self, nodes: [Parent<F, T::Digest>; 2]) -> (T::Digest, T::Digest)
        ensures { (d : _) (e : _) → nodes ≡ d ∷ e ∷ [] → (result.0 ≡ (T.hashing self.now.now).node d.0 d.1 d.2)
            × (result.1 ≡ (T.hashing self.now.now).node e.0 e.1 e.2) }
    {
        (**self).node_digest_pair(nodes)
    }

    fn node_digests_three(
        &self,
        nodes: &[Parent<F, T::Digest>],
    ) -> (T::Digest, T::Digest, T::Digest) {
        (**self).node_digests_three(nodes)
    }

    fn node_digests_four(
        &self,
        nodes: &[Parent<F, T::Digest>],
    ) -> (T::Digest, T::Digest, T::Digest, T::Digest) {
        (**self).node_digests_four(nodes)
    }

    fn leaf_digest(&self, position: Position<F>, element: &[u8]) -> T::Digest
        ensures { result ≡ (T.hashing self.now.now).leaf position element.now }
    {
        (**self).leaf_digest(position, element)
    }

    fn leaf_digests_four(
        &self,
        leaves: &[(Position<F>, &[u8])],
    ) -> (T::Digest, T::Digest, T::Digest, T::Digest) {
        (**self).leaf_digests_four(leaves)
    }

    fn hashes_together(&self) -> bool {
        (**self).hashes_together()
    }

    fn leaf_block_count(&self, length: usize) -> usize {
        (**self).leaf_block_count(length)
    }

    fn pays_together(&self, a: usize, b: usize, c: usize, d: usize) -> bool {
        (**self).pays_together(a, b, c, d)
    }

    fn digest(&self, bytes: &[u8]) -> T::Digest {
        T::digest(*self, bytes)
    }

    fn fold(&self, acc: &T::Digest, peak: &T::Digest) -> T::Digest {
        (**self).fold(acc, peak)
    }

    ghost clone_keeps = { λ x y e. (ap (λ s. T.hashing s.now) e, ap (λ s. T.bagging_of s.now) e) };

    ghost scheme_is = { λ x. T.scheme_is x.now };

    ghost over_digest = { λ x. T.over_digest x.now };
}
