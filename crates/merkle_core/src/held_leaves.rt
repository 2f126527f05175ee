//! The digests of the leaves that a structure holds.
ghost use Rattle.std.specs.Prelude.{◌≡◌, ◌-◌, drop, length};
ghost use Rattle.std.specs.FinMap.{get};
ghost use Rattle.merkle_base.specs.Hashing.{Hashing};
ghost use Rattle.merkle_batch.specs.HeldLeaves.{held_leaves};
ghost use Rattle.merkle_batch_theory.specs.ForLists.{ForList};
ghost use Rattle.merkle_batch_theory.specs.MemModel.{contents};

use crate::mem::Mem;
use merkle_base::family::Family;
use merkle_batch::leaf_digests::{LeafDigests, held_leaf_digests};
use merkle_digest::digest::Digest;

impl<F: Family, D: Digest> Mem<F, D> {
    /// Iterates over the digests of the leaves that are held, the oldest first: of those from the
    /// pruning boundary on up to the leaf count. No memory is requested.
    ///
    /// # Examples
    ///
    /// ```
    /// // The leaves at the locations 2, 3 and 4 of five are left.
    /// let Ok(()) = log.prune(Location::new(2)) else {
    ///     return None;
    /// };
    /// assert!(rt; log.leaf_digests().len() == 3);
    /// ```
    pub fn leaf_digests(&self) -> LeafDigests<'_, Self>
        ensures listed { result ≡ held_leaves F.rule (get self.now.stored) self.now.boundary self.now.leaves }
        ensures count { length result ≡ self.now.leaves - self.now.boundary }

        // They are the entries from the boundary on of every list that the structure agrees with.
        ensures of_list { (h : Hashing D) → ForList h F.rule (contents self.now) (λ X. result ≡ drop self.now.boundary X) }
    {
        held_leaf_digests(self, self.boundary, self.leaves)
    }
}
