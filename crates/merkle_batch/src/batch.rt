//! Speculative batches of added and updated leaves, over a structure or over another batch.
//!
//! A batch is forked, takes added and updated leaves, and is merkleized. Merkleized batches can be
//! stacked and forked to any depth. A merkleized batch can be applied to a structure that is at the
//! state before the oldest record that the batch keeps, or at the state after one of its kept
//! ancestors.
ghost use Rattle.std.specs.Prelude.{◌≡◌, ◌<◌, ◌≤◌, ◌+◌, ◌∷◌, [], None, Some, Err, length, IfOk, IfErr, IsOkUnless, OnErr, OnOk};
ghost use Rattle.merkle_base.specs.Forest.{size};
ghost use Rattle.merkle_base.specs.Hashing.{Hashing};
ghost use Rattle.merkle_base.specs.Places.{peaks_of};
ghost use Rattle.merkle_base.specs.Tree.{Tree, position};
ghost use Rattle.merkle_batch_theory.specs.Missing.{IsMissing};
ghost use Rattle.merkle_batch_theory.specs.Unmerkleized.{first_error, forked, kept, leaf_total, update_error, with_leaves, with_update, with_updates, without_ancestors};
ghost use Rattle.merkle_hasher.specs.LeafDigests.{bytes_of};
ghost use Rattle.merkle_batch_theory.specs.Changes.{AddsLeaves, SetsLeaf, SetsLeaves, IsLeafRefusal, IsLeavesRefusal, IsForkOf, BeginsAfter, HasCounts, IsMerkleizeRefusal, ForUpdatesHeld, GoesOn, computed_count};
ghost use Rattle.merkle_batch.specs.BatchProofs.{digests_after};

pub use crate::leaf_digests::LeafDigests;
pub use crate::merkleized::MerkleizedBatch;
use merkle_base::error::Error;
use merkle_base::family::{Family, Work};
use merkle_base::location::Location;
use merkle_base::position::Position;
use merkle_digest::digest::Digest;
pub use merkle_draft::base::Base;
use merkle_hasher::hasher::Hasher;
use merkle_leaves::queue::push_leaf_digests;
use std::collections::BTreeMap;
use std::marker::Model;
use std::rc::{Rc, RcSlice};

/// A batch whose nodes are not computed yet: added leaves, and updates of leaves.
///
/// Each call that changes it consumes the batch and returns it updated; on error the batch is lost
/// and the parent is unchanged.
///
/// Contracts model it as its parent, the digests of the added leaves, those of the updated ones,
/// and the number of the parent's ancestor records that it drops.
///
/// # Examples
///
/// ```
/// let Ok(batch) = log.new_batch() else {
///     return None;
/// };
/// let Ok(batch) = batch.add(&hasher, &[1]) else {
///     return None;
/// };
/// let Ok(batch) = batch.update_leaf(&hasher, Location::new(0), &[4]) else {
///     return None;
/// };
/// let Ok(first) = batch.merkleize(&log, &hasher) else {
///     return None;
/// };
/// // A second batch over the first one, which is not applied yet.
/// let Ok(batch) = first.new_batch() else {
///     return None;
/// };
/// let Ok(batch) = batch.add(&hasher, &[8]) else {
///     return None;
/// };
/// let Ok(second) = batch.merkleize(&log, &hasher) else {
///     return None;
/// };
/// // Applying the second batch applies the first one too.
/// let Ok(()) = log.apply_batch(&second) else {
///     return None;
/// };
/// ```
#[derive(Debug, Drop)]
pub struct UnmerkleizedBatch<F: Family, D: Digest> {
    parent: Rc<MerkleizedBatch<F, D>>,
    // the parent's leaf count
    leaves_before: Location<F>,
    // the digests of the added leaves
    added: Vec<D>,
    // the new digests of the parent's leaves, by position
    updates: BTreeMap<Position<F>, D>,
    // how many of the parent's ancestor records are dropped, at most all
    forgotten: usize,
}

impl<F: Family, D: Digest> Model for UnmerkleizedBatch<F, D> {
    ghost use Rattle.std.specs.FinMap.{from_entries};
    ghost use Rattle.merkle_batch_theory.specs.Unmerkleized.{IsUnmerkleizedValid, UnmerkleizedModel, unmerkleized_model_code};

    ghost Value = { UnmerkleizedModel D };

    ghost coded = { unmerkleized_model_code D.code };

    ghost view = { λ b. record {
      parent = b.parent.value;
      leaves_before = b.leaves_before;
      added = b.added.items;
      overwritten = from_entries b.updates.entries;
      forgotten = b.forgotten;
    } };

    ghost invariant = { λ b. IsUnmerkleizedValid F.rule F.MAX_LEAVES (record {
      parent = b.parent.value;
      leaves_before = b.leaves_before;
      added = b.added.items;
      overwritten = from_entries b.updates.entries;
      forgotten = b.forgotten;
    }) };
}

impl<F: Family, D: Digest> UnmerkleizedBatch<F, D> {
    /// Creates a batch without changes over `parent`.
    pub fn new(parent: Rc<MerkleizedBatch<F, D>>) -> Self
        ensures { result ≡ forked parent.value }
    {
        let alloc = parent.allocator();
        let leaves_before = parent.leaves();
        UnmerkleizedBatch {
            parent,
            leaves_before,
            added: Vec::new(alloc),
            updates: BTreeMap::new(alloc),
            forgotten: 0,
        }
    }

    /// Returns the leaf count, with the added leaves.
    pub fn leaves(&self) -> Location<F>
        ensures count { result ≡ leaf_total self.now }
        ensures bounded { result ≤ F.MAX_LEAVES }
    {
        self.leaves_before + self.added.len() as u64
    }

    /// Drops the `count` oldest ancestor records that are still kept; all of them if there are
    /// fewer.
    ///
    /// The parent's own record is kept. The merkleized batch cannot be applied to a structure at a
    /// state before the oldest record that it keeps.
    pub fn forget_ancestors(mut self, count: usize) -> Self
        ensures { result ≡ without_ancestors self count }
    {
        let kept = self.parent.ancestors.len();
        self.forgotten = self.forgotten.saturating_add(count).min(kept);
        self
    }

    /// Adds a leaf with this element. Its location is the present
    /// [`leaves`](UnmerkleizedBatch::leaves).
    ///
    /// # Errors
    ///
    /// - `LocationOverflow` of [`MAX_LEAVES`](Family::MAX_LEAVES) if the batch has that many leaves
    /// - `OutOfMemory` if a memory request is refused
    ///
    /// On error the batch is lost and the parent is unchanged.
    pub fn add<H: Hasher<F, Digest = D>>(self, hasher: &H, element: &[u8]) -> Result<Self, Error<F>>
        ensures added { IfOk result (λ b. b ≡ with_leaves self ((H.hashing hasher.now).leaf (size F.rule (leaf_total self)) element.now ∷ [])) }
        ensures edited { let h = H.hashing hasher.now in IfOk result (AddsLeaves F.rule self (h.leaf (size F.rule (leaf_total self)) element.now ∷ [])) }
        ensures within_max_leaves { IfOk result (λ _. leaf_total self < F.MAX_LEAVES) }
        ensures refused { IfErr result (IsLeafRefusal F.MAX_LEAVES (leaf_total self)) }
    {
        let position = F::location_to_position(self.leaves());
        let digest = hasher.leaf_digest(position, element);
        self.add_leaf_digest(digest)
    }

    /// Adds a leaf for each of these elements, in their order, several hashed at a time. The location
    /// of the first one is the present [`leaves`](UnmerkleizedBatch::leaves).
    ///
    /// # Errors
    ///
    /// - `LocationOverflow` of [`MAX_LEAVES`](Family::MAX_LEAVES) if the batch would have more than
    ///   that many leaves
    /// - `OutOfMemory` if a memory request is refused
    ///
    /// On error the batch is lost and the parent is unchanged.
    pub fn add_all<H: Hasher<F, Digest = D>>(
        mut self,
        hasher: &H,
        elements: &[&[u8]],
    ) -> Result<Self, Error<F>>
        ensures added { let digests = digests_after (H.hashing hasher.now) F.rule self (bytes_of elements.now) in
            IfOk result (λ b. b ≡ with_leaves self digests) }
        ensures edited { let digests = digests_after (H.hashing hasher.now) F.rule self (bytes_of elements.now) in
            IfOk result (AddsLeaves F.rule self digests) }
        ensures within_max_leaves { IfOk result (λ _. leaf_total self + length elements.now ≤ F.MAX_LEAVES) }
        ensures refused { IfErr result (IsLeavesRefusal F.MAX_LEAVES (leaf_total self + length elements.now)) }
    {
        let first = self.leaves();
        if elements.len() as u64 > F::MAX_LEAVES - first.as_u64() {
            return Err(Error::LocationOverflow(Location::new(F::MAX_LEAVES)));
        }
        self.added.reserve(elements.len())?;
        let alloc = self.parent.allocator();
        push_leaf_digests(alloc, hasher, first, elements, &mut self.added)?;
        Ok(self)
    }

    /// Adds a leaf with this digest. Its location is the present
    /// [`leaves`](UnmerkleizedBatch::leaves).
    ///
    /// # Errors
    ///
    /// - `LocationOverflow` of [`MAX_LEAVES`](Family::MAX_LEAVES) if the batch has that many leaves
    /// - `OutOfMemory` if a memory request is refused
    ///
    /// On error the batch is lost and the parent is unchanged.
    pub fn add_leaf_digest(mut self, digest: D) -> Result<Self, Error<F>>
        ensures added { IfOk result (λ b. b ≡ with_leaves self (digest ∷ [])) }
        ensures edited { IfOk result (AddsLeaves F.rule self (digest ∷ [])) }
        ensures within_max_leaves { IfOk result (λ _. leaf_total self < F.MAX_LEAVES) }
        ensures refused { IfErr result (IsLeafRefusal F.MAX_LEAVES (leaf_total self)) }
    {
        if self.leaves().as_u64() >= F::MAX_LEAVES {
            return Err(Error::LocationOverflow(Location::new(F::MAX_LEAVES)));
        }
        self.added.push(digest)?;
        Ok(self)
    }

    /// Adds leaves with these digests, in their order.
    ///
    /// # Errors
    ///
    /// - `LocationOverflow` of [`MAX_LEAVES`](Family::MAX_LEAVES) if the batch would have more than
    ///   that many leaves
    /// - `OutOfMemory` if a memory request is refused
    ///
    /// On error the batch is lost and the parent is unchanged.
    pub fn add_leaf_digests(mut self, digests: &[D]) -> Result<Self, Error<F>>
        ensures added { IfOk result (λ b. b ≡ with_leaves self digests.now) }
        ensures edited { IfOk result (AddsLeaves F.rule self digests.now) }
        ensures within_max_leaves { IfOk result (λ _. leaf_total self + length digests.now ≤ F.MAX_LEAVES) }
        ensures refused { IfErr result (IsLeavesRefusal F.MAX_LEAVES (leaf_total self + length digests.now)) }
    {
        if digests.len() as u64 > F::MAX_LEAVES - self.leaves().as_u64() {
            return Err(Error::LocationOverflow(Location::new(F::MAX_LEAVES)));
        }
        self.added.extend_from_slice(digests)?;
        Ok(self)
    }

    // Checks that a location is that of a leaf of the batch that is not pruned.
    fn check_update(&self, location: Location<F>) -> Result<(), Error<F>>
        ensures ok { IfOk result (λ _. update_error {F = F} F.rule self.now location ≡ None) }
        ensures err { IfErr result (λ e. update_error F.rule self.now location ≡ Some e) }
    {
        if location >= self.leaves() {
            return Err(Error::LeafOutOfBounds(location));
        }
        if location < self.parent.pruning_boundary() {
            return Err(Error::ElementPruned(F::location_to_position(location)));
        }
        Ok(())
    }

    /// Updates the leaf at `location` to this element.
    ///
    /// # Errors
    ///
    /// Those of [`update_leaf_digest`](UnmerkleizedBatch::update_leaf_digest). On error the batch
    /// is lost and the parent is unchanged.
    pub fn update_leaf<H: Hasher<F, Digest = D>>(
        self,
        hasher: &H,
        location: Location<F>,
        element: &[u8],
    ) -> Result<Self, Error<F>>
        ensures updated { IfOk result (λ b. b ≡ with_update F.rule self location ((H.hashing hasher.now).leaf (size F.rule location) element.now)) }
        ensures edited { let h = H.hashing hasher.now in IfOk result (SetsLeaf F.rule self location (h.leaf (size F.rule location) element.now)) }
        ensures refused { (e : Error F) → update_error F.rule self location ≡ Some e → result ≡ Err e }
        ensures allowed { update_error {F = F} F.rule self location ≡ None → IsOkUnless result Error.OutOfMemory }
    {
        match self.check_update(location) {
            Ok(()) => {
                let digest = hasher.leaf_digest(F::location_to_position(location), element);
                self.update_leaf_digest(location, digest)
            }
            Err(error) => Err(error),
        }
    }

    /// Updates the leaf at `location`, which may be an added one, to this digest.
    ///
    /// # Errors
    ///
    /// - `LeafOutOfBounds` of the location if the batch has no such leaf, the added ones included
    /// - `ElementPruned` of the leaf's position if the location is below the pruning boundary that
    ///   was recorded when the chain of batches was forked
    /// - `OutOfMemory` if a memory request is refused
    ///
    /// On error the batch is lost and the parent is unchanged.
    pub fn update_leaf_digest(mut self, location: Location<F>, digest: D) -> Result<Self, Error<F>>
        ensures updated { IfOk result (λ b. b ≡ with_update F.rule self location digest) }
        ensures edited { IfOk result (SetsLeaf F.rule self location digest) }
        ensures refused { (e : Error F) → update_error F.rule self location ≡ Some e → result ≡ Err e }
        ensures allowed { update_error {F = F} F.rule self location ≡ None → IsOkUnless result Error.OutOfMemory }
    {
        match self.check_update(location) {
            Ok(()) => {}
            Err(error) => return Err(error),
        }
        if location < self.leaves_before {
            let position = F::location_to_position(location);
            self.updates.insert(position, digest)?;
        } else {
            self.added[(location - self.leaves_before).as_u64() as usize] = digest;
        }
        Ok(self)
    }

    /// Updates each of these leaves to its digest. If a location is repeated, the last digest is
    /// used.
    ///
    /// All locations are checked before any leaf is updated.
    ///
    /// # Errors
    ///
    /// For the first location to which one applies, those of
    /// [`update_leaf_digest`](UnmerkleizedBatch::update_leaf_digest). On error the batch is lost
    /// and the parent is unchanged.
    pub fn update_leaf_batched(mut self, updates: &[(Location<F>, D)]) -> Result<Self, Error<F>>
        ensures updated { IfOk result (λ b. b ≡ with_updates F.rule self updates.now) }
        ensures edited { IfOk result (SetsLeaves F.rule self updates.now) }
        ensures refused { (e : Error F) → first_error F.rule self updates.now ≡ Some e → result ≡ Err e }
        ensures allowed { first_error {F = F} F.rule self updates.now ≡ None → IsOkUnless result Error.OutOfMemory }
    {
        for (location, _) in updates {
            match self.check_update(*location) {
                Ok(()) => {}
                Err(error) => return Err(error),
            }
        }
        for (location, digest) in updates {
            match self.update_leaf_digest(*location, *digest) {
                Ok(batch) => self = batch,
                Err(error) => return Err(error),
            }
        }
        Ok(self)
    }

    /// Computes the nodes and peaks that follow from the added and updated leaves.
    ///
    /// The nodes that it needs are the children of the nodes that it computes and, if the batch has
    /// changes, the peaks after the batch, except those that it appends or overwrites itself. It
    /// reads them from the records that it keeps, the parent's own among them, the newest first,
    /// and then from `base`.
    ///
    /// # Errors
    ///
    /// - `MissingNode` of a needed node that none of them holds
    /// - `OutOfMemory` if a memory request is refused
    ///
    /// On error the batch is lost and the parent is unchanged.
    pub fn merkleize<B: Base<F, Digest = D>, H: Hasher<F, Digest = D>>(
        self,
        base: &B,
        hasher: &H,
    ) -> Result<Rc<MerkleizedBatch<F, D>>, Error<F>>
        ensures fork { IfOk result (λ b. IsForkOf self b.value) }
        ensures begins { IfOk result (λ b. BeginsAfter self b.value) }
        ensures counted { IfOk result (λ b. HasCounts F.rule self b.value) }
        ensures peaks { IfOk result (λ b. length b.value.own.peaks_after ≡ length (peaks_of F.rule (leaf_total self))) }
        ensures refused { IfErr result (IsMerkleizeRefusal F.rule self (B.contents base.now)) }
        ensures complete { IfOk result (λ _. (t : Tree) → IsMissing F.rule self (B.contents base.now) t → ⊥) }

        // If some lists are a history of the parent and the base agrees with one of those that the
        // kept records start or end at, then these, followed by the last of them with the changes,
        // are a history of the batch.
        ensures history { let h = H.hashing hasher.now in IfOk result (λ b. GoesOn h F.rule self (B.contents base.now) b.value) }
        ensures granted { (h : Hashing D) → ForUpdatesHeld h F.rule self (B.contents base.now) (IsOkUnless result Error.OutOfMemory) }
    {
        let mut work = Work::new();
        self.compute(base, hasher, &mut work)
    }

    /// Does what [`merkleize`](UnmerkleizedBatch::merkleize) does, and sets the number of node
    /// digests in `work` to the number of parent nodes that it computed.
    ///
    /// # Errors
    ///
    /// Those of [`merkleize`](UnmerkleizedBatch::merkleize). On error the batch is lost, and the
    /// parent and `work` are unchanged.
    pub fn merkleize_counted<B: Base<F, Digest = D>, H: Hasher<F, Digest = D>>(
        self,
        base: &B,
        hasher: &H,
        work: &mut Work,
    ) -> Result<Rc<MerkleizedBatch<F, D>>, Error<F>>
        ensures fork { IfOk result (λ b. IsForkOf self b.value) }
        ensures begins { IfOk result (λ b. BeginsAfter self b.value) }
        ensures counted { IfOk result (λ b. HasCounts F.rule self b.value) }
        ensures peaks { IfOk result (λ b. length b.value.own.peaks_after ≡ length (peaks_of F.rule (leaf_total self))) }
        ensures refused { IfErr result (IsMerkleizeRefusal F.rule self (B.contents base.now)) }
        ensures complete { IfOk result (λ _. (t : Tree) → IsMissing F.rule self (B.contents base.now) t → ⊥) }

        // If some lists are a history of the parent and the base agrees with one of those that the
        // kept records start or end at, then these, followed by the last of them with the changes,
        // are a history of the batch.
        ensures history { let h = H.hashing hasher.now in IfOk result (λ b. GoesOn h F.rule self (B.contents base.now) b.value) }
        ensures granted { (h : Hashing D) → ForUpdatesHeld h F.rule self (B.contents base.now) (IsOkUnless result Error.OutOfMemory) }
        ensures work { OnOk result (work.new ≡ record { node_digests = computed_count F.rule self; probes = work.old.probes }) }
        ensures unchanged { OnErr result (work.new ≡ work.old) }
    {
        self.compute(base, hasher, work)
    }

    // Implements `merkleize_counted`.
    fn compute<B: Base<F, Digest = D>, H: Hasher<F, Digest = D>>(
        &self,
        base: &B,
        hasher: &H,
        work: &mut Work,
    ) -> Result<Rc<MerkleizedBatch<F, D>>, Error<F>>
        ensures fork { IfOk result (λ b. IsForkOf self.now b.value) }
        ensures begins { IfOk result (λ b. BeginsAfter self.now b.value) }
        ensures counted { IfOk result (λ b. HasCounts F.rule self.now b.value) }
        ensures peaks { IfOk result (λ b. length b.value.own.peaks_after ≡ length (peaks_of F.rule (leaf_total self.now))) }
        ensures refused { IfErr result (IsMerkleizeRefusal F.rule self.now (B.contents base.now)) }
        ensures complete { IfOk result (λ _. (t : Tree) → IsMissing F.rule self.now (B.contents base.now) t → ⊥) }

        // If some lists are a history of the parent and the base agrees with one of those that the
        // kept records start or end at, then these, followed by the last of them with the changes,
        // are a history of the batch.
        ensures history { let h = H.hashing hasher.now in IfOk result (λ b. GoesOn h F.rule self.now (B.contents base.now) b.value) }
        ensures granted { (h : Hashing D) → ForUpdatesHeld h F.rule self.now (B.contents base.now) (IsOkUnless result Error.OutOfMemory) }
        ensures work { OnOk result (work.new ≡ record { node_digests = computed_count F.rule self.now; probes = work.old.probes }) }
        ensures unchanged { OnErr result (work.new ≡ work.old) }
    {
        let leaves = self.leaves();
        let mut draft = self.parent.draft(self.forgotten, leaves)?;
        let count = draft.compute(base, hasher, self.leaves_before, &self.updates, &self.added)?;
        let peaks_before = self.parent.own.peaks_after.clone()?;
        let peaks_after = if self.added.is_empty() && self.updates.is_empty() {
            peaks_before.clone()?
        } else {
            RcSlice::from_vec(draft.read_peaks(base, leaves)?)?
        };
        let batch = self
            .parent
            .finish(draft, leaves, peaks_before, peaks_after)?;
        work.set_node_digests(count);
        Ok(batch)
    }
}
