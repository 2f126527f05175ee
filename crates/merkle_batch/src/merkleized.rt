//! Merkleized batches: batches whose nodes are computed.
ghost use Rattle.std.specs.Prelude.{◌≡◌, List, ◌∷◌, [], ◌++◌, ◌≤◌, ◌<◌, Some, Ok, Err, cond, drop, length, IfOk, IsOkUnless};
ghost use Rattle.std.specs.Rc.{rc_slice_items};
ghost use Rattle.merkle_batch.specs.Finished.{finished};
ghost use Rattle.merkle_batch_theory.specs.BatchValid.{IsBatchValid};
ghost use Rattle.std.specs.FinMap.{empty};
ghost use Rattle.merkle_base.specs.Forest.{size};
ghost use Rattle.merkle_base.specs.Hashing.{Hashing};
ghost use Rattle.merkle_base.specs.Places.{peaks_of};
ghost use Rattle.merkle_base.specs.Shows.{Shows};
ghost use Rattle.merkle_batch_theory.specs.Unmerkleized.{forked, is_changed};
ghost use Rattle.merkle_batch_theory.specs.Read.{newest};
ghost use Rattle.merkle_batch_theory.specs.Records.{after, records};
ghost use Rattle.merkle_batch_theory.specs.Roots.{root_batch};
ghost use Rattle.merkle_batch_theory.specs.History.{IsHistory, last_list};
ghost use Rattle.merkle_batch_theory.specs.ForLists.{BeginsAt, IsNodeAfter, IsPeaksRoot, IsListRoot, IsPeaksRefusal, ForHistory};

use crate::batch::UnmerkleizedBatch;
use merkle_base::error::Error;
use merkle_base::family::Family;
use merkle_base::location::Location;
use merkle_base::position::Position;
use merkle_digest::digest::Digest;
use merkle_draft::base::Base;
use merkle_draft::draft::Draft;
use merkle_draft::overwrites::Overwrites;
use merkle_draft::record::{Record, newest_node};
use merkle_hasher::hasher::Hasher;
use merkle_hasher::read::Readable;
use std::alloc::{AllocError, Global};
use std::marker::Model;
use std::rc::{Rc, RcSlice};

/// A batch whose nodes are computed: what it changes, and the states before and after it.
///
/// It keeps the records of its ancestors, so that it can be applied to a structure at any of their
/// states. Merkleized batches are shared by `Rc`, and any number of batches can be forked from one.
///
/// Contracts model it as the records that it keeps of its ancestors, oldest first, then its own
/// record, and its leaf count.
#[derive(Debug)]
pub struct MerkleizedBatch<F: Family, D: Digest> {
    /// What the batch itself changes.
    pub own: Rc<Record<F, D>>,
    /// The kept records of the ancestors that have changes, oldest first.
    pub ancestors: Vec<Rc<Record<F, D>>>,
    /// The leaf count after the batch.
    pub leaves: Location<F>,
    /// The size in nodes of the structure that the chain of batches was forked from, at that time.
    pub base_size: Position<F>,
    /// The pruning boundary of the structure that the chain of batches was forked from, at that
    /// time.
    pub pruning_boundary: Location<F>,
}

// Written out, it is proved once; derived, it would be proved again in each crate that drops batches.
impl<F: Family, D: Digest> Drop for MerkleizedBatch<F, D> {
    fn drop(self) {
        let MerkleizedBatch {
            own: _,
            ancestors: _,
            leaves: _,
            base_size: _,
            pruning_boundary: _,
        } = self;
    }
}

impl<F: Family, D: Digest> Model for MerkleizedBatch<F, D> {
    ghost use Rattle.std.specs.Prelude.{map};
    ghost use Rattle.merkle_batch_theory.specs.BatchValid.{IsBatchValid};
    ghost use Rattle.merkle_batch_theory.specs.Records.{MerkleizedModel, merkleized_model_code};

    ghost Value = { MerkleizedModel D };

    ghost coded = { merkleized_model_code D.code };

    ghost view = { λ b. record {
      base_size = b.base_size;
      boundary = b.pruning_boundary;
      ancestors = map (λ r. r.value) b.ancestors.items;
      own = b.own.value;
      leaves = b.leaves;
    } };

    ghost invariant = { λ b. IsBatchValid F.rule F.MAX_LEAVES (record {
      base_size = b.base_size;
      boundary = b.pruning_boundary;
      ancestors = map (λ r. r.value) b.ancestors.items;
      own = b.own.value;
      leaves = b.leaves;
    }) };
}

impl<F: Family, D: Digest> MerkleizedBatch<F, D> {
    /// Creates a batch without changes to a structure.
    ///
    /// # Errors
    ///
    /// - `OutOfMemory` if a memory request is refused
    pub fn from_mem<B: Base<F, Digest = D>>(base: &B) -> Result<Rc<Self>, Error<F>>
        ensures root { IfOk result (λ b. b.value ≡ root_batch F.rule (B.leaves base.now) (B.contents base.now)) }
        ensures of_list { IfOk result (λ b. BeginsAt F.rule (B.contents base.now) b.value) }
        ensures refused { IsOkUnless result Error.OutOfMemory }
    {
        Ok(Self::without_changes(base)?)
    }

    // Creates a batch without changes to a structure.
    fn without_changes<B: Base<F, Digest = D>>(base: &B) -> Result<Rc<Self>, AllocError>
        ensures root { IfOk result (λ b. b.value ≡ root_batch F.rule (B.leaves base.now) (B.contents base.now)) }
        ensures sized { IfOk result (λ _. size F.rule (B.leaves base.now) ≡ (B.contents base.now).size) }
    {
        let leaves = base.leaves();
        let peaks = base.peak_digests()?;
        let alloc = *peaks.allocator();
        let peaks_before = RcSlice::from_vec(peaks)?;
        let peaks_after = peaks_before.clone()?;
        let own = Record {
            size_before: base.size(),
            peaks_before,
            appended: Vec::new(alloc),
            overwrites: Overwrites::new(alloc),
            peaks_after,
        };
        let batch = MerkleizedBatch {
            own: Rc::new(alloc, own)?,
            ancestors: Vec::new(alloc),
            leaves,
            base_size: base.size(),
            pruning_boundary: base.pruning_boundary(),
        };
        Ok(Rc::new(alloc, batch)?)
    }

    /// Returns the size in nodes after the batch.
    pub fn size(&self) -> Position<F>
        ensures { result ≡ after self.now.own }
    {
        self.own.size()
    }

    /// Returns the leaf count after the batch.
    pub fn leaves(&self) -> Location<F>
        ensures count { result ≡ self.now.leaves }
        ensures sized { size F.rule result ≡ after self.now.own }
        ensures bounded { result ≤ F.MAX_LEAVES }
    {
        self.leaves
    }

    /// Returns the size in nodes of the structure that the chain of batches was forked from, at
    /// that time.
    pub fn base_size(&self) -> Position<F>
        ensures { result ≡ self.now.base_size }
    {
        self.base_size
    }

    /// Returns the location that the structure that the chain of batches was forked from was pruned
    /// to, at that time.
    pub fn pruning_boundary(&self) -> Location<F>
        ensures { result ≡ self.now.boundary }
    {
        self.pruning_boundary
    }

    /// Returns the digest of the node at `position` from the batch's own record, or else from the
    /// newest kept ancestor that has it; `None` if none of them has it.
    pub fn get_node(&self, position: Position<F>) -> Option<D>
        ensures newest { result ≡ newest (records self.now) position }

        // If some lists are a history of the batch, it is the node of the last list.
        ensures listed { (h : Hashing D) → IsNodeAfter h F.rule self.now position result }
    {
        match self.own.get_node(position) {
            Some(digest) => Some(digest),
            None => newest_node(&self.ancestors, position),
        }
    }

    /// Returns the root after the batch with `inactive` inactive peaks, which are the oldest ones.
    ///
    /// # Errors
    ///
    /// - `InvalidInactivePeaks` if `inactive` exceeds the number of peaks of its leaf count
    pub fn root<H: Hasher<F, Digest = D>>(&self, hasher: &H, inactive: usize) -> Result<D, Error<F>>
        ensures ok { IsPeaksRoot (H.scheme hasher.now) F.rule self.now.leaves inactive self.now.own.peaks_after result }
        ensures err { let count = length (peaks_of F.rule self.now.leaves) in count < inactive → result ≡ Err (Error.InvalidInactivePeaks inactive count) }

        // If some lists are a history of the batch, it is the root of the last list.
        ensures listed { ForHistory (H.hashing hasher.now) F.rule self.now (IsListRoot (H.scheme hasher.now) F.rule inactive result) }
        ensures too_many { (h : Hashing D) → ForHistory h F.rule self.now (IsPeaksRefusal F.rule inactive result) }
    {
        hasher.root(self.leaves, inactive, self.own.peaks_after.as_slice())
    }

    /// Creates a batch without changes over this one.
    ///
    /// # Errors
    ///
    /// - `OutOfMemory` if a memory request is refused
    pub fn new_batch(self: &Rc<Self>) -> Result<UnmerkleizedBatch<F, D>, Error<F>>
        ensures forked { IfOk result (λ b. b ≡ forked self.now.value) }
        ensures refused { IsOkUnless result Error.OutOfMemory }
    {
        Ok(UnmerkleizedBatch::new(self.clone()?))
    }

    // Creates the draft of a batch over this one that drops the `forgotten` oldest ancestor
    // records, with capacity for the nodes of `leaves` leaves.
    pub(crate) fn draft(
        &self,
        forgotten: usize,
        leaves: Location<F>,
    ) -> Result<Draft<F, D>, AllocError>
        requires known { forgotten ≤ length self.now.ancestors }
        requires within { leaves ≤ F.MAX_LEAVES }
        ensures size { IfOk result (λ d. d.before ≡ after self.now.own) }
        ensures kept { IfOk result (λ d. d.kept ≡ drop forgotten self.now.ancestors ++ cond (is_changed self.now.own) (self.now.own ∷ []) []) }
        ensures nothing { IfOk result (λ d. (d.overwritten ≡ empty) × (d.appended ≡ [])) }
    {
        let kept = &self.ancestors[forgotten..];
        Draft::new(self.allocator(), kept, &self.own, leaves)
    }

    // Creates the batch of a draft over this one; `leaves` is the leaf count after it.
    pub(crate) fn finish(
        &self,
        draft: Draft<F, D>,
        leaves: Location<F>,
        peaks_before: RcSlice<D>,
        peaks_after: RcSlice<D>,
    ) -> Result<Rc<Self>, AllocError>
        requires { IsBatchValid F.rule F.MAX_LEAVES (finished self.now draft leaves (rc_slice_items peaks_before) (rc_slice_items peaks_after)) }
        ensures { IfOk result (λ b. b.value ≡ finished self.now draft leaves (rc_slice_items peaks_before) (rc_slice_items peaks_after)) }
    {
        let alloc = self.allocator();
        let own = Record {
            size_before: draft.size_before,
            peaks_before,
            appended: draft.appended,
            overwrites: draft.overwrites,
            peaks_after,
        };
        let batch = MerkleizedBatch {
            own: Rc::new(alloc, own)?,
            ancestors: draft.kept,
            leaves,
            base_size: self.base_size(),
            pruning_boundary: self.pruning_boundary(),
        };
        Ok(Rc::new(alloc, batch)?)
    }

    // Returns the allocator of the batch.
    pub(crate) fn allocator(&self) -> Global {
        *self.ancestors.allocator()
    }
}

impl<F: Family, D: Digest> Readable for MerkleizedBatch<F, D> {
    type Family = F;

    type Digest = D;

    ghost size = { λ b. after b.own };

    ghost node = { λ b p. newest (records b) p };

    fn size(&self) -> Position<F>
        ensures count { result ≡ after self.now.own }

        // If some lists are a history of the batch, it shows the last of them.
        ensures shows { (h : Hashing D) → (ls : List (List D)) → IsHistory h F.rule (records self.now) ls
            → Shows h F.rule (after self.now.own) (newest (records self.now)) (last_list ls) }
    {
        MerkleizedBatch::size(self)
    }

    fn get_node(&self, position: Position<F>) -> Option<D>
        ensures { result ≡ newest (records self.now) position }
    {
        MerkleizedBatch::get_node(self, position)
    }
}
