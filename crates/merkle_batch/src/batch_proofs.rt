//! Proofs of leaves of a merkleized batch, over a base that holds the nodes that its records do
//! not.
ghost use Rattle.std.specs.Prelude.{◌≡◌, ◌≢◌, ◌+◌, ◌<◌, ◌≤◌, List, length, IfOk, IfErr, IsOkUnless};
ghost use Rattle.merkle_base.specs.Hashing.{Hashing};
ghost use Rattle.merkle_forest_theory.specs.FewPeaks.{FewPeaks};
ghost use Rattle.merkle_batch_theory.specs.Contents.{AgreesWithOne};
ghost use Rattle.merkle_batch_theory.specs.Read.{read_over};
ghost use Rattle.merkle_batch_theory.specs.Records.{records};
ghost use Rattle.merkle_batch_theory.specs.History.{IsHistory, last_list};
ghost use Rattle.merkle_proof.specs.RangePlans.{IsBuildRefusal, IsBuiltProof, list_input, IsProvedLeaf};
ghost use Rattle.merkle_root_theory.specs.Range.{IsHonestRange};
ghost use Rattle.merkle_batch_theory.specs.ForLists.{ForHistoryOver, ForHeldLeafOver, ForHeldRangeOver};
ghost use Rattle.merkle_batch.specs.BatchProofs.{IsBuiltLeafOver, IsBuiltRangeOver, IsProvedOver, RefusesLeafOver, RefusesRangeOver};

use crate::merkleized::MerkleizedBatch;
use merkle_base::error::Error;
use merkle_base::family::Family;
use merkle_base::location::Location;
use merkle_base::position::Position;
use merkle_digest::digest::Digest;
use merkle_draft::base::Base;
use merkle_hasher::hasher::Hasher;
use merkle_proof::proof::Proof;
use merkle_proof::range_plan::RangePlan;
use std::ops::Range;

// A batch and the base below it, of one lifetime, so that one closure can read both.
#[derive(Drop)]
struct BatchOver<'a, F: Family, D: Digest, B: Base<F, Digest = D>> {
    batch: &'a MerkleizedBatch<F, D>,
    base: &'a B,
}

impl<'a, F: Family, D: Digest, B: Base<F, Digest = D>> BatchOver<'a, F, D, B> {
    // Returns the digest of the node at `position` from the newest kept record that has it, or else
    // from the base.
    fn get_node(&self, position: Position<F>) -> Option<D>
        ensures { result ≡ read_over (records self.now.batch.now) (B.contents self.now.base.now) position }
    {
        match self.batch.get_node(position) {
            Some(digest) => Some(digest),
            None => self.base.get_node(position),
        }
    }
}

impl<F: Family, D: Digest> MerkleizedBatch<F, D> {
    // Builds the proof of a plan from the nodes that the batch and the base hold.
    fn build_proof<B: Base<F, Digest = D>, H: Hasher<F, Digest = D>>(
        &self,
        base: &B,
        plan: RangePlan<F>,
        hasher: &H,
        inactive: usize,
    ) -> Result<Proof<F, D>, Error<F>>
        ensures built { let s = H.scheme hasher.now in
            IfOk result (λ p. IsBuiltProof s (read_over (records self.now) (B.contents base.now)) inactive plan p) }
        ensures honest { let s = H.scheme hasher.now in
            (ls : List (List D)) → length (last_list ls) ≡ plan.leaves → IsHistory (H.hashing hasher.now) F.rule (records self.now) ls
            → AgreesWithOne (H.hashing hasher.now) F.rule (B.contents base.now) ls
            → IfOk result (λ p. IsHonestRange s (last_list ls) inactive (list_input p (last_list ls) plan.start plan.end)) }
        ensures err { let bagging = H.bagging_of hasher.now in let node = read_over (records self.now) (B.contents base.now) in
            IfErr result (λ e. e ≢ Error.OutOfMemory → IsBuildRefusal bagging F.rule plan inactive (λ p r. r ≡ node p) e) }
    {
        let over = BatchOver { batch: self, base };
        plan.build(hasher, inactive, move |position| over.get_node(position))
    }

    /// Generates the proof of the leaf at `location`, with `inactive` inactive peaks.
    ///
    /// A node is read from the batch's own record, then from those of its kept ancestors, the
    /// newest first, and then from `base`.
    ///
    /// # Errors
    ///
    /// The first that applies:
    /// - `LocationOverflow` of the location if it is not below [`MAX_LEAVES`](Family::MAX_LEAVES)
    /// - `LeafOutOfBounds` of the location if there is no such leaf
    /// - `InvalidProof` if `inactive` exceeds the number of peaks
    /// - `ElementPruned` of the first node that none of them has; the nodes are read in this order:
    ///   the peaks before the leaf, the individual peaks after it, the folded peaks after it from
    ///   the last one on, and the path siblings
    ///
    /// `OutOfMemory` at any point if a memory request is refused. Nothing is changed.
    pub fn proof<B: Base<F, Digest = D>, H: Hasher<F, Digest = D>>(
        &self,
        base: &B,
        hasher: &H,
        location: Location<F>,
        inactive: usize,
    ) -> Result<Proof<F, D>, Error<F>>
        ensures built { let s = H.scheme hasher.now in IfOk result (IsBuiltLeafOver s (B.contents base.now) self.now inactive location) }

        // If some lists are a history of the batch and the base agrees with one of them, this is
        // the honest proof of the last list.
        ensures honest { ForHistoryOver (H.hashing hasher.now) F.rule (B.contents base.now) self.now (IsProvedLeaf
            (H.scheme hasher.now) inactive location result) }
        ensures granted { (h : Hashing D) → ForHeldLeafOver h F.rule (B.contents base.now) self.now inactive location (IsOkUnless result Error.OutOfMemory) }
        ensures at_most_122 { FewPeaks F.rule F.MAX_LEAVES → IfOk result (λ p. length p.digests.items ≤ 122) }
        ensures err { IfErr result (RefusesLeafOver (H.bagging_of hasher.now) F.rule F.MAX_LEAVES (B.contents base.now) self.now location inactive) }
    {
        let leaves = self.leaves();
        if !location.is_valid_index() {
            return Err(Error::LocationOverflow(location));
        }
        if location >= leaves {
            return Err(Error::LeafOutOfBounds(location));
        }
        let alloc = self.allocator();
        match RangePlan::new(alloc, leaves, location..location + 1) {
            Ok(plan) => self.build_proof(base, plan, hasher, inactive),
            Err(error) => Err(error),
        }
    }

    /// Generates the proof of the leaves in `range`, with `inactive` inactive peaks.
    ///
    /// A node is read from the batch's own record, then from those of its kept ancestors, the
    /// newest first, and then from `base`.
    ///
    /// # Errors
    ///
    /// The first that applies:
    /// - `Empty` if the range has no leaves
    /// - `RangeOutOfBounds` of the end of the range if it exceeds the leaf count
    /// - `InvalidProof` if `inactive` exceeds the number of peaks
    /// - `ElementPruned` of the first node that none of them has; the nodes are read in this order:
    ///   the peaks before the range, the individual peaks after it, the folded peaks after it from
    ///   the last one on, and the path siblings
    ///
    /// `OutOfMemory` at any point if a memory request is refused. Nothing is changed.
    pub fn range_proof<B: Base<F, Digest = D>, H: Hasher<F, Digest = D>>(
        &self,
        base: &B,
        hasher: &H,
        range: Range<Location<F>>,
        inactive: usize,
    ) -> Result<Proof<F, D>, Error<F>>
        ensures built { let s = H.scheme hasher.now in IfOk result (IsBuiltRangeOver s (B.contents base.now) self.now inactive range.start range.end) }

        // If some lists are a history of the batch and the base agrees with one of them, this is
        // the honest proof of the last list.
        ensures honest { IsProvedOver (H.hashing hasher.now) F.rule
            (B.contents base.now) self.now (H.scheme hasher.now) inactive range.start range.end result }
        ensures granted { (h : _)
            → ForHeldRangeOver h F.rule (B.contents base.now) self.now inactive range.start range.end (IsOkUnless result Error.OutOfMemory) }
        ensures err { IfErr result (RefusesRangeOver (H.bagging_of hasher.now) F.rule F.MAX_LEAVES
            (B.contents base.now) self.now range.start range.end inactive) }
    {
        let leaves = self.leaves();
        match RangePlan::new(self.allocator(), leaves, range) {
            Ok(plan) => self.build_proof(base, plan, hasher, inactive),
            Err(error) => Err(error),
        }
    }
}
