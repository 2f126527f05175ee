//! Plans of range proofs: the nodes that a proof reads, and the proof built from their digests.
ghost use Rattle.std.specs.Prelude.{◌≡◌, ◌≢◌, ◌<◌, ◌≤◌, ◌+◌, ℕ, Option, length, map, IfOk, IfErr, IfSome, IfNone, IsOkUnless};
ghost use Rattle.merkle_base.specs.Places.{peaks_of, wholly_before};
ghost use Rattle.merkle_base.specs.Tree.{position};
ghost use Rattle.merkle_root_theory.specs.Range.{overlapping, wholly_after};
ghost use Rattle.merkle_root_theory.specs.Reads.{nodes_read};
ghost use Rattle.std.specs.List.Sorted.{IsStrictlyIncreasing};
ghost use Rattle.merkle_scattered.specs.Positions.{range_positions};
ghost use Rattle.merkle_proof.specs.RangePlans.{IsRefusal, IsBuildRefusal, IsBuiltProof, FitsLeaves, peaks_folded, peaks_before, peaks_over, peaks_after, peaks_suffix, AnswersBy, ForAnswered, IsAnsweredBy, IsHonestBuilt};

use crate::proof::Proof;
use crate::reading::read_digests;
use merkle_base::error::Error;
use merkle_base::family::{Bagging, Family};
use merkle_base::location::Location;
use merkle_base::position::Position;
use merkle_hasher::hasher::Hasher;
use merkle_range::groups::PeakGroups;
use merkle_range::layout::{prefix_count, single_count};
use merkle_scattered::positions::ascending;
use std::alloc::Global;
use std::marker::Model;
use std::ops::Range;

/// The parts that the positions of a plan have in a proof.
#[derive(Clone, Copy, Debug)]
pub struct RangeCounts {
    /// The number of peaks before the range, which come first.
    pub before: usize,
    /// The number of peaks after the range, which come next.
    pub after: usize,
    /// The number of peaks before the range that are folded to one digest, which are the oldest.
    pub folded: usize,
    /// The number of peaks after the range that have a digest of their own, which are the oldest;
    /// the rest are folded to one digest.
    pub single: usize,
}

/// The numbers of peaks in each part of the layout of a range proof.
#[derive(Clone, Copy, Debug)]
pub struct Groups {
    /// Before the range, folded to one digest; these are the oldest.
    pub folded: usize,
    /// Before the range, each with a digest of its own.
    pub before: usize,
    /// Overlapping the range.
    pub overlapping: usize,
    /// After the range, each with a digest of its own.
    pub after: usize,
    /// After the range, folded to one digest; these are the newest.
    pub suffix: usize,
}

/// What a proof of a range of leaves reads.
///
/// Contracts model it as the range and the leaf count of the list.
#[derive(Debug, Drop)]
pub struct RangePlan<F: Family> {
    leaves: Location<F>,
    range: Range<Location<F>>,
    // the number of peaks
    peaks: usize,
    // the number of peaks before the range
    before: usize,
    // the number of peaks after the range
    after: usize,
    // the positions of the nodes that are read, in order
    reads: Vec<Position<F>>,
}

impl<F: Family> Model for RangePlan<F> {
    ghost use Rattle.merkle_proof.specs.RangePlans.{LeafRange, IsPlan};

    ghost Value = { LeafRange };

    ghost view = { λ p. record { leaves = p.leaves; start = p.range.start; end = p.range.end } };

    ghost invariant = { λ p. IsPlan F.rule F.MAX_LEAVES p.leaves p.range.start p.range.end p.peaks p.before p.after p.reads.items };
}

impl<F: Family> RangePlan<F> {
    /// Creates the plan of a proof of `range` of a list of `leaves` leaves.
    ///
    /// # Errors
    ///
    /// The first that applies:
    /// - `Empty` if the range has no leaves
    /// - `RangeOutOfBounds` of the end of the range if it exceeds the leaf count
    /// - `LocationOverflow` of the leaf count if it exceeds [`MAX_LEAVES`](Family::MAX_LEAVES)
    /// - `OutOfMemory` if a memory request is refused
    pub fn new(
        alloc: Global,
        leaves: Location<F>,
        range: Range<Location<F>>,
    ) -> Result<Self, Error<F>>
        ensures ok { IfOk result (λ p. p ≡ record { leaves = leaves; start = range.start; end = range.end }) }
        ensures within { IfOk result (λ _. (range.start < range.end) × (range.end ≤ leaves) × (leaves ≤ F.MAX_LEAVES)) }
        ensures err { IfErr result (λ e. e ≢ Error.OutOfMemory → IsRefusal F.MAX_LEAVES leaves range.start range.end e) }
    {
        if range.start >= range.end {
            return Err(Error::Empty);
        }
        if range.end > leaves {
            return Err(Error::RangeOutOfBounds(range.end));
        }
        if !leaves.is_valid() {
            return Err(Error::LocationOverflow(leaves));
        }
        let groups = PeakGroups::of_peaks(alloc, leaves, &range)?;
        let peaks = groups.count();
        let before = groups.before;
        let after = groups.after();
        let reads = groups.into_reads(&range)?;
        Ok(RangePlan {
            leaves,
            range,
            peaks,
            before,
            after,
            reads,
        })
    }

    /// Returns the leaf count of the list.
    pub fn leaves(&self) -> Location<F>
        ensures { result ≡ self.now.leaves }
    {
        self.leaves
    }

    /// Returns the parts that the positions of [`reads`](RangePlan::reads) have in a proof, for a
    /// bagging and a number of inactive peaks.
    pub fn counts(&self, bagging: Bagging, inactive: usize) -> RangeCounts
        ensures before { result.before ≡ length (wholly_before self.now.start (peaks_of F.rule self.now.leaves)) }
        ensures after { result.after ≡ length (wholly_after self.now.end (peaks_of F.rule self.now.leaves)) }
        ensures folded { result.folded ≡ length (peaks_folded bagging F.rule inactive self.now) }
        ensures single { result.single ≡ length (peaks_after bagging F.rule inactive self.now) }
        ensures within { (result.folded ≤ result.before) × (result.single ≤ result.after) }
        ensures read { result.before + result.after ≤ length (nodes_read F.rule self.now.leaves self.now.start self.now.end) }
    {
        RangeCounts {
            before: self.before,
            after: self.after,
            folded: prefix_count(bagging, inactive, self.before),
            single: single_count(bagging, inactive, self.peaks - self.after, self.after),
        }
    }

    /// Returns the numbers of peaks in each part of a proof of the range, for a bagging and a number
    /// of inactive peaks; `None` if `inactive` exceeds the number of peaks.
    ///
    /// # Examples
    ///
    /// ```
    /// let leaves: mmr::Location = Location::new(15);
    /// let plan = RangePlan::new(alloc, leaves, Location::new(0)..Location::new(1)).ok()?;
    /// let groups = plan.groups(Bagging::BackwardFold, 2)?;
    /// assert!(rt; groups.overlapping == 1 && groups.after == 1 && groups.suffix == 2);
    /// assert!(rt; plan.groups(Bagging::BackwardFold, 5).is_none());
    /// ```
    pub fn groups(&self, bagging: Bagging, inactive: usize) -> Option<Groups>
        ensures some { IfSome result (λ _. inactive ≤ length (peaks_of F.rule self.now.leaves)) }
        ensures none { IfNone result (length (peaks_of F.rule self.now.leaves) < inactive) }
        ensures folded { IfSome result (λ g. g.folded ≡ length (peaks_folded bagging F.rule inactive self.now)) }
        ensures before { IfSome result (λ g. g.before ≡ length (peaks_before bagging F.rule inactive self.now)) }
        ensures overlapping { IfSome result (λ g. g.overlapping ≡ length (peaks_over F.rule self.now)) }
        ensures after { IfSome result (λ g. g.after ≡ length (peaks_after bagging F.rule inactive self.now)) }
        ensures suffix { IfSome result (λ g. g.suffix ≡ length (peaks_suffix bagging F.rule inactive self.now)) }
    {
        if inactive > self.peaks {
            return None;
        }
        let met = self.peaks - self.after;
        let folded = prefix_count(bagging, inactive, self.before);
        let single = single_count(bagging, inactive, met, self.after);
        Some(Groups {
            folded,
            before: self.before - folded,
            overlapping: met - self.before,
            after: single,
            suffix: self.after - single,
        })
    }

    /// Returns the positions of all nodes that a proof of the range reads: the peaks before the
    /// range, the peaks after it, and the path siblings.
    pub fn reads(&self) -> &[Position<F>]
        ensures { result.now ≡ map position (nodes_read F.rule self.now.leaves self.now.start self.now.end) }
    {
        &self.reads
    }

    /// Returns the positions of all nodes that a proof of the range reads, ascending and each once:
    /// the peaks outside the range and the path siblings.
    ///
    /// They do not depend on the bagging or the number of inactive peaks.
    ///
    /// # Errors
    ///
    /// - `OutOfMemory` if a memory request is refused
    pub fn positions(&self) -> Result<Vec<Position<F>>, Error<F>>
        ensures ok { IfOk result (λ v. v.items ≡ range_positions F.rule self.now.leaves self.now.start self.now.end) }
        ensures rises { IfOk result (λ v. IsStrictlyIncreasing v.items) }

        // A plan is of a range with leaves.
        ensures fits { (self.now.start < self.now.end) × (self.now.end ≤ self.now.leaves) × (self.now.leaves ≤ F.MAX_LEAVES) }
        ensures refused { IsOkUnless result Error.OutOfMemory }
    {
        let reads = self.reads.to_vec(*self.reads.allocator())?;
        Ok(ascending(reads))
    }

    /// Builds the proof from the digests that `get_node` returns for positions, with `inactive`
    /// inactive peaks.
    ///
    /// If `get_node` returns the digests of a list, the proof is the honest one of the range of
    /// that list.
    ///
    /// # Errors
    ///
    /// The first that applies:
    /// - `InvalidProof` if `inactive` exceeds the number of peaks
    /// - `ElementPruned` of the first node that `get_node` returns `None` for; the nodes are read
    ///   in this order: the peaks before the range, the individual peaks after it, the folded peaks
    ///   after it from the last one on, and the path siblings
    ///
    /// `OutOfMemory` at any point if a memory request is refused.
    pub fn build<H: Hasher<F>, G: Fn(Position<F>) -> Option<H::Digest>>(
        self,
        hasher: &H,
        inactive: usize,
        get_node: G,
    ) -> Result<Proof<F, H::Digest>, Error<F>>
    where
        G: Drop,
        requires reads { G.IsAlwaysCallable get_node }
        ensures built { (node : ℕ → Option H.Digest) → AnswersBy node (G.post get_node)
            → IfOk result (IsBuiltProof (H.scheme hasher.now) node inactive self) }
        ensures honest { ForAnswered (H.hashing hasher.now) F.rule self (G.post get_node) (IsHonestBuilt (H.scheme hasher.now) inactive self result) }
        ensures read { IfOk result (IsAnsweredBy (H.hashing hasher.now) (H.bagging_of hasher.now) F.rule inactive self (G.post get_node)) }
        ensures fits { IfOk result (λ _. FitsLeaves F.rule F.MAX_LEAVES inactive self) }
        ensures err { IfErr result (λ e. e ≢ Error.OutOfMemory → IsBuildRefusal (H.bagging_of hasher.now) F.rule self inactive (G.post get_node) e) }
    {
        if inactive > self.peaks {
            return Err(Error::InvalidProof);
        }
        let bagging = hasher.root_bagging();
        let prefix = prefix_count(bagging, inactive, self.before);
        let single = single_count(bagging, inactive, self.peaks - self.after, self.after);
        let alone = self.before + single;
        let outside = self.before + self.after;
        let reads = &self.reads;
        let digests = read_digests(
            *reads.allocator(),
            hasher,
            &reads[..prefix],
            &reads[prefix..alone],
            &reads[alone..outside],
            &reads[outside..],
            &get_node,
        );
        match digests {
            Ok(digests) => Ok(Proof {
                leaves: self.leaves,
                inactive_peaks: inactive,
                digests,
            }),
            Err(error) => Err(error),
        }
    }
}
