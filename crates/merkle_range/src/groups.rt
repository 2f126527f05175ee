//! The peaks before a range of leaves, overlapping it and after it.
ghost use Rattle.std.specs.Prelude.{◌≡◌, ◌<◌, ◌≤◌, ◌+◌, ◌++◌, [], ◌∷◌, ℕ, List, map, length, IfOk};
ghost use Rattle.std.specs.List.{flat_map};
ghost use Rattle.merkle_base.specs.Tree.{Tree, position, end_leaf};
ghost use Rattle.merkle_base.specs.Places.{peaks_of, wholly_before};
ghost use Rattle.merkle_root_theory.specs.Plan.{siblings};
ghost use Rattle.merkle_root_theory.specs.Outside.{folded_prefix, single_after};
ghost use Rattle.merkle_root_theory.specs.Layouts.{count_before, count_after, count_inactive};
ghost use Rattle.merkle_root_theory.specs.Check.{in_range};
ghost use Rattle.merkle_root_theory.specs.Range.{overlapping, wholly_after};
ghost use Rattle.merkle_hasher.specs.Subtrees.{Denotes, AreNodes, subtree_of};
ghost use Rattle.merkle_range.specs.GroupedPeaks.{AreReadsOf, HoldsGroups};

use crate::layout::Layout;
use merkle_base::family::{Bagging, Family};
use merkle_base::location::Location;
use merkle_base::position::Position;
use merkle_hasher::peaks::peak_subtrees;
use merkle_hasher::subtree::Subtree;
use merkle_reconstruction::walk::collect_siblings;
use std::alloc::{AllocError, Global};
use std::ops::Range;

/// Initial capacity for the peaks outside a range and the siblings of a proof of one leaf; more are
/// rare.
const ROOM: usize = 128;

/// The peaks that overlap a range, and the positions of the peaks outside it, each oldest first.
#[derive(Drop)]
pub struct PeakGroups<F> {
    /// The number of peaks before the range.
    pub before: usize,
    /// The peaks that overlap the range.
    pub overlapping: Vec<Subtree<F>>,
    /// The positions of the peaks before the range, followed by those of the peaks after it.
    pub outside: Vec<Position<F>>,
}

impl<F: Family> PeakGroups<F> {
    /// Appends a peak to its group. Peaks come in order, the oldest first.
    fn put(&mut self, peak: Subtree<F>, range: &Range<Location<F>>) -> Result<(), AllocError>
        requires node { (t : Tree) × Denotes F.rule F.MAX_LEAVES peak t }
        requires nonempty { range.now.start < range.now.end }
        ensures { IfOk result (λ _. (done : List Tree) (t : Tree) → Denotes F.rule F.MAX_LEAVES peak t
            → (end_leaf t ≤ range.now.start → wholly_after range.now.end done ≡ [])
            → HoldsGroups range.now.start range.now.end self.old done → HoldsGroups range.now.start range.now.end self.new (done ++ t ∷ [])) }
    {
        if peak.leaf_end() <= range.start {
            self.outside.push(peak.position)?;
            self.before = self.outside.len();
        } else if peak.first_leaf >= range.end {
            self.outside.push(peak.position)?;
        } else {
            self.overlapping.push(peak)?;
        }
        Ok(())
    }

    /// Groups the peaks of a structure with `leaves` leaves by where they are relative to `range`.
    ///
    /// Requires `range` to have a leaf and `leaves` to be at most
    /// [`MAX_LEAVES`](Family::MAX_LEAVES).
    ///
    /// # Errors
    ///
    /// - `AllocError` if a memory request is refused
    pub fn of_peaks(
        alloc: Global,
        leaves: Location<F>,
        range: &Range<Location<F>>,
    ) -> Result<Self, AllocError>
        requires nonempty { range.now.start < range.now.end }
        requires within_max_leaves { leaves ≤ F.MAX_LEAVES }
        ensures { IfOk result (λ gs. HoldsGroups range.now.start range.now.end gs (peaks_of F.rule leaves)) }
    {
        let mut groups = PeakGroups {
            before: 0,
            overlapping: Vec::new(alloc),
            outside: Vec::with_capacity(alloc, ROOM)?,
        };
        for peak in peak_subtrees(leaves) {
            groups.put(peak, range)?;
        }
        Ok(groups)
    }

    /// Returns the number of peaks.
    pub fn count(&self) -> usize
        requires { (a : ℕ) × (b : ℕ) × (n : ℕ) × (a < b) × (n ≤ F.MAX_LEAVES) × HoldsGroups a b self.now (peaks_of F.rule n) }
        ensures { (a b n : ℕ) → a < b → HoldsGroups a b self.now (peaks_of F.rule n) → result ≡ length (peaks_of F.rule n) }
    {
        self.overlapping.len() + self.outside.len()
    }

    /// Returns the number of peaks after the range.
    pub fn after(&self) -> usize
        requires { (a : ℕ) × (b : ℕ) × (ts : List Tree) × HoldsGroups a b self.now ts }
        ensures { (a b : ℕ) (ts : List Tree) → HoldsGroups a b self.now ts → result ≡ length (wholly_after b ts) }
    {
        self.outside.len() - self.before
    }

    /// Returns the layout of a proof of the range with `inactive` inactive peaks.
    pub(crate) fn layout(&self, bagging: Bagging, inactive: usize) -> Layout
        requires groups { (a : ℕ) × (b : ℕ) × (n : ℕ) × (a < b) × (n ≤ F.MAX_LEAVES) × HoldsGroups a b self.now (peaks_of F.rule n) }
        requires inactive { inactive ≤ 64 }
        ensures before { (a b : ℕ) (ts : List Tree) → HoldsGroups a b self.now ts → result.before ≡ count_before bagging inactive (wholly_before a ts) }
        ensures after { (a b : ℕ) (ts : List Tree) → HoldsGroups a b self.now ts
            → result.after ≡ count_after bagging inactive (length (wholly_before a ts) + length (overlapping a b ts)) (wholly_after b ts) }
        ensures inactive { (a b : ℕ) (ts : List Tree) → HoldsGroups a b self.now ts → result.inactive ≡ count_inactive bagging inactive (wholly_before a ts) }
        ensures prefix { (a b : ℕ) (ts : List Tree) → HoldsGroups a b self.now ts
            → result.prefix ≡ length (folded_prefix bagging inactive (wholly_before a ts)) }
        ensures single { (a b : ℕ) (ts : List Tree) → HoldsGroups a b self.now ts
            → result.single ≡ length (single_after bagging inactive (length (wholly_before a ts) + length (overlapping a b ts)) (wholly_after b ts)) }
    {
        Layout::new(
            bagging,
            inactive,
            self.before,
            self.overlapping.len(),
            self.after(),
        )
    }

    /// Returns the positions of the nodes whose digests a proof of `range` reads: the peaks before
    /// the range, the peaks after it, and the maximal nodes outside it below the peaks that overlap
    /// it, left to right.
    ///
    /// Requires `range` to be the one that the peaks were grouped by.
    ///
    /// # Errors
    ///
    /// - `AllocError` if a memory request is refused
    pub fn into_reads(self, range: &Range<Location<F>>) -> Result<Vec<Position<F>>, AllocError>
        requires nonempty { range.now.start < range.now.end }
        requires groups { (n : ℕ) × (n ≤ F.MAX_LEAVES) × HoldsGroups range.now.start range.now.end self (peaks_of F.rule n) }
        ensures { IfOk result (λ v. AreReadsOf F.rule F.MAX_LEAVES self range.now.start range.now.end v.items) }
    {
        let mut reads = self.outside;
        append_siblings(&self.overlapping, range, &mut reads)?;
        Ok(reads)
    }
}

// Appends the positions of the maximal nodes outside the range below the peaks, left to right.
fn append_siblings<F: Family>(
    peaks: &[Subtree<F>],
    range: &Range<Location<F>>,
    out: &mut Vec<Position<F>>,
) -> Result<(), AllocError>
    requires nodes { (ts : List Tree) × (peaks.now ≡ map subtree_of ts) × AreNodes F.rule F.MAX_LEAVES ts }
    requires nonempty { range.now.start < range.now.end }
    ensures { IfOk result (λ _. (ts : List Tree) → peaks.now ≡ map subtree_of ts → AreNodes F.rule F.MAX_LEAVES ts
        → out.new.items ≡ out.old.items ++ map position (flat_map (siblings (in_range range.now.start range.now.end)) ts)) }
{
    for peak in peaks {
        collect_siblings(peak, range, out)?;
    }
    Ok(())
}
