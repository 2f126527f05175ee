//! Checks of ranges of leaves against a root.
ghost use Rattle.std.specs.Prelude.{◌≡◌, ◌≢◌, ◌↔◌, ◌+◌, ◌<◌, ◌≤◌, ◌⊎◌, [], List, Some, Ok, Err, IfOk, IfErr, IsTrue, length, map, drop};
ghost use Rattle.std.specs.List.{flat_map};
ghost use Rattle.merkle_base.specs.Tree.{Tree};
ghost use Rattle.merkle_base.specs.Places.{peaks_of};
ghost use Rattle.merkle_base.specs.Scheme.{Scheme};
ghost use Rattle.merkle_root_theory.specs.Plan.{siblings};
ghost use Rattle.merkle_base.specs.Cases.{first_case};
ghost use Rattle.merkle_root_theory.specs.Extract.{over_pairs, extracted};
ghost use Rattle.merkle_root_theory.specs.Check.{in_range};
ghost use Rattle.merkle_root_theory.specs.Reconstruction.{range_refusals, reconstructed};
ghost use Rattle.merkle_hasher.specs.Subtrees.{AreNodes, subtree_of};
ghost use Rattle.merkle_hasher.specs.LeafDigests.{bytes_of};
ghost use Rattle.merkle_root_theory.specs.Walk.{leaf_from, ArePeaksWalked, ArePeakDigests};
ghost use Rattle.merkle_range.specs.GroupedPeaks.{HoldsGroups};
ghost use Rattle.merkle_range.specs.Input.{IsComputed, input_of_parts, digest_input_of_parts};
ghost use Rattle.merkle_range.specs.Inside.{AreKnown};
ghost use Rattle.merkle_claim_theory.specs.CheckAnswers.{IsExactForRange, IsReconstructionRefusal};

use crate::extraction::{put_after, put_before};
use crate::groups::PeakGroups;
use merkle_base::error::{OutOfMemory, ReconstructionError};
use merkle_base::family::Family;
use merkle_base::location::Location;
use merkle_digest::digest::Digest;
use merkle_hasher::hasher::Hasher;
use merkle_hasher::subtree::Subtree;
use merkle_leaves::queue::push_leaf_digests;
use merkle_reconstruction::collector::{Collector, Discard};
use merkle_reconstruction::inside::digests_inside;
use merkle_reconstruction::known::ComputedNodes;
use merkle_reconstruction::walk::reconstruct_digest;
use std::alloc::Global;
use std::ops::Range;

/// The parts of a proof that a check is given.
#[derive(Drop)]
pub struct ProofParts<'a, F, D> {
    /// The leaf count of the list.
    pub leaves: Location<F>,
    /// The number of inactive peaks.
    pub inactive: usize,
    /// The digests of the nodes that the elements do not determine.
    pub digests: &'a [D],
    /// The allocator for memory requests.
    pub alloc: Global,
}

/// Whether the elements, which are those from location `start` on, lead to `root`.
///
/// # Errors
///
/// - `OutOfMemory` if a memory request is refused
pub fn verify_range<F: Family, H: Hasher<F>>(
    parts: &ProofParts<'_, F, H::Digest>,
    hasher: &H,
    elements: &[&[u8]],
    start: Location<F>,
    root: &H::Digest,
) -> Result<bool, OutOfMemory>
    ensures { let s = H.scheme hasher.now in IfOk result (IsExactForRange s root.now (input_of_parts s parts.now start (bytes_of elements.now))) }
{
    is_root(reconstruct_root(parts, hasher, elements, start), root)
}

/// Whether the leaves with these digests, which are those from location `start` on, lead to `root`.
///
/// # Errors
///
/// - `OutOfMemory` if a memory request is refused
pub fn verify_leaf_digests<F: Family, H: Hasher<F>>(
    parts: &ProofParts<'_, F, H::Digest>,
    hasher: &H,
    leaves: &[H::Digest],
    start: Location<F>,
    root: &H::Digest,
) -> Result<bool, OutOfMemory>
    ensures { let s = H.scheme hasher.now in IfOk result (IsExactForRange s root.now (digest_input_of_parts parts.now start leaves.now)) }
{
    is_root(root_of_leaf_digests(parts, hasher, leaves, start), root)
}

// Whether what was computed is `root`; a refusal of the input is not.
fn is_root<D: Digest>(
    outcome: Result<D, ReconstructionError>,
    root: &D,
) -> Result<bool, OutOfMemory>
    ensures exact { IfOk result (λ yes. IsTrue yes ↔ (outcome ≡ Ok root.now)) }
    ensures memory { IfOk result (λ _. outcome ≢ Err ReconstructionError.OutOfMemory) }
{
    match outcome {
        Ok(computed) => Ok(computed == *root),
        Err(error) => match error {
            ReconstructionError::OutOfMemory => Err(OutOfMemory),
            _ => Ok(false),
        },
    }
}

/// Computes the root that the elements, which are those from location `start` on, lead to.
///
/// # Errors
///
/// Without elements, those of [`reconstruct_empty_root`]; with elements, the first that applies:
/// - `InvalidStartLoc` if `start` is not below [`MAX_LEAVES`](Family::MAX_LEAVES)
/// - `InvalidEndLoc` if the location after the last element exceeds
///   [`MAX_LEAVES`](Family::MAX_LEAVES) or the leaf count of the proof
/// - `InvalidSize` if the leaf count of the proof exceeds [`MAX_LEAVES`](Family::MAX_LEAVES), or
///   its number of inactive peaks exceeds the number of peaks
/// - `MissingDigests` or `ExtraDigests` if there are fewer or more digests than the range needs
///
/// `OutOfMemory` at any point if a memory request is refused.
pub fn reconstruct_root<F: Family, H: Hasher<F>>(
    parts: &ProofParts<'_, F, H::Digest>,
    hasher: &H,
    elements: &[&[u8]],
    start: Location<F>,
) -> Result<H::Digest, ReconstructionError>
    ensures ok { let s = H.scheme hasher.now in
        let r = input_of_parts s parts.now start (bytes_of elements.now) in
        IfOk result (λ d. reconstructed s r ≡ Ok d) }
    ensures err { let s = H.scheme hasher.now in IfErr result (IsReconstructionRefusal s (input_of_parts s parts.now start (bytes_of elements.now))) }
{
    if elements.is_empty() {
        return reconstruct_empty_root(parts, hasher, start);
    }
    reconstruct_nonempty_root(parts, hasher, elements, start)
}

/// Computes the root that the leaves with these digests, which are those from location `start` on,
/// lead to.
///
/// Fails as [`reconstruct_root`], with leaves for elements.
pub fn root_of_leaf_digests<F: Family, H: Hasher<F>>(
    parts: &ProofParts<'_, F, H::Digest>,
    hasher: &H,
    leaves: &[H::Digest],
    start: Location<F>,
) -> Result<H::Digest, ReconstructionError>
    ensures ok { let s = H.scheme hasher.now in
        IfOk result (λ d. reconstructed s (digest_input_of_parts parts.now start leaves.now) ≡ Ok d) }
    ensures err { let s = H.scheme hasher.now in IfErr result (IsReconstructionRefusal s (digest_input_of_parts parts.now start leaves.now)) }
{
    if leaves.is_empty() {
        return reconstruct_empty_root(parts, hasher, start);
    }
    root_of_leaf_digests_into(parts, hasher, leaves, start, &mut Discard)
}

/// Computes the root that the elements, which are at least one, lead to.
pub(crate) fn reconstruct_nonempty_root<F: Family, H: Hasher<F>>(
    parts: &ProofParts<'_, F, H::Digest>,
    hasher: &H,
    elements: &[&[u8]],
    start: Location<F>,
) -> Result<H::Digest, ReconstructionError>
    requires nonempty { 0 < length elements.now }
    ensures ok { let s = H.scheme hasher.now in
        let r = input_of_parts s parts.now start (bytes_of elements.now) in
        IfOk result (λ d. IsComputed s r d) }
    ensures err { let s = H.scheme hasher.now in
        let r = input_of_parts s parts.now start (bytes_of elements.now) in
        IfErr result (λ e. e ≢ ReconstructionError.OutOfMemory → first_case (range_refusals s r) ≡ Some e) }
{
    reconstruct_root_into(parts, hasher, elements, start, &mut Discard)
}

/// Computes the root that the elements, which are at least one, lead to, and passes every node
/// digest that is computed or given to `collector`, in the order of [`root_over_range`].
pub(crate) fn reconstruct_root_into<F: Family, H: Hasher<F>, C: Collector<F, H::Digest>>(
    parts: &ProofParts<'_, F, H::Digest>,
    hasher: &H,
    elements: &[&[u8]],
    start: Location<F>,
    collector: &mut C,
) -> Result<H::Digest, ReconstructionError>
    requires nonempty { 0 < length elements.now }
    ensures ok { let s = H.scheme hasher.now in
        let r = input_of_parts s parts.now start (bytes_of elements.now) in
        IfOk result (λ d. IsComputed s r d) }
    ensures taken { let s = H.scheme hasher.now in
        let r = input_of_parts s parts.now start (bytes_of elements.now) in
        IfOk result (λ _. C.Took collector.old (extracted s r) collector.new) }
    ensures err { let s = H.scheme hasher.now in
        let r = input_of_parts s parts.now start (bytes_of elements.now) in
        IfErr result (λ e. e ≢ ReconstructionError.OutOfMemory → first_case (range_refusals s r) ≡ Some e) }
{
    let (range, groups) = grouped_range(parts, start, elements.len())?;
    let mut leaves = Vec::new(parts.alloc);
    let Ok(()) = push_leaf_digests(parts.alloc, hasher, start, elements, &mut leaves) else {
        return Err(ReconstructionError::OutOfMemory);
    };
    root_over_range(parts, hasher, &range, &groups, &leaves, collector)
}

/// Computes the root that the leaves with these digests, which are at least one and those from
/// location `start` on, lead to, and passes every node digest that is computed or given to
/// `collector`, in the order of [`root_over_range`].
pub(crate) fn root_of_leaf_digests_into<F: Family, H: Hasher<F>, C: Collector<F, H::Digest>>(
    parts: &ProofParts<'_, F, H::Digest>,
    hasher: &H,
    leaves: &[H::Digest],
    start: Location<F>,
    collector: &mut C,
) -> Result<H::Digest, ReconstructionError>
    requires nonempty { 0 < length leaves.now }
    ensures ok { let s = H.scheme hasher.now in
        IfOk result (λ d. IsComputed s (digest_input_of_parts parts.now start leaves.now) d) }
    ensures taken { let s = H.scheme hasher.now in
        let r = digest_input_of_parts parts.now start leaves.now in
        IfOk result (λ _. C.Took collector.old (extracted s r) collector.new) }
    ensures err { let s = H.scheme hasher.now in
        let r = digest_input_of_parts parts.now start leaves.now in
        IfErr result (λ e. e ≢ ReconstructionError.OutOfMemory → first_case (range_refusals s r) ≡ Some e) }
{
    let (range, groups) = grouped_range(parts, start, leaves.len())?;
    root_over_range(parts, hasher, &range, &groups, leaves, collector)
}

/// Computes the root that the leaves of a range, which have the digests `leaves`, lead to, and
/// passes every node digest that is computed or given to `collector`.
///
/// The order is: the individual peaks before the range; each peak that overlaps it, after the nodes
/// below that peak; the individual peaks after the range.
fn root_over_range<F: Family, H: Hasher<F>, C: Collector<F, H::Digest>>(
    parts: &ProofParts<'_, F, H::Digest>,
    hasher: &H,
    range: &Range<Location<F>>,
    groups: &PeakGroups<F>,
    leaves: &[H::Digest],
    collector: &mut C,
) -> Result<H::Digest, ReconstructionError>
    requires nonempty { 0 < length leaves.now }
    requires end { range.now.end ≡ range.now.start + length leaves.now }
    requires within { range.now.end ≤ parts.now.leaves }
    requires within_max_leaves { parts.now.leaves ≤ F.MAX_LEAVES }
    requires inactive { parts.now.inactive ≤ length (peaks_of F.rule parts.now.leaves) }
    requires groups { HoldsGroups range.now.start range.now.end groups.now (peaks_of F.rule parts.now.leaves) }
    ensures ok { let s = H.scheme hasher.now in
        IfOk result (λ d. IsComputed s (digest_input_of_parts parts.now range.now.start leaves.now) d) }
    ensures taken { let s = H.scheme hasher.now in
        let r = digest_input_of_parts parts.now range.now.start leaves.now in
        IfOk result (λ _. C.Took collector.old (extracted s r) collector.new) }
    ensures err { let s = H.scheme hasher.now in
        let r = digest_input_of_parts parts.now range.now.start leaves.now in
        IfErr result (λ e. e ≢ ReconstructionError.OutOfMemory → first_case (range_refusals s r) ≡ Some e) }
{
    let layout = groups.layout(hasher.root_bagging(), parts.inactive);
    let Ok(()) = put_before(groups, layout, parts.digests, collector) else {
        return Err(ReconstructionError::OutOfMemory);
    };
    let peaks = peak_digests(
        parts,
        hasher,
        range,
        leaves,
        &groups.overlapping,
        layout.before,
        layout.after,
        collector,
    )?;
    let Ok(()) = put_after(groups, layout, parts.digests, collector) else {
        return Err(ReconstructionError::OutOfMemory);
    };
    match hasher.root_with_folded_peaks(parts.leaves, layout.inactive, parts.inactive, &peaks) {
        Some(root) => Ok(root),
        None => unreachable!(),
    }
}

/// Returns the root that no elements lead to: the root of no leaves, which the empty proof proves
/// from location 0 on.
///
/// # Errors
///
/// The first that applies:
/// - `MissingElements` if `start` is not 0
/// - `InvalidProof` if the number of inactive peaks is not 0
/// - `MissingElements` if the leaf count is not 0
/// - `ExtraDigests` if there are digests
pub fn reconstruct_empty_root<F: Family, H: Hasher<F>>(
    parts: &ProofParts<'_, F, H::Digest>,
    hasher: &H,
    start: Location<F>,
) -> Result<H::Digest, ReconstructionError>
    ensures { let s = H.scheme hasher.now in
        result ≡ reconstructed s (input_of_parts s parts.now start []) }
{
    if start.as_u64() != 0 {
        return Err(ReconstructionError::MissingElements);
    }
    if parts.inactive != 0 {
        return Err(ReconstructionError::InvalidProof);
    }
    if parts.leaves.as_u64() != 0 {
        return Err(ReconstructionError::MissingElements);
    }
    if !parts.digests.is_empty() {
        return Err(ReconstructionError::ExtraDigests);
    }
    match hasher.root_with_folded_peaks(parts.leaves, 0, 0, &[]) {
        Some(root) => Ok(root),
        None => unreachable!(),
    }
}

// Returns the location after the `count` leaves from `start` on.
fn end_from<F: Family>(
    leaves: Location<F>,
    start: Location<F>,
    count: usize,
) -> Result<Location<F>, ReconstructionError>
    ensures ok { IfOk result (λ end. (end ≡ start + count) × (end ≤ leaves) × (leaves ≤ F.MAX_LEAVES)) }
    ensures err { IfErr result (λ e. ((F.MAX_LEAVES ≤ start) × (e ≡ ReconstructionError.InvalidStartLoc))
        ⊎ ((start < F.MAX_LEAVES) × (F.MAX_LEAVES < start + count) × (e ≡ ReconstructionError.InvalidEndLoc))
        ⊎ ((start < F.MAX_LEAVES) × (start + count ≤ F.MAX_LEAVES) × (leaves < start + count) × (e ≡ ReconstructionError.InvalidEndLoc))
        ⊎ ((start < F.MAX_LEAVES) × (start + count ≤ leaves) × (start + count ≤ F.MAX_LEAVES) × (F.MAX_LEAVES < leaves)
        × (e ≡ ReconstructionError.InvalidSize))) }
{
    if !start.is_valid_index() {
        return Err(ReconstructionError::InvalidStartLoc);
    }
    let Some(end) = start.checked_add(count as u64) else {
        return Err(ReconstructionError::InvalidEndLoc);
    };
    if end > leaves {
        return Err(ReconstructionError::InvalidEndLoc);
    }
    if !leaves.is_valid() {
        return Err(ReconstructionError::InvalidSize);
    }
    Ok(end)
}

// Returns the range of the `count` leaves from `start` on, with the peaks grouped by it.
fn grouped_range<F: Family, D: Digest>(
    parts: &ProofParts<'_, F, D>,
    start: Location<F>,
    count: usize,
) -> Result<(Range<Location<F>>, PeakGroups<F>), ReconstructionError>
    requires nonempty { 0 < count }
    ensures range { IfOk result (λ found. (found.0.start ≡ start) × (found.0.end ≡ start + count)) }
    ensures within { IfOk result (λ found. (found.0.end ≤ parts.now.leaves) × (parts.now.leaves ≤ F.MAX_LEAVES)) }
    ensures inactive { IfOk result (λ _. parts.now.inactive ≤ length (peaks_of F.rule parts.now.leaves)) }
    ensures groups { IfOk result (λ found. HoldsGroups found.0.start found.0.end found.1 (peaks_of F.rule parts.now.leaves)) }
    ensures err { IfErr result (λ e. e ≢ ReconstructionError.OutOfMemory
        → (s : Scheme D) (leaves : List D) → s.rule ≡ F.rule → s.max_leaves ≡ F.MAX_LEAVES → length leaves ≡ count
        → first_case (range_refusals s (digest_input_of_parts parts.now start leaves)) ≡ Some e) }
{
    let end = end_from(parts.leaves, start, count)?;
    let range = start..end;
    let Ok(groups) = PeakGroups::of_peaks(parts.alloc, parts.leaves, &range) else {
        return Err(ReconstructionError::OutOfMemory);
    };
    if parts.inactive > groups.count() {
        return Err(ReconstructionError::InvalidSize);
    }
    Ok((range, groups))
}

// Returns all digests that the root folds: the given ones before the range, those of the peaks that
// overlap it, and the given ones after it. `leaves` are the digests of the leaves in the range.
fn peak_digests<F: Family, H: Hasher<F>, C: Collector<F, H::Digest>>(
    parts: &ProofParts<'_, F, H::Digest>,
    hasher: &H,
    range: &Range<Location<F>>,
    leaves: &[H::Digest],
    peaks: &[Subtree<F>],
    before: usize,
    after: usize,
    collector: &mut C,
) -> Result<Vec<H::Digest>, ReconstructionError>
    requires nodes { (ts : List Tree) × (peaks.now ≡ map subtree_of ts) × AreNodes F.rule F.MAX_LEAVES ts }
    requires nonempty { range.now.start < range.now.end }
    requires covered { range.now.end ≤ range.now.start + length leaves.now }
    ensures ok { let h = H.hashing hasher.now in let c = in_range range.now.start range.now.end in
        let X = leaf_from h range.now.start leaves.now in
        IfOk result (λ v. (ts : List Tree) → peaks.now ≡ map subtree_of ts → AreNodes F.rule F.MAX_LEAVES ts
        → ArePeakDigests h c X ts before after parts.now.digests.now v.items) }
    ensures taken { let h = H.hashing hasher.now in let c = in_range range.now.start range.now.end in
        let X = leaf_from h range.now.start leaves.now in
        IfOk result (λ _. (ts : List Tree) → peaks.now ≡ map subtree_of ts → AreNodes F.rule F.MAX_LEAVES ts
        → C.Took collector.old (over_pairs h c X ts (drop (before + after) parts.now.digests.now)) collector.new) }
    ensures err { let c = in_range range.now.start range.now.end in
        IfErr result (λ e. e ≢ ReconstructionError.OutOfMemory → (ts : List Tree) → peaks.now ≡ map subtree_of ts → AreNodes F.rule F.MAX_LEAVES ts
        → let asked = before + after + length (flat_map (siblings c) ts) in
        ((length parts.now.digests.now < asked) × (e ≡ ReconstructionError.MissingDigests))
        ⊎ ((asked < length parts.now.digests.now) × (e ≡ ReconstructionError.ExtraDigests))) }
{
    let Some((before, others)) = parts.digests.split_at_checked(before) else {
        return Err(ReconstructionError::MissingDigests);
    };
    let Some((after, mut siblings)) = others.split_at_checked(after) else {
        return Err(ReconstructionError::MissingDigests);
    };
    let Ok(mut all) = before.to_vec(parts.alloc) else {
        return Err(ReconstructionError::OutOfMemory);
    };
    let is_wanted = !collector.keeps();
    let Ok(known) = digests_inside(parts.alloc, peaks, hasher, range, leaves, is_wanted) else {
        return Err(ReconstructionError::OutOfMemory);
    };
    reconstruct_peaks(
        parts.alloc,
        hasher,
        range,
        leaves,
        &known,
        peaks,
        &mut siblings,
        &mut all,
        collector,
    )?;
    if !siblings.is_empty() {
        return Err(ReconstructionError::ExtraDigests);
    }
    let Ok(()) = all.extend_from_slice(after) else {
        return Err(ReconstructionError::OutOfMemory);
    };
    Ok(all)
}

// Appends the digests of the peaks that overlap the range, whose leaves have the digests `leaves`.
fn reconstruct_peaks<F: Family, H: Hasher<F>, C: Collector<F, H::Digest>>(
    alloc: Global,
    hasher: &H,
    range: &Range<Location<F>>,
    leaves: &[H::Digest],
    known: &ComputedNodes<F, H::Digest>,
    peaks: &[Subtree<F>],
    digests: &mut &[H::Digest],
    out: &mut Vec<H::Digest>,
    collector: &mut C,
) -> Result<(), ReconstructionError>
    requires nodes { (ts : List Tree) × (peaks.now ≡ map subtree_of ts) × AreNodes F.rule F.MAX_LEAVES ts }
    requires nonempty { range.now.start < range.now.end }
    requires covered { range.now.end ≤ range.now.start + length leaves.now }
    requires known { let h = H.hashing hasher.now in
        AreKnown h F.rule F.MAX_LEAVES (leaf_from h range.now.start leaves.now) known.now.positions.items known.now.digests.items }
    ensures ok { let h = H.hashing hasher.now in let c = in_range range.now.start range.now.end in
        let X = leaf_from h range.now.start leaves.now in
        IfOk result (λ _. (ts : List Tree) → peaks.now ≡ map subtree_of ts → AreNodes F.rule F.MAX_LEAVES ts
        → ArePeaksWalked h c X ts digests.old.now out.old.items out.new.items digests.new.now) }
    ensures taken { let h = H.hashing hasher.now in let c = in_range range.now.start range.now.end in
        let X = leaf_from h range.now.start leaves.now in
        IfOk result (λ _. (ts : List Tree) → peaks.now ≡ map subtree_of ts → AreNodes F.rule F.MAX_LEAVES ts
        → C.Took collector.old (over_pairs h c X ts digests.old.now) collector.new) }
    ensures err { let c = in_range range.now.start range.now.end in
        IfErr result (λ e. e ≢ ReconstructionError.OutOfMemory → (e ≡ ReconstructionError.MissingDigests)
        × ((ts : List Tree) → peaks.now ≡ map subtree_of ts → AreNodes F.rule F.MAX_LEAVES ts
        → length digests.old.now < length (flat_map (siblings c) ts))) }
{
    for peak in peaks {
        let digest = reconstruct_digest(
            alloc, peak, hasher, range, leaves, known, digests, collector,
        )?;
        if collector.put(peak.position, &digest).is_err() {
            return Err(ReconstructionError::OutOfMemory);
        }
        if out.push(digest).is_err() {
            return Err(ReconstructionError::OutOfMemory);
        }
    }
    Ok(())
}
