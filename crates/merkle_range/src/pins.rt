//! The check that pinned digests are those of the peaks over the leaves before a range.
ghost use Rattle.std.specs.Prelude.{◌≡◌, ◌+◌, ◌<◌, ◌≤◌, ◌↔◌, ℕ, true, List, IsTrue, Ok, IfOk, length, map, take, drop};
ghost use Rattle.merkle_base.specs.Places.{peaks_of, peak_positions};
ghost use Rattle.merkle_base.specs.Tree.{Tree, end_leaf};
ghost use Rattle.merkle_hasher.specs.Subtrees.{Denotes, AreNodes, subtree_of};
ghost use Rattle.merkle_root_theory.specs.Outside.{fold_all};
ghost use Rattle.merkle_root_theory.specs.Plan.{left_fold_plan, peak, siblings, tree_meets};
ghost use Rattle.merkle_root_theory.specs.Check.{in_range};
ghost use Rattle.merkle_root_theory.specs.Range.{range_parts, range_siblings};
ghost use Rattle.merkle_hasher.specs.LeafDigests.{bytes_of};
ghost use Rattle.merkle_claim_theory.specs.CheckAnswers.{DecidesPins};
ghost use Rattle.merkle_claim_theory.specs.Rebuilt.{AllRebuilt, rebuilt_node, rebuilt_part};
ghost use Rattle.merkle_base.specs.Table.{digest_for};
ghost use Rattle.merkle_root_theory.specs.Reconstruction.{reconstructed};
ghost use Rattle.merkle_range.specs.Input.{input_of_parts, digest_input_of_parts};
ghost use Rattle.merkle_range.specs.PinnedParts.{IsBeforeRebuilt};

use crate::checks::{ProofParts, verify_leaf_digests, verify_range};
use crate::groups::PeakGroups;
use merkle_base::error::OutOfMemory;
use merkle_base::family::Family;
use merkle_base::location::Location;
use merkle_base::position::Position;
use merkle_digest::digest::Digest;
use merkle_hasher::hasher::Hasher;
use merkle_hasher::peaks::list_peaks;
use merkle_hasher::subtree::Subtree;
use merkle_reconstruction::known::find_digest;
use std::alloc::{AllocError, Global};
use std::ops::Range;

/// Pinned digests with their positions.
#[derive(Drop)]
struct Pins<'a, F, D> {
    positions: Vec<Position<F>>,
    digests: &'a [D],
}

impl<'a, F: Family, D: Digest> Pins<'a, F, D> {
    /// Pairs the digests with the positions of the peaks of `leaves` leaves.
    fn new(alloc: Global, leaves: Location<F>, digests: &'a [D]) -> Result<Self, AllocError>
        requires { leaves ≤ F.MAX_LEAVES }
        ensures positions { IfOk result (λ p. p.positions.items ≡ peak_positions F.rule leaves) }
        ensures digests { IfOk result (λ p. p.digests.now ≡ digests.now) }
    {
        let mut positions = Vec::new(alloc);
        for position in F::nodes_to_pin(leaves) {
            positions.push(position)?;
        }
        Ok(Pins { positions, digests })
    }

    /// Returns the digest that is pinned at `position`, if any.
    fn get(&self, position: Position<F>) -> Option<D>
        ensures { result ≡ digest_for self.now.positions.items self.now.digests.now position }
    {
        find_digest(&self.positions, self.digests, position)
    }
}

/// Computes the digest of a node from those that are pinned at it or below it. A leaf without a pin
/// gets the empty digest.
fn rebuilt_digest<F: Family, H: Hasher<F>>(
    subtree: &Subtree<F>,
    hasher: &H,
    pins: &Pins<'_, F, H::Digest>,
) -> H::Digest
    requires node { (t : Tree) × Denotes F.rule F.MAX_LEAVES subtree.now t }
    ensures { let h = H.hashing hasher.now in let b = digest_for pins.now.positions.items pins.now.digests.now in
        (t : Tree) → Denotes F.rule F.MAX_LEAVES subtree.now t → result ≡ rebuilt_node h b t }
{
    if let Some(digest) = pins.get(subtree.position) {
        return digest;
    }
    if subtree.height == 0 {
        return H::Digest::EMPTY;
    }
    let (left, right) = subtree.children();
    let first = rebuilt_digest(&left, hasher, pins);
    let second = rebuilt_digest(&right, hasher, pins);
    hasher.node_digest(subtree.position, &first, &second)
}

// Folds the rebuilt digests of the peaks left to right.
fn rebuilt_fold<F: Family, H: Hasher<F>>(
    oldest: &Subtree<F>,
    others: &[Subtree<F>],
    hasher: &H,
    pins: &Pins<'_, F, H::Digest>,
) -> H::Digest
    requires first { (t : Tree) × Denotes F.rule F.MAX_LEAVES oldest.now t }
    requires nodes { (ts : List Tree) × (others.now ≡ map subtree_of ts) × AreNodes F.rule F.MAX_LEAVES ts }
    ensures { let h = H.hashing hasher.now in let b = digest_for pins.now.positions.items pins.now.digests.now in
        (t : Tree) (ts : List Tree) → Denotes F.rule F.MAX_LEAVES oldest.now t → others.now ≡ map subtree_of ts → AreNodes F.rule F.MAX_LEAVES ts
        → result ≡ rebuilt_part h b (left_fold_plan (peak t) 1 ts) }
{
    let mut folded = rebuilt_digest(oldest, hasher, pins);
    for peak in others {
        let digest = rebuilt_digest(peak, hasher, pins);
        folded = hasher.fold(&folded, &digest);
    }
    folded
}

// Whether the first of `digests` is that of the rebuilt peaks folded left to right; `true` if there
// are no peaks.
fn is_fold_rebuilt<F: Family, H: Hasher<F>>(
    peaks: &[Subtree<F>],
    hasher: &H,
    pins: &Pins<'_, F, H::Digest>,
    digests: &[H::Digest],
) -> bool
    requires nodes { (ts : List Tree) × (peaks.now ≡ map subtree_of ts) × AreNodes F.rule F.MAX_LEAVES ts }
    ensures { let h = H.hashing hasher.now in let b = digest_for pins.now.positions.items pins.now.digests.now in
        (ts : List Tree) → peaks.now ≡ map subtree_of ts → AreNodes F.rule F.MAX_LEAVES ts → length (fold_all ts) ≤ length digests.now
        → IsTrue result ↔ AllRebuilt h (λ _. true) (rebuilt_part h b) (fold_all ts) digests.now }
{
    let Some((oldest, others)) = peaks.split_first() else {
        return true;
    };
    let Some((digest, _)) = digests.split_first() else {
        return false;
    };
    rebuilt_fold(oldest, others, hasher, pins) == *digest
}

// Whether the rebuilt digest of every peak equals the digest at its index.
fn are_rebuilt<F: Family, H: Hasher<F>>(
    peaks: &[Subtree<F>],
    hasher: &H,
    pins: &Pins<'_, F, H::Digest>,
    digests: &[H::Digest],
) -> bool
    requires nodes { (ts : List Tree) × (peaks.now ≡ map subtree_of ts) × AreNodes F.rule F.MAX_LEAVES ts }
    ensures { let h = H.hashing hasher.now in let b = digest_for pins.now.positions.items pins.now.digests.now in
        (ts : List Tree) → peaks.now ≡ map subtree_of ts → AreNodes F.rule F.MAX_LEAVES ts → length ts ≤ length digests.now
        → IsTrue result ↔ AllRebuilt h (λ _. true) (rebuilt_node h b) ts digests.now }
{
    let mut rest = digests;
    for peak in peaks {
        let Some((digest, others)) = rest.split_first() else {
            return false;
        };
        if rebuilt_digest(peak, hasher, pins) != *digest {
            return false;
        }
        rest = others;
    }
    true
}

// Whether every path sibling below the node that lies before `start` is rebuilt to the next digest.
//
// The node has a leaf at or after `start`.
fn are_siblings_rebuilt<F: Family, H: Hasher<F>>(
    subtree: &Subtree<F>,
    hasher: &H,
    start: Location<F>,
    pins: &Pins<'_, F, H::Digest>,
    digests: &[H::Digest],
) -> bool
    requires node { (t : Tree) × Denotes F.rule F.MAX_LEAVES subtree.now t × (start < end_leaf t) }
    ensures { let h = H.hashing hasher.now in let b = digest_for pins.now.positions.items pins.now.digests.now in
        (t : Tree) (end : ℕ) → Denotes F.rule F.MAX_LEAVES subtree.now t → start < end → length (siblings (in_range start end) t) ≤ length digests.now
        → IsTrue result ↔ AllRebuilt h (tree_meets (in_range 0 start)) (rebuilt_node h b) (siblings (in_range start end) t) digests.now }
{
    if subtree.first_leaf >= start {
        return true;
    }
    let (left, right) = subtree.children();
    if start < left.leaf_end() {
        return are_siblings_rebuilt(&left, hasher, start, pins, digests);
    }
    let Some((digest, others)) = digests.split_first() else {
        return false;
    };
    if rebuilt_digest(&left, hasher, pins) != *digest {
        return false;
    }
    are_siblings_rebuilt(&right, hasher, start, pins, others)
}

// Whether the fold of the `folded` oldest peaks, and every further peak by itself, are rebuilt to
// the digests at their indices.
fn are_peaks_rebuilt<F: Family, H: Hasher<F>>(
    peaks: &[Subtree<F>],
    folded: usize,
    hasher: &H,
    pins: &Pins<'_, F, H::Digest>,
    digests: &[H::Digest],
) -> bool
    requires nodes { (ts : List Tree) × (peaks.now ≡ map subtree_of ts) × AreNodes F.rule F.MAX_LEAVES ts }
    requires folded { folded ≤ length peaks.now }
    ensures { let h = H.hashing hasher.now in let b = digest_for pins.now.positions.items pins.now.digests.now in
        (ts : List Tree) → peaks.now ≡ map subtree_of ts → AreNodes F.rule F.MAX_LEAVES ts
        → length (fold_all (take folded ts)) + length (drop folded ts) ≤ length digests.now
        → IsTrue result ↔ (AllRebuilt h (λ _. true) (rebuilt_part h b) (fold_all (take folded ts)) digests.now
        × AllRebuilt h (λ _. true) (rebuilt_node h b) (drop folded ts) (drop (length (fold_all (take folded ts))) digests.now)) }
{
    let (first, others) = peaks.split_at(folded);
    if !is_fold_rebuilt(first, hasher, pins, digests) {
        return false;
    }
    let Some((_, rest)) = digests.split_at_checked(folded.min(1)) else {
        return false;
    };
    are_rebuilt(others, hasher, pins, rest)
}

// Whether every part of a proof that lies before the range is rebuilt from the pins to its digest.
fn is_before_rebuilt<F: Family, H: Hasher<F>>(
    parts: &ProofParts<'_, F, H::Digest>,
    hasher: &H,
    range: &Range<Location<F>>,
    pins: &Pins<'_, F, H::Digest>,
) -> Result<bool, OutOfMemory>
    requires nonempty { range.now.start < range.now.end }
    requires within { range.now.end ≤ parts.now.leaves }
    requires within_max_leaves { parts.now.leaves ≤ F.MAX_LEAVES }
    requires inactive { parts.now.inactive ≤ length (peaks_of F.rule parts.now.leaves) }
    requires count { let ts = peaks_of F.rule parts.now.leaves in
        length parts.now.digests.now ≡ length (range_parts (H.bagging_of hasher.now) parts.now.inactive range.now.start range.now.end ts)
        + length (range_siblings range.now.start range.now.end ts) }
    ensures { let b = digest_for pins.now.positions.items pins.now.digests.now in
        IfOk result (λ yes. IsTrue yes ↔ IsBeforeRebuilt (H.hashing hasher.now) (H.bagging_of hasher.now) parts.now.inactive range.now.start range.now.end
        (peaks_of F.rule parts.now.leaves) b parts.now.digests.now) }
{
    let peaks = list_peaks(parts.alloc, parts.leaves)?;
    let groups = PeakGroups::of_peaks(parts.alloc, parts.leaves, range)?;
    let layout = groups.layout(hasher.root_bagging(), parts.inactive);
    let (before, _) = peaks.split_at(groups.before);
    if !are_peaks_rebuilt(before, layout.prefix, hasher, pins, parts.digests) {
        return Ok(false);
    }
    let (_, others) = parts.digests.split_at(layout.before);
    let (_, siblings) = others.split_at(layout.after);
    let Some((crossed, _)) = groups.overlapping.split_first() else {
        unreachable!()
    };
    Ok(are_siblings_rebuilt(crossed, hasher, range.start, pins, siblings))
}

/// Whether the elements, which are those from location `start` on, lead to `root`, and every digest
/// of the proof for the leaves before them is the one that is rebuilt from `pinned_nodes`, the
/// digests of the peaks of `start` leaves.
///
/// # Errors
///
/// - `OutOfMemory` if a memory request is refused
pub fn verify_pinned<F: Family, H: Hasher<F>>(
    parts: &ProofParts<'_, F, H::Digest>,
    hasher: &H,
    elements: &[&[u8]],
    start: Location<F>,
    pinned_nodes: &[H::Digest],
    root: &H::Digest,
) -> Result<bool, OutOfMemory>
    ensures { let s = H.scheme hasher.now in
        IfOk result (DecidesPins s root.now (input_of_parts s parts.now start (bytes_of elements.now)) pinned_nodes.now) }
{
    if !verify_range(parts, hasher, elements, start, root)? {
        return Ok(false);
    }
    is_rebuilt_from_pins(parts, hasher, start, elements.len(), pinned_nodes)
}

/// Whether the leaves with these digests, which are those from location `start` on, lead to `root`,
/// and every digest of the proof for the leaves before them is the one that is rebuilt from
/// `pinned_nodes`, the digests of the peaks of `start` leaves.
///
/// # Errors
///
/// - `OutOfMemory` if a memory request is refused
pub fn verify_pinned_leaf_digests<F: Family, H: Hasher<F>>(
    parts: &ProofParts<'_, F, H::Digest>,
    hasher: &H,
    leaves: &[H::Digest],
    start: Location<F>,
    pinned_nodes: &[H::Digest],
    root: &H::Digest,
) -> Result<bool, OutOfMemory>
    ensures { let s = H.scheme hasher.now in
        IfOk result (DecidesPins s root.now (digest_input_of_parts parts.now start leaves.now) pinned_nodes.now) }
{
    if !verify_leaf_digests(parts, hasher, leaves, start, root)? {
        return Ok(false);
    }
    is_rebuilt_from_pins(parts, hasher, start, leaves.len(), pinned_nodes)
}

// Whether every digest of a proof for the leaves before `start` is the one that is rebuilt from
// `pinned_nodes`; the proof leads `count` leaves from `start` on to a root.
fn is_rebuilt_from_pins<F: Family, H: Hasher<F>>(
    parts: &ProofParts<'_, F, H::Digest>,
    hasher: &H,
    start: Location<F>,
    count: usize,
    pinned_nodes: &[H::Digest],
) -> Result<bool, OutOfMemory>
    requires accepted { let s = H.scheme hasher.now in
        (leaves : List H.Digest) × (root : H.Digest) × (length leaves ≡ count) × (reconstructed s (digest_input_of_parts parts.now start leaves) ≡ Ok root) }
    ensures { let s = H.scheme hasher.now in (leaves : List H.Digest) (root : H.Digest) → length leaves ≡ count
        → reconstructed s (digest_input_of_parts parts.now start leaves) ≡ Ok root
        → IfOk result (DecidesPins s root (digest_input_of_parts parts.now start leaves) pinned_nodes.now) }
{
    if count == 0 {
        return Ok(pinned_nodes.is_empty());
    }
    let pins = Pins::new(parts.alloc, start, pinned_nodes)?;
    if pins.positions.len() != pinned_nodes.len() {
        return Ok(false);
    }
    let range = start..start + count as u64;
    is_before_rebuilt(parts, hasher, &range, &pins)
}
