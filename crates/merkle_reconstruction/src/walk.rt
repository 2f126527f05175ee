//! The digest of a node from those of the maximal nodes outside a range of leaves.
ghost use Rattle.std.specs.Prelude.{◌≡◌, ◌≢◌, ◌+◌, ◌<◌, ◌≤◌, not, true, [], length, IfOk, IfErr};
ghost use Rattle.merkle_base.specs.Tree.{Tree, position, first_leaf, end_leaf};
ghost use Rattle.merkle_hasher.specs.Subtrees.{Denotes};
ghost use Rattle.merkle_root_theory.specs.Plan.{tree_meets, siblings};
ghost use Rattle.merkle_root_theory.specs.Extract.{inner_pairs};
ghost use Rattle.merkle_root_theory.specs.Check.{in_range};
ghost use Rattle.merkle_root_theory.specs.Walk.{leaf_from, IsWalked};
ghost use Rattle.merkle_reconstruction.specs.Inside.{AreKnownFrom, ListsSiblings};

use crate::below::{extract_by_levels, is_extracted_by_levels};
use crate::collector::{Collector, put_both};
use crate::known::ComputedNodes;
use merkle_base::error::ReconstructionError;
use merkle_base::family::Family;
use merkle_base::location::Location;
use merkle_base::position::Position;
use merkle_hasher::hasher::Hasher;
use merkle_hasher::subtree::Subtree;
use std::alloc::{AllocError, Global};
use std::ops::Range;

/// Whether the node has no leaf in the range.
pub(crate) fn is_outside<F: Family>(subtree: &Subtree<F>, range: &Range<Location<F>>) -> bool
    requires node { (t : Tree) × Denotes F.rule F.MAX_LEAVES subtree.now t }
    requires nonempty { range.now.start < range.now.end }
    ensures { (t : Tree) → Denotes F.rule F.MAX_LEAVES subtree.now t → result ≡ not (tree_meets (in_range range.now.start range.now.end) t) }
{
    subtree.leaf_end() <= range.start || subtree.first_leaf >= range.end
}

/// Whether all leaves of the node are in the range.
pub(crate) fn is_inside<F: Family>(subtree: &Subtree<F>, range: &Range<Location<F>>) -> bool
    requires { (t : Tree) × Denotes F.rule F.MAX_LEAVES subtree.now t }
    ensures inside { (t : Tree) → Denotes F.rule F.MAX_LEAVES subtree.now t
        → result ≡ true → (range.now.start ≤ first_leaf t) × (end_leaf t ≤ range.now.end) }
    ensures none { (t : Tree) → Denotes F.rule F.MAX_LEAVES subtree.now t → result ≡ true → siblings (in_range range.now.start range.now.end) t ≡ [] }
{
    subtree.first_leaf >= range.start && subtree.leaf_end() <= range.end
}

/// Computes the digest of a node from `leaves`, the digests of the leaves in the range, and from
/// `digests`, those of the maximal nodes outside the range, which are consumed in order.
///
/// The digests of the nodes below it are passed to `out`, if it keeps them: the two children of a
/// node after all that is below them. By a hasher that computes four digests together, the nodes below
/// a node that has all its leaves in the range are then computed together, if it is of a height for
/// that. If `out` keeps none, those that are `known` are not computed again.
pub fn reconstruct_digest<F: Family, H: Hasher<F>, C: Collector<F, H::Digest>>(
    alloc: Global,
    subtree: &Subtree<F>,
    hasher: &H,
    range: &Range<Location<F>>,
    leaves: &[H::Digest],
    known: &ComputedNodes<F, H::Digest>,
    digests: &mut &[H::Digest],
    out: &mut C,
) -> Result<H::Digest, ReconstructionError>
    requires node { (t : Tree) × Denotes F.rule F.MAX_LEAVES subtree.now t }
    requires nonempty { range.now.start < range.now.end }
    requires covered { range.now.end ≤ range.now.start + length leaves.now }
    requires known { AreKnownFrom (H.hashing hasher.now) F.rule F.MAX_LEAVES
        range.now.start leaves.now known.now.positions.items known.now.digests.items }
    ensures ok { let h = H.hashing hasher.now in let leaf = leaf_from h range.now.start leaves.now in
        IfOk result (λ d. (t : Tree) → Denotes F.rule F.MAX_LEAVES subtree.now t
        → IsWalked h (in_range range.now.start range.now.end) leaf t digests.old.now d digests.new.now) }
    ensures taken { let h = H.hashing hasher.now in let leaf = leaf_from h range.now.start leaves.now in
        IfOk result (λ _. (t : Tree) → Denotes F.rule F.MAX_LEAVES subtree.now t
        → C.Took out.old (inner_pairs h (in_range range.now.start range.now.end) leaf t digests.old.now) out.new) }
    ensures err { IfErr result (λ e. e ≢ ReconstructionError.OutOfMemory → (e ≡ ReconstructionError.MissingDigests)
        × ((t : Tree) → Denotes F.rule F.MAX_LEAVES subtree.now t → length digests.old.now < length (siblings (in_range range.now.start range.now.end) t))) }
{
    if is_outside(subtree, range) {
        let Some((first, others)) = digests.split_first() else {
            return Err(ReconstructionError::MissingDigests);
        };
        *digests = others;
        return Ok(*first);
    }
    if subtree.height == 0 {
        let index = subtree.first_leaf - range.start;
        return Ok(leaves[index.as_u64() as usize]);
    }
    if !out.keeps() && is_inside(subtree, range) {
        if let Some(digest) = known.get(subtree.position) {
            return Ok(digest);
        }
    }
    if out.keeps()
        && hasher.hashes_together()
        && is_extracted_by_levels(subtree.height)
        && is_inside(subtree, range)
    {
        let Ok(digest) = extract_by_levels(alloc, subtree, hasher, range.start, leaves, out) else {
            return Err(ReconstructionError::OutOfMemory);
        };
        return Ok(digest);
    }
    let (left, right) = subtree.children();
    let first = reconstruct_digest(alloc, &left, hasher, range, leaves, known, digests, out)?;
    let second = reconstruct_digest(alloc, &right, hasher, range, leaves, known, digests, out)?;
    if put_both(left.position, &first, right.position, &second, out).is_err() {
        return Err(ReconstructionError::OutOfMemory);
    }
    Ok(hasher.node_digest(subtree.position, &first, &second))
}

/// Appends the positions of the maximal nodes outside the range at or below the node, left to
/// right.
pub fn collect_siblings<F: Family>(
    subtree: &Subtree<F>,
    range: &Range<Location<F>>,
    out: &mut Vec<Position<F>>,
) -> Result<(), AllocError>
    requires node { (t : Tree) × Denotes F.rule F.MAX_LEAVES subtree.now t }
    requires nonempty { range.now.start < range.now.end }
    ensures { IfOk result (λ _. ListsSiblings F.rule F.MAX_LEAVES subtree.now range.now.start range.now.end out.old.items out.new.items) }
{
    if is_outside(subtree, range) {
        out.push(subtree.position)?;
        return Ok(());
    }
    if subtree.height == 0 || is_inside(subtree, range) {
        return Ok(());
    }
    let (left, right) = subtree.children();
    collect_siblings(&left, range, out)?;
    collect_siblings(&right, range, out)
}
