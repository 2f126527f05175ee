//! What is hashed for an accepted input of a check of a range with pins.
ghost use Rattle.std.specs.Prelude.{◌≡◌, ◌≤◌, ◌<◌, ◌+◌, ◌++◌, List, IfOk, IfSome, IfNone, OnOk, IsOkUnless, IsTrue};
ghost use Rattle.std.specs.Prelude.{length, map, min, take, drop};
ghost use Rattle.merkle_base.specs.Tree.{Tree};
ghost use Rattle.merkle_hasher.specs.Subtrees.{AreNodes, subtree_of};
ghost use Rattle.merkle_proof.specs.Input.{digest_input_of};
ghost use Rattle.merkle_root_theory.specs.Range.{AcceptsNonempty, IsEmptyInput};
ghost use Rattle.merkle_claim_theory.specs.Pinned.{AcceptsPinned};
ghost use Rattle.merkle_store_theory.specs.StoreValue.{store_of};
ghost use Rattle.merkle_pins_theory.specs.PinnedNodes.{pinned_value};
ghost use Rattle.merkle_audit_parts.specs.PinnedClaimed.{digest_given, pin_in, IsPinnedClaim};

use crate::claim::is_shape_refused;
use crate::pin_nodes::{PinnedNodes, pin_positions, pinned_digest};
use merkle_core::digest::Digest;
use merkle_core::error::Error;
use merkle_core::family::Family;
use merkle_core::hasher::Hasher;
use merkle_core::location::Location;
use merkle_core::proof::Proof;
use merkle_core::range_plan::{Groups, RangePlan};
use merkle_core::subtree::Subtree;
use merkle_core::verification::ProofStore;
use merkle_hasher::peaks::list_peaks;
use merkle_walks::top::{Shape, Top, above_peaks};
use std::alloc::{AllocError, Global};
use std::ops::Range;

/// All that is hashed for an accepted input.
#[derive(Drop)]
pub struct PinnedClaim<F: Family, D: Digest> {
    pub top: Top<F, D>,
    pub nodes: PinnedNodes<F, D>,
}

// Appends the digests of nodes, in their order.
fn push_pinned<F: Family, H: Hasher<F>>(
    peaks: &[Subtree<F>],
    hasher: &H,
    nodes: &PinnedNodes<F, H::Digest>,
    digests: &mut Vec<H::Digest>,
) -> Result<(), AllocError>
    requires nodes { (ts : List Tree) × (peaks.now ≡ map subtree_of ts) × AreNodes F.rule F.MAX_LEAVES ts }
    ensures { let f = pinned_value (H.hashing hasher.now) (pin_in nodes.now) nodes.now.start (digest_given H.Digest.EMPTY nodes.now) in
        OnOk result ((ts : List Tree) → peaks.now ≡ map subtree_of ts → AreNodes F.rule F.MAX_LEAVES ts
        → digests.new.items ≡ digests.old.items ++ map f ts) }
{
    let Some((peak, others)) = peaks.split_first() else {
        return Ok(());
    };
    digests.push(pinned_digest(peak, hasher, nodes))?;
    push_pinned(others, hasher, nodes, digests)
}

// Returns the digests that a check folds to the root, of which the last may stand for several peaks: those of the peaks
// before the range, which are rebuilt, those of the peaks that overlap it, and those that it is given for the peaks after
// it.
fn pinned_parts<F: Family, H: Hasher<F>>(
    alloc: Global,
    hasher: &H,
    groups: &Groups,
    given: &[H::Digest],
    peaks: &[Subtree<F>],
    nodes: &PinnedNodes<F, H::Digest>,
) -> Result<Vec<H::Digest>, AllocError>
    requires given { (min groups.now.folded 1 + groups.now.before) + (groups.now.after + min groups.now.suffix 1) ≤ length given.now }
    requires peaks { (groups.now.folded + groups.now.before) + groups.now.overlapping ≤ length peaks.now }
    requires nodes { (ts : List Tree) × (peaks.now ≡ map subtree_of ts) × AreNodes F.rule F.MAX_LEAVES ts }
    ensures { let f = pinned_value (H.hashing hasher.now) (pin_in nodes.now) nodes.now.start (digest_given H.Digest.EMPTY nodes.now) in
        IfOk result (λ v. (ts : List Tree) → peaks.now ≡ map subtree_of ts → AreNodes F.rule F.MAX_LEAVES ts
        → v.items ≡ map f (take ((groups.now.folded + groups.now.before) + groups.now.overlapping) ts)
        ++ take (groups.now.after + min groups.now.suffix 1) (drop (min groups.now.folded 1 + groups.now.before) given.now)) }
{
    let before = groups.folded.min(1) + groups.before;
    let after = groups.after + groups.suffix.min(1);
    let (_, others) = given.split_at(before);
    let (last, _) = others.split_at(after);
    let (first, _) = peaks.split_at(groups.folded + groups.before + groups.overlapping);
    let mut digests = Vec::new(alloc);
    push_pinned(first, hasher, nodes, &mut digests)?;
    digests.extend_from_slice(last)?;
    Ok(digests)
}

// Returns all that is hashed for an accepted input with elements, from the store of its proof.
fn pinned_claim_of<F: Family, H: Hasher<F>>(
    hasher: &H,
    proof: &Proof<F, H::Digest>,
    digests: &[H::Digest],
    range: Range<Location<F>>,
    pinned_nodes: &[H::Digest],
    store: ProofStore<F, H::Digest>,
) -> Result<PinnedClaim<F, H::Digest>, Error<F>>
    requires nonempty { range.start < range.end }
    requires within { range.end ≤ proof.now.leaves }
    requires within_max_leaves { proof.now.leaves ≤ F.MAX_LEAVES }
    requires ends { range.end ≡ range.start + length digests.now }
    requires accepted { let s = H.scheme hasher.now in
        let r = digest_input_of proof.now range.start digests.now in
        (root : H.Digest) × AcceptsNonempty s r root × AcceptsPinned s r pinned_nodes.now root × (store ≡ store_of s r root) }
    ensures claim { let s = H.scheme hasher.now in
        let r = digest_input_of proof.now range.start digests.now in
        IfOk result (λ c. IsPinnedClaim H.Digest.EMPTY s r pinned_nodes.now c.top c.nodes) }
    ensures refused { IsOkUnless result Error.OutOfMemory }
{
    let alloc = *proof.digests.allocator();
    let inactive = proof.inactive_peaks;
    let start = range.start;
    let end = range.end;
    let plan = match RangePlan::new(alloc, proof.leaves, range) {
        Ok(plan) => plan,
        Err(error) => return Err(error),
    };
    let groups = match plan.groups(hasher.root_bagging(), inactive) {
        Some(groups) => groups,
        None => unreachable!(),
    };
    let positions = pin_positions(alloc, start)?;
    let pins = pinned_nodes.to_vec(alloc)?;
    let nodes = PinnedNodes {
        start,
        end,
        store: Some(store),
        positions,
        pins,
    };
    let peaks = list_peaks(alloc, proof.leaves)?;
    let digests = pinned_parts(alloc, hasher, &groups, &proof.digests, &peaks, &nodes)?;
    let shape = Shape {
        leaves: proof.leaves,
        inactive,
        apart: inactive,
        number: 1,
    };
    let Ok(top) = above_peaks(alloc, hasher, &shape, &digests) else {
        return Err(Error::OutOfMemory);
    };
    Ok(PinnedClaim { top, nodes })
}

// Returns all that is hashed for the empty proof without pins.
fn empty_pinned_claim<F: Family, H: Hasher<F>>(
    alloc: Global,
    hasher: &H,
) -> Result<PinnedClaim<F, H::Digest>, Error<F>>
    ensures claim { let s = H.scheme hasher.now in
        IfOk result (λ c. (r : _) (pins : _) → IsEmptyInput r → IsPinnedClaim H.Digest.EMPTY s r pins c.top c.nodes) }
    ensures refused { IsOkUnless result Error.OutOfMemory }
{
    let none = Location::new(0);
    let shape = Shape {
        leaves: none,
        inactive: 0,
        apart: 0,
        number: 1,
    };
    let Ok(top) = above_peaks(alloc, hasher, &shape, &[]) else {
        return Err(Error::OutOfMemory);
    };
    let nodes = PinnedNodes {
        start: none,
        end: none,
        store: None,
        positions: Vec::new(alloc),
        pins: Vec::new(alloc),
    };
    Ok(PinnedClaim { top, nodes })
}

// Returns all that is hashed for an accepted input.
fn pinned_claim<F: Family, H: Hasher<F>>(
    hasher: &H,
    proof: &Proof<F, H::Digest>,
    digests: &[H::Digest],
    start: Location<F>,
    pinned_nodes: &[H::Digest],
    root: &H::Digest,
) -> Result<PinnedClaim<F, H::Digest>, Error<F>>
    requires accepted { let s = H.scheme hasher.now in
        let r = digest_input_of proof.now start digests.now in
        AcceptsPinned s r pinned_nodes.now root.now }
    ensures claim { let s = H.scheme hasher.now in
        let r = digest_input_of proof.now start digests.now in
        IfOk result (λ c. IsPinnedClaim H.Digest.EMPTY s r pinned_nodes.now c.top c.nodes) }
    ensures refused { IsOkUnless result Error.OutOfMemory }
{
    match ProofStore::from_leaf_digests(hasher, proof, digests, start, root) {
        Ok(store) => {
            let end = start + digests.len() as u64;
            pinned_claim_of(hasher, proof, digests, start..end, pinned_nodes, store)
        }
        Err(error) => match error {
            Error::OutOfMemory => Err(Error::OutOfMemory),
            Error::Empty => empty_pinned_claim(*proof.digests.allocator(), hasher),
            _ => unreachable!(),
        },
    }
}

/// Whether the shape of an input of a range check of `count` leaves with pins is refused, so that it is
/// accepted against no root, whatever their digests are. No element and no node is hashed.
///
/// # Errors
///
/// - `AllocError` if a memory request is refused
pub fn is_pinned_shape_refused<F: Family, H: Hasher<F>>(
    hasher: &H,
    proof: &Proof<F, H::Digest>,
    count: usize,
    start: Location<F>,
    pinned_nodes: &[H::Digest],
) -> Result<bool, AllocError>
    ensures { let s = H.scheme hasher.now in
        IfOk result (λ yes. IsTrue yes → (leaves : List H.Digest) → length leaves ≡ count
        → (root : H.Digest) → ¬ (AcceptsPinned s (digest_input_of proof.now start leaves) pinned_nodes.now root)) }
{
    if is_shape_refused(hasher, proof, count, start)? {
        return Ok(true);
    }
    Ok(start.is_valid() && pinned_nodes.len() != F::nodes_to_pin(start).count())
}

/// Returns all that is hashed for an input, if it is accepted.
///
/// # Errors
///
/// - `OutOfMemory` if a memory request is refused
pub fn accepted_pins<F: Family, H: Hasher<F>>(
    hasher: &H,
    proof: &Proof<F, H::Digest>,
    digests: &[H::Digest],
    start: Location<F>,
    pinned_nodes: &[H::Digest],
    root: &H::Digest,
) -> Result<Option<PinnedClaim<F, H::Digest>>, Error<F>>
    ensures none { let s = H.scheme hasher.now in
        let r = digest_input_of proof.now start digests.now in
        IfOk result (λ o. IfNone o (¬ (AcceptsPinned s r pinned_nodes.now root.now))) }
    ensures some { let s = H.scheme hasher.now in
        let r = digest_input_of proof.now start digests.now in
        IfOk result (λ o. IfSome o (λ c. AcceptsPinned s r pinned_nodes.now root.now
        × IsPinnedClaim H.Digest.EMPTY s r pinned_nodes.now c.top c.nodes)) }
    ensures refused { IsOkUnless result Error.OutOfMemory }
{
    let checked = proof.verify_leaf_digests_and_pinned_nodes(
        hasher,
        digests,
        start,
        pinned_nodes,
        root,
    );
    let Ok(said) = checked else {
        return Err(Error::OutOfMemory);
    };
    if !said {
        return Ok(None);
    }
    match pinned_claim(hasher, proof, digests, start, pinned_nodes, root) {
        Ok(claim) => Ok(Some(claim)),
        Err(error) => Err(error),
    }
}
