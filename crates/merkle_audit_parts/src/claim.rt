//! What is hashed for an accepted input of a range check.
ghost use Rattle.std.specs.Prelude.{◌≡◌, ◌≢◌, ◌≤◌, ◌<◌, ◌+◌, ◌++◌, ◌&&◌, ◌-◌, nat_lt, List, [], IsTrue, Ok, OnOk, IfOk, IfSome, IfNone, IsOkUnless};
ghost use Rattle.std.specs.Prelude.{length, map, min, take, drop};
ghost use Rattle.merkle_base.specs.Tree.{Tree, first_leaf, end_leaf};
ghost use Rattle.merkle_hasher.specs.Subtrees.{Denotes};
ghost use Rattle.merkle_hasher.specs.declared.subtree.Subtree.{Subtree};
ghost use Rattle.merkle_proof.specs.Input.{digest_input_of, input_of};
ghost use Rattle.merkle_hasher.specs.LeafDigests.{bytes_of, leaf_digests};
ghost use Rattle.merkle_root_theory.specs.Range.{AcceptsNonempty, IsEmptyInput};
ghost use Rattle.merkle_root_theory.specs.Reads.{nodes_read};
ghost use Rattle.merkle_root_theory.specs.Reconstruction.{reconstructed};
ghost use Rattle.merkle_store_theory.specs.StoreValue.{store_of};
ghost use Rattle.merkle_audit_parts.specs.Claimed.{digest_in_claim, range_pair, IsClaim, IsClaimFor};

use merkle_core::digest::Digest;
use merkle_core::error::{Error, ReconstructionError};
use merkle_core::family::Family;
use merkle_core::hasher::Hasher;
use merkle_core::location::Location;
use merkle_core::position::Position;
use merkle_core::proof::Proof;
use merkle_core::range_plan::{Groups, RangePlan};
use merkle_core::subtree::Subtree;
use merkle_core::verification::ProofStore;
use merkle_hasher::peaks::list_peaks;
use merkle_leaves::queue::push_leaf_digests;
use merkle_walks::nodes::Hashes;
use merkle_walks::top::{Shape, Top, above_peaks};
use std::alloc::{AllocError, Global};
use std::ops::Range;

/// The digests of the nodes that a range check computes or is given.
#[derive(Drop)]
pub struct RangeNodes<F: Family, D: Digest> {
    start: Location<F>,
    end: Location<F>,
    // `None` for a check without elements, which has no nodes.
    store: Option<ProofStore<F, D>>,
}

impl<F: Family, D: Digest> RangeNodes<F, D> {
    // Returns the digest of a node that the check has.
    fn digest(&self, position: Position<F>) -> D
        ensures { result ≡ digest_in_claim D.EMPTY self.now position }
    {
        let Some(store) = &self.store else {
            return D::EMPTY;
        };
        match store.get_node(position) {
            Some(digest) => digest,
            None => D::EMPTY,
        }
    }

    // Whether the node with these children overlaps the range.
    fn meets(&self, left: &Subtree<F>, right: &Subtree<F>) -> bool
        requires { (a : Tree) × (b : Tree) × Denotes F.rule F.MAX_LEAVES left.now a × Denotes F.rule F.MAX_LEAVES right.now b }
        ensures { (a b : Tree) → Denotes F.rule F.MAX_LEAVES left.now a → Denotes F.rule F.MAX_LEAVES right.now b
            → result ≡ (nat_lt (first_leaf a) self.now.end && nat_lt self.now.start (end_leaf b)) }
    {
        let end = right.leaf_end();
        left.first_leaf < self.end && self.start < end
    }

    // Appends the digests of nodes, in their order.
    fn push_digests(&self, nodes: &[Subtree<F>], digests: &mut Vec<D>) -> Result<(), AllocError>
        ensures { OnOk result (digests.new.items ≡ digests.old.items
            ++ map (λ (n : Subtree F). digest_in_claim D.EMPTY self.now n.position) nodes.now) }
    {
        for node in nodes {
            digests.push(self.digest(node.position))?;
        }
        Ok(())
    }
}

impl<F: Family, D: Digest> Hashes<F, D> for RangeNodes<F, D> {
    ghost hashed = { λ s t. range_pair D.EMPTY s t };

    fn pair(&self, left: &Subtree<F>, right: &Subtree<F>) -> Option<(D, D)> {
        if !self.meets(left, right) {
            return None;
        }
        Some((self.digest(left.position), self.digest(right.position)))
    }
}

/// All that is hashed for an accepted input.
#[derive(Drop)]
pub struct Claim<F: Family, D: Digest> {
    pub top: Top<F, D>,
    pub nodes: RangeNodes<F, D>,
    pub peaks: Vec<Subtree<F>>,
}

// Returns the digests that a check folds to the root, of which the first may stand for several peaks, and the last too:
// those that it is given for the peaks before the range, those of the peaks that overlap it, and those that it is given
// for the peaks after it.
fn parts<F: Family, D: Digest>(
    alloc: Global,
    groups: &Groups,
    given: &[D],
    peaks: &[Subtree<F>],
    nodes: &RangeNodes<F, D>,
) -> Result<Vec<D>, AllocError>
    requires given { (min groups.now.folded 1 + groups.now.before) + (groups.now.after + min groups.now.suffix 1) ≤ length given.now }
    requires peaks { (groups.now.folded + groups.now.before) + groups.now.overlapping ≤ length peaks.now }
    ensures { let before = min groups.now.folded 1 + groups.now.before in
        let over = take groups.now.overlapping (drop (groups.now.folded + groups.now.before) peaks.now) in
        let after = take (groups.now.after + min groups.now.suffix 1) (drop before given.now) in
        IfOk result (λ v. v.items ≡ take before given.now ++ (map (λ (p : Subtree F). digest_in_claim D.EMPTY nodes.now p.position) over ++ after)) }
{
    let before = groups.folded.min(1) + groups.before;
    let after = groups.after + groups.suffix.min(1);
    let (first, others) = given.split_at(before);
    let (last, _) = others.split_at(after);
    let (_, met) = peaks.split_at(groups.folded + groups.before);
    let (over, _) = met.split_at(groups.overlapping);
    let mut digests = Vec::new(alloc);
    digests.extend_from_slice(first)?;
    nodes.push_digests(over, &mut digests)?;
    digests.extend_from_slice(last)?;
    Ok(digests)
}

// Returns all that is hashed for an accepted input with elements, from the store of its proof.
fn claim_of<F: Family, H: Hasher<F>>(
    hasher: &H,
    proof: &Proof<F, H::Digest>,
    digests: &[H::Digest],
    range: Range<Location<F>>,
    store: ProofStore<F, H::Digest>,
) -> Result<Claim<F, H::Digest>, Error<F>>
    requires nonempty { range.start < range.end }
    requires within { range.end ≤ proof.now.leaves }
    requires within_max_leaves { proof.now.leaves ≤ F.MAX_LEAVES }
    requires ends { range.end ≡ range.start + length digests.now }
    requires accepted { let s = H.scheme hasher.now in
        let r = digest_input_of proof.now range.start digests.now in
        (root : H.Digest) × AcceptsNonempty s r root × (store ≡ store_of s r root) }
    ensures claim { let s = H.scheme hasher.now in
        let r = digest_input_of proof.now range.start digests.now in
        IfOk result (λ c. IsClaim H.Digest.EMPTY s r c) }
    ensures refused { IsOkUnless result Error.OutOfMemory }
{
    let alloc = *proof.digests.allocator();
    let inactive = proof.inactive_peaks;
    let start = range.start;
    let end = range.end;
    let plan = match RangePlan::new(alloc, proof.leaves, range) {
        Ok(plan) => plan,
        Err(error) => return Err(error),
    };
    let groups = match plan.groups(hasher.root_bagging(), inactive) {
        Some(groups) => groups,
        None => unreachable!(),
    };
    let nodes = RangeNodes {
        start,
        end,
        store: Some(store),
    };
    let peaks = list_peaks(alloc, proof.leaves)?;
    let digests = parts(alloc, &groups, &proof.digests, &peaks, &nodes)?;
    let shape = Shape {
        leaves: proof.leaves,
        inactive,
        apart: groups.folded.min(1) + inactive.saturating_sub(groups.folded),
        number: groups.folded.max(1),
    };
    let Ok(top) = above_peaks(alloc, hasher, &shape, &digests) else {
        return Err(Error::OutOfMemory);
    };
    Ok(Claim { top, nodes, peaks })
}

// Returns all that is hashed for the empty proof.
fn empty_claim<F: Family, H: Hasher<F>>(
    alloc: Global,
    hasher: &H,
) -> Result<Claim<F, H::Digest>, Error<F>>
    ensures claim { let s = H.scheme hasher.now in
        IfOk result (λ c. (r : _) → IsEmptyInput r → IsClaim H.Digest.EMPTY s r c) }
    ensures refused { IsOkUnless result Error.OutOfMemory }
{
    let none = Location::new(0);
    let shape = Shape {
        leaves: none,
        inactive: 0,
        apart: 0,
        number: 1,
    };
    let Ok(top) = above_peaks(alloc, hasher, &shape, &[]) else {
        return Err(Error::OutOfMemory);
    };
    let nodes = RangeNodes {
        start: none,
        end: none,
        store: None,
    };
    Ok(Claim {
        top,
        nodes,
        peaks: Vec::new(alloc),
    })
}

// Whether an input of a range check without leaves leads to no root.
fn leads_nowhere<F: Family, H: Hasher<F>>(
    hasher: &H,
    proof: &Proof<F, H::Digest>,
    start: Location<F>,
) -> Result<bool, AllocError>
    ensures { let s = H.scheme hasher.now in
        let r = digest_input_of proof.now start [] in
        IfOk result (λ yes. IsTrue yes → (d : H.Digest) → reconstructed s r ≢ Ok d) }
{
    match proof.reconstruct_root(hasher, &[], start) {
        Ok(_) => Ok(false),
        Err(error) => match error {
            ReconstructionError::OutOfMemory => Err(AllocError),
            _ => Ok(true),
        },
    }
}

// Returns the number of digests of a proof of a plan's range, of which the peaks are in these groups.
fn digest_count<F: Family>(plan: &RangePlan<F>, groups: &Groups) -> usize
    ensures { let nodes = nodes_read F.rule plan.now.leaves plan.now.start plan.now.end in
        result ≡ (length nodes - (groups.now.folded - 1)) - (groups.now.suffix - 1) }
{
    let folded = groups.folded.saturating_sub(1);
    let suffix = groups.suffix.saturating_sub(1);
    plan.reads()
        .len()
        .saturating_sub(folded)
        .saturating_sub(suffix)
}

/// Whether the shape of an input of a range check of `count` leaves is refused, so that it leads to no
/// root, whatever their digests are. No element and no node is hashed.
///
/// # Errors
///
/// - `AllocError` if a memory request is refused
pub fn is_shape_refused<F: Family, H: Hasher<F>>(
    hasher: &H,
    proof: &Proof<F, H::Digest>,
    count: usize,
    start: Location<F>,
) -> Result<bool, AllocError>
    ensures { let s = H.scheme hasher.now in
        IfOk result (λ yes. IsTrue yes → (leaves : List H.Digest) → length leaves ≡ count
        → (d : H.Digest) → reconstructed s (digest_input_of proof.now start leaves) ≢ Ok d) }
{
    if count == 0 {
        return leads_nowhere(hasher, proof, start);
    }
    let Some(end) = start.checked_add(count as u64) else {
        return Ok(true);
    };
    let plan = match RangePlan::new(*proof.digests.allocator(), proof.leaves, start..end) {
        Ok(plan) => plan,
        Err(error) => match error {
            Error::OutOfMemory => return Err(AllocError),
            _ => return Ok(true),
        },
    };
    let Some(groups) = plan.groups(hasher.root_bagging(), proof.inactive_peaks) else {
        return Ok(true);
    };
    Ok(proof.digests.len() != digest_count(&plan, &groups))
}

/// Returns the digests of the leaves with these elements, which are those from location `start` on, or
/// `None` if they go past the greatest leaf count.
///
/// # Errors
///
/// - `AllocError` if a memory request is refused
pub fn digests_from<F: Family, H: Hasher<F>>(
    alloc: Global,
    hasher: &H,
    elements: &[&[u8]],
    start: Location<F>,
) -> Result<Option<Vec<H::Digest>>, AllocError>
    ensures some { IfOk result (λ o. IfSome o (λ v. v.items ≡ leaf_digests (H.hashing hasher.now) F.rule start (bytes_of elements.now))) }
    ensures none { IfOk result (λ o. IfNone o (F.MAX_LEAVES < start + length elements.now)) }
{
    let Some(_) = start.checked_add(elements.len() as u64) else {
        return Ok(None);
    };
    let mut digests = Vec::new(alloc);
    push_leaf_digests(alloc, hasher, start, elements, &mut digests)?;
    Ok(Some(digests))
}

/// Returns the digests of the leaves with these elements, which are those from location `start` on, or
/// `None` if the shape of the input of a range check with them is refused, so that it leads to no root;
/// then nothing is hashed.
///
/// # Errors
///
/// - `AllocError` if a memory request is refused
pub fn shaped_digests<F: Family, H: Hasher<F>>(
    hasher: &H,
    proof: &Proof<F, H::Digest>,
    elements: &[&[u8]],
    start: Location<F>,
) -> Result<Option<Vec<H::Digest>>, AllocError>
    ensures some { IfOk result (λ o. IfSome o (λ v. v.items ≡ leaf_digests (H.hashing hasher.now) F.rule start (bytes_of elements.now))) }
    ensures none { let s = H.scheme hasher.now in
        IfOk result (λ o. IfNone o ((d : H.Digest) → reconstructed s (input_of s proof.now start (bytes_of elements.now)) ≢ Ok d)) }
{
    if is_shape_refused(hasher, proof, elements.len(), start)? {
        return Ok(None);
    }
    digests_from(*proof.digests.allocator(), hasher, elements, start)
}

/// Returns all that is hashed for an input of a range check of leaves with these digests, if it is
/// accepted.
///
/// # Errors
///
/// - `OutOfMemory` if a memory request is refused
pub fn accepted<F: Family, H: Hasher<F>>(
    hasher: &H,
    proof: &Proof<F, H::Digest>,
    digests: &[H::Digest],
    start: Location<F>,
    root: &H::Digest,
) -> Result<Option<Claim<F, H::Digest>>, Error<F>>
    ensures none { let s = H.scheme hasher.now in
        IfOk result (λ o. IfNone o (reconstructed s (digest_input_of proof.now start digests.now) ≢ Ok root.now)) }
    ensures some { let s = H.scheme hasher.now in
        IfOk result (λ o. IfSome o (IsClaimFor H.Digest.EMPTY s root.now (digest_input_of proof.now start digests.now))) }
    ensures refused { IsOkUnless result Error.OutOfMemory }
{
    let claim = match ProofStore::from_leaf_digests(hasher, proof, digests, start, root) {
        Ok(store) => {
            let end = start + digests.len() as u64;
            claim_of(hasher, proof, digests, start..end, store)
        }
        Err(error) => match error {
            Error::OutOfMemory => return Err(Error::OutOfMemory),
            Error::Empty => empty_claim(*proof.digests.allocator(), hasher),
            _ => return Ok(None),
        },
    };
    match claim {
        Ok(claim) => Ok(Some(claim)),
        Err(error) => Err(error),
    }
}
