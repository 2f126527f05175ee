//! The audit of a check of a range with pins.
ghost use Rattle.std.specs.Prelude.{◌≡◌, ◌≢◌, ◌≤◌, Some, IfOk, IfErr, length};
ghost use Rattle.merkle_base.specs.Cases.{first_case};
ghost use Rattle.merkle_base.specs.Places.{peaks_of};
ghost use Rattle.merkle_proof.specs.Input.{digest_input_of};
ghost use Rattle.merkle_audit_parts.specs.Found.{list_refusals, IsPinnedVerdict};
ghost use Rattle.merkle_audit.specs.Given.{IsVerdictOnPins};

use merkle_audit_parts::claim::digests_from;
use merkle_audit_parts::list::{HashedList, allowed_count};
use merkle_audit_parts::pin_nodes::first_pinned_below;
use merkle_audit_parts::pinned_claim::{PinnedClaim, accepted_pins, is_pinned_shape_refused};
use merkle_audit_parts::range::verdict;
use merkle_audit_parts::verdict::Verdict;
use merkle_core::digest::Digest;
use merkle_core::error::Error;
use merkle_core::family::Family;
use merkle_core::hasher::Hasher;
use merkle_core::location::Location;
use merkle_core::proof::Proof;
use merkle_walks::nodes::first_of;
use merkle_walks::top::first_above;

/// Audits an input of a check of a range with pins against the root of a list, of which the leaf
/// digests are at hand: says whether the check rejects the input, whether it is the honest one of the
/// list, or else what the check hashed that collides with the list. `pinned_nodes` are the digests of
/// the peaks over the leaves before `start`, oldest first.
///
/// The nodes and folds that the check rebuilds from the pins count as hashed. Each such node is
/// hashed once for each node over it.
///
/// A list that is refused, and an input whose shape is refused, by its number of pins too, cost no hash
/// of the list. Else the list is hashed once, as by `merkleize`, and the input by the check and, if it is
/// accepted, once more.
///
/// # Errors
///
/// The first that applies:
/// - `LocationOverflow` of the length of the list if it exceeds [`MAX_LEAVES`](Family::MAX_LEAVES)
/// - `InvalidInactivePeaks` if `inactive` exceeds the number of peaks of the list
///
/// `OutOfMemory` at any point if a memory request is refused.
///
/// # Examples
///
/// ```
/// // `log` has the elements 01, 02 and 04, and `list` their leaf digests. The node at position 2 is over the first two.
/// let start = Location::new(2);
/// let Ok(proof) = log.range_proof(&hasher, start..log.leaves(), 0) else {
///     return None;
/// };
/// let pins = [log.get_node(Position::new(2))?];
/// let honest = audit_pins(&hasher, &list, 0, &proof, &[&[4]], start, &pins);
/// assert!(rt; matches!(&honest, Ok(Verdict::Honest)));
/// let without = audit_pins(&hasher, &list, 0, &proof, &[&[4]], start, &[]);
/// assert!(rt; matches!(&without, Ok(Verdict::Rejected)));
/// ```
pub fn audit_pins<F: Family, H: Hasher<F>>(
    hasher: &H,
    list: &[H::Digest],
    inactive: usize,
    proof: &Proof<F, H::Digest>,
    elements: &[&[u8]],
    start: Location<F>,
    pinned_nodes: &[H::Digest],
) -> Result<Verdict<F, H::Digest>, Error<F>>
    ensures err { IfErr result (λ e. e ≢ Error.OutOfMemory
        → first_case (list_refusals F.rule F.MAX_LEAVES (length list.now) inactive) ≡ Some e) }
    ensures within { IfOk result (λ _. (length list.now ≤ F.MAX_LEAVES) × (inactive ≤ length (peaks_of F.rule (length list.now)))) }
    ensures judged { IfOk result (
        IsVerdictOnPins (H.scheme hasher.now) list.now inactive proof.now start elements.now pinned_nodes.now) }
{
    match allowed_count::<F>(list.len(), inactive) {
        Ok(_) => {}
        Err(error) => return Err(error),
    }
    if is_pinned_shape_refused(hasher, proof, elements.len(), start, pinned_nodes)? {
        return Ok(Verdict::Rejected);
    }
    let alloc = *proof.digests.allocator();
    let Some(digests) = digests_from(alloc, hasher, elements, start)? else {
        return Ok(Verdict::Rejected);
    };
    judge(hasher, list, inactive, proof, &digests, start, pinned_nodes)
}

/// Audits an input of a check by leaf digests of a range with pins against the root of a list, of which
/// the leaf digests are at hand: says whether the check rejects the input, whether it is the honest one
/// of the list, or else what the check hashed that collides with the list.
///
/// This is [`audit_pins`] for those who have the digests of leaves in place of the elements. No leaf is
/// hashed.
///
/// # Errors
///
/// The first that applies:
/// - `LocationOverflow` of the length of the list if it exceeds [`MAX_LEAVES`](Family::MAX_LEAVES)
/// - `InvalidInactivePeaks` if `inactive` exceeds the number of peaks of the list
///
/// `OutOfMemory` at any point if a memory request is refused.
pub fn audit_pins_leaf_digests<F: Family, H: Hasher<F>>(
    hasher: &H,
    list: &[H::Digest],
    inactive: usize,
    proof: &Proof<F, H::Digest>,
    digests: &[H::Digest],
    start: Location<F>,
    pinned_nodes: &[H::Digest],
) -> Result<Verdict<F, H::Digest>, Error<F>>
    ensures err { IfErr result (λ e. e ≢ Error.OutOfMemory
        → first_case (list_refusals F.rule F.MAX_LEAVES (length list.now) inactive) ≡ Some e) }
    ensures within { IfOk result (λ _. (length list.now ≤ F.MAX_LEAVES) × (inactive ≤ length (peaks_of F.rule (length list.now)))) }
    ensures judged { let s = H.scheme hasher.now in
        IfOk result (IsPinnedVerdict s list.now inactive (digest_input_of proof.now start digests.now) pinned_nodes.now) }
{
    match allowed_count::<F>(list.len(), inactive) {
        Ok(_) => {}
        Err(error) => return Err(error),
    }
    if is_pinned_shape_refused(hasher, proof, digests.len(), start, pinned_nodes)? {
        return Ok(Verdict::Rejected);
    }
    judge(hasher, list, inactive, proof, digests, start, pinned_nodes)
}

// Audits an input whose shape is not refused: the list is hashed.
fn judge<F: Family, H: Hasher<F>>(
    hasher: &H,
    list: &[H::Digest],
    inactive: usize,
    proof: &Proof<F, H::Digest>,
    digests: &[H::Digest],
    start: Location<F>,
    pinned_nodes: &[H::Digest],
) -> Result<Verdict<F, H::Digest>, Error<F>>
    ensures err { IfErr result (λ e. e ≢ Error.OutOfMemory
        → first_case (list_refusals F.rule F.MAX_LEAVES (length list.now) inactive) ≡ Some e) }
    ensures within { IfOk result (λ _. (length list.now ≤ F.MAX_LEAVES) × (inactive ≤ length (peaks_of F.rule (length list.now)))) }
    ensures judged { let s = H.scheme hasher.now in
        IfOk result (IsPinnedVerdict s list.now inactive (digest_input_of proof.now start digests.now) pinned_nodes.now) }
{
    let alloc = *proof.digests.allocator();
    let listed = match HashedList::new(alloc, hasher, list, inactive) {
        Ok(listed) => listed,
        Err(error) => return Err(error),
    };
    let claim = match accepted_pins(hasher, proof, digests, start, pinned_nodes, &listed.root) {
        Ok(Some(claim)) => claim,
        Ok(None) => return Ok(Verdict::Rejected),
        Err(error) => return Err(error),
    };
    let PinnedClaim {
        top: claimed,
        nodes: claimed_nodes,
    } = claim;
    let HashedList {
        top,
        nodes,
        peaks,
        ..
    } = listed;
    let below = first_pinned_below(&peaks, hasher, &claimed_nodes, &nodes);
    let found = first_of(first_above(claimed, top), below);
    Ok(verdict(found))
}
