//! The audit of a range check.
ghost use Rattle.std.specs.Prelude.{◌≡◌, ◌≢◌, ◌≤◌, Some, IfOk, IfErr, length};
ghost use Rattle.merkle_base.specs.Cases.{first_case};
ghost use Rattle.merkle_base.specs.Places.{peaks_of};
ghost use Rattle.merkle_proof.specs.Input.{digest_input_of, input_of};
ghost use Rattle.merkle_hasher.specs.LeafDigests.{bytes_of};
ghost use Rattle.merkle_audit_parts.specs.Found.{list_refusals, IsRangeVerdict};

use merkle_audit_parts::claim::{Claim, accepted, is_shape_refused, shaped_digests};
use merkle_audit_parts::list::{HashedList, allowed_count};
use merkle_audit_parts::range::{first_difference, verdict};
use merkle_audit_parts::verdict::Verdict;
use merkle_core::digest::Digest;
use merkle_core::error::Error;
use merkle_core::family::Family;
use merkle_core::hasher::Hasher;
use merkle_core::location::Location;
use merkle_core::proof::Proof;

/// Audits an input of a range check against the root of a list, of which the leaf digests are at
/// hand: says whether the check rejects the input, whether it is the honest one of the list, or else
/// what the check hashed that collides with the list.
///
/// A list that is refused, and an input whose shape is refused, so that it leads to no root, cost no
/// hash of the list. Else the list is hashed once, as by `merkleize`, and the input once, as by the
/// check and by extraction. The nodes of the list are kept as long as the audit takes.
///
/// # Errors
///
/// The first that applies:
/// - `LocationOverflow` of the length of the list if it exceeds [`MAX_LEAVES`](Family::MAX_LEAVES)
/// - `InvalidInactivePeaks` if `inactive` exceeds the number of peaks of the list
///
/// `OutOfMemory` at any point if a memory request is refused.
///
/// # Examples
///
/// ```
/// // `log` has the elements 01, 02 and 04, and `list` their leaf digests.
/// let start = Location::new(0);
/// let Ok(proof) = log.range_proof(&hasher, start..Location::new(1), 0) else {
///     return None;
/// };
/// let honest = audit_range(&hasher, &list, 0, &proof, &[&[1]], start);
/// assert!(rt; matches!(&honest, Ok(Verdict::Honest)));
/// let other = audit_range(&hasher, &list, 0, &proof, &[&[2]], start);
/// assert!(rt; matches!(&other, Ok(Verdict::Rejected)));
/// ```
pub fn audit_range<F: Family, H: Hasher<F>>(
    hasher: &H,
    list: &[H::Digest],
    inactive: usize,
    proof: &Proof<F, H::Digest>,
    elements: &[&[u8]],
    start: Location<F>,
) -> Result<Verdict<F, H::Digest>, Error<F>>
    ensures err { IfErr result (λ e. e ≢ Error.OutOfMemory
        → first_case (list_refusals F.rule F.MAX_LEAVES (length list.now) inactive) ≡ Some e) }
    ensures within { IfOk result (λ _. (length list.now ≤ F.MAX_LEAVES) × (inactive ≤ length (peaks_of F.rule (length list.now)))) }
    ensures judged { let s = H.scheme hasher.now in
        IfOk result (IsRangeVerdict s list.now inactive (input_of s proof.now start (bytes_of elements.now))) }
{
    match allowed_count::<F>(list.len(), inactive) {
        Ok(_) => {}
        Err(error) => return Err(error),
    }
    let Some(digests) = shaped_digests(hasher, proof, elements, start)? else {
        return Ok(Verdict::Rejected);
    };
    judge(hasher, list, inactive, proof, &digests, start)
}

/// Audits an input of a range check by leaf digests against the root of a list, of which the leaf
/// digests are at hand: says whether the check rejects the input, whether it is the honest one of the
/// list, or else what the check hashed that collides with the list.
///
/// This is [`audit_range`] for those who have the digests of leaves in place of the elements. No leaf
/// is hashed.
///
/// # Errors
///
/// The first that applies:
/// - `LocationOverflow` of the length of the list if it exceeds [`MAX_LEAVES`](Family::MAX_LEAVES)
/// - `InvalidInactivePeaks` if `inactive` exceeds the number of peaks of the list
///
/// `OutOfMemory` at any point if a memory request is refused.
pub fn audit_range_leaf_digests<F: Family, H: Hasher<F>>(
    hasher: &H,
    list: &[H::Digest],
    inactive: usize,
    proof: &Proof<F, H::Digest>,
    digests: &[H::Digest],
    start: Location<F>,
) -> Result<Verdict<F, H::Digest>, Error<F>>
    ensures err { IfErr result (λ e. e ≢ Error.OutOfMemory
        → first_case (list_refusals F.rule F.MAX_LEAVES (length list.now) inactive) ≡ Some e) }
    ensures within { IfOk result (λ _. (length list.now ≤ F.MAX_LEAVES) × (inactive ≤ length (peaks_of F.rule (length list.now)))) }
    ensures judged { let s = H.scheme hasher.now in
        IfOk result (IsRangeVerdict s list.now inactive (digest_input_of proof.now start digests.now)) }
{
    match allowed_count::<F>(list.len(), inactive) {
        Ok(_) => {}
        Err(error) => return Err(error),
    }
    if is_shape_refused(hasher, proof, digests.len(), start)? {
        return Ok(Verdict::Rejected);
    }
    judge(hasher, list, inactive, proof, digests, start)
}

// Audits an input whose shape is not refused: the list is hashed.
fn judge<F: Family, H: Hasher<F>>(
    hasher: &H,
    list: &[H::Digest],
    inactive: usize,
    proof: &Proof<F, H::Digest>,
    digests: &[H::Digest],
    start: Location<F>,
) -> Result<Verdict<F, H::Digest>, Error<F>>
    ensures err { IfErr result (λ e. e ≢ Error.OutOfMemory
        → first_case (list_refusals F.rule F.MAX_LEAVES (length list.now) inactive) ≡ Some e) }
    ensures within { IfOk result (λ _. (length list.now ≤ F.MAX_LEAVES) × (inactive ≤ length (peaks_of F.rule (length list.now)))) }
    ensures judged { let s = H.scheme hasher.now in
        IfOk result (IsRangeVerdict s list.now inactive (digest_input_of proof.now start digests.now)) }
{
    let alloc = *proof.digests.allocator();
    let listed = match HashedList::new(alloc, hasher, list, inactive) {
        Ok(listed) => listed,
        Err(error) => return Err(error),
    };
    let claim = match accepted(hasher, proof, digests, start, &listed.root) {
        Ok(Some(claim)) => claim,
        Ok(None) => return Ok(Verdict::Rejected),
        Err(error) => return Err(error),
    };
    let Claim {
        top: claimed,
        nodes: claimed_nodes,
        ..
    } = claim;
    let HashedList {
        top,
        nodes,
        peaks,
        ..
    } = listed;
    let found = first_difference(claimed, &claimed_nodes, top, &nodes, &peaks);
    Ok(verdict(found))
}
