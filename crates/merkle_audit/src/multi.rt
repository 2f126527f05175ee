//! The audit of a check of scattered leaves.
ghost use Rattle.std.specs.Prelude.{◌≡◌, ◌≢◌, ◌≤◌, Some, IfOk, IfErr, length};
ghost use Rattle.merkle_base.specs.Cases.{first_case};
ghost use Rattle.merkle_base.specs.Places.{peaks_of};
ghost use Rattle.merkle_proof.specs.Input.{multi_digest_input_of, multi_input_of};
ghost use Rattle.merkle_audit_parts.specs.Found.{list_refusals, IsMultiVerdict};

use merkle_audit_parts::list::{HashedList, allowed_count};
use merkle_audit_parts::multi_claim::{accepted, is_shape_refused, located_digests};
use merkle_audit_parts::range::verdict;
use merkle_audit_parts::verdict::Verdict;
use merkle_core::error::Error;
use merkle_core::family::Family;
use merkle_core::hasher::Hasher;
use merkle_core::location::Location;
use merkle_core::proof::Proof;
use merkle_walks::nodes::first_of;
use merkle_walks::top::first_above;

/// Audits an input of a check of scattered leaves, `elements` each with its location, against the root
/// of a list, of which the leaf digests are at hand: says whether the check rejects the input, whether
/// it is the honest one of the list, or else what the check hashed that collides with the list.
///
/// Where the proof has a digest that is computed too, it is hashed as it is computed.
///
/// A list that is refused, and an input whose shape is refused, by its locations or by its numbers of
/// digests and of inactive peaks, cost no hash. Else the list is hashed once, as by `merkleize`, and
/// the input by the check and, if it is accepted, once more; of each node that is hashed then, its
/// place among the positions of the proof and among the locations is found by binary search.
///
/// # Errors
///
/// The first that applies:
/// - `LocationOverflow` of the length of the list if it exceeds [`MAX_LEAVES`](Family::MAX_LEAVES)
/// - `InvalidInactivePeaks` if `inactive` exceeds the number of peaks of the list
///
/// `OutOfMemory` at any point if a memory request is refused.
///
/// # Examples
///
/// ```
/// // `log` has the elements 01, 02 and 04, and `list` their leaf digests.
/// let locations = [Location::new(0), Location::new(2)];
/// let Ok(proof) = verification::multi_proof(alloc, &log, 0, &locations) else {
///     return None;
/// };
/// let elements: [(&[u8], mmr::Location); 2] = [(&[1], locations[0]), (&[4], locations[1])];
/// let honest = audit_multi(&hasher, &list, 0, &proof, &elements);
/// assert!(rt; matches!(&honest, Ok(Verdict::Honest)));
/// let others: [(&[u8], mmr::Location); 2] = [(&[1], locations[0]), (&[5], locations[1])];
/// let other = audit_multi(&hasher, &list, 0, &proof, &others);
/// assert!(rt; matches!(&other, Ok(Verdict::Rejected)));
/// ```
pub fn audit_multi<F: Family, H: Hasher<F>>(
    hasher: &H,
    list: &[H::Digest],
    inactive: usize,
    proof: &Proof<F, H::Digest>,
    elements: &[(&[u8], Location<F>)],
) -> Result<Verdict<F, H::Digest>, Error<F>>
    ensures err { IfErr result (λ e. e ≢ Error.OutOfMemory
        → first_case (list_refusals F.rule F.MAX_LEAVES (length list.now) inactive) ≡ Some e) }
    ensures within { IfOk result (λ _. (length list.now ≤ F.MAX_LEAVES) × (inactive ≤ length (peaks_of F.rule (length list.now)))) }
    ensures judged { let s = H.scheme hasher.now in IfOk result (IsMultiVerdict s list.now inactive (multi_input_of s proof.now elements.now)) }
{
    match allowed_count::<F>(list.len(), inactive) {
        Ok(_) => {}
        Err(error) => return Err(error),
    }
    if is_shape_refused(proof, elements)? {
        return Ok(Verdict::Rejected);
    }
    let alloc = *proof.digests.allocator();
    let Some(leaves) = located_digests(alloc, hasher, elements)? else {
        return Ok(Verdict::Rejected);
    };
    judge(hasher, list, inactive, proof, &leaves)
}

/// Audits an input of a check of scattered leaves by leaf digests, `digests` each with its location,
/// against the root of a list, of which the leaf digests are at hand: says whether the check rejects the
/// input, whether it is the honest one of the list, or else what the check hashed that collides with the
/// list.
///
/// This is [`audit_multi`] for those who have the digests of leaves in place of the elements. No leaf is
/// hashed.
///
/// # Errors
///
/// The first that applies:
/// - `LocationOverflow` of the length of the list if it exceeds [`MAX_LEAVES`](Family::MAX_LEAVES)
/// - `InvalidInactivePeaks` if `inactive` exceeds the number of peaks of the list
///
/// `OutOfMemory` at any point if a memory request is refused.
pub fn audit_multi_leaf_digests<F: Family, H: Hasher<F>>(
    hasher: &H,
    list: &[H::Digest],
    inactive: usize,
    proof: &Proof<F, H::Digest>,
    digests: &[(H::Digest, Location<F>)],
) -> Result<Verdict<F, H::Digest>, Error<F>>
    ensures err { IfErr result (λ e. e ≢ Error.OutOfMemory
        → first_case (list_refusals F.rule F.MAX_LEAVES (length list.now) inactive) ≡ Some e) }
    ensures within { IfOk result (λ _. (length list.now ≤ F.MAX_LEAVES) × (inactive ≤ length (peaks_of F.rule (length list.now)))) }
    ensures judged { let s = H.scheme hasher.now in
        IfOk result (IsMultiVerdict s list.now inactive (multi_digest_input_of proof.now digests.now)) }
{
    match allowed_count::<F>(list.len(), inactive) {
        Ok(_) => {}
        Err(error) => return Err(error),
    }
    if is_shape_refused(proof, digests)? {
        return Ok(Verdict::Rejected);
    }
    judge(hasher, list, inactive, proof, digests)
}

// Audits an input whose shape is not refused: the list is hashed.
fn judge<F: Family, H: Hasher<F>>(
    hasher: &H,
    list: &[H::Digest],
    inactive: usize,
    proof: &Proof<F, H::Digest>,
    leaves: &[(H::Digest, Location<F>)],
) -> Result<Verdict<F, H::Digest>, Error<F>>
    ensures err { IfErr result (λ e. e ≢ Error.OutOfMemory
        → first_case (list_refusals F.rule F.MAX_LEAVES (length list.now) inactive) ≡ Some e) }
    ensures within { IfOk result (λ _. (length list.now ≤ F.MAX_LEAVES) × (inactive ≤ length (peaks_of F.rule (length list.now)))) }
    ensures judged { let s = H.scheme hasher.now in
        IfOk result (IsMultiVerdict s list.now inactive (multi_digest_input_of proof.now leaves.now)) }
{
    let alloc = *proof.digests.allocator();
    let listed = match HashedList::new(alloc, hasher, list, inactive) {
        Ok(listed) => listed,
        Err(error) => return Err(error),
    };
    let Ok(is_accepted) = proof.verify_multi_leaf_digests_inclusion(hasher, leaves, &listed.root)
    else {
        return Err(Error::OutOfMemory);
    };
    if !is_accepted {
        return Ok(Verdict::Rejected);
    }
    let claim = match accepted(hasher, proof, leaves, &listed.nodes) {
        Ok(claim) => claim,
        Err(error) => return Err(error),
    };
    let (claimed, below) = claim;
    let HashedList { top, .. } = listed;
    let found = first_of(first_above(claimed, top), below);
    Ok(verdict(found))
}
