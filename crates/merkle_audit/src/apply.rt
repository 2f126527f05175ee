//! The audit of a batch that was recorded at a list.
ghost use Rattle.std.specs.Prelude.{◌≡◌, ◌≢◌, ◌≤◌, ◌↔◌, Some, None, IfOk, IfErr, length, option_map};
ghost use Rattle.std.specs.Cmp.Lexicographic.{pointwise};
ghost use Rattle.merkle_base.specs.Cases.{first_case};
ghost use Rattle.merkle_audit_parts.specs.Found.{length_refusals, collision_of_lists, IsApplyVerdict};
ghost use Rattle.merkle_walks.specs.Hashed.{located};

use merkle_audit_parts::list::{ListNodes, leaf_count};
use merkle_audit_parts::verdict::ApplyVerdict;
use merkle_core::digest::Digest;
use merkle_core::error::Error;
use merkle_core::family::Family;
use merkle_core::hasher::Hasher;
use merkle_hasher::peaks::list_peaks;
use merkle_walks::collision::Collision;
use merkle_walks::nodes::first_below;
use std::alloc::Global;

/// Audits the list that a structure agrees with, `listed`, and the list at which a batch was
/// recorded, `claimed`: says whether the batch is refused, since its list has another length or other
/// peaks, whether both are one list, or else which nodes of the two collide.
///
/// Lists that are refused, and lists of two lengths, cost no hash. Else each list is hashed once, as by
/// `merkleize`, and the nodes of both are kept as long as the audit takes.
///
/// # Errors
///
/// The first that applies:
/// - `LocationOverflow` of the length of `listed` if it exceeds [`MAX_LEAVES`](Family::MAX_LEAVES)
/// - `LocationOverflow` of the length of `claimed` if it exceeds [`MAX_LEAVES`](Family::MAX_LEAVES)
///
/// `OutOfMemory` at any point if a memory request is refused.
///
/// # Examples
///
/// ```
/// // `list` has the leaf digests of the elements 01, 02 and 04.
/// let same = audit_apply::<mmr::Family, _>(alloc, &hasher, &list, &list);
/// assert!(rt; matches!(&same, Ok(ApplyVerdict::Same)));
/// let shorter = audit_apply::<mmr::Family, _>(alloc, &hasher, &list, &list[..2]);
/// assert!(rt; matches!(&shorter, Ok(ApplyVerdict::Refused)));
/// ```
pub fn audit_apply<F: Family, H: Hasher<F>>(
    alloc: Global,
    hasher: &H,
    listed: &[H::Digest],
    claimed: &[H::Digest],
) -> Result<ApplyVerdict<F, H::Digest>, Error<F>>
    ensures err { IfErr result (λ e. e ≢ Error.OutOfMemory
        → first_case (length_refusals F.MAX_LEAVES (length listed.now) (length claimed.now)) ≡ Some e) }
    ensures within { IfOk result (λ _. (length listed.now ≤ F.MAX_LEAVES) × (length claimed.now ≤ F.MAX_LEAVES)) }
    ensures judged { let s = H.scheme hasher.now in IfOk result (λ v. IsApplyVerdict s.hashing s.rule claimed.now listed.now v) }
{
    let leaves = match leaf_count(listed.len()) {
        Ok(leaves) => leaves,
        Err(error) => return Err(error),
    };
    if let Err(error) = leaf_count::<F>(claimed.len()) {
        return Err(error);
    }
    if listed.len() != claimed.len() {
        return Ok(ApplyVerdict::Refused);
    }
    let own = match ListNodes::new(alloc, hasher, listed) {
        Ok(nodes) => nodes,
        Err(error) => return Err(error),
    };
    let other = match ListNodes::new(alloc, hasher, claimed) {
        Ok(nodes) => nodes,
        Err(error) => return Err(error),
    };
    let peaks = list_peaks(alloc, leaves)?;
    let own_peaks = own.digests(alloc, &peaks)?;
    let other_peaks = other.digests(alloc, &peaks)?;
    if !are_equal(&own_peaks, &other_peaks) {
        return Ok(ApplyVerdict::Refused);
    }
    let found = first_below(&peaks, &other, &own);
    Ok(verdict(found))
}

// Whether two lists of digests are equal.
fn are_equal<D: Digest>(one: &[D], other: &[D]) -> bool
    ensures { result ≡ pointwise D.eq one.now other.now }
{
    one == other
}

// Returns what an audit of two lists says that have one length and the same peaks.
fn verdict<F: Family, D: Digest>(found: Option<Collision<F, D>>) -> ApplyVerdict<F, D>
    ensures accepted { result ≢ ApplyVerdict.Refused }
    ensures same { (result ≡ ApplyVerdict.Same) ↔ (option_map located found ≡ None) }
    ensures collision { collision_of_lists result ≡ option_map located found }
{
    match found {
        None => ApplyVerdict::Same,
        Some(
            Collision {
                place,
                claimed,
                listed,
            },
        ) => ApplyVerdict::Collision {
            place,
            claimed,
            listed,
        },
    }
}
