//! The audit of two range checks against one root.
ghost use Rattle.std.specs.Prelude.{◌≡◌, ◌≢◌, ◌↔◌, None, IfOk, IfErr, option_map};
ghost use Rattle.merkle_audit_parts.specs.Found.{collision_of_pair, IsPairVerdict};
ghost use Rattle.merkle_walks.specs.Hashed.{located};
ghost use Rattle.merkle_audit.specs.Given.{given_digest_input, given_input};

use merkle_audit_parts::claim::{Claim, accepted, shaped_digests};
use merkle_audit_parts::range::first_difference;
use merkle_audit_parts::verdict::PairVerdict;
use merkle_core::digest::Digest;
use merkle_core::error::Error;
use merkle_core::family::Family;
use merkle_core::hasher::Hasher;
use merkle_core::location::Location;
use merkle_core::proof::Proof;
use merkle_walks::collision::Collision;

/// Audits two inputs of range checks against one root, which may be that of no list: says whether one
/// of them is rejected, whether they are consistent, or else what both hashed that collides. So who
/// holds two answers that contradict each other, and no list, has evidence against one of them.
///
/// Each input is hashed once, as by the check and by extraction.
///
/// # Errors
///
/// - `OutOfMemory` if a memory request is refused
///
/// # Examples
///
/// ```
/// // `root` is that of the elements 01, 02 and 04 by `Xor8`, and `log` has them.
/// let start = Location::new(0);
/// let Ok(proof) = log.range_proof(&hasher, start..Location::new(1), 0) else {
///     return None;
/// };
/// let mut other = proof.clone().ok()?;
/// *other.digests.last_mut()? = Xor8Digest::EMPTY;
/// let answers: [&[u8]; 2] = [&[1], &[2]];
/// let (one, two) = ((&proof, &answers[..1], start), (&other, &answers[1..], start));
/// let found = audit_pair(&hasher, &root, one, two);
/// assert!(rt; matches!(&found, Ok(PairVerdict::Collision { .. })));
/// ```
pub fn audit_pair<F: Family, H: Hasher<F>>(
    hasher: &H,
    root: &H::Digest,
    first: (&Proof<F, H::Digest>, &[&[u8]], Location<F>),
    second: (&Proof<F, H::Digest>, &[&[u8]], Location<F>),
) -> Result<PairVerdict<F, H::Digest>, Error<F>>
    ensures err { IfErr result (λ e. e ≡ Error.OutOfMemory) }
    ensures judged { let s = H.scheme hasher.now in IfOk result (IsPairVerdict s root.now (given_input s first.entry) (given_input s second.entry)) }
{
    let Some(one) = shaped_digests(hasher, first.0, first.1, first.2)? else {
        return Ok(PairVerdict::Rejected);
    };
    let Some(other) = shaped_digests(hasher, second.0, second.1, second.2)? else {
        return Ok(PairVerdict::Rejected);
    };
    let one = (first.0, one.as_slice(), first.2);
    let other = (second.0, other.as_slice(), second.2);
    audit_pair_leaf_digests(hasher, root, one, other)
}

/// Audits two inputs of range checks by leaf digests against one root: says whether one of them is
/// rejected, whether the two are consistent, or else what they hashed that collides.
///
/// This is [`audit_pair`] for those who have the digests of leaves in place of the elements, for each of
/// the two. No leaf is hashed.
///
/// # Errors
///
/// - `OutOfMemory` if a memory request is refused
pub fn audit_pair_leaf_digests<F: Family, H: Hasher<F>>(
    hasher: &H,
    root: &H::Digest,
    first: (&Proof<F, H::Digest>, &[H::Digest], Location<F>),
    second: (&Proof<F, H::Digest>, &[H::Digest], Location<F>),
) -> Result<PairVerdict<F, H::Digest>, Error<F>>
    ensures err { IfErr result (λ e. e ≡ Error.OutOfMemory) }
    ensures judged { let s = H.scheme hasher.now in IfOk result (IsPairVerdict s root.now (given_digest_input first.entry) (given_digest_input second.entry)) }
{
    let one = match accepted(hasher, first.0, first.1, first.2, root) {
        Ok(Some(claim)) => claim,
        Ok(None) => return Ok(PairVerdict::Rejected),
        Err(error) => return Err(error),
    };
    let other = match accepted(hasher, second.0, second.1, second.2, root) {
        Ok(Some(claim)) => claim,
        Ok(None) => return Ok(PairVerdict::Rejected),
        Err(error) => return Err(error),
    };
    let Claim {
        top: claimed,
        nodes: claimed_nodes,
        ..
    } = one;
    let Claim {
        top: listed,
        nodes: listed_nodes,
        peaks,
    } = other;
    let found = first_difference(claimed, &claimed_nodes, listed, &listed_nodes, &peaks);
    Ok(verdict(found))
}

// Returns what an audit of two accepted inputs says.
fn verdict<F: Family, D: Digest>(found: Option<Collision<F, D>>) -> PairVerdict<F, D>
    ensures accepted { result ≢ PairVerdict.Rejected }
    ensures consistent { (result ≡ PairVerdict.Consistent) ↔ (option_map located found ≡ None) }
    ensures collision { collision_of_pair result ≡ option_map located found }
{
    match found {
        None => PairVerdict::Consistent,
        Some(
            Collision {
                place,
                claimed,
                listed,
            },
        ) => PairVerdict::Collision {
            place,
            first: claimed,
            second: listed,
        },
    }
}
