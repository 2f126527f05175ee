//! Elements and digests that are given in one buffer.
ghost use Rattle.std.specs.Prelude.{◌≡◌, ℕ, List, IfOk, IfSome, IsNone, length};
ghost use Rattle.merkle_root_theory.specs.Walk.{bytes_of};
ghost use Rattle.merkle_verifier.specs.Inputs.{IsCut, joined_digests, located};
ghost use Rattle.merkle_sha256.specs.declared.sha256.Sha256Digest.{Sha256Digest};

use merkle_base::location::Location;
use merkle_digest::digest::Digest;
use merkle_sha256::sha256::Sha256Digest;
use std::alloc::{AllocError, Global};

/// Cuts bytes into parts of these lengths, in their order.
///
/// `None` if the lengths do not add up to the number of bytes.
pub(crate) fn cut<'a>(
    alloc: Global,
    bytes: &'a [u8],
    lengths: &[usize],
) -> Result<Option<Vec<&'a [u8]>>, AllocError>
    ensures some { IfOk result (λ o. IfSome o (λ parts. IsCut lengths.now bytes.now (bytes_of parts.items))) }
    ensures none { IfOk result (λ o. IsNone o → (parts : List (List ℕ)) → ¬ (IsCut lengths.now bytes.now parts)) }
{
    let mut parts = Vec::new(alloc);
    let mut rest = bytes;
    for size in lengths {
        let Some((part, after)) = rest.split_at_checked(*size) else {
            return Ok(None);
        };
        parts.push(part)?;
        rest = after;
    }
    if !rest.is_empty() {
        return Ok(None);
    }
    Ok(Some(parts))
}

/// Reads the digests whose bytes these are, one after another.
///
/// `None` if they are those of no list of digests.
pub(crate) fn read_digests(
    alloc: Global,
    bytes: &[u8],
) -> Result<Option<Vec<Sha256Digest>>, AllocError>
    ensures some { IfOk result (λ o. IfSome o (λ digests. joined_digests digests.items ≡ bytes.now)) }
    ensures none { IfOk result (λ o. IsNone o → (digests : List Sha256Digest) → ¬ (joined_digests digests ≡ bytes.now)) }
{
    let mut digests = Vec::new(alloc);
    let mut rest = bytes;
    while !rest.is_empty() {
        let Some((first, after)) = rest.split_at_checked(Sha256Digest::SIZE) else {
            return Ok(None);
        };
        let Some(digest) = Sha256Digest::from_bytes(first) else {
            return Ok(None);
        };
        digests.push(digest)?;
        rest = after;
    }
    Ok(Some(digests))
}

/// Pairs each part with its location. There are as many of both.
pub(crate) fn locate<T: Copy, F>(
    alloc: Global,
    parts: &[T],
    locations: &[u64],
) -> Result<Vec<(T, Location<F>)>, AllocError>
    requires { length locations.now ≡ length parts.now }
    ensures { IfOk result (λ all. all.items ≡ located locations.now parts.now) }
{
    let mut all = Vec::new(alloc);
    for i in 0..parts.len() {
        let Ok(()) = all.push((parts[i], Location::new(locations[i]))) else {
            return Err(AllocError);
        };
    }
    Ok(all)
}
