//! The digests of the leaves of scattered elements, several computed at a time.
ghost use Rattle.std.specs.Prelude.{◌≡◌, ◌≤◌, ◌++◌, OnOk, IfOk, length, map};
ghost use Rattle.std.specs.List.{AllByRecursion, zip};
ghost use Rattle.merkle_base.specs.Forest.{size};
ghost use Rattle.merkle_proof.specs.Input.{element_leaves};

use merkle_base::family::Family;
use merkle_base::location::Location;
use merkle_digest::digest::Digest;
use merkle_hasher::hasher::Hasher;
use merkle_leaves::leaves::leaf_digests;
use merkle_leaves::queue::queue_leaf;
use std::alloc::{AllocError, Global};

// The digests of the leaves with these elements.
fn element_digests<F: Family, H: Hasher<F>>(
    alloc: Global,
    hasher: &H,
    elements: &[(&[u8], Location<F>)],
) -> Result<Vec<H::Digest>, AllocError>
    requires { AllByRecursion (λ e. e.1 ≤ F.MAX_LEAVES) elements.now }
    ensures { IfOk result (λ v. v.items ≡ map (λ e. (H.hashing hasher.now).leaf (size F.rule e.1) e.0.now) elements.now) }
{
    let mut digests = Vec::with_capacity(alloc, elements.len())?;
    let mut waiting = Vec::new(alloc);
    for element in elements {
        let position = F::location_to_position(element.1);
        queue_leaf(hasher, position, element.0, &mut waiting, &mut digests)?;
    }
    leaf_digests(hasher, &waiting, &mut digests)?;
    Ok(digests)
}

// Appends the locations of the elements, each with the digest at the same place.
fn push_located<F: Family, D: Digest>(
    elements: &[(&[u8], Location<F>)],
    digests: &[D],
    located: &mut Vec<(Location<F>, D)>,
) -> Result<(), AllocError>
    requires { length digests.now ≡ length elements.now }
    ensures { OnOk result (located.new.items ≡ located.old.items ++ zip (map (λ e. e.1) elements.now) digests.now) }
{
    for (index, element) in elements.iter().enumerate() {
        located.push((element.1, digests[index]))?;
    }
    Ok(())
}

/// Returns the locations of the elements, each with the digest of its leaf.
///
/// Requires that the locations are within [`MAX_LEAVES`](Family::MAX_LEAVES).
pub(crate) fn located_digests<F: Family, H: Hasher<F>>(
    alloc: Global,
    hasher: &H,
    elements: &[(&[u8], Location<F>)],
) -> Result<Vec<(Location<F>, H::Digest)>, AllocError>
    requires { AllByRecursion (λ e. e.1 ≤ F.MAX_LEAVES) elements.now }
    ensures { IfOk result (λ v. v.items ≡ element_leaves (H.hashing hasher.now) F.rule elements.now) }
{
    let digests = element_digests(alloc, hasher, elements)?;
    let mut located = Vec::with_capacity(alloc, elements.len())?;
    push_located(elements, &digests, &mut located)?;
    Ok(located)
}
