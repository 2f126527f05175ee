//! The leaf digests of elements, which wait until several are computed at a time.
ghost use Rattle.std.specs.Prelude.{◌≡◌, ◌≤◌, ◌+◌, ◌++◌, ◌∷◌, [], OnOk, length};
ghost use Rattle.merkle_hasher.specs.LeafDigests.{bytes_of, leaf_digests, Queues};

use crate::leaves::leaf_digests;
use crate::order::LEAVES_AT_ONCE;
use merkle_base::family::Family;
use merkle_base::location::Location;
use merkle_base::position::Position;
use merkle_hasher::hasher::Hasher;
use std::alloc::{AllocError, Global};

/// Appends a leaf to those that wait to be hashed.
///
/// Once they are 64, as many as are put in order at a time, their digests are appended to `digests`, in their order, and none
/// waits any more. So the digests and after them those of the waiting leaves are those of all leaves
/// so far.
///
/// # Errors
///
/// - `AllocError` if a memory request is refused.
///
/// # Examples
///
/// ```
/// let mut waiting = Vec::new(alloc);
/// let mut digests = Vec::new(alloc);
/// for (location, element) in leaves {
///     queue_leaf(hasher, F::location_to_position(location), element, &mut waiting, &mut digests)?;
/// }
/// leaf_digests(hasher, &waiting, &mut digests)?;
/// ```
pub fn queue_leaf<'a, F: Family, T: Hasher<F>>(
    hasher: &T,
    position: Position<F>,
    element: &'a [u8],
    waiting: &mut Vec<(Position<F>, &'a [u8])>,
    digests: &mut Vec<T::Digest>,
) -> Result<(), AllocError>
    ensures { let h = T.hashing hasher.now in OnOk result (
        Queues h digests.old.items waiting.old.items digests.new.items waiting.new.items (h.leaf position element.now)) }
{
    let Ok(()) = waiting.push((position, element)) else {
        return Err(AllocError);
    };
    if waiting.len() < LEAVES_AT_ONCE {
        return Ok(());
    }
    leaf_digests(hasher, waiting, digests)?;
    waiting.clear();
    Ok(())
}

/// Appends the digests of the leaves with these elements, in their order, from location `first` on.
///
/// Requires that the last leaf is within [`MAX_LEAVES`](Family::MAX_LEAVES).
pub fn push_leaf_digests<F: Family, T: Hasher<F>>(
    alloc: Global,
    hasher: &T,
    first: Location<F>,
    elements: &[&[u8]],
    digests: &mut Vec<T::Digest>,
) -> Result<(), AllocError>
    requires { first + length elements.now ≤ F.MAX_LEAVES }
    ensures { OnOk result (digests.new.items ≡ digests.old.items
        ++ leaf_digests (T.hashing hasher.now) F.rule first (bytes_of elements.now)) }
{
    let mut waiting = Vec::new(alloc);
    let mut location = first;
    for element in elements {
        let position = F::location_to_position(location);
        queue_leaf(hasher, position, element, &mut waiting, digests)?;
        location += 1;
    }
    leaf_digests(hasher, &waiting, digests)
}
