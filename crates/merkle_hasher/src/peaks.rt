//! The peaks of a structure, together with the leaves below them.
ghost use Rattle.std.specs.Prelude.{◌≡◌, ◌≤◌, map, IfOk};
ghost use Rattle.std.specs.Iterator.{YieldsFirst, item_count};
ghost use Rattle.merkle_base.specs.Places.{peaks_of};
ghost use Rattle.merkle_hasher.specs.Subtrees.{subtree_of};

use crate::subtree::Subtree;
use merkle_base::family::Family;
use merkle_base::listed::Listed;
use merkle_base::location::Location;
use std::alloc::{AllocError, Global};
use std::marker::Model;

/// Iterates over the peaks of a structure, from the oldest on. Returned by [`peak_subtrees`].
pub struct PeakSubtrees<F: Family> {
    // the peaks that are left
    peaks: F::Peaks,
    // the location of the first leaf below them
    first_leaf: Location<F>,
}

// Written out, it is proved once; derived, it would be proved again in each crate that drops such an iterator.
impl<F: Family> Drop for PeakSubtrees<F> {
    fn drop(self) {
        let PeakSubtrees {
            peaks: _,
            first_leaf: _,
        } = self;
    }
}

impl<F: Family> Model for PeakSubtrees<F> {
    ghost use Rattle.std.specs.Prelude.{List};
    ghost use Rattle.merkle_hasher.specs.declared.subtree.Subtree.{Subtree};
    ghost use Rattle.merkle_hasher.specs.Subtrees.{AreNodesFrom, subtrees_from};

    ghost Value = { List (Subtree F) };

    ghost view = { λ s. subtrees_from s.first_leaf (F.Peaks.left s.peaks) };

    ghost invariant = { λ s. AreNodesFrom F.rule F.MAX_LEAVES s.first_leaf (F.Peaks.left s.peaks) };
}

impl<F: Family> Iterator for PeakSubtrees<F> {
    type Item = Subtree<F>;

    ghost next_gives = { YieldsFirst (λ s. s) };

    ghost remaining = { item_count (λ s. s) };

    fn next(&mut self) -> Option<Subtree<F>> {
        let (position, height) = self.peaks.next()?;
        let peak = Subtree {
            position,
            height,
            first_leaf: self.first_leaf,
        };
        self.first_leaf = peak.leaf_end();
        Some(peak)
    }
}

impl<F: Family> Listed for PeakSubtrees<F> {
    ghost left = { λ s. s };

    ghost may_go = { λ _. tt };

    ghost gives_first = { λ _ _ _ h. h };

    ghost ends = { λ _. tt };
}

/// Iterates over the peaks of a structure with `leaves` leaves, the oldest first.
///
/// Requires `leaves` to be at most [`MAX_LEAVES`](Family::MAX_LEAVES).
///
/// # Examples
///
/// ```
/// // Of 3 leaves: the node at position 2 over the first two, and the third one.
/// for peak in peak_subtrees(Location::<mmr::Family>::new(3)) {
///     println!(rt; "{} of height {}", peak.position, peak.height)?;
/// }
/// ```
pub fn peak_subtrees<F: Family>(leaves: Location<F>) -> PeakSubtrees<F>
    requires within_max_leaves { leaves ≤ F.MAX_LEAVES }
    ensures { result ≡ map subtree_of (peaks_of F.rule leaves) }
{
    PeakSubtrees {
        peaks: F::peaks(F::location_to_position(leaves)),
        first_leaf: Location::new(0),
    }
}

/// Returns the peaks of a structure with `leaves` leaves, the oldest first.
///
/// Requires `leaves` to be at most [`MAX_LEAVES`](Family::MAX_LEAVES).
///
/// # Errors
///
/// - `AllocError` if a memory request is refused
pub fn list_peaks<F: Family>(
    alloc: Global,
    leaves: Location<F>,
) -> Result<Vec<Subtree<F>>, AllocError>
    requires within_max_leaves { leaves ≤ F.MAX_LEAVES }
    ensures { IfOk result (λ v. v.items ≡ map subtree_of (peaks_of F.rule leaves)) }
{
    let mut peaks = Vec::new(alloc);
    for peak in peak_subtrees(leaves) {
        peaks.push(peak)?;
    }
    Ok(peaks)
}
