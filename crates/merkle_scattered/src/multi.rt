//! The positions of the nodes that the proofs of scattered leaves read, in the order of a walk.
ghost use Rattle.std.specs.Prelude.{◌≡◌, ◌≤◌, [], ◌∷◌, ◌++◌, IfOk, cond, take, drop, map, length};
ghost use Rattle.std.specs.List.Sorted.{IsNonDecreasing};
ghost use Rattle.merkle_base.specs.Tree.{Tree, position};
ghost use Rattle.merkle_hasher.specs.Subtrees.{Denotes};
ghost use Rattle.merkle_scattered.specs.MultiPositions.{those_before, those_from, read_below, positions_read};

use merkle_base::family::Family;
use merkle_base::location::Location;
use merkle_base::position::Position;
use merkle_hasher::peaks::peak_subtrees;
use merkle_hasher::subtree::Subtree;
use std::alloc::{AllocError, Global};

/// Returns the positions of the nodes that the proofs of the leaves at `locations`, which ascend,
/// of a list of `leaves` leaves read one by one; each once, in the order of a walk over the peaks
/// and the nodes below them.
///
/// In a Mountain Range that order is ascending.
///
/// # Errors
///
/// If a memory request is refused.
pub fn scattered_positions<F: Family>(
    alloc: Global,
    leaves: Location<F>,
    locations: &[Location<F>],
) -> Result<Vec<Position<F>>, AllocError>
    requires ascend { IsNonDecreasing locations.now }
    requires within_max_leaves { leaves ≤ F.MAX_LEAVES }
    ensures { IfOk result (λ v. v.items ≡ positions_read F.rule leaves locations.now) }
{
    let mut positions = Vec::new(alloc);
    let mut rest = locations;
    for peak in peak_subtrees(leaves) {
        let (under, others) = rest.split_at(count_before(rest, peak.leaf_end()));
        collect_scattered(&peak, under, &mut positions)?;
        append_if(under.len() < locations.len(), peak.position, &mut positions)?;
        rest = others;
    }
    Ok(positions)
}

// Appends the positions of the nodes below a node that the proofs of the leaves at `locations`
// read, each once.
//
// The locations ascend, and each is that of a leaf below the node.
fn collect_scattered<F: Family>(
    subtree: &Subtree<F>,
    locations: &[Location<F>],
    out: &mut Vec<Position<F>>,
) -> Result<(), AllocError>
    requires node { (t : Tree) × Denotes F.rule F.MAX_LEAVES subtree.now t }
    requires ascend { IsNonDecreasing locations.now }
    ensures { IfOk result (λ _. (t : Tree) → Denotes F.rule F.MAX_LEAVES subtree.now t
        → out.new.items ≡ out.old.items ++ map position (read_below locations.now t)) }
{
    if subtree.height == 0 || locations.is_empty() {
        return Ok(());
    }
    let (left, right) = subtree.children();
    let (first, second) = locations.split_at(count_before(locations, right.first_leaf));
    collect_scattered(&left, first, out)?;
    append_if(!second.is_empty(), left.position, out)?;
    collect_scattered(&right, second, out)?;
    append_if(!first.is_empty(), right.position, out)
}

// Counts the locations, which ascend, that are before `end`.
fn count_before<F>(locations: &[Location<F>], end: Location<F>) -> usize
    requires ascend { IsNonDecreasing locations.now }
    ensures bound { result ≤ length locations.now }
    ensures parts { (take result locations.now ≡ those_before end locations.now) × (drop result locations.now ≡ those_from end locations.now) }
{
    locations.partition_point(|location| *location < end)
}

// Appends a position if `is_read` is set.
fn append_if<F>(
    is_read: bool,
    position: Position<F>,
    out: &mut Vec<Position<F>>,
) -> Result<(), AllocError>
    ensures { IfOk result (λ _. out.new.items ≡ out.old.items ++ cond is_read (position ∷ []) []) }
{
    if is_read {
        out.push(position)?;
    }
    Ok(())
}
