//! The digests of nodes that have all their leaves in a range, computed four at a time.
ghost use Rattle.std.specs.Prelude.{◌≡◌, ◌+◌, ◌-◌, ◌<◌, ◌≤◌, ℕ, List, Some, OnOk, IfOk, length, map, slice_get};
ghost use Rattle.merkle_base.specs.Hashing.{Hashing};
ghost use Rattle.merkle_base.specs.Tree.{Tree};
ghost use Rattle.merkle_hasher.specs.Subtrees.{Denotes, AreNodes, subtree_of};
ghost use Rattle.merkle_root_theory.specs.Walk.{leaf_from};
ghost use Rattle.merkle_reconstruction.specs.Inside.{IsInside, IsDigestAt, AreTall, AreParents, AreChildDigests, AreKnownFrom};

use crate::known::ComputedNodes;
use crate::walk::{is_inside, is_outside};
use merkle_base::family::Family;
use merkle_base::location::Location;
use merkle_digest::digest::Digest;
use merkle_hasher::hasher::{Hasher, Parent};
use merkle_hasher::nodes::node_digests;
use merkle_hasher::subtree::Subtree;
use std::alloc::{AllocError, Global};
use std::ops::Range;

/// The number of leaves from which on their nodes are computed together; hardly any nodes of fewer
/// leaves could be hashed four at a time.
const LEAVES_TOGETHER: usize = 8;

/// Initial capacity for nodes and for their children; more are rare.
const ROOM: usize = 32;

/// Returns the digest of a leaf from those of the leaves from location `start` on.
pub(crate) fn leaf_inside<F: Family, D: Copy>(
    leaf: &Subtree<F>,
    start: Location<F>,
    leaves: &[D],
) -> D
    requires { (start ≤ leaf.now.first_leaf) × (leaf.now.first_leaf < start + length leaves.now) }
    ensures { slice_get leaves.now (leaf.now.first_leaf - start) ≡ Some result }
{
    let index = leaf.first_leaf - start;
    leaves[index.as_u64() as usize]
}

/// Returns the position of a node of height 1 and the digests of its children, from those of the
/// leaves from location `start` on.
pub(crate) fn leaf_parent<F: Family, D: Digest>(
    subtree: &Subtree<F>,
    start: Location<F>,
    leaves: &[D],
) -> Parent<F, D>
    requires node { (t : Tree) × IsInside F.rule F.MAX_LEAVES start (length leaves.now) subtree.now t }
    requires parent { subtree.now.height ≡ 1 }
    ensures position { result.0 ≡ subtree.now.position }
    ensures digest { (h : Hashing D) → IsDigestAt h F.rule F.MAX_LEAVES (leaf_from h start leaves.now) result.0 (h.node result.0 result.1 result.2) }
{
    let (left, right) = subtree.children();
    let first = leaf_inside(&left, start, leaves);
    let second = leaf_inside(&right, start, leaves);
    (subtree.position, first, second)
}

// Returns the two children of a node of height 2 or more, each with the digests of its own children,
// which are computed from those of the leaves from location `start` on: the four grandchildren of a
// node together, in `nodes`, whatever it has.
fn children_inside<F: Family, H: Hasher<F>>(
    subtree: &Subtree<F>,
    hasher: &H,
    start: Location<F>,
    leaves: &[H::Digest],
    nodes: &mut Vec<Parent<F, H::Digest>>,
) -> Result<(Parent<F, H::Digest>, Parent<F, H::Digest>), AllocError>
    requires node { (t : Tree) × IsInside F.rule F.MAX_LEAVES start (length leaves.now) subtree.now t }
    requires tall { 2 ≤ subtree.now.height }
    ensures { let h = H.hashing hasher.now in
        IfOk result (λ r. IsDigestAt h F.rule F.MAX_LEAVES (leaf_from h start leaves.now) subtree.now.position
        (h.node subtree.now.position (h.node r.0.0 r.0.1 r.0.2) (h.node r.1.0 r.1.1 r.1.2))) }
{
    let (left, right) = subtree.children();
    if subtree.height == 2 {
        let first = leaf_parent(&left, start, leaves);
        let second = leaf_parent(&right, start, leaves);
        return Ok((first, second));
    }
    let (a, b) = children_inside(&left, hasher, start, leaves, nodes)?;
    let (c, d) = children_inside(&right, hasher, start, leaves, nodes)?;
    nodes.clear();
    nodes.push(a)?;
    nodes.push(b)?;
    nodes.push(c)?;
    nodes.push(d)?;
    let four = hasher.node_digests_four(nodes);
    Ok((
        (left.position, four.0, four.1),
        (right.position, four.2, four.3),
    ))
}

// Computes the digests of the children of nodes of height 2 or more, in the order of the nodes.
fn child_digests<F: Family, H: Hasher<F>>(
    alloc: Global,
    nodes: &[Subtree<F>],
    hasher: &H,
    start: Location<F>,
    leaves: &[H::Digest],
) -> Result<Vec<H::Digest>, AllocError>
    requires nodes { AreTall F.rule F.MAX_LEAVES start (length leaves.now) nodes.now }
    ensures { let h = H.hashing hasher.now in
        IfOk result (λ v. AreChildDigests h F.rule F.MAX_LEAVES (leaf_from h start leaves.now) nodes.now v.items) }
{
    let mut four = Vec::with_capacity(alloc, 4)?;
    let mut children = Vec::with_capacity(alloc, ROOM)?;
    for node in nodes {
        let (left, right) = children_inside(node, hasher, start, leaves, &mut four)?;
        children.push(left)?;
        children.push(right)?;
    }
    let mut digests = Vec::with_capacity(alloc, children.len())?;
    node_digests(hasher, &children, &mut digests)?;
    Ok(digests)
}

// Appends the nodes to `parents`, with the digests of their children, which are `below` in the order
// of the nodes.
fn push_parents<F: Family, D: Digest>(
    nodes: &[Subtree<F>],
    below: &[D],
    parents: &mut Vec<Parent<F, D>>,
) -> Result<(), AllocError>
    ensures { OnOk result ((h : Hashing D) (leaf : ℕ → D) → AreChildDigests h F.rule F.MAX_LEAVES leaf nodes.now below.now
        → AreParents h F.rule F.MAX_LEAVES leaf parents.old.items → AreParents h F.rule F.MAX_LEAVES leaf parents.new.items) }
{
    let mut rest = below;
    for node in nodes {
        let Some((left, others)) = rest.split_first() else {
            return Ok(());
        };
        let Some((right, others)) = others.split_first() else {
            return Ok(());
        };
        parents.push((node.position, *left, *right))?;
        rest = others;
    }
    Ok(())
}

// Appends a node that has all its leaves in the range and is none: to `tall` if its height is 2 or
// more, else to `parents`, with the digests of its children.
fn put_inside<F: Family, D: Digest>(
    subtree: &Subtree<F>,
    start: Location<F>,
    leaves: &[D],
    tall: &mut Vec<Subtree<F>>,
    parents: &mut Vec<Parent<F, D>>,
) -> Result<(), AllocError>
    requires node { (t : Tree) × IsInside F.rule F.MAX_LEAVES start (length leaves.now) subtree.now t }
    requires parent { 0 < subtree.now.height }
    ensures tall { OnOk result (AreTall F.rule F.MAX_LEAVES start (length leaves.now) tall.old.items
        → AreTall F.rule F.MAX_LEAVES start (length leaves.now) tall.new.items) }
    ensures parents { OnOk result ((h : Hashing D) → AreParents h F.rule F.MAX_LEAVES (leaf_from h start leaves.now) parents.old.items
        → AreParents h F.rule F.MAX_LEAVES (leaf_from h start leaves.now) parents.new.items) }
{
    if subtree.height > 1 {
        tall.push(*subtree)?;
        return Ok(());
    }
    parents.push(leaf_parent(subtree, start, leaves))?;
    Ok(())
}

// Appends the maximal nodes at or below the node that have all their leaves in the range and are no
// leaves, left to right: to `tall` those of height 2 or more, and the others to `parents`, with the
// digests of their children.
fn collect_inside<F: Family, D: Digest>(
    subtree: &Subtree<F>,
    range: &Range<Location<F>>,
    leaves: &[D],
    tall: &mut Vec<Subtree<F>>,
    parents: &mut Vec<Parent<F, D>>,
) -> Result<(), AllocError>
    requires node { (t : Tree) × Denotes F.rule F.MAX_LEAVES subtree.now t }
    requires nonempty { range.now.start < range.now.end }
    requires covered { range.now.end ≤ range.now.start + length leaves.now }
    ensures tall { OnOk result (AreTall F.rule F.MAX_LEAVES range.now.start (length leaves.now) tall.old.items
        → AreTall F.rule F.MAX_LEAVES range.now.start (length leaves.now) tall.new.items) }
    ensures parents { OnOk result ((h : Hashing D) → AreParents h F.rule F.MAX_LEAVES (leaf_from h range.now.start leaves.now) parents.old.items
        → AreParents h F.rule F.MAX_LEAVES (leaf_from h range.now.start leaves.now) parents.new.items) }
{
    if subtree.height == 0 || is_outside(subtree, range) {
        return Ok(());
    }
    if is_inside(subtree, range) {
        return put_inside(subtree, range.start, leaves, tall, parents);
    }
    let (left, right) = subtree.children();
    collect_inside(&left, range, leaves, tall, parents)?;
    collect_inside(&right, range, leaves, tall, parents)
}

/// Computes the digests of the maximal nodes below the peaks that have all their leaves in the range
/// and are no leaves.
///
/// They are computed together, whatever their heights: all four at a time but for at most three of
/// these nodes, and two of their children. None are computed if there are fewer leaves than
/// [`LEAVES_TOGETHER`], or if they are not wanted.
///
/// # Errors
///
/// - `AllocError` if a memory request is refused
pub fn digests_inside<F: Family, H: Hasher<F>>(
    alloc: Global,
    peaks: &[Subtree<F>],
    hasher: &H,
    range: &Range<Location<F>>,
    leaves: &[H::Digest],
    is_wanted: bool,
) -> Result<ComputedNodes<F, H::Digest>, AllocError>
    requires nodes { (ts : List Tree) × (peaks.now ≡ map subtree_of ts) × AreNodes F.rule F.MAX_LEAVES ts }
    requires nonempty { range.now.start < range.now.end }
    requires covered { range.now.end ≤ range.now.start + length leaves.now }
    ensures { IfOk result (λ k.
        AreKnownFrom (H.hashing hasher.now) F.rule F.MAX_LEAVES range.now.start leaves.now k.positions.items k.digests.items) }
{
    if !is_wanted || leaves.len() < LEAVES_TOGETHER {
        return Ok(ComputedNodes::new(alloc));
    }
    let mut tall = Vec::with_capacity(alloc, ROOM)?;
    let mut parents = Vec::with_capacity(alloc, ROOM)?;
    for peak in peaks {
        collect_inside(peak, range, leaves, &mut tall, &mut parents)?;
    }
    let below = child_digests(alloc, &tall, hasher, range.start, leaves)?;
    push_parents(&tall, &below, &mut parents)?;
    ComputedNodes::of_parents(alloc, hasher, &parents)
}
