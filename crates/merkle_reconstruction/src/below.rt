//! The nodes below a node that has all its leaves in a range, computed level by level.
ghost use Rattle.std.specs.Prelude.{◌≡◌, ◌-◌, ◌<◌, ◌≤◌, ◌↔◌, IsTrue, ℕ, OnOk, IfOk, length};
ghost use Rattle.merkle_base.specs.Hashing.{Hashing};
ghost use Rattle.merkle_base.specs.Tree.{Tree};
ghost use Rattle.merkle_hasher.specs.Subtrees.{Denotes};
ghost use Rattle.merkle_root_theory.specs.Walk.{leaf_from};
ghost use Rattle.merkle_reconstruction.specs.Inside.{IsInside, IsDigestAt, AreLevel, AreListed, AreParents};
ghost use Rattle.merkle_reconstruction.specs.InsidePairs.{inside_pairs};

use crate::collector::{Collector, put_both};
use crate::inside::{leaf_inside, leaf_parent};
use crate::known::ComputedNodes;
use merkle_base::family::Family;
use merkle_base::location::Location;
use merkle_digest::digest::Digest;
use merkle_hasher::hasher::{Hasher, Parent};
use merkle_hasher::subtree::Subtree;
use std::alloc::{AllocError, Global};

/// The least height of a node whose nodes are computed together, that of 8 leaves. Below 8 leaves no level
/// has four nodes.
const LEAST_HEIGHT: u32 = 3;

/// The greatest height of a node whose nodes are computed together: 256 leaves, so that the lists
/// stay small, whatever the range.
const GREATEST_HEIGHT: u32 = 8;

/// Whether the nodes below a node of this height are computed together.
pub(crate) fn is_extracted_by_levels(height: u32) -> bool
    ensures { IsTrue result ↔ ((LEAST_HEIGHT ≤ height) × (height ≤ GREATEST_HEIGHT)) }
{
    LEAST_HEIGHT <= height && height <= GREATEST_HEIGHT
}

// Returns the two children of each of the nodes, which have one height, in order.
fn children_of<F: Family>(
    alloc: Global,
    nodes: &[Subtree<F>],
) -> Result<Vec<Subtree<F>>, AllocError>
    requires { (start : ℕ) × (count : ℕ) × (height : ℕ) × (0 < height) × AreLevel F.rule F.MAX_LEAVES start count height nodes.now }
    ensures { IfOk result (λ v. (start count height : ℕ) → 0 < height → AreLevel F.rule F.MAX_LEAVES start count height nodes.now
        → AreLevel F.rule F.MAX_LEAVES start count (height - 1) v.items) }
{
    let mut children = Vec::with_capacity(alloc, nodes.len().saturating_mul(2))?;
    for node in nodes {
        let (left, right) = node.children();
        children.push(left)?;
        children.push(right)?;
    }
    Ok(children)
}

// Returns the positions of nodes of height 1 and the digests of their children, from those of the
// leaves from location `start` on.
fn leaf_parents<F: Family, D: Digest>(
    alloc: Global,
    nodes: &[Subtree<F>],
    start: Location<F>,
    leaves: &[D],
) -> Result<Vec<Parent<F, D>>, AllocError>
    requires { AreLevel F.rule F.MAX_LEAVES start (length leaves.now) 1 nodes.now }
    ensures { IfOk result (λ v. (h : Hashing D) → AreParents h F.rule F.MAX_LEAVES (leaf_from h start leaves.now) v.items) }
{
    let mut parents = Vec::with_capacity(alloc, nodes.len())?;
    for node in nodes {
        parents.push(leaf_parent(node, start, leaves))?;
    }
    Ok(parents)
}

// Returns the positions of nodes of one height and the digests of their children, which are the last
// that are known. Stops at a node whose children are not.
fn known_parents<F: Family, D: Digest>(
    alloc: Global,
    nodes: &[Subtree<F>],
    known: &ComputedNodes<F, D>,
) -> Result<Vec<Parent<F, D>>, AllocError>
    requires { (start : ℕ) × (count : ℕ) × (height : ℕ) × (0 < height) × AreLevel F.rule F.MAX_LEAVES start count height nodes.now }
    ensures { IfOk result (λ v. (h : Hashing D) (leaf : ℕ → D) → AreListed h F.rule F.MAX_LEAVES leaf known.now.positions.items known.now.digests.items
        → AreParents h F.rule F.MAX_LEAVES leaf v.items) }
{
    let mut parents = Vec::with_capacity(alloc, nodes.len())?;
    let mut number = nodes.len().saturating_mul(2);
    for node in nodes {
        let (left, right) = node.children();
        let Some(first) = known.get_numbered(number, left.position) else {
            return Ok(parents);
        };
        let Some(second) = known.get_numbered(number.saturating_sub(1), right.position) else {
            return Ok(parents);
        };
        parents.push((node.position, first, second))?;
        number = number.saturating_sub(2);
    }
    Ok(parents)
}

// Computes the nodes, which have this height, 1 or more, and those below them that are no leaves,
// level by level from the parents of leaves up, each level left to right and four nodes at a time.
fn put_levels<F: Family, H: Hasher<F>>(
    alloc: Global,
    nodes: &[Subtree<F>],
    height: u32,
    hasher: &H,
    start: Location<F>,
    leaves: &[H::Digest],
    known: &mut ComputedNodes<F, H::Digest>,
) -> Result<(), AllocError>
    requires nodes { AreLevel F.rule F.MAX_LEAVES start (length leaves.now) height nodes.now }
    requires parents { 0 < height }
    requires known { let h = H.hashing hasher.now in
        AreListed h F.rule F.MAX_LEAVES (leaf_from h start leaves.now) known.old.positions.items known.old.digests.items }
    ensures { let h = H.hashing hasher.now in
        OnOk result (AreListed h F.rule F.MAX_LEAVES (leaf_from h start leaves.now) known.new.positions.items known.new.digests.items) }
{
    if height == 1 {
        let parents = leaf_parents(alloc, nodes, start, leaves)?;
        return known.put_parents(hasher, &parents);
    }
    let children = children_of(alloc, nodes)?;
    put_levels(alloc, &children, height - 1, hasher, start, leaves, known)?;
    let parents = known_parents(alloc, nodes, known)?;
    known.put_parents(hasher, &parents)
}

// Computes the node, which is no leaf, and those below it that are none, as `put_levels`.
fn levels_below<F: Family, H: Hasher<F>>(
    alloc: Global,
    subtree: &Subtree<F>,
    hasher: &H,
    start: Location<F>,
    leaves: &[H::Digest],
) -> Result<ComputedNodes<F, H::Digest>, AllocError>
    requires node { (t : Tree) × IsInside F.rule F.MAX_LEAVES start (length leaves.now) subtree.now t }
    requires parent { 0 < subtree.now.height }
    ensures { let h = H.hashing hasher.now in
        IfOk result (λ k. AreListed h F.rule F.MAX_LEAVES (leaf_from h start leaves.now) k.positions.items k.digests.items) }
{
    // The nodes are one fewer than the leaves.
    let mut known = ComputedNodes::with_capacity(alloc, 1usize.wrapping_shl(subtree.height))?;
    let nodes = [*subtree];
    put_levels(
        alloc,
        &nodes,
        subtree.height,
        hasher,
        start,
        leaves,
        &mut known,
    )?;
    Ok(known)
}

// Returns the digest of a node and passes those of the nodes below it to `out`: the two children of a
// node after all that is below them.
//
// Where the levels are known, the node is the `number`-th from the end of `known`. Counted from the end, the
// root is 1; node k has its right child at 2k, its left at 2k + 1. A node that is not found there is
// hashed by itself.
fn put_below<F: Family, H: Hasher<F>, C: Collector<F, H::Digest>>(
    subtree: &Subtree<F>,
    number: usize,
    hasher: &H,
    start: Location<F>,
    leaves: &[H::Digest],
    known: &ComputedNodes<F, H::Digest>,
    out: &mut C,
) -> Result<H::Digest, AllocError>
    requires node { (t : Tree) × IsInside F.rule F.MAX_LEAVES start (length leaves.now) subtree.now t }
    requires known { let h = H.hashing hasher.now in
        AreListed h F.rule F.MAX_LEAVES (leaf_from h start leaves.now) known.now.positions.items known.now.digests.items }
    ensures digest { let h = H.hashing hasher.now in
        IfOk result (λ d. IsDigestAt h F.rule F.MAX_LEAVES (leaf_from h start leaves.now) subtree.now.position d) }
    ensures taken { let h = H.hashing hasher.now in
        IfOk result (λ _. (t : Tree) → Denotes F.rule F.MAX_LEAVES subtree.now t → C.Took out.old (inside_pairs h (leaf_from h start leaves.now) t) out.new) }
{
    if subtree.height == 0 {
        return Ok(leaf_inside(subtree, start, leaves));
    }
    let (left, right) = subtree.children();
    let twice = number.saturating_mul(2);
    let after = twice.saturating_add(1);
    let first = put_below(&left, after, hasher, start, leaves, known, out)?;
    let second = put_below(&right, twice, hasher, start, leaves, known, out)?;
    put_both(left.position, &first, right.position, &second, out)?;
    if let Some(digest) = known.get_numbered(number, subtree.position) {
        return Ok(digest);
    }
    Ok(hasher.node_digest(subtree.position, &first, &second))
}

/// Returns the digest of a node, which is no leaf and has all its leaves in the range, and passes
/// those of the nodes below it to `out`: the two children of a node after all that is below them.
///
/// They are computed level by level, four nodes at a time; if there is no memory for that, one by
/// one.
///
/// # Errors
///
/// - `AllocError` if `out` fails
pub(crate) fn extract_by_levels<F: Family, H: Hasher<F>, C: Collector<F, H::Digest>>(
    alloc: Global,
    subtree: &Subtree<F>,
    hasher: &H,
    start: Location<F>,
    leaves: &[H::Digest],
    out: &mut C,
) -> Result<H::Digest, AllocError>
    requires node { (t : Tree) × IsInside F.rule F.MAX_LEAVES start (length leaves.now) subtree.now t }
    requires parent { 0 < subtree.now.height }
    ensures digest { let h = H.hashing hasher.now in
        IfOk result (λ d. IsDigestAt h F.rule F.MAX_LEAVES (leaf_from h start leaves.now) subtree.now.position d) }
    ensures taken { let h = H.hashing hasher.now in
        IfOk result (λ _. (t : Tree) → Denotes F.rule F.MAX_LEAVES subtree.now t → C.Took out.old (inside_pairs h (leaf_from h start leaves.now) t) out.new) }
{
    if let Ok(known) = levels_below(alloc, subtree, hasher, start, leaves) {
        return put_below(subtree, 1, hasher, start, leaves, &known, out);
    }
    let none = ComputedNodes::new(alloc);
    put_below(subtree, 1, hasher, start, leaves, &none, out)
}
