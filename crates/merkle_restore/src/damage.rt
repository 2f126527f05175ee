//! The first damaged node of a structure.
ghost use Rattle.std.specs.Prelude.{◌≡◌, ◌+◌, ◌<◌, ◌≤◌, ◌++◌, [], ◌∷◌, ℕ, suc, List, Some, slice_get, length, IfNone, IfSome};
ghost use Rattle.std.specs.Option.{option_to_list};
ghost use Rattle.merkle_base.specs.Forest.{forest, size};
ghost use Rattle.merkle_base.specs.Places.{HasInner};
ghost use Rattle.merkle_base.specs.Tree.{Tree};
ghost use Rattle.merkle_batch_theory.specs.Contents.{HoldsKept};
ghost use Rattle.merkle_restore_theory.specs.Damage.{IsFirstDamaged, IsWhole, merged_from};
ghost use Rattle.merkle_restore.specs.HeldParents.{Finds, first_wrong, is_other, parent_of, parents_from};

use merkle_base::family::{Family, Work};
use merkle_base::location::Location;
use merkle_base::position::Position;
use merkle_digest::digest::Digest;
use merkle_draft::base::Base;
use merkle_hasher::hasher::{Hasher, Parent};
use std::alloc::Global;

/// How many nodes are hashed together.
const NODES_TOGETHER: usize = 4;

// Returns whether a digest is held at `position` that is not `digest`.
fn holds_other<F: Family, D: Digest, B: Base<F, Digest = D>>(
    base: &B,
    position: Position<F>,
    digest: &D,
) -> bool
    ensures { result ≡ is_other D.eq ((B.contents base.now).node position) digest.now }
{
    match base.get_node(position) {
        Some(held) => held != *digest,
        None => false,
    }
}

// Compares the digest that is held of a node with that of its children, and returns its position if
// they differ.
fn compare_node<F: Family, D: Digest, B: Base<F, Digest = D>, H: Hasher<F, Digest = D>>(
    base: &B,
    hasher: &H,
    node: Parent<F, D>,
) -> Option<Position<F>>
    ensures { result ≡ first_wrong (H.hashing hasher.now) (B.contents base.now).node (node ∷ []) }
{
    let (position, left, right) = node;
    let digest = hasher.node_digest(position, &left, &right);
    if holds_other(base, position, &digest) {
        return Some(position);
    }
    None
}

// Compares nodes one after another, and returns the position of the first that differs.
fn compare_each<F: Family, D: Digest, B: Base<F, Digest = D>, H: Hasher<F, Digest = D>>(
    base: &B,
    hasher: &H,
    nodes: &[Parent<F, D>],
) -> Option<Position<F>>
    ensures { result ≡ first_wrong (H.hashing hasher.now) (B.contents base.now).node nodes.now }
{
    for node in nodes {
        let found = compare_node(base, hasher, *node);
        if found.is_some() {
            return found;
        }
    }
    None
}

// Compares four nodes, which are hashed together, and returns the position of the first that differs.
fn compare_four<F: Family, D: Digest, B: Base<F, Digest = D>, H: Hasher<F, Digest = D>>(
    base: &B,
    hasher: &H,
    nodes: &[Parent<F, D>],
) -> Option<Position<F>>
    requires { length nodes.now ≡ 4 }
    ensures { result ≡ first_wrong (H.hashing hasher.now) (B.contents base.now).node nodes.now }
{
    let (first, second, third, fourth) = hasher.node_digests_four(nodes);
    if holds_other(base, nodes[0].0, &first) {
        return Some(nodes[0].0);
    }
    if holds_other(base, nodes[1].0, &second) {
        return Some(nodes[1].0);
    }
    if holds_other(base, nodes[2].0, &third) {
        return Some(nodes[2].0);
    }
    if holds_other(base, nodes[3].0, &fourth) {
        return Some(nodes[3].0);
    }
    None
}

// Compares nodes, and returns the position of the first that differs.
fn compare<F: Family, D: Digest, B: Base<F, Digest = D>, H: Hasher<F, Digest = D>>(
    base: &B,
    hasher: &H,
    nodes: &[Parent<F, D>],
) -> Option<Position<F>>
    ensures { result ≡ first_wrong (H.hashing hasher.now) (B.contents base.now).node nodes.now }
{
    match nodes {
        [_, _, _, _] => compare_four(base, hasher, nodes),
        _ => compare_each(base, hasher, nodes),
    }
}

// Returns the node at `position`, which has height `height`, with the digests of its children, if
// these are held.
fn held_parent<F: Family, D: Digest, B: Base<F, Digest = D>>(
    base: &B,
    position: Position<F>,
    height: u32,
) -> Option<Parent<F, D>>
    requires inner { HasInner F.rule F.MAX_LEAVES position height }
    ensures { (n : ℕ) (t : Tree) → slice_get (forest F.rule n).nodes position ≡ Some t
        → parent_of (B.contents base.now).node t ≡ option_to_list result }
{
    let (left, right) = F::children(position, height);
    let left_digest = base.get_node(left)?;
    let right_digest = base.get_node(right)?;
    Some((position, left_digest, right_digest))
}

// Lets a node wait until there are four, which are then compared. If there is no memory for it, all
// that wait are compared, and then the node.
fn queue_node<F: Family, D: Digest, B: Base<F, Digest = D>, H: Hasher<F, Digest = D>>(
    base: &B,
    hasher: &H,
    waiting: &mut Vec<Parent<F, D>>,
    node: Parent<F, D>,
) -> Option<Position<F>>
    ensures { let h = H.hashing hasher.now in let held = (B.contents base.now).node in
        (later : List (ℕ × D × D)) → Finds h held result (waiting.old.items ++ node ∷ later) (waiting.new.items ++ later) }
{
    if waiting.push(node).is_err() {
        let found = compare(base, hasher, waiting);
        waiting.clear();
        if found.is_some() {
            return found;
        }
        return compare_node(base, hasher, node);
    }
    if waiting.len() < NODES_TOGETHER {
        return None;
    }
    let found = compare(base, hasher, waiting);
    waiting.clear();
    found
}

// Compares the parent at `position`, which has height `height`, and counts it, if its children are
// held; it may wait.
fn compare_parent<F: Family, D: Digest, B: Base<F, Digest = D>, H: Hasher<F, Digest = D>>(
    base: &B,
    hasher: &H,
    position: Position<F>,
    height: u32,
    waiting: &mut Vec<Parent<F, D>>,
    count: &mut u64,
) -> Option<Position<F>>
    requires inner { HasInner F.rule F.MAX_LEAVES position height }
    requires fits { count.old < position }
    ensures found { let h = H.hashing hasher.now in let held = (B.contents base.now).node in (n : ℕ) → position < size F.rule n
        → Finds h held result (waiting.old.items ++ parents_from F.rule n held position) (waiting.new.items ++ parents_from F.rule n held (suc position)) }
    ensures fits { count.new ≤ position }
    ensures counted { let held = (B.contents base.now).node in (n : ℕ) → position < size F.rule n
        → count.new + length (parents_from F.rule n held (suc position)) ≡ count.old + length (parents_from F.rule n held position) }
{
    let Some(node) = held_parent(base, position, height) else {
        return None;
    };
    *count += 1;
    queue_node(base, hasher, waiting, node)
}

// Compares the parents that come with the leaf at location `leaf`, and counts those whose children
// are held; the last ones may wait.
fn compare_parents<F: Family, D: Digest, B: Base<F, Digest = D>, H: Hasher<F, Digest = D>>(
    base: &B,
    hasher: &H,
    leaf: Location<F>,
    waiting: &mut Vec<Parent<F, D>>,
    count: &mut u64,
) -> Option<Position<F>>
    requires below { leaf < F.MAX_LEAVES }
    requires fits { count.old ≤ size F.rule leaf }
    ensures found { let h = H.hashing hasher.now in let held = (B.contents base.now).node in (n : ℕ) → leaf < n
        → Finds h held result (waiting.old.items ++ parents_from F.rule n held (size F.rule leaf))
        (waiting.new.items ++ parents_from F.rule n held (size F.rule (suc leaf))) }
    ensures fits { count.new ≤ size F.rule (suc leaf) }
    ensures at_most { let held = (B.contents base.now).node in (n : ℕ) → leaf < n
        → count.new ≤ count.old + length (parents_from F.rule n held (size F.rule leaf)) }
    ensures counted { let held = (B.contents base.now).node in IfNone result ((n : ℕ) → leaf < n
        → count.new + length (parents_from F.rule n held (size F.rule (suc leaf))) ≡ count.old + length (parents_from F.rule n held (size F.rule leaf))) }
{
    let mut position = F::location_to_position(leaf);
    for height in F::parent_heights(leaf) {
        position += 1;
        let found = compare_parent(base, hasher, position, height, waiting, count);
        if found.is_some() {
            return found;
        }
    }
    None
}

// Returns the first damaged node, and how many nodes are held with their children up to where it was
// found.
fn search<F: Family, D: Digest, B: Base<F, Digest = D>, H: Hasher<F, Digest = D>>(
    alloc: Global,
    base: &B,
    hasher: &H,
) -> (Option<Position<F>>, u64)
    ensures sized { size F.rule (B.leaves base.now) ≡ (B.contents base.now).size }
    ensures found { let held = (B.contents base.now).node in
        result.0 ≡ first_wrong (H.hashing hasher.now) held (parents_from F.rule (B.leaves base.now) held (size F.rule (B.contents base.now).boundary)) }
    ensures at_most { let held = (B.contents base.now).node in
        result.1 ≤ length (parents_from F.rule (B.leaves base.now) held (size F.rule (B.contents base.now).boundary)) }
    ensures counted { let held = (B.contents base.now).node in
        IfNone result.0 (result.1 ≡ length (parents_from F.rule (B.leaves base.now) held (size F.rule (B.contents base.now).boundary))) }
{
    let mut waiting = Vec::new(alloc);
    let mut count = 0;
    let start = base.pruning_boundary().as_u64();
    let end = base.leaves().as_u64();
    for leaf in start..end {
        let found = compare_parents(base, hasher, Location::new(leaf), &mut waiting, &mut count);
        if found.is_some() {
            return (found, count);
        }
    }
    (compare(base, hasher, &waiting), count)
}

/// Returns the position of the first damaged node of a structure: the least position of a parent node
/// that is held with both its children and whose digest is not that of theirs; `None` if there is none.
///
/// That no other node is damaged is promised for a base that holds exactly the nodes that are kept at its
/// pruning boundary, as a structure in memory does.
///
/// Each parent node from the position of the pruning boundary on is hashed once, four at a time, up to
/// the first damaged one. The pinned nodes are not hashed, since their children are not held. For the
/// four nodes memory is requested; if that is refused, they are hashed one by one.
pub fn first_damaged<F: Family, D: Digest, B: Base<F, Digest = D>, H: Hasher<F, Digest = D>>(
    alloc: Global,
    base: &B,
    hasher: &H,
) -> Option<Position<F>>
    ensures damaged { let c = B.contents base.now in IfSome result (λ p. HoldsKept F.rule c
        → IsFirstDamaged (H.hashing hasher.now) F.rule (B.leaves base.now) c.node p) }
    ensures whole { let c = B.contents base.now in IfNone result (HoldsKept F.rule c
        → IsWhole (H.hashing hasher.now) F.rule (B.leaves base.now) c.node) }
{
    let (found, _) = search(alloc, base, hasher);
    found
}

/// Returns the position of the first damaged node as by [`first_damaged`], and sets the number of
/// digests in `work` to that of the parent nodes that were found with both their children: all from the
/// position of the pruning boundary on if no node is damaged, else at most as many.
pub fn first_damaged_counted<
    F: Family,
    D: Digest,
    B: Base<F, Digest = D>,
    H: Hasher<F, Digest = D>,
>(alloc: Global, base: &B, hasher: &H, work: &mut Work) -> Option<Position<F>>
    ensures damaged { let c = B.contents base.now in IfSome result (λ p. HoldsKept F.rule c
        → IsFirstDamaged (H.hashing hasher.now) F.rule (B.leaves base.now) c.node p) }
    ensures whole { let c = B.contents base.now in IfNone result (HoldsKept F.rule c
        → IsWhole (H.hashing hasher.now) F.rule (B.leaves base.now) c.node) }
    ensures work { let c = B.contents base.now in IfNone result (HoldsKept F.rule c
        → work.new.node_digests ≡ merged_from F.rule c.boundary (B.leaves base.now)) }
    ensures at_most { work.new.node_digests ≤ merged_from F.rule (B.contents base.now).boundary (B.leaves base.now) }
    ensures only { work.new.probes ≡ work.old.probes }
{
    let (found, count) = search(alloc, base, hasher);
    work.set_node_digests(count);
    found
}
