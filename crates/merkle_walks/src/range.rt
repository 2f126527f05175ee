//! The walk over the nodes that a check of a range has, with pins or without, in search of the first difference from a list.
ghost use Rattle.std.specs.Prelude.{◌≡◌, ◌-◌, ◌<◌, ◌≤◌, ◌++◌, not, List, OnOk, IfOk, length, map, drop, get_or, option_map};
ghost use Rattle.std.specs.List.{flat_map};
ghost use Rattle.merkle_base.specs.Tree.{Tree};
ghost use Rattle.merkle_hasher.specs.Subtrees.{Denotes, AreNodes, subtree_of};
ghost use Rattle.merkle_root_theory.specs.Check.{in_range};
ghost use Rattle.merkle_root_theory.specs.Expression.{value};
ghost use Rattle.merkle_root_theory.specs.Plan.{siblings, tree_meets};
ghost use Rattle.merkle_root_theory.specs.Walk.{leaf_from};
ghost use Rattle.merkle_claim_theory.specs.PinnedClaim.{pin_tree};
ghost use Rattle.merkle_walk_theory.specs.Compared.{found_in, found_among};
ghost use Rattle.merkle_walks.specs.Hashed.{located};
ghost use Rattle.merkle_walks.specs.Ranged.{pin_in, outside_given, tree_given, trees_given};

use crate::collision::Collision;
use crate::nodes::{Hashes, first_of, first_over};
use crate::scattered::digest_at;
use merkle_base::family::Family;
use merkle_base::location::Location;
use merkle_base::position::Position;
use merkle_digest::digest::Digest;
use merkle_hasher::hasher::Hasher;
use merkle_hasher::subtree::Subtree;
use merkle_reconstruction::known::find_digest;
use std::alloc::AllocError;

/// Pinned digests with their positions.
#[derive(Drop)]
pub struct Pins<'a, F, D> {
    /// The positions of the peaks over the leaves before a range, oldest first.
    pub positions: Vec<Position<F>>,
    /// The digests that are pinned there.
    pub digests: &'a [D],
}

impl<F: Family, D: Digest> Pins<'_, F, D> {
    // Returns the digest that is pinned at a position, if any.
    fn get(&self, position: Position<F>) -> Option<D>
        ensures { result ≡ pin_in self.now position }
    {
        find_digest(&self.positions, self.digests, position)
    }
}

/// What a check of a range is given, but for the digests of the proof.
#[derive(Drop)]
pub struct GivenRange<'a, F, D> {
    /// The location of the first leaf.
    pub start: Location<F>,
    /// The location after the last leaf.
    pub end: Location<F>,
    /// The digests of the leaves in the range.
    pub leaves: &'a [D],
    /// The pins, if the check is one with pins.
    pub pins: Option<Pins<'a, F, D>>,
}

impl<F: Family, D: Digest> GivenRange<'_, F, D> {
    // Whether none of the leaves in the range lies under a node.
    fn is_outside(&self, node: &Subtree<F>) -> bool
        requires node { (t : Tree) × Denotes F.rule F.MAX_LEAVES node.now t }
        requires nonempty { self.now.start < self.now.end }
        ensures { (t : Tree) → Denotes F.rule F.MAX_LEAVES node.now t → result ≡ not (tree_meets (in_range self.now.start self.now.end) t) }
    {
        node.leaf_end() <= self.start || node.first_leaf >= self.end
    }

    // Returns the digest of the leaf at a location from the first one on, or the empty digest.
    fn leaf(&self, location: Location<F>) -> D
        requires { self.now.start ≤ location }
        ensures { result ≡ get_or self.now.leaves.now (location - self.now.start) D.EMPTY }
    {
        let index = location - self.start;
        digest_at(self.leaves, index.as_u64() as usize)
    }
}

// Returns the digest that is rebuilt of a node from the pins, and the first node, from this one on, where
// what is hashed for it differs from what is listed. A leaf without a pin has the empty digest.
fn walk_pins<F: Family, H: Hasher<F>, B: Hashes<F, H::Digest>>(
    hasher: &H,
    pins: &Pins<'_, F, H::Digest>,
    listed: &B,
    node: &Subtree<F>,
) -> (H::Digest, Option<Collision<F, H::Digest>>)
    requires node { (t : Tree) × Denotes F.rule F.MAX_LEAVES node.now t }
    ensures digest { let h = H.hashing hasher.now in
        (t : Tree) → Denotes F.rule F.MAX_LEAVES node.now t → result.0 ≡ value h (pin_tree h (pin_in pins.now) t) }
    ensures found { let h = H.hashing hasher.now in (t : Tree) → Denotes F.rule F.MAX_LEAVES node.now t
        → option_map located result.1 ≡ found_in h (B.hashed listed.now) t (pin_tree h (pin_in pins.now) t) }
{
    if let Some(digest) = pins.get(node.position) {
        return (digest, None);
    }
    if node.height == 0 {
        return (H::Digest::EMPTY, None);
    }
    let (left, right) = node.children();
    let (one, before) = walk_pins(hasher, pins, listed, &left);
    let (other, after) = walk_pins(hasher, pins, listed, &right);
    let found = first_over(
        node.position,
        (one, other),
        listed.pair(&left, &right),
        before,
        after,
    );
    (hasher.node_digest(node.position, &one, &other), found)
}

/// Appends the digests that are rebuilt of nodes from the pins, and returns the first node, from these on, where
/// what is hashed for them differs from what is listed.
///
/// # Errors
///
/// - `AllocError` if a memory request is refused
pub fn walk_all_pins<F: Family, H: Hasher<F>, B: Hashes<F, H::Digest>>(
    hasher: &H,
    pins: &Pins<'_, F, H::Digest>,
    listed: &B,
    nodes: &[Subtree<F>],
    digests: &mut Vec<H::Digest>,
) -> Result<Option<Collision<F, H::Digest>>, AllocError>
    requires nodes { (ts : List Tree) × (nodes.now ≡ map subtree_of ts) × AreNodes F.rule F.MAX_LEAVES ts }
    ensures digests { let h = H.hashing hasher.now in
        OnOk result ((ts : List Tree) → nodes.now ≡ map subtree_of ts → AreNodes F.rule F.MAX_LEAVES ts
        → digests.new.items ≡ digests.old.items ++ map (λ t. value h (pin_tree h (pin_in pins.now) t)) ts) }
    ensures found { let h = H.hashing hasher.now in
        IfOk result (λ o. (ts : List Tree) → nodes.now ≡ map subtree_of ts → AreNodes F.rule F.MAX_LEAVES ts
        → option_map located o ≡ found_among h (B.hashed listed.now) (map (λ t. (t, pin_tree h (pin_in pins.now) t)) ts)) }
{
    let Some((node, others)) = nodes.split_first() else {
        return Ok(None);
    };
    let (digest, found) = walk_pins(hasher, pins, listed, node);
    digests.push(digest)?;
    let later = walk_all_pins(hasher, pins, listed, others, digests)?;
    Ok(first_of(found, later))
}

// Returns the digest that a check has at a node outside the range, of which the proof has a digest, and the
// first node, from this one on, where what it hashes differs from what is listed. Before the range, a check with
// pins rebuilds the node.
fn walk_outside<F: Family, H: Hasher<F>, B: Hashes<F, H::Digest>>(
    hasher: &H,
    given: &GivenRange<'_, F, H::Digest>,
    listed: &B,
    node: &Subtree<F>,
    digest: H::Digest,
) -> (H::Digest, Option<Collision<F, H::Digest>>)
    requires node { (t : Tree) × Denotes F.rule F.MAX_LEAVES node.now t }
    ensures digest { let h = H.hashing hasher.now in
        (t : Tree) → Denotes F.rule F.MAX_LEAVES node.now t → result.0 ≡ value h (outside_given h given.now t digest) }
    ensures found { let h = H.hashing hasher.now in (t : Tree) → Denotes F.rule F.MAX_LEAVES node.now t
        → option_map located result.1 ≡ found_in h (B.hashed listed.now) t (outside_given h given.now t digest) }
{
    let Some(pins) = &given.pins else {
        return (digest, None);
    };
    if node.first_leaf >= given.start {
        return (digest, None);
    }
    walk_pins(hasher, pins, listed, node)
}

// Returns the digest that a check has at a node, and the first node, from this one on, where what it hashes
// differs from what is listed. `rest` are the digests of the maximal nodes outside the range, which are
// consumed in order. Each node is hashed once.
fn walk<F: Family, H: Hasher<F>, B: Hashes<F, H::Digest>>(
    hasher: &H,
    given: &GivenRange<'_, F, H::Digest>,
    listed: &B,
    node: &Subtree<F>,
    rest: &mut &[H::Digest],
) -> (H::Digest, Option<Collision<F, H::Digest>>)
    requires node { (t : Tree) × Denotes F.rule F.MAX_LEAVES node.now t }
    requires nonempty { given.now.start < given.now.end }
    ensures digest { let h = H.hashing hasher.now in
        (t : Tree) → Denotes F.rule F.MAX_LEAVES node.now t → result.0 ≡ value h (tree_given h given.now t rest.old.now) }
    ensures found { let h = H.hashing hasher.now in (t : Tree) → Denotes F.rule F.MAX_LEAVES node.now t
        → option_map located result.1 ≡ found_in h (B.hashed listed.now) t (tree_given h given.now t rest.old.now) }
    ensures left { (t : Tree) → Denotes F.rule F.MAX_LEAVES node.now t
        → rest.new.now ≡ drop (length (siblings (in_range given.now.start given.now.end) t)) rest.old.now }
{
    if given.is_outside(node) {
        let Some((first, others)) = rest.split_first() else {
            return walk_outside(hasher, given, listed, node, H::Digest::EMPTY);
        };
        *rest = others;
        return walk_outside(hasher, given, listed, node, *first);
    }
    if node.height == 0 {
        return (given.leaf(node.first_leaf), None);
    }
    let (left, right) = node.children();
    let (one, before) = walk(hasher, given, listed, &left, rest);
    let (other, after) = walk(hasher, given, listed, &right, rest);
    let found = first_over(
        node.position,
        (one, other),
        listed.pair(&left, &right),
        before,
        after,
    );
    (hasher.node_digest(node.position, &one, &other), found)
}

/// Appends the digests that a check has at several nodes, and returns the first node, from these on, where what it
/// hashes differs from what is listed. `rest` are the digests of the maximal nodes outside the range, which are
/// consumed in order.
///
/// # Errors
///
/// - `AllocError` if a memory request is refused
pub fn walk_all<F: Family, H: Hasher<F>, B: Hashes<F, H::Digest>>(
    hasher: &H,
    given: &GivenRange<'_, F, H::Digest>,
    listed: &B,
    nodes: &[Subtree<F>],
    rest: &mut &[H::Digest],
    digests: &mut Vec<H::Digest>,
) -> Result<Option<Collision<F, H::Digest>>, AllocError>
    requires nodes { (ts : List Tree) × (nodes.now ≡ map subtree_of ts) × AreNodes F.rule F.MAX_LEAVES ts }
    requires nonempty { given.now.start < given.now.end }
    ensures digests { let h = H.hashing hasher.now in
        OnOk result ((ts : List Tree) → nodes.now ≡ map subtree_of ts → AreNodes F.rule F.MAX_LEAVES ts
        → digests.new.items ≡ digests.old.items ++ map (λ c. value h c.1) (trees_given h given.now ts rest.old.now)) }
    ensures found { let h = H.hashing hasher.now in
        IfOk result (λ o. (ts : List Tree) → nodes.now ≡ map subtree_of ts → AreNodes F.rule F.MAX_LEAVES ts
        → option_map located o ≡ found_among h (B.hashed listed.now) (trees_given h given.now ts rest.old.now)) }
{
    let Some((node, others)) = nodes.split_first() else {
        return Ok(None);
    };
    let (digest, found) = walk(hasher, given, listed, node, rest);
    digests.push(digest)?;
    let later = walk_all(hasher, given, listed, others, rest, digests)?;
    Ok(first_of(found, later))
}
