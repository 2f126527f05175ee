//! The walk over the nodes that a check of scattered leaves has, in search of the first difference from a list.
ghost use Rattle.std.specs.Prelude.{◌≡◌, ◌++◌, List, OnOk, IfOk, map, option_map, slice_get};
ghost use Rattle.std.specs.Option.{unwrap_or};
ghost use Rattle.merkle_base.specs.Table.{digest_for};
ghost use Rattle.merkle_base.specs.Tree.{Tree};
ghost use Rattle.merkle_hasher.specs.Subtrees.{Denotes, AreNodes, subtree_of};
ghost use Rattle.merkle_root_theory.specs.Expression.{value};
ghost use Rattle.merkle_root_theory.specs.Plan.{tree_meets};
ghost use Rattle.merkle_scattered.specs.Searched.{IsFirstFrom};
ghost use Rattle.merkle_walk_theory.specs.Compared.{found_in, found_among};
ghost use Rattle.merkle_walks.specs.Chosen.{is_among, tree_given, digest_given, claims_given, ProofAscends};
ghost use Rattle.merkle_walks.specs.Hashed.{located};

use crate::collision::Collision;
use crate::nodes::{Hashes, first_of, first_over};
use merkle_base::family::Family;
use merkle_base::location::Location;
use merkle_base::position::Position;
use merkle_digest::digest::Digest;
use merkle_hasher::hasher::Hasher;
use merkle_hasher::subtree::Subtree;
use std::alloc::AllocError;

/// What a check of scattered leaves is given.
#[derive(Drop)]
pub struct LeafProof<'a, F, D> {
    /// The positions of the nodes that the proof has digests of, strictly ascending.
    pub positions: &'a [Position<F>],
    /// The digests, one for each position.
    pub digests: &'a [D],
    /// The locations of the leaves, strictly ascending.
    pub locations: &'a [Location<F>],
    /// The leaf digests, one for each location.
    pub leaves: &'a [D],
}

/// Returns the digest at an index, or the empty one.
pub(crate) fn digest_at<D: Digest>(digests: &[D], index: usize) -> D
    ensures { result ≡ unwrap_or (slice_get digests.now index) D.EMPTY }
{
    match digests.get(index).copied() {
        Some(digest) => digest,
        None => D::EMPTY,
    }
}

impl<F: Family, D: Digest> LeafProof<'_, F, D> {
    // Returns the digest that the proof has for a position, or the empty one.
    fn told(&self, position: Position<F>) -> D
        requires { ProofAscends self.now }
        ensures { result ≡ unwrap_or (digest_for self.now.positions.now self.now.digests.now position) D.EMPTY }
    {
        match self.positions.binary_search(&position) {
            Ok(index) => digest_at(self.digests, index),
            Err(_) => D::EMPTY,
        }
    }

    // Returns the digest of the leaf at a location, or the empty one.
    fn leaf(&self, location: Location<F>) -> D
        requires { ProofAscends self.now }
        ensures { result ≡ unwrap_or (digest_for self.now.locations.now self.now.leaves.now location) D.EMPTY }
    {
        match self.locations.binary_search(&location) {
            Ok(index) => digest_at(self.leaves, index),
            Err(_) => D::EMPTY,
        }
    }

    // Returns the index of the first leaf from a location on.
    fn first_from(&self, location: Location<F>) -> usize
        requires { ProofAscends self.now }
        ensures { IsFirstFrom self.now.locations.now location result }
    {
        match self.locations.binary_search(&location) {
            Ok(index) => index,
            Err(index) => index,
        }
    }

    // Whether one of the leaves lies under a node.
    fn meets(&self, node: &Subtree<F>) -> bool
        requires ascends { ProofAscends self.now }
        requires node { (t : Tree) × Denotes F.rule F.MAX_LEAVES node.now t }
        ensures { (t : Tree) → Denotes F.rule F.MAX_LEAVES node.now t → result ≡ tree_meets (is_among self.now.locations.now) t }
    {
        let index = self.first_from(node.first_leaf);
        match self.locations.get(index) {
            Some(location) => *location < node.leaf_end(),
            None => false,
        }
    }
}

// Returns the digest that a check has at a node, and the first node, from this one on, where what it
// hashes differs from what is listed. Each node is hashed once.
fn walk<F: Family, H: Hasher<F>, B: Hashes<F, H::Digest>>(
    hasher: &H,
    given: &LeafProof<'_, F, H::Digest>,
    listed: &B,
    node: &Subtree<F>,
) -> (H::Digest, Option<Collision<F, H::Digest>>)
    requires ascends { ProofAscends given.now }
    requires node { (t : Tree) × Denotes F.rule F.MAX_LEAVES node.now t }
    ensures digest { let h = H.hashing hasher.now in
        (t : Tree) → Denotes F.rule F.MAX_LEAVES node.now t → result.0 ≡ value h (tree_given h given.now t) }
    ensures found { let h = H.hashing hasher.now in
        (t : Tree) → Denotes F.rule F.MAX_LEAVES node.now t
        → option_map located result.1 ≡ found_in h (B.hashed listed.now) t (tree_given h given.now t) }
{
    if !given.meets(node) {
        return (given.told(node.position), None);
    }
    if node.height == 0 {
        return (given.leaf(node.first_leaf), None);
    }
    let (left, right) = node.children();
    let (one, before) = walk(hasher, given, listed, &left);
    let (other, after) = walk(hasher, given, listed, &right);
    let found = first_over(
        node.position,
        (one, other),
        listed.pair(&left, &right),
        before,
        after,
    );
    (hasher.node_digest(node.position, &one, &other), found)
}

/// Appends the digests that a check has at several nodes, and returns the first node, from these on,
/// where what it hashes differs from what is listed.
pub fn walk_all<F: Family, H: Hasher<F>, B: Hashes<F, H::Digest>>(
    hasher: &H,
    given: &LeafProof<'_, F, H::Digest>,
    listed: &B,
    nodes: &[Subtree<F>],
    digests: &mut Vec<H::Digest>,
) -> Result<Option<Collision<F, H::Digest>>, AllocError>
    requires ascends { ProofAscends given.now }
    requires nodes { (ts : List Tree) × (nodes.now ≡ map subtree_of ts) × AreNodes F.rule F.MAX_LEAVES ts }
    ensures digests { let h = H.hashing hasher.now in
        OnOk result ((ts : List Tree) → nodes.now ≡ map subtree_of ts → AreNodes F.rule F.MAX_LEAVES ts
        → digests.new.items ≡ digests.old.items ++ map (digest_given h given.now) ts) }
    ensures found { let h = H.hashing hasher.now in
        IfOk result (λ o. (ts : List Tree) → nodes.now ≡ map subtree_of ts → AreNodes F.rule F.MAX_LEAVES ts
        → option_map located o ≡ found_among h (B.hashed listed.now) (claims_given h given.now ts)) }
{
    let Some((node, others)) = nodes.split_first() else {
        return Ok(None);
    };
    let (digest, found) = walk(hasher, given, listed, node);
    digests.push(digest)?;
    let later = walk_all(hasher, given, listed, others, digests)?;
    Ok(first_of(found, later))
}
