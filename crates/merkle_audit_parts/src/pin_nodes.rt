//! What a check of a range with pins hashes at nodes, and the search there.
ghost use Rattle.std.specs.Prelude.{◌≡◌, ◌≤◌, ◌==◌, List, Option, IfOk, map, flat_map, option_map};
ghost use Rattle.std.specs.List.{AllByRecursion, position};
ghost use Rattle.merkle_base.specs.Hashing.{Hashing, IsOver};
ghost use Rattle.merkle_base.specs.Places.{peak_positions};
ghost use Rattle.merkle_base.specs.Tree.{Tree, join};
ghost use Rattle.merkle_hasher.specs.Subtrees.{Denotes, AreNodes, subtree_of};
ghost use Rattle.merkle_root_theory.specs.Expression as theory;
ghost use Rattle.merkle_claim_theory.specs.Order.{node_places};
ghost use Rattle.merkle_claim_theory.specs.Rebuilt.{rebuilt_node};
ghost use Rattle.merkle_audit_theory.specs.Differences.{is_difference};
ghost use Rattle.merkle_pins_theory.specs.PinnedNodes.{pinned_value, SeesDown};
ghost use Rattle.merkle_audit_theory.specs.Searches.{looked_up};
ghost use Rattle.merkle_audit_theory.specs.Seen.{Sees};
ghost use Rattle.merkle_walks.specs.Hashed.{located};
ghost use Rattle.merkle_audit_parts.specs.PinnedClaimed.{digest_given, pin_in, pinned_pair};

use merkle_core::digest::Digest;
use merkle_core::family::Family;
use merkle_core::hasher::Hasher;
use merkle_core::location::Location;
use merkle_core::position::Position;
use merkle_core::subtree::Subtree;
use merkle_core::verification::ProofStore;
use merkle_walks::collision::Collision;
use merkle_walks::nodes::{Hashes, are_same};
use merkle_walks::place::{Argument, Place};
use std::alloc::{AllocError, Global};

/// The digests of the nodes that a check of a range with pins rebuilds, computes or is given.
#[derive(Drop)]
pub struct PinnedNodes<F: Family, D: Digest> {
    pub(crate) start: Location<F>,
    pub(crate) end: Location<F>,
    // `None` for a check without elements, which has no nodes.
    pub(crate) store: Option<ProofStore<F, D>>,
    // Where the pins stand.
    pub(crate) positions: Vec<Position<F>>,
    pub(crate) pins: Vec<D>,
}

/// Returns the positions of the peaks of `leaves` leaves, oldest first.
pub(crate) fn pin_positions<F: Family>(
    alloc: Global,
    leaves: Location<F>,
) -> Result<Vec<Position<F>>, AllocError>
    requires { leaves ≤ F.MAX_LEAVES }
    ensures { IfOk result (λ v. v.items ≡ peak_positions F.rule leaves) }
{
    let mut positions = Vec::new(alloc);
    for position in F::nodes_to_pin(leaves) {
        positions.push(position)?;
    }
    Ok(positions)
}

impl<F: Family, D: Digest> PinnedNodes<F, D> {
    // Returns the digest of a node that the range check has.
    fn given(&self, position: Position<F>) -> D
        ensures { result ≡ digest_given D.EMPTY self.now position }
    {
        let Some(store) = &self.store else {
            return D::EMPTY;
        };
        match store.get_node(position) {
            Some(digest) => digest,
            None => D::EMPTY,
        }
    }

    // Returns the index of the pin at a node, if there is one.
    fn index(&self, node: Position<F>) -> Option<usize>
        ensures { result ≡ position (λ p. p == node) self.now.positions.items }
    {
        self.positions.iter().position(|pinned| *pinned == node)
    }

    // Returns the pin at a node, if there is one.
    fn pin(&self, node: Position<F>) -> Option<D>
        ensures { result ≡ pin_in self.now node }
    {
        match self.index(node) {
            Some(index) => self.pins.get(index).copied(),
            None => None,
        }
    }
}

// Computes the digest of a node from those that are pinned at it or below it. A leaf without a pin
// gets the empty digest.
fn rebuilt_digest<F: Family, H: Hasher<F>>(
    subtree: &Subtree<F>,
    hasher: &H,
    nodes: &PinnedNodes<F, H::Digest>,
) -> H::Digest
    requires node { (t : Tree) × Denotes F.rule F.MAX_LEAVES subtree.now t }
    ensures { (t : Tree) → Denotes F.rule F.MAX_LEAVES subtree.now t → result ≡ rebuilt_node (H.hashing hasher.now) (pin_in nodes.now) t }
{
    if let Some(digest) = nodes.pin(subtree.position) {
        return digest;
    }
    if subtree.height == 0 {
        return H::Digest::EMPTY;
    }
    let (left, right) = subtree.children();
    let first = rebuilt_digest(&left, hasher, nodes);
    let second = rebuilt_digest(&right, hasher, nodes);
    hasher.node_digest(subtree.position, &first, &second)
}

/// Returns the digest of a node: rebuilt from the pins if all its leaves lie before the range.
pub(crate) fn pinned_digest<F: Family, H: Hasher<F>>(
    node: &Subtree<F>,
    hasher: &H,
    nodes: &PinnedNodes<F, H::Digest>,
) -> H::Digest
    requires node { (t : Tree) × Denotes F.rule F.MAX_LEAVES node.now t }
    ensures { (t : Tree) → Denotes F.rule F.MAX_LEAVES node.now t
        → result ≡ pinned_value (H.hashing hasher.now) (pin_in nodes.now) nodes.now.start (digest_given H.Digest.EMPTY nodes.now) t }
{
    let end = node.leaf_end();
    if end <= nodes.start {
        return rebuilt_digest(node, hasher, nodes);
    }
    nodes.given(node.position)
}

// Returns the digests of the children of a node, if they are hashed there.
fn pinned_digests<F: Family, H: Hasher<F>>(
    node: &Subtree<F>,
    left: &Subtree<F>,
    right: &Subtree<F>,
    hasher: &H,
    nodes: &PinnedNodes<F, H::Digest>,
) -> Option<(H::Digest, H::Digest)>
    requires node { (p : _) × (a : Tree) × (b : Tree) × Denotes F.rule F.MAX_LEAVES node.now (join p a b)
        × Denotes F.rule F.MAX_LEAVES left.now a × Denotes F.rule F.MAX_LEAVES right.now b }
    ensures { (p : _) (a b : Tree) → Denotes F.rule F.MAX_LEAVES node.now (join p a b)
        → Denotes F.rule F.MAX_LEAVES left.now a → Denotes F.rule F.MAX_LEAVES right.now b
        → result ≡ pinned_pair (H.hashing hasher.now) H.Digest.EMPTY nodes.now (join p a b) }
{
    let end = node.leaf_end();
    if end <= nodes.start {
        if let Some(_) = nodes.pin(node.position) {
            return None;
        }
        let first = rebuilt_digest(left, hasher, nodes);
        let second = rebuilt_digest(right, hasher, nodes);
        return Some((first, second));
    }
    if node.first_leaf >= nodes.end {
        return None;
    }
    let first = pinned_digest(left, hasher, nodes);
    let second = pinned_digest(right, hasher, nodes);
    Some((first, second))
}

/// Returns the first node, from this one on, at which two different pairs are hashed: a node before
/// its children, the left child before the right one.
pub(crate) fn first_pinned_at<F: Family, H: Hasher<F>, B: Hashes<F, H::Digest>>(
    node: &Subtree<F>,
    hasher: &H,
    claimed: &PinnedNodes<F, H::Digest>,
    listed: &B,
) -> Option<Collision<F, H::Digest>>
    requires node { (t : Tree) × Denotes F.rule F.MAX_LEAVES node.now t }
    ensures { (h : Hashing H.Digest) (t : Tree) (f g : theory.Place → Option (theory.Input H.Digest)) → IsOver h H.Digest.bytes H.Digest.eq H.Digest.EMPTY
        → Denotes F.rule F.MAX_LEAVES node.now t → SeesDown (pinned_pair (H.hashing hasher.now) H.Digest.EMPTY claimed.now) f t
        → Sees (B.hashed listed.now) g t
        → option_map located result ≡ looked_up (is_difference h) (node_places t) f g }
{
    if node.height == 0 {
        return None;
    }
    let (left, right) = node.children();
    let Some(one) = pinned_digests(node, &left, &right, hasher, claimed) else {
        return None;
    };
    let Some(other) = listed.pair(&left, &right) else {
        return None;
    };
    if !are_same(&one, &other) {
        return Some(Collision {
            place: Place::Node(node.position),
            claimed: Argument::Pair(one.0, one.1),
            listed: Argument::Pair(other.0, other.1),
        });
    }
    match first_pinned_at(&left, hasher, claimed, listed) {
        Some(found) => Some(found),
        None => first_pinned_at(&right, hasher, claimed, listed),
    }
}

/// Returns the first node, from each of these on in turn, at which two different pairs are hashed.
///
/// Requires that they are nodes of the family's forest.
pub fn first_pinned_below<F: Family, H: Hasher<F>, B: Hashes<F, H::Digest>>(
    peaks: &[Subtree<F>],
    hasher: &H,
    claimed: &PinnedNodes<F, H::Digest>,
    listed: &B,
) -> Option<Collision<F, H::Digest>>
    requires nodes { (ts : List Tree) × (peaks.now ≡ map subtree_of ts) × AreNodes F.rule F.MAX_LEAVES ts }
    ensures { (h : Hashing H.Digest) (ts : List Tree) (f g : theory.Place → Option (theory.Input H.Digest))
        → IsOver h H.Digest.bytes H.Digest.eq H.Digest.EMPTY → peaks.now ≡ map subtree_of ts → AreNodes F.rule F.MAX_LEAVES ts
        → AllByRecursion (λ t. SeesDown (pinned_pair (H.hashing hasher.now) H.Digest.EMPTY claimed.now) f t) ts
        → AllByRecursion (λ t. Sees (B.hashed listed.now) g t) ts
        → option_map located result ≡ looked_up (is_difference h) (flat_map node_places ts) f g }
{
    let Some((peak, others)) = peaks.split_first() else {
        return None;
    };
    match first_pinned_at(peak, hasher, claimed, listed) {
        Some(found) => Some(found),
        None => first_pinned_below(others, hasher, claimed, listed),
    }
}
