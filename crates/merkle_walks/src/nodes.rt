//! The search at nodes.
ghost use Rattle.std.specs.Prelude.{◌≡◌, ◌&&◌, List, Option, map, flat_map, option_map};
ghost use Rattle.std.specs.List.{AllByRecursion};
ghost use Rattle.merkle_base.specs.Hashing.{Hashing, IsOver};
ghost use Rattle.merkle_base.specs.Tree.{Tree, join};
ghost use Rattle.merkle_hasher.specs.Subtrees.{Denotes, AreNodes, subtree_of};
ghost use Rattle.merkle_root_theory.specs.Expression as theory;
ghost use Rattle.merkle_claim_theory.specs.FirstCollision.{or_else};
ghost use Rattle.merkle_claim_theory.specs.Order.{node_places};
ghost use Rattle.merkle_audit_theory.specs.Differences.{is_difference};
ghost use Rattle.merkle_audit_theory.specs.Searches.{looked_up};
ghost use Rattle.merkle_audit_theory.specs.Seen.{Sees};
ghost use Rattle.merkle_walk_theory.specs.Compared.{found_over};
ghost use Rattle.merkle_walks.specs.Hashed.{located};

use crate::collision::Collision;
use crate::place::{Argument, Place};
use merkle_base::family::Family;
use merkle_base::position::Position;
use merkle_digest::digest::Digest;
use merkle_hasher::subtree::Subtree;

/// What is hashed at nodes.
pub trait Hashes<F: Family, D: Digest> {
    // the digests of the children of a node, if they are hashed there
    ghost hashed: { Self → Tree → Option (D × D) };

    /// Returns the digests of the children of a node, if they are hashed there. Where nothing is
    /// hashed at a node, nothing is at those below it.
    ///
    /// Requires that both are nodes of the family's forest.
    fn pair(&self, left: &Subtree<F>, right: &Subtree<F>) -> Option<(D, D)>
        requires { (a : Tree) × (b : Tree) × Denotes F.rule F.MAX_LEAVES left.now a × Denotes F.rule F.MAX_LEAVES right.now b }
        ensures { (p : _) (a b : Tree) → Denotes F.rule F.MAX_LEAVES left.now a → Denotes F.rule F.MAX_LEAVES right.now b
            → result ≡ hashed self.now (join p a b) };
}

/// Whether two pairs of digests are one.
pub fn are_same<D: Digest>(one: &(D, D), other: &(D, D)) -> bool
    ensures { result ≡ (D.eq one.now.0 other.now.0 && D.eq one.now.1 other.now.1) }
{
    one.0 == other.0 && one.1 == other.1
}

/// Returns what is found first, or else what is found later.
pub fn first_of<F: Family, D: Digest>(
    first: Option<Collision<F, D>>,
    later: Option<Collision<F, D>>,
) -> Option<Collision<F, D>>
    ensures { option_map located result ≡ or_else (option_map located first) (option_map located later) }
{
    match first {
        Some(found) => Some(found),
        None => later,
    }
}

/// Returns the first node, from the one at `position` on, at which two different pairs are hashed: the
/// node itself, by the pair that is claimed there and the one that is listed, or else what is found
/// below its left child, or else what is found below its right one. Where nothing is listed at the
/// node, what is found below it is the first.
pub fn first_over<F: Family, D: Digest>(
    position: Position<F>,
    claimed: (D, D),
    listed: Option<(D, D)>,
    left: Option<Collision<F, D>>,
    right: Option<Collision<F, D>>,
) -> Option<Collision<F, D>>
    ensures { (h : Hashing D) → IsOver h D.bytes D.eq D.EMPTY
        → option_map located result ≡ found_over h position claimed listed (option_map located left) (option_map located right) }
{
    let Some(pair) = listed else {
        return first_of(left, right);
    };
    if !are_same(&claimed, &pair) {
        return Some(Collision {
            place: Place::Node(position),
            claimed: Argument::Pair(claimed.0, claimed.1),
            listed: Argument::Pair(pair.0, pair.1),
        });
    }
    first_of(left, right)
}

/// Returns the first node, from this one on, at which two different pairs are hashed: a node before
/// its children, the left child before the right one.
///
/// Requires that it is a node of the family's forest.
pub fn first_at<F: Family, D: Digest, A: Hashes<F, D>, B: Hashes<F, D>>(
    node: &Subtree<F>,
    claimed: &A,
    listed: &B,
) -> Option<Collision<F, D>>
    requires node { (t : Tree) × Denotes F.rule F.MAX_LEAVES node.now t }
    ensures { (h : Hashing D) (t : Tree) (f g : theory.Place → Option (theory.Input D)) → IsOver h D.bytes D.eq D.EMPTY
        → Denotes F.rule F.MAX_LEAVES node.now t → Sees (A.hashed claimed.now) f t → Sees (B.hashed listed.now) g t
        → option_map located result ≡ looked_up (is_difference h) (node_places t) f g }
{
    if node.height == 0 {
        return None;
    }
    let (left, right) = node.children();
    let Some(one) = claimed.pair(&left, &right) else {
        return None;
    };
    let Some(other) = listed.pair(&left, &right) else {
        return None;
    };
    if !are_same(&one, &other) {
        return Some(Collision {
            place: Place::Node(node.position),
            claimed: Argument::Pair(one.0, one.1),
            listed: Argument::Pair(other.0, other.1),
        });
    }
    match first_at(&left, claimed, listed) {
        Some(found) => Some(found),
        None => first_at(&right, claimed, listed),
    }
}

/// Returns the first node at which two different pairs are hashed, from the first of these nodes on:
/// it and all below it before the next one.
///
/// Requires that they are nodes of the family's forest.
pub fn first_below<F: Family, D: Digest, A: Hashes<F, D>, B: Hashes<F, D>>(
    peaks: &[Subtree<F>],
    claimed: &A,
    listed: &B,
) -> Option<Collision<F, D>>
    requires nodes { (ts : List Tree) × (peaks.now ≡ map subtree_of ts) × AreNodes F.rule F.MAX_LEAVES ts }
    ensures { (h : Hashing D) (ts : List Tree) (f g : theory.Place → Option (theory.Input D)) → IsOver h D.bytes D.eq D.EMPTY
        → peaks.now ≡ map subtree_of ts → AreNodes F.rule F.MAX_LEAVES ts
        → AllByRecursion (λ t. Sees (A.hashed claimed.now) f t) ts → AllByRecursion (λ t. Sees (B.hashed listed.now) g t) ts
        → option_map located result ≡ looked_up (is_difference h) (flat_map node_places ts) f g }
{
    let Some((peak, others)) = peaks.split_first() else {
        return None;
    };
    match first_at(peak, claimed, listed) {
        Some(found) => Some(found),
        None => first_below(others, claimed, listed),
    }
}
