//! The first difference between what is hashed for two equal roots of ranges, and the verdict on it.
ghost use Rattle.std.specs.Prelude.{◌≡◌, ◌≢◌, ◌↔◌, List, Option, Some, None, map, flat_map, option_map};
ghost use Rattle.std.specs.List.{AllByRecursion};
ghost use Rattle.merkle_base.specs.Hashing.{Hashing, IsOver};
ghost use Rattle.merkle_base.specs.Tree.{Tree};
ghost use Rattle.merkle_hasher.specs.Subtrees.{AreNodes, subtree_of};
ghost use Rattle.merkle_root_theory.specs.Expression as theory;
ghost use Rattle.merkle_claim_theory.specs.FirstCollision.{or_else};
ghost use Rattle.merkle_claim_theory.specs.Order.{node_places};
ghost use Rattle.merkle_audit_theory.specs.Differences.{is_difference, first_difference};
ghost use Rattle.merkle_audit_theory.specs.Searches.{looked_up};
ghost use Rattle.merkle_audit_theory.specs.Seen.{Sees};
ghost use Rattle.merkle_audit_parts.specs.Found.{collision_in};
ghost use Rattle.merkle_walks.specs.Hashed.{fold_at, located, roots_apart};

use crate::verdict::Verdict;
use merkle_core::digest::Digest;
use merkle_core::family::Family;
use merkle_core::subtree::Subtree;
use merkle_walks::collision::Collision;
use merkle_walks::nodes::{Hashes, first_below};
use merkle_walks::top::{Top, first_above};

/// Returns the first place where what is hashed for two equal roots differs. `peaks` are those of
/// the listed side.
///
/// Requires that they are nodes of the family's forest.
pub fn first_difference<F: Family, D: Digest, A: Hashes<F, D>, B: Hashes<F, D>>(
    claimed: Top<F, D>,
    claimed_nodes: &A,
    listed: Top<F, D>,
    listed_nodes: &B,
    peaks: &[Subtree<F>],
) -> Option<Collision<F, D>>
    requires nodes { (ts : List Tree) × (peaks.now ≡ map subtree_of ts) × AreNodes F.rule F.MAX_LEAVES ts }
    ensures apart { claimed.root.items ≢ listed.root.items → option_map located result ≡ Some (roots_apart claimed listed) }
    ensures same { (h : Hashing D) (ts : List Tree) (f g : theory.Place → Option (theory.Input D)) → IsOver h D.bytes D.eq D.EMPTY
        → claimed.root.items ≡ listed.root.items → peaks.now ≡ map subtree_of ts → AreNodes F.rule F.MAX_LEAVES ts
        → AllByRecursion (λ t. Sees (A.hashed claimed_nodes.now) f t) ts → AllByRecursion (λ t. Sees (B.hashed listed_nodes.now) g t) ts
        → option_map located result ≡ or_else (first_difference h (map fold_at claimed.folds.items) (map fold_at listed.folds.items))
        (looked_up (is_difference h) (flat_map node_places ts) f g) }
{
    match first_above(claimed, listed) {
        Some(found) => Some(found),
        None => first_below(peaks, claimed_nodes, listed_nodes),
    }
}

/// Returns what an audit of an accepted input says.
pub fn verdict<F: Family, D: Digest>(found: Option<Collision<F, D>>) -> Verdict<F, D>
    ensures accepted { result ≢ Verdict.Rejected }
    ensures honest { (result ≡ Verdict.Honest) ↔ (option_map located found ≡ None) }
    ensures collision { collision_in result ≡ option_map located found }
{
    match found {
        None => Verdict::Honest,
        Some(
            Collision {
                place,
                claimed,
                listed,
            },
        ) => Verdict::Collision {
            place,
            claimed,
            listed,
        },
    }
}
