//! Laws of structures whose digests follow from one another.
//!
//! Each function is empty. Its contract is a law of the definitions in `specs/`.
ghost use Rattle.std.specs.Prelude.{◌≡◌, ◌∷◌, [], ℕ, Some, None, slice_get};
ghost use Rattle.merkle_base.specs.Tree.{leaf, join};
ghost use Rattle.merkle_root_theory.specs.Expression.{Node, supplied, computed, value};
ghost use Rattle.merkle_batch_theory.specs.Rows.{xor, two};
ghost use Rattle.merkle_forest_theory.specs.Mmr.{mmr_merges};
ghost use Rattle.merkle_restore_theory.specs.Damage.{IsDamaged, IsFirstDamaged, IsWhole, HoldsChildren, merged_from, HeldNodesHaveChildren, DamageIsFromBoundary, AgreesIsWhole, FirstIsUnique};
ghost use Rattle.merkle_restore_theory.specs.OneStructure.{OneStructure};
ghost use Rattle.merkle_restore_theory.specs.HeldRoot.{held_tree, WholeAgrees};
ghost use Rattle.merkle_restore_theory.specs.DamageRows.{pinned, twice_damaged};

/// What a structure holds around a damaged node.
pub fn damage<D>()
    // Each node from the position of the boundary on has its children held.
    ensures children { HeldNodesHaveChildren D }

    // So a pin, whose children are not held, is never damaged.
    ensures from_boundary { DamageIsFromBoundary D }

    // The first damaged node is determined by what is held.
    ensures unique { FirstIsUnique D }
{}

/// What a structure without a damaged node is.
pub fn whole<D>()
    // A structure that agrees with a list is whole.
    ensures listed { AgreesIsWhole D }

    // A whole structure agrees with every list that has its root, or two inputs of the hasher collide.
    ensures by_root { WholeAgrees D }
{}

/// The definitions, computed on small cases.
pub fn worked_rows()
    // The node at position 2 over leaves of digest 1 and 3 has digest 0.
    ensures whole { IsWhole xor mmr_merges 2 two.node }
    ensures damaged { IsDamaged xor mmr_merges 2 (slice_get (1 ∷ 3 ∷ 5 ∷ [])) 2 }
    ensures first { IsFirstDamaged xor mmr_merges 2 (slice_get (1 ∷ 3 ∷ 5 ∷ [])) 2 }

    // Of two damaged nodes the one at position 5 is not the first.
    ensures second { IsDamaged xor mmr_merges 4 twice_damaged 5 }
    ensures not_first { IsFirstDamaged xor mmr_merges 4 twice_damaged 5 → ⊥ }

    // A pin, of which no child is held, is taken as it is; with the children held the digest follows
    // from theirs.
    ensures taken { held_tree xor pinned (join 2 (leaf 0 0) (leaf 1 1)) ≡ supplied 9 }
    ensures hashed { held_tree xor (slice_get (1 ∷ 3 ∷ 5 ∷ [])) (join 2 (leaf 0 0) (leaf 1 1)) ≡ computed (Node 2) (supplied 1) (supplied 3) }
    ensures value { value xor (held_tree xor (slice_get (1 ∷ 3 ∷ 5 ∷ [])) (join 2 (leaf 0 0) (leaf 1 1))) ≡ 0 }
    ensures no_leaf { held_tree xor pinned (leaf 0 0) ≡ supplied 0 }
    ensures children { HoldsChildren {D = ℕ} (slice_get (1 ∷ 3 ∷ 5 ∷ [])) (join 2 (leaf 0 0) (leaf 1 1)) }
    ensures no_children { HoldsChildren pinned (join 2 (leaf 0 0) (leaf 1 1)) → ⊥ }

    // Five leaves have the merged nodes at the positions 2, 5 and 6.
    ensures merged { merged_from mmr_merges 0 5 ≡ 3 }
    ensures merged_later { merged_from mmr_merges 2 5 ≡ 2 }
    ensures merged_none { merged_from mmr_merges 5 5 ≡ 0 }
{}

/// What is known of structures that agree with one list.
pub fn structures<D>()
    // Those that were pruned to one boundary are the same, so that all batches are applied to them alike.
    ensures one_structure { OneStructure D }
{}
