//! The definitions of the lines, computed on small cases.
ghost use Rattle.std.specs.Prelude.{◌≡◌, ◌^◌, [], ◌∷◌, ◌++◌, Some, None, List, ℕ, codes};
ghost use Rattle.std.specs.Fmt.{decimal};
ghost use Rattle.hex.specs.Hex.{encode_lower};
ghost use Rattle.merkle_base.specs.Scheme.{scheme_of};
ghost use Rattle.merkle_base.specs.declared.family.Bagging.TheVariants.{ForwardFold, BackwardFold};
ghost use Rattle.merkle_forest_theory.specs.Mmr.{mmr_merges};
ghost use Rattle.merkle_lines.specs.Answers.{added, collision_line, error_line, proof_bytes, prune_answer, root_bytes, updated};
ghost use Rattle.merkle_root_theory.specs.Expression as theory;
ghost use Rattle.merkle_lines.specs.Held.{edited};
ghost use Rattle.merkle_lines.specs.StructureState.{StructureState, all_committed, with_changes};
ghost use Rattle.merkle_core.specs.PlainHashings.{xor8_hashing};
ghost use Rattle.merkle_lines.specs.Transcript.{lines_of};

/// Lines and their answers, computed. The hash is the exclusive or.
pub fn worked_rows()
    ensures no_lines { lines_of [] ≡ [] }

    // The last line may lack the byte that ends it; an empty line counts only if it has that byte.
    ensures two_lines { lines_of (7 ∷ 10 ∷ 8 ∷ 9 ∷ []) ≡ (7 ∷ []) ∷ (8 ∷ 9 ∷ []) ∷ [] }
    ensures empty_line { lines_of (10 ∷ 7 ∷ 10 ∷ []) ≡ [] ∷ (7 ∷ []) ∷ [] }

    // The second element is the leaf at location 1.
    ensures adds { let g : StructureState = record { committed = (1 ∷ []) ∷ []; boundary = 0; pending = None } in
        added (scheme_of xor8_hashing ForwardFold mmr_merges (2 ^ 62) 0) g (2 ∷ [])
        ≡ (with_changes g (record { elements = (1 ∷ []) ∷ (2 ∷ []) ∷ []; updated = []; boundary = 0 }), codes "ok " ++ decimal 1) }

    // A committed element that is replaced is recorded as updated; one that was added since is not,
    // and past the last one there is no element.
    ensures updates { let g : StructureState = record { committed = (1 ∷ []) ∷ []; boundary = 0; pending = None } in
        updated g 0 (9 ∷ []) ≡ (with_changes g (record { elements = (9 ∷ []) ∷ []; updated = 0 ∷ []; boundary = 0 }), codes "ok") }
    ensures updates_added { let g : StructureState = record {
      committed = (1 ∷ []) ∷ [];
      boundary = 1;
      pending = Some (record { elements = (1 ∷ []) ∷ (2 ∷ []) ∷ []; updated = []; boundary = 1 });
    } in
        updated g 1 (9 ∷ []) ≡ (with_changes g (record { elements = (1 ∷ []) ∷ (9 ∷ []) ∷ []; updated = []; boundary = 1 }), codes "ok") }
    ensures updates_past { let g : StructureState = record { committed = (1 ∷ []) ∷ []; boundary = 0; pending = None } in
        updated g 1 (9 ∷ []) ≡ (g, error_line (codes "LeafOutOfBounds")) }
    ensures updates_pruned { let g : StructureState = record { committed = (1 ∷ []) ∷ []; boundary = 1; pending = None } in
        updated g 0 (9 ∷ []) ≡ (g, error_line (codes "ElementPruned")) }

    // The elements with the changes are committed; the boundary is unchanged.
    ensures commits { all_committed (record {
      committed = (1 ∷ []) ∷ [];
      boundary = 1;
      pending = Some (record { elements = (1 ∷ []) ∷ (2 ∷ []) ∷ []; updated = []; boundary = 0 });
    })
        ≡ record { committed = (1 ∷ []) ∷ (2 ∷ []) ∷ []; boundary = 1; pending = None } }

    // Edits of leaf digests: the first is changed, and one is added.
    ensures edits { edited {D = ℕ} (1 ∷ 2 ∷ []) ((0, 9) ∷ (2, 8) ∷ []) ≡ 9 ∷ 2 ∷ 8 ∷ [] }

    // Pruning returns the bounds; pruning to an earlier location changes nothing.
    ensures prunes { let g : StructureState = record { committed = (1 ∷ []) ∷ (2 ∷ []) ∷ []; boundary = 1; pending = None } in
        prune_answer g 2 ≡ (record { committed = (1 ∷ []) ∷ (2 ∷ []) ∷ []; boundary = 2; pending = None }, codes "ok " ++ decimal 2 ++ codes " " ++ decimal 2) }
    ensures prunes_back { let g : StructureState = record { committed = (1 ∷ []) ∷ (2 ∷ []) ∷ []; boundary = 1; pending = None } in
        prune_answer g 0 ≡ (g, codes "ok " ++ decimal 1 ++ codes " " ++ decimal 2) }

    // The bytes of the roots of the elements 1, 2 and 4, and of the proof of the first of them.
    ensures root_forward { let g : StructureState = record { committed = (1 ∷ []) ∷ (2 ∷ []) ∷ (4 ∷ []) ∷ []; boundary = 0; pending = None } in
        root_bytes (scheme_of xor8_hashing ForwardFold mmr_merges (2 ^ 62) 0) g 0 ≡ 4 ∷ [] }
    ensures root_backward { let g : StructureState = record { committed = (1 ∷ []) ∷ (2 ∷ []) ∷ (4 ∷ []) ∷ []; boundary = 0; pending = None } in
        root_bytes (scheme_of xor8_hashing BackwardFold mmr_merges (2 ^ 62) 0) g 0 ≡ 5 ∷ [] }
    ensures proof { let g : StructureState = record { committed = (1 ∷ []) ∷ (2 ∷ []) ∷ (4 ∷ []) ∷ []; boundary = 0; pending = None } in
        proof_bytes (scheme_of xor8_hashing ForwardFold mmr_merges (2 ^ 62) 0) g 0 1 0 ≡ 3 ∷ 0 ∷ 2 ∷ 7 ∷ 3 ∷ [] }

    // A node with the digests 2 and 0 of its children in place of 1 and 3, and a fold of 4 and 3 in place of 0 and 7.
    ensures collides_at_a_node { collision_line (λ d. d ∷ []) (record { place = theory.Node 2; claimed = theory.Pair 2 0; listed = theory.Pair 1 3 })
        ≡ codes "collision node " ++ decimal 2 ++ codes " " ++ encode_lower (0 ∷ 0 ∷ 0 ∷ 0 ∷ 0 ∷ 0 ∷ 0 ∷ 2 ∷ 2 ∷ 0 ∷ [])
        ++ codes " " ++ encode_lower (0 ∷ 0 ∷ 0 ∷ 0 ∷ 0 ∷ 0 ∷ 0 ∷ 2 ∷ 1 ∷ 3 ∷ []) }
    ensures collides_at_a_fold { collision_line (λ d. d ∷ []) (record { place = theory.PrefixFold 1; claimed = theory.Pair 4 3; listed = theory.Pair 0 7 })
        ≡ codes "collision prefix " ++ decimal 1 ++ codes " " ++ encode_lower (4 ∷ 3 ∷ []) ++ codes " " ++ encode_lower (0 ∷ 7 ∷ []) }
{}
